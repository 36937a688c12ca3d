//! Reading a certificate.
ghost use Rattle.std.specs.Prelude.{◌≡◌, ◌++◌, ◌∷◌, [], ◌<◌, length, MatchOption, IfOk, IfErr, IfSome, IfNone};
ghost use Rattle.std.specs.List.{All};
ghost use Rattle.cgm_atom.specs.declared.entries.Entry.{Entry};
ghost use Rattle.cgm_cert.specs.declared.stop.CertStop.TheVariants.{Bad};
ghost use Rattle.cgm_cert.specs.Fault.{IsLineOf, IsTextOf, HasFault, IsNotRead, IsStopAfter};
ghost use Rattle.cgm_atom.specs.Ranges.{IsPrintable};
ghost use Rattle.cgm_cert.specs.Spelling.{lines, lines_of};

use crate::cuts::{cut, is};
use crate::entry_reader::entry_of;
use crate::stop::{CertKind, CertStop};
use cgm_atom::Entry;
use cgm_base::OutOfMemory;
use std::alloc::Global;

/// Takes the first line off a text, without its line feed; none where the text has no line feed.
fn split_line(text: &[u8]) -> Option<(&[u8], &[u8])>
    ensures { MatchOption result (lines text.now ≡ text.now ∷ []) (λ parts. (lines text.now
        ≡ parts.0.now ∷ lines parts.1.now) × (text.now ≡ parts.0.now ++ 10 ∷ parts.1.now)
        × (length parts.1.now < length text.now)) }
{
    cut(text, b'\n')
}

/// The entry that a line spells.
fn entry_of_line(alloc: Global, line: &[u8]) -> Result<Option<Entry>, OutOfMemory>
    ensures found { IfOk result (λ r. IfSome r (IsLineOf line.now)) }
    ensures none { IfOk result (λ r. IfNone r ((e : Entry) → ¬ IsLineOf line.now e)) }
{
    entry_of(alloc, line)
}

/// Reads the entries of the lines after the header.
fn read_entries(alloc: Global, text: &[u8]) -> Result<Vec<Entry>, CertStop>
    ensures read { IfOk result (λ entries. (text.now ≡ lines_of entries.items)
        × All IsPrintable entries.items) }
    ensures faulty { IfErr result (IsStopAfter (lines text.now)) }
{
    let mut entries = Vec::new(alloc);
    let mut rest = text;
    let mut number = 2;
    while let Some((line, after)) = split_line(rest) {
        match entry_of_line(alloc, line) {
            Err(_) => return Err(CertStop::Memory),
            Ok(None) => return Err(CertStop::Bad {
                line: number,
                kind: CertKind::Entry,
            }),
            Ok(Some(entry)) => match entries.push(entry) {
                Err(_) => return Err(CertStop::Memory),
                Ok(()) => {}
            },
        }
        rest = after;
        number += 1;
    }
    if rest.is_empty() {
        Ok(entries)
    } else {
        Err(CertStop::Bad {
            line: number,
            kind: CertKind::Unfinished,
        })
    }
}

/// What is wrong with line 1 of a text without a line feed.
fn fault_without_feed(text: &[u8]) -> CertKind
    requires { lines text.now ≡ text.now ∷ [] }
    ensures { HasFault text.now 1 result }
{
    if text.is_empty() {
        CertKind::Header
    } else {
        CertKind::Unfinished
    }
}

/// The fault of line 1 that is of this kind.
fn fault_of_first(kind: CertKind) -> CertStop
    ensures { result ≡ Bad 1 kind }
{
    CertStop::Bad { line: 1, kind }
}

/// Reads a certificate: its entries, or the first faulty line. The text is faulty exactly where
/// it is that of no entries that can be printed. What is wrong with line 1 is told without memory.
pub fn read_cert(alloc: Global, bytes: &[u8]) -> Result<Vec<Entry>, CertStop>
    ensures read { IfOk result (λ entries. IsTextOf bytes.now entries.items) }
    ensures faulty { IfErr result (IsNotRead bytes.now) }
{
    match split_line(bytes) {
        None => Err(fault_of_first(fault_without_feed(bytes))),
        Some((first, rest)) => {
            if is(first, "cgm-cert 1") {
                read_entries(alloc, rest)
            } else {
                Err(fault_of_first(CertKind::Header))
            }
        }
    }
}
