//! Content lines: the bytes that they spell together.
ghost use Rattle.std.specs.Prelude.{◌≡◌, ℕ, List, ◌++◌, ◌==◌, length, take_while, reverse, map, IfOk, IfErr, OnOk, IfSome, None, Some};
ghost use Rattle.cgm_transcripts.specs.Content.{content_bytes, is_open as ends_open, line_bytes, unescaped};
ghost use Rattle.cgm_transcripts.specs.Flaws.{OnForm};

use crate::directive::Line;
use crate::escapes::unescape;
use crate::flaw::{Fault, Flaw};
use std::alloc::Global;

/// The bytes of content lines. Each has its line feed, unless a lone backslash takes away the last
/// one's.
pub(crate) fn content_of(alloc: Global, lines: &[Line<'_>]) -> Result<Vec<u8>, Flaw>
    ensures bytes { IfOk result (λ bytes. content_bytes (map (λ line. line.bytes.now) lines.now)
        ≡ Some bytes.items) }
    ensures flaw { IfErr result (OnForm (content_bytes (map (λ line. line.bytes.now) lines.now)
        ≡ None)) }
{
    let mut bytes = Vec::new(alloc);
    for at in 0..lines.len() {
        let line = lines[at];
        match add_line(alloc, &mut bytes, line, at + 1 == lines.len()) {
            Ok(()) => {}
            Err(flaw) => return Err(flaw),
        }
    }
    Ok(bytes)
}

/// Adds the bytes of a line.
fn add_line(alloc: Global, bytes: &mut Vec<u8>, line: Line<'_>, is_last: bool) -> Result<(), Flaw>
    ensures bytes { OnOk result ((more : List ℕ)
        × ((line_bytes line.entry.bytes.now is_last ≡ Some more)
        × (bytes.new.items ≡ bytes.old.items ++ more))) }
    ensures flaw { IfErr result (OnForm (line_bytes line.entry.bytes.now is_last ≡ None)) }
{
    if !is_open(line.bytes) {
        add_spelled(alloc, bytes, line.number, line.bytes)?;
        bytes.push(b'\n')?;
        return Ok(());
    }
    if !is_last {
        return Err(Flaw::Form {
            line: line.number,
            fault: Fault::OpenLine,
        });
    }
    let (front, _) = line.bytes.split_at(line.bytes.len() - 1);
    add_spelled(alloc, bytes, line.number, front)
}

/// Whether the line ends in a backslash that belongs to no escape: in an odd number of backslashes.
fn is_open(line: &[u8]) -> bool
    ensures { result ≡ ends_open line.now }
{
    backslashes_at_end(line) % 2 == 1
}

/// How many backslashes the line ends in.
fn backslashes_at_end(line: &[u8]) -> usize
    ensures { result ≡ length (take_while (λ byte. byte == 92) (reverse line.now)) }
{
    line.iter().rev().take_while(|byte| **byte == b'\\').count()
}

/// Adds the bytes that are spelled.
fn add_spelled(alloc: Global, bytes: &mut Vec<u8>, line: u64, spelled: &[u8]) -> Result<(), Flaw>
    ensures bytes { OnOk result ((more : List ℕ) × ((unescaped spelled.now ≡ Some more)
        × (bytes.new.items ≡ bytes.old.items ++ more))) }
    ensures flaw { IfErr result (OnForm (unescaped spelled.now ≡ None)) }
{
    match unescape(alloc, spelled)? {
        Some(more) => {
            bytes.extend_from_slice(more.as_slice())?;
            Ok(())
        }
        None => Err(Flaw::Form {
            line,
            fault: Fault::Escape,
        }),
    }
}
