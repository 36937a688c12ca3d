//! Printing a certificate.
ghost use Rattle.std.specs.Prelude.{◌≡◌, ◌++◌, map, IfOk, OnOk};
ghost use Rattle.std.specs.Fmt.{signed_decimal};
ghost use Rattle.std.specs.List.{All};
ghost use Rattle.cgm_atom.specs.Ranges.{IsPrintable};
ghost use Rattle.cgm_atom.specs.AtomWords.{atom_word, spaced};
ghost use Rattle.cgm_cert.specs.Fault.{IsTextOf};
ghost use Rattle.cgm_cert.specs.Spelling.{hint_word, entry_line};

use crate::numbers::{push_number, push_value};
use crate::words::{push_atom, push_hint};
use cgm_atom::{Atom, Entry, Hint};
use cgm_base::OutOfMemory;
use std::alloc::Global;

/// Adds each value, after a space.
fn push_values(out: &mut Vec<u8>, values: &[i64]) -> Result<(), OutOfMemory>
    ensures { OnOk result (out.new.items ≡ out.old.items ++ spaced (map signed_decimal
        values.now)) }
{
    for value in values {
        out.push(b' ')?;
        push_value(out, *value)?;
    }
    Ok(())
}

/// Adds each atom, after a space.
fn push_atoms(out: &mut Vec<u8>, atoms: &[Atom]) -> Result<(), OutOfMemory>
    ensures { OnOk result (out.new.items ≡ out.old.items ++ spaced (map atom_word atoms.now)) }
{
    for atom in atoms {
        out.push(b' ')?;
        push_atom(out, *atom)?;
    }
    Ok(())
}

/// Adds each hint, after a space.
fn push_hints(out: &mut Vec<u8>, hints: &[Hint]) -> Result<(), OutOfMemory>
    ensures { OnOk result (out.new.items ≡ out.old.items ++ spaced (map hint_word hints.now)) }
{
    for hint in hints {
        out.push(b' ')?;
        push_hint(out, *hint)?;
    }
    Ok(())
}

/// Adds the line of an entry, without a line feed.
fn push_entry(out: &mut Vec<u8>, entry: &Entry) -> Result<(), OutOfMemory>
    ensures { OnOk result (out.new.items ≡ out.old.items ++ entry_line entry.now) }
{
    match entry {
        Entry::Best { by, values } => {
            out.extend_from_slice(b"best ")?;
            push_number(out, *by as u64)?;
            push_values(out, values.as_slice())
        }
        Entry::Lemma {
            by,
            clause,
            hints,
            bound,
        } => {
            out.extend_from_slice(b"lemma ")?;
            push_number(out, *by as u64)?;
            out.extend_from_slice(b" ")?;
            push_number(out, *bound)?;
            push_atoms(out, clause.atoms.as_slice())?;
            out.extend_from_slice(b" :")?;
            push_hints(out, hints.as_slice())
        }
    }
}

/// Prints entries as a certificate. Each is in the ranges of a certificate: a worker is at most 15,
/// a value at most 10^15 and an atom's number at most 2·10^15 in size, and no hint is `Own`.
pub fn print_cert(alloc: Global, entries: &[Entry]) -> Result<Vec<u8>, OutOfMemory>
    requires { All IsPrintable entries.now }
    ensures { IfOk result (λ out. IsTextOf out.items entries.now) }
{
    let mut out = Vec::from_slice(alloc, b"cgm-cert 1\n")?;
    for entry in entries {
        push_entry(&mut out, entry)?;
        out.push(b'\n')?;
    }
    Ok(out)
}
