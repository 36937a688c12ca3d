//! The words of values, atoms and hints.
ghost use Rattle.std.specs.Prelude.{◌≡◌, ◌≢◌, ◌∷◌, ◌++◌, ℤ, decimal, IfSome, IfNone, OnOk};
ghost use Rattle.std.specs.Fmt.{signed_decimal};
ghost use Rattle.cgm_atom.specs.Limits.{IsBound};
ghost use Rattle.cgm_atom.specs.declared.constraints.Atom.{Atom};
ghost use Rattle.cgm_atom.specs.declared.entries.Hint.{Hint};
ghost use Rattle.cgm_atom.specs.Ranges.{IsAtomInRange};
ghost use Rattle.cgm_atom.specs.AtomWords.{atom_word};
ghost use Rattle.cgm_cert.specs.Printable.{IsHintPrintable};
ghost use Rattle.cgm_cert.specs.Spelling.{hint_word};

use crate::cuts::cut;
use crate::numbers::{number_of, number_within, push_number, push_value, value_within};
use cgm_atom::{Atom, Hint, MAX_ATOM_NUMBER, MAX_BOUND, Var};
use cgm_base::OutOfMemory;

/// The value that the word spells.
pub(crate) fn value_of(word: &[u8]) -> Option<i64>
    ensures found { IfSome result (λ z. (word.now ≡ signed_decimal z) × IsBound z) }
    ensures none { IfNone result ((z : ℤ) → IsBound z → word.now ≢ signed_decimal z) }
{
    value_within(word, MAX_BOUND)
}

/// The atom of a variable's word, a relation and the word of a number.
fn atom_with(var: &[u8], at_least: bool, k: &[u8]) -> Option<Atom>
    ensures found { IfSome result (λ a. (var.now ≡ decimal a.var.0) × (a.at_least ≡ at_least)
        × (k.now ≡ signed_decimal a.k) × IsAtomInRange a) }
    ensures none { IfNone result ((a : Atom) → IsAtomInRange a → var.now ≡ decimal a.var.0
        → k.now ≢ signed_decimal a.k) }
{
    match number_within(var, u32::MAX) {
        None => None,
        Some(number) => match value_within(k, MAX_ATOM_NUMBER) {
            None => None,
            Some(k) => Some(Atom {
                var: Var(number),
                at_least,
                k,
            }),
        },
    }
}

/// The atom that the word spells.
pub(crate) fn atom_of(word: &[u8]) -> Option<Atom>
    ensures found { IfSome result (λ a. (word.now ≡ atom_word a) × IsAtomInRange a) }
    ensures none { IfNone result ((a : Atom) → IsAtomInRange a → word.now ≢ atom_word a) }
{
    match cut(word, b'=') {
        None => None,
        Some((left, k)) => match left.split_last() {
            None => None,
            Some((sign, var)) => match *sign {
                b'>' => atom_with(var, true, k),
                b'<' => atom_with(var, false, k),
                _ => None,
            },
        },
    }
}

/// The hint to a part of a cut whose word goes on so.
fn cut_hint_of(rest: &[u8]) -> Option<Hint>
    ensures found { IfSome result (λ h. (98 ∷ rest.now ≡ hint_word h) × IsHintPrintable h) }
    ensures none { IfNone result ((h : Hint) → IsHintPrintable h → 98 ∷ rest.now ≢ hint_word h) }
{
    match cut(rest, b'.') {
        None => None,
        Some((best, part)) => match number_of(best) {
            None => None,
            Some(best) => match number_within(part, u32::MAX) {
                None => None,
                Some(part) => Some(Hint::Cut { best, part }),
            },
        },
    }
}

/// The hint whose word has this letter and goes on so.
fn hint_with(letter: u8, rest: &[u8]) -> Option<Hint>
    ensures found { IfSome result (λ h. (letter ∷ rest.now ≡ hint_word h) × IsHintPrintable h) }
    ensures none { IfNone result ((h : Hint) → IsHintPrintable h → letter ∷ rest.now
        ≢ hint_word h) }
{
    match letter {
        b'c' => match number_within(rest, u32::MAX) {
            None => None,
            Some(n) => Some(Hint::Clause(n)),
        },
        b'r' => match number_within(rest, u32::MAX) {
            None => None,
            Some(n) => Some(Hint::Row(n)),
        },
        b'e' => match number_of(rest) {
            None => None,
            Some(place) => Some(Hint::Entry(place)),
        },
        b'b' => cut_hint_of(rest),
        _ => None,
    }
}

/// The hint that the word spells.
pub(crate) fn hint_of(word: &[u8]) -> Option<Hint>
    ensures found { IfSome result (λ h. (word.now ≡ hint_word h) × IsHintPrintable h) }
    ensures none { IfNone result ((h : Hint) → IsHintPrintable h → word.now ≢ hint_word h) }
{
    match word.split_first() {
        None => None,
        Some((letter, rest)) => hint_with(*letter, rest),
    }
}

pub(crate) fn push_atom(out: &mut Vec<u8>, atom: Atom) -> Result<(), OutOfMemory>
    ensures { OnOk result (out.new.items ≡ out.old.items ++ atom_word atom) }
{
    push_number(out, atom.var.0 as u64)?;
    let relation = if atom.at_least { b">=" } else { b"<=" };
    out.extend_from_slice(relation)?;
    push_value(out, atom.k)
}

/// Adds a letter and a number.
fn push_numbered(out: &mut Vec<u8>, letter: u8, n: u64) -> Result<(), OutOfMemory>
    ensures { OnOk result (out.new.items ≡ out.old.items ++ letter ∷ decimal n) }
{
    match out.push(letter) {
        Err(_) => Err(OutOfMemory),
        Ok(()) => push_number(out, n),
    }
}

/// Adds the word of a hint; a hint to a lemma that has no place yet has none.
pub(crate) fn push_hint(out: &mut Vec<u8>, hint: Hint) -> Result<(), OutOfMemory>
    ensures { OnOk result (out.new.items ≡ out.old.items ++ hint_word hint) }
{
    match hint {
        Hint::Clause(n) => push_numbered(out, b'c', n as u64),
        Hint::Row(n) => push_numbered(out, b'r', n as u64),
        Hint::Entry(place) => push_numbered(out, b'e', place),
        Hint::Own(_) => Ok(()),
        Hint::Cut { best, part } => {
            push_numbered(out, b'b', best)?;
            push_numbered(out, b'.', part as u64)
        }
    }
}
