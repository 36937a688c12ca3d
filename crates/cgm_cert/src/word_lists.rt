//! The words of several values, atoms or hints in a row.
ghost use Rattle.std.specs.Prelude.{◌≡◌, ◌≢◌, ◌++◌, ◌∷◌, ℕ, ℤ, List, map, codes, IfOk, IfSome, IfNone};
ghost use Rattle.std.specs.Fmt.{signed_decimal};
ghost use Rattle.std.specs.List.{All};
ghost use Rattle.cgm_atom.specs.Limits.{IsBound};
ghost use Rattle.cgm_atom.specs.declared.constraints.Atom.{Atom};
ghost use Rattle.cgm_atom.specs.declared.entries.Hint.{Hint};
ghost use Rattle.cgm_atom.specs.Ranges.{IsAtomInRange};
ghost use Rattle.cgm_atom.specs.AtomWords.{atom_word};
ghost use Rattle.cgm_cert.specs.Printable.{IsHintPrintable};
ghost use Rattle.cgm_cert.specs.Spelling.{hint_word, further_words};

use crate::cuts::{is, next_word};
use crate::words::{atom_of, hint_of, value_of};
use cgm_atom::{Atom, Hint};
use cgm_base::OutOfMemory;
use std::alloc::Global;

/// The values that the words of `rest` spell.
pub(crate) fn values_of(alloc: Global, rest: &[u8]) -> Result<Option<Vec<i64>>, OutOfMemory>
    ensures found { IfOk result (λ r. IfSome r (λ values. (further_words rest.now
        ≡ map signed_decimal values.items) × All IsBound values.items)) }
    ensures none { IfOk result (λ r. IfNone r ((values : List ℤ) → All IsBound values
        → further_words rest.now ≢ map signed_decimal values)) }
{
    let mut values = Vec::new(alloc);
    let mut left = rest;
    while let Some((word, after)) = next_word(left) {
        match value_of(word) {
            None => return Ok(None),
            Some(value) => values.push(value)?,
        }
        left = after;
    }
    Ok(Some(values))
}

/// The hints that the words of `rest` spell.
pub(crate) fn hints_of(alloc: Global, rest: &[u8]) -> Result<Option<Vec<Hint>>, OutOfMemory>
    ensures found { IfOk result (λ r. IfSome r (λ hints. (further_words rest.now
        ≡ map hint_word hints.items) × All IsHintPrintable hints.items)) }
    ensures none { IfOk result (λ r. IfNone r ((hints : List Hint) → All IsHintPrintable hints
        → further_words rest.now ≢ map hint_word hints)) }
{
    let mut hints = Vec::new(alloc);
    let mut left = rest;
    while let Some((word, after)) = next_word(left) {
        match hint_of(word) {
            None => return Ok(None),
            Some(hint) => hints.push(hint)?,
        }
        left = after;
    }
    Ok(Some(hints))
}

/// The atoms that the words of `rest` spell before the word `:`, and the rest after this word.
pub(crate) fn atoms_of(
    alloc: Global,
    rest: &[u8],
) -> Result<Option<(Vec<Atom>, &[u8])>, OutOfMemory>
    ensures found { IfOk result (λ r. IfSome r (λ parts. (further_words rest.now
        ≡ map atom_word parts.0.items ++ codes ":" ∷ further_words parts.1.now)
        × All IsAtomInRange parts.0.items)) }
    ensures none { IfOk result (λ r. IfNone r ((atoms : List Atom) (more : List (List ℕ))
        → All IsAtomInRange atoms → further_words rest.now
        ≢ map atom_word atoms ++ codes ":" ∷ more)) }
{
    let mut atoms = Vec::new(alloc);
    let mut left = rest;
    while let Some((word, after)) = next_word(left) {
        if is(word, ":") {
            return Ok(Some((atoms, after)));
        }
        match atom_of(word) {
            None => return Ok(None),
            Some(atom) => atoms.push(atom)?,
        }
        left = after;
    }
    Ok(None)
}
