//! The entries of a log, and why an entry is refused.
ghost use Rattle.std.specs.Prelude.{◌≡◌, ◌++◌, IfOk, codes, decimal};
ghost use Rattle.std.specs.String.{string_bytes};
ghost use Rattle.cgm_atom.specs.StepWords.{step_words};

use crate::constraints::Clause;
use crate::lists::Seq;
use cgm_base::OutOfMemory;
use std::alloc::Global;

/// What one step of a refutation narrows by.
#[derive(Clone, Copy, Debug, PartialEq, Eq)]
pub enum Hint {
    /// A clause of the problem, by its number from 0.
    Clause(u32),
    /// A row of the problem, by its number from 0.
    Row(u32),
    /// The clause of the lemma at this place of the log, from 1.
    Entry(u64),
    /// The clause of this lemma, from 1, of those that aren't in the log yet.
    Own(u32),
    /// A part, from 0, of the cut of the best with this ordinal, from 1.
    Cut { best: u64, part: u32 },
}

/// An entry of a log, made by the worker `by`.
#[derive(Debug, Drop)]
pub enum Entry {
    /// A solution that is less than the last one.
    Best {
        by: u32,
        values: Seq<i64>,
    },
    /// A clause that holds of every solution below the best with the ordinal `bound`
    /// (of every solution, where `bound` is 0), and the hints that refute its negation.
    Lemma {
        by: u32,
        clause: Clause,
        hints: Seq<Hint>,
        bound: u64,
    },
}

impl Entry {
    /// An equal entry.
    pub fn copy(&self, alloc: Global) -> Result<Entry, OutOfMemory>
        ensures { IfOk result (λ e. e ≡ self.now) }
    {
        match self {
            Entry::Best { by, values } => {
                let values = Vec::from_slice(alloc, values.as_slice())?;
                Ok(Entry::Best {
                    by: *by,
                    values: Seq::of(values),
                })
            }
            Entry::Lemma {
                by,
                clause,
                hints,
                bound,
            } => {
                let clause = clause.copy(alloc)?;
                let hints = Vec::from_slice(alloc, hints.as_slice())?;
                Ok(Entry::Lemma {
                    by: *by,
                    clause,
                    hints: Seq::of(hints),
                    bound: *bound,
                })
            }
        }
    }
}

/// Equal entries, in their order.
pub fn copy_entries(alloc: Global, entries: &[Entry]) -> Result<Seq<Entry>, OutOfMemory>
    ensures { IfOk result (λ copies. copies ≡ entries.now) }
{
    let mut copies = Vec::new(alloc);
    for entry in entries {
        copies.push(entry.copy(alloc)?)?;
    }
    Ok(Seq::of(copies))
}

/// Why an entry is refused. Places of atoms and hints count from 1.
#[derive(Clone, Copy, Debug, PartialEq, Eq)]
pub enum BadStep {
    /// A lemma without atoms stands before it.
    AfterEnd,
    /// A best with `given` values, which is not the number of variables.
    Values { given: u64 },
    /// The value of this variable is outside its bounds.
    Bounds { var: u32 },
    /// No atom of this clause is true.
    Clause { number: u32 },
    /// This row isn't met.
    Row { number: u32 },
    /// The objective values aren't less than those of the last best.
    NotLess,
    /// The variable of the atom at this place doesn't exist.
    Atom { place: u64 },
    /// The hint at this place names nothing.
    Hint { place: u64 },
    /// The bound isn't `found`, the greatest that the hints carry.
    Bound { found: u64 },
    /// The hints don't reach conflict.
    NoConflict,
}

/// The words of a test that tells no number.
fn plain_words(alloc: Global, word: &str) -> Result<String, OutOfMemory>
    ensures { IfOk result (λ words. string_bytes words ≡ word.now) }
{
    String::from_str(alloc, word)
}

/// The words of a test that tells a number.
fn counted_words(alloc: Global, word: &str, number: u64) -> Result<String, OutOfMemory>
    ensures { IfOk result (λ words. string_bytes words ≡ word.now ++ codes " " ++ decimal number) }
{
    format!(in alloc; "{word} {number}")
}

impl BadStep {
    /// The words of the test in a fault line, with what it tells.
    pub fn words(self, alloc: Global) -> Result<String, OutOfMemory>
        ensures { IfOk result (λ words. string_bytes words ≡ step_words self) }
    {
        match self {
            BadStep::AfterEnd => plain_words(alloc, "after-end"),
            BadStep::Values { given } => counted_words(alloc, "values", given),
            BadStep::Bounds { var } => counted_words(alloc, "bounds", var as u64),
            BadStep::Clause { number } => counted_words(alloc, "clause", number as u64),
            BadStep::Row { number } => counted_words(alloc, "row", number as u64),
            BadStep::NotLess => plain_words(alloc, "not-less"),
            BadStep::Atom { place } => counted_words(alloc, "atom", place),
            BadStep::Hint { place } => counted_words(alloc, "hint", place),
            BadStep::Bound { found } => counted_words(alloc, "bound", found),
            BadStep::NoConflict => plain_words(alloc, "no-conflict"),
        }
    }
}
