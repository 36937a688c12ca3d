//! Hints to pending lemmas, and the places that these lemmas get in a log.
ghost use Rattle.std.specs.Prelude.{◌≡◌, map};
ghost use Rattle.std.specs.List.{All};
ghost use Rattle.cgm_atom.specs.Placing.{CanBePlaced, HintsCanBePlaced, all_placed, placed as placed_hint, placed_entry};

use crate::entries::{Entry, Hint};
use crate::lists::Seq;
use std::alloc::Global;
use std::mem::replace;

impl Hint {
    ghost use Rattle.std.specs.Prelude.{◌≡◌};
    ghost use Rattle.cgm_atom.specs.Placing.{CanBePending, CanBePlaced, pending as pending_hint, placed as placed_hint};

    /// The same hint with `Own(i)` as the entry `before + i`, where `before` entries stand before
    /// the first pending lemma.
    /// Condition: `i` is at least 1, and the place fits 64 bits.
    pub fn placed(self, before: u64) -> Hint
        requires { CanBePlaced before self }
        ensures { result ≡ placed_hint before self }
    {
        match self {
            Hint::Own(i) => Hint::Entry(before + u64::from(i)),
            Hint::Clause(n) => Hint::Clause(n),
            Hint::Row(n) => Hint::Row(n),
            Hint::Entry(place) => Hint::Entry(place),
            Hint::Cut { best, part } => Hint::Cut { best, part },
        }
    }

    /// The way back: an entry past the first `before` as a pending lemma.
    /// Condition: the number of the pending lemma fits 32 bits.
    pub fn pending(self, before: u64) -> Hint
        requires { CanBePending before self }
        ensures { result ≡ pending_hint before self }
    {
        match self {
            Hint::Entry(place) => {
                if before < place {
                    return Hint::Own((place - before) as u32);
                }
                Hint::Entry(place)
            }
            Hint::Clause(n) => Hint::Clause(n),
            Hint::Row(n) => Hint::Row(n),
            Hint::Own(i) => Hint::Own(i),
            Hint::Cut { best, part } => Hint::Cut { best, part },
        }
    }
}

impl Entry {
    ghost use Rattle.std.specs.Prelude.{◌≡◌};
    ghost use Rattle.cgm_atom.specs.Placing.{HintsCanBePlaced, placed_entry};

    /// The same entry with each hint placed. Takes no memory.
    /// Condition: the number of each pending lemma is at least 1, and its place fits 64 bits.
    pub fn placed(self, before: u64) -> Entry
        requires { HintsCanBePlaced before self }
        ensures { result ≡ placed_entry before self }
    {
        match self {
            Entry::Best { by, values } => Entry::Best { by, values },
            Entry::Lemma {
                by,
                clause,
                hints,
                bound,
            } => Entry::Lemma {
                by,
                clause,
                hints: place_hints(hints, before),
                bound,
            },
        }
    }
}

fn place_hints(hints: Seq<Hint>, before: u64) -> Seq<Hint>
    requires { All (CanBePlaced before) hints }
    ensures { result ≡ map (placed_hint before) hints }
{
    let mut hints = hints.into_inner();
    for hint in hints.iter_mut() {
        *hint = hint.placed(before);
    }
    Seq::of(hints)
}

/// The same entries, each with its hints placed. Takes no memory.
/// Condition: the number of each pending lemma is at least 1, and its place fits 64 bits.
pub fn place_all(alloc: Global, entries: Vec<Entry>, before: u64) -> Vec<Entry>
    requires { All (HintsCanBePlaced before) entries.items }
    ensures { result.items ≡ all_placed before entries.items }
{
    let mut entries = entries;
    for entry in entries.iter_mut() {
        place(alloc, entry, before);
    }
    entries
}

/// Takes the entry out, with a blank one in its place meanwhile, and puts it back placed.
fn place(alloc: Global, entry: &mut Entry, before: u64)
    requires { HintsCanBePlaced before entry.old }
    ensures { entry.new ≡ placed_entry before entry.old }
{
    let blank = Entry::Best {
        by: 0,
        values: Seq::of(Vec::new(alloc)),
    };
    let taken = replace(entry, blank);
    *entry = taken.placed(before);
}
