//! A log beside its index.
ghost use Rattle.std.specs.Prelude.{◌≡◌, ◌+◌, List, length, map, Some};
ghost use Rattle.std.specs.Option.{option_copied};
ghost use Rattle.cgm_atom.specs.LogState.{best_at, item_at, last_best, live_at, state_of, values_at_place};
ghost use Rattle.cgm_step.specs.Indexing.{IsLogIndexOf, indexed_state};

use crate::index::LogIndex;
use cgm_atom::Entry;
use std::marker::Model;

/// The entries of a log with their index. Contracts see the state of the log.
#[derive(Drop)]
pub struct IndexedLog<'l> {
    entries: &'l [Entry],
    index: &'l LogIndex,
}

impl<'l> Model for IndexedLog<'l> {
    ghost use Rattle.cgm_atom.specs.LogState.{LogState};

    ghost Value = { LogState };

    ghost use Rattle.cgm_step.specs.Indexing.{indexed_state};

    ghost view = { λ l. indexed_state l.entries.now l.index.now };
}

impl<'l> IndexedLog<'l> {
    /// The log with these entries. Condition: the index is theirs.
    pub fn of(entries: &'l [Entry], index: &'l LogIndex) -> IndexedLog<'l>
        requires { IsLogIndexOf index.now entries.now }
        ensures { result ≡ state_of entries.now }
    {
        IndexedLog { entries, index }
    }

    /// How many entries there are.
    pub fn len(&self) -> u64
        ensures { result ≡ length self.now.entries }
    {
        self.entries.len() as u64
    }

    /// Whether a lemma without atoms stands in the log.
    pub fn is_closed(&self) -> bool
        ensures { result ≡ self.now.closed }
    {
        self.index.is_closed()
    }

    /// The entry at a place, from 1, if it is there.
    pub fn live(&self, place: u64) -> Option<&'l Entry>
        ensures { option_copied result ≡ live_at self.now place }
    {
        entry_at(self.entries, place)
    }

    /// How many bests there are, which is the ordinal of the last one.
    pub fn bests(&self) -> u64
        ensures { result ≡ length self.now.bests }
    {
        self.index.bests().len() as u64
    }

    /// The values of the best with an ordinal, from 1, if it is there.
    pub fn best(&self, ordinal: u64) -> Option<&'l [i64]>
        ensures { option_copied result ≡ best_at self.now ordinal }
    {
        match place_at(self.index.bests(), ordinal) {
            Some(place) => self.best_at_place(place),
            None => None,
        }
    }

    /// The values of the last best, if any.
    pub fn last_best(&self) -> Option<&'l [i64]>
        ensures { option_copied result ≡ last_best self.now }
    {
        self.best(self.bests())
    }

    fn best_at_place(&self, place: u64) -> Option<&'l [i64]>
        ensures { option_copied result ≡ values_at_place self.now place }
    {
        match self.live(place) {
            Some(Entry::Best { values, .. }) => Some(values.as_slice()),
            _ => None,
        }
    }
}

/// The entry at a place that counts from 1.
fn entry_at(entries: &[Entry], place: u64) -> Option<&Entry>
    ensures { option_copied result ≡ item_at entries.now place }
{
    if place == 0 {
        return None;
    }
    entries.get((place - 1) as usize)
}

/// The place at a place that counts from 1.
fn place_at(places: &[u64], ordinal: u64) -> Option<u64>
    ensures { result ≡ item_at places.now ordinal }
{
    if ordinal == 0 {
        return None;
    }
    places.get((ordinal - 1) as usize).copied()
}
