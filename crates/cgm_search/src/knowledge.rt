//! What a worker knows of the log.
ghost use Rattle.std.specs.Prelude.{◌≡◌, ◌+◌, ◌++◌, ◌∷◌, [], ◌^◌, ◌<◌, ◌≤◌, ◌↔◌, None, length, IfOk, IsTrue, OnOk};
ghost use Rattle.cgm_atom.specs.Acceptance.{IsAcceptedAfter, IsAcceptedState, first_fault};
ghost use Rattle.cgm_search.specs.Knowing.{IsKnowledge, seen, seen_state};
ghost use Rattle.cgm_clauses.specs.StoreState.{IsStoreOf};
ghost use Rattle.cgm_search.specs.Storing.{IsLongLemma, is_of_cut, last_cut, store_after};
ghost use Rattle.std.specs.List.{filter};

use crate::cuts::renew_cut;
use cgm_atom::{Entry, Hint, Problem};
use cgm_base::OutOfMemory;
use cgm_clauses::ClauseStore;
use cgm_step::{IndexedLog, LogIndex};
use std::alloc::Global;

/// A lemma of at most so many atoms stays in the store.
const SHORT_LENGTH: usize = 8;

/// A longer one is forgotten once so many entries have come after it.
const KEPT_ENTRIES: usize = 1_000;

/// A copy of the problem, the entries of the log that were seen, and the store of clauses.
#[derive(Drop)]
pub(crate) struct Known {
    pub(crate) problem: Problem,
    pub(crate) entries: Vec<Entry>,
    pub(crate) index: LogIndex,
    pub(crate) store: ClauseStore,
}

impl Known {
    /// Before anything was seen.
    pub(crate) fn new(alloc: Global, problem: &Problem) -> Result<Known, OutOfMemory>
        ensures known { IfOk result IsKnowledge }
        ensures problem { IfOk result (λ k. k.problem ≡ problem.now) }
        ensures nothing { IfOk result (λ k. seen k ≡ []) }
    {
        problem.recall_well_formed();
        let store = ClauseStore::new(alloc, problem)?;
        Ok(Known {
            problem: problem.copy(alloc)?,
            entries: Vec::new(alloc),
            index: LogIndex::new(alloc),
            store,
        })
    }

    /// The entries that were seen, with their index.
    pub(crate) fn indexed(&self) -> IndexedLog<'_>
        requires { IsKnowledge self.now }
        ensures state { result ≡ seen_state self.now }
        ensures accepted { IsAcceptedState self.now.problem result }
    {
        IndexedLog::of(self.entries.as_slice(), &self.index)
    }

    pub(crate) fn is_closed(&self) -> bool
        requires { IsKnowledge self.now }
        ensures { result ≡ (seen_state self.now).closed }
    {
        self.indexed().is_closed()
    }

    /// How many entries were seen.
    pub(crate) fn count(&self) -> u64
        ensures { result ≡ length (seen self.now) }
    {
        self.entries.len() as u64
    }

    /// Takes up the next entries of the log.
    pub(crate) fn absorb_all(&mut self, alloc: Global, more: Vec<Entry>) -> Result<(), OutOfMemory>
        requires known { IsKnowledge self.old }
        requires accepted { IsAcceptedAfter self.old.problem (seen_state self.old) more.items }
        requires room { length (seen self.old) + length more.items < 2 ^ 63 }
        ensures known { OnOk result (IsKnowledge self.new) }
        ensures entries { OnOk result (seen self.new ≡ seen self.old ++ more.items) }
        ensures problem { self.new.problem ≡ self.old.problem }
    {
        for entry in more {
            self.absorb(alloc, entry)?;
        }
        Ok(())
    }

    /// Takes up the next entry of the log.
    fn absorb(&mut self, alloc: Global, entry: Entry) -> Result<(), OutOfMemory>
        requires known { IsKnowledge self.old }
        requires accepted { first_fault self.old.problem (seen_state self.old) entry ≡ None }
        requires room { length (seen self.old) + 1 < 2 ^ 63 }
        ensures known { OnOk result (IsKnowledge self.new) }
        ensures entries { OnOk result (seen self.new ≡ seen self.old ++ entry ∷ []) }
        ensures problem { self.new.problem ≡ self.old.problem }
    {
        self.take_in(alloc, entry)?;
        self.forget_old();
        Ok(())
    }

    /// Adds the next entry of the log, and what it gives the store.
    fn take_in(&mut self, alloc: Global, entry: Entry) -> Result<(), OutOfMemory>
        requires known { IsKnowledge self.old }
        requires accepted { first_fault self.old.problem (seen_state self.old) entry ≡ None }
        requires room { length (seen self.old) + 1 < 2 ^ 63 }
        ensures known { OnOk result (IsKnowledge self.new) }
        ensures entries { OnOk result (seen self.new ≡ seen self.old ++ entry ∷ []) }
        ensures problem { self.new.problem ≡ self.old.problem }
    {
        let log = IndexedLog::of(self.entries.as_slice(), &self.index);
        keep(alloc, &self.problem, &log, &mut self.store, &entry)?;
        self.index.add(&entry)?;
        self.entries.push(entry)?;
        Ok(())
    }

    /// Forgets the lemma after which `KEPT_ENTRIES` entries have come, if it is a long one.
    fn forget_old(&mut self)
        requires known { IsKnowledge self.old }
        ensures known { IsKnowledge self.new }
        ensures entries { seen self.new ≡ seen self.old }
        ensures problem { self.new.problem ≡ self.old.problem }
    {
        let count = self.entries.len();
        if count <= KEPT_ENTRIES {
            return;
        }
        let before = count - KEPT_ENTRIES - 1;
        if is_long_lemma(&self.entries[before]) {
            self.store.forget(&Hint::Entry(before as u64 + 1));
        }
    }
}

/// Whether an entry is a lemma of more than `SHORT_LENGTH` atoms.
fn is_long_lemma(entry: &Entry) -> bool
    ensures { IsTrue result ↔ IsLongLemma entry.now }
{
    match entry {
        Entry::Best { .. } => false,
        Entry::Lemma { clause, .. } => clause.atoms.as_slice().len() > SHORT_LENGTH,
    }
}

/// Adds to the store what the next entry of the log gives.
fn keep(
    alloc: Global,
    problem: &Problem,
    log: &IndexedLog<'_>,
    store: &mut ClauseStore,
    entry: &Entry,
) -> Result<(), OutOfMemory>
    requires accepted { IsAcceptedState problem.now log.now }
    requires next { first_fault problem.now log.now entry.now ≡ None }
    requires of_problem { IsStoreOf problem.now store.old }
    requires cut { filter is_of_cut store.old.added ≡ last_cut problem.now log.now }
    requires room { length log.now.entries < 2 ^ 63 }
    requires bests_room { length log.now.bests < 2 ^ 63 }
    ensures { OnOk result (store.new ≡ store_after problem.now log.now store.old entry.now) }
{
    problem.recall_well_formed();
    match entry {
        Entry::Best { values, .. } => {
            renew_cut(alloc, problem, store, log.bests(), values.as_slice())?;
        }
        Entry::Lemma { clause, .. } => {
            store.add(clause.copy(alloc)?, Hint::Entry(log.len() + 1))?;
        }
    }
    Ok(())
}
