//! The index of a log.
ghost use Rattle.std.specs.Prelude.{◌≡◌, ◌+◌, ◌^◌, ◌<◌, ◌≤◌, ◌++◌, ◌∷◌, [], List, length, take, OnOk, OnErr};
ghost use Rattle.cgm_atom.specs.declared.entries.Entry.{Entry};
ghost use Rattle.cgm_step.specs.Indexing.{IsLogIndexOf, empty_index, index_after, index_with};

use cgm_atom::Entry;
use cgm_base::OutOfMemory;
use std::alloc::Global;
use std::marker::{Model, Send};

/// How many entries a log has, the places of its bests, from 1, and whether it is closed.
#[derive(Drop)]
pub struct LogIndex {
    entries: u64,
    bests: Vec<u64>,
    is_closed: bool,
}

impl Model for LogIndex {
    ghost use Rattle.cgm_step.specs.Indexing.{Index};

    ghost Value = { Index };

    ghost view = { λ i. record { entries = i.entries; bests = i.bests.items; closed = i.is_closed } };
}

impl LogIndex {
    /// The index of the empty log. Takes no memory.
    pub fn new(alloc: Global) -> LogIndex
        ensures value { result ≡ empty_index }
        ensures own { IsLogIndexOf result [] }
    {
        LogIndex {
            entries: 0,
            bests: Vec::new(alloc),
            is_closed: false,
        }
    }

    /// Adds the next entry of the log. Without memory for it the index stays as it was.
    /// Condition: fewer than 2^63 entries so far.
    pub fn add(&mut self, entry: &Entry) -> Result<(), OutOfMemory>
        requires { self.old.entries < 2 ^ 63 }
        ensures ok { OnOk result (self.new ≡ index_with self.old entry.now) }
        ensures own { OnOk result
            ((log : List Entry) → IsLogIndexOf self.old log → IsLogIndexOf self.new
            (log ++ entry.now ∷ [])) }
        ensures err { OnErr result (self.new ≡ self.old) }
    {
        match entry {
            Entry::Best { .. } => self.bests.push(self.entries + 1)?,
            Entry::Lemma { clause, .. } => {
                if clause.atoms.as_slice().is_empty() {
                    self.is_closed = true;
                }
            }
        }
        self.entries += 1;
        Ok(())
    }

    /// Adds the next entries of the log, all of them or none: without memory for them the index stays
    /// as it was. Condition: at most 2^63 entries with them.
    pub fn append(&mut self, more: &[Entry]) -> Result<(), OutOfMemory>
        requires { self.old.entries + length more.now ≤ 2 ^ 63 }
        ensures ok { OnOk result (self.new ≡ index_after self.old more.now) }
        ensures own { OnOk result
            ((log : List Entry) → IsLogIndexOf self.old log → IsLogIndexOf self.new
            (log ++ more.now)) }
        ensures err { OnErr result (self.new ≡ self.old) }
    {
        let entries = self.entries;
        let bests = self.bests.len();
        let is_closed = self.is_closed;
        if let Err(error) = self.add_each(more) {
            self.entries = entries;
            self.bests.truncate(bests);
            self.is_closed = is_closed;
            return Err(error);
        }
        Ok(())
    }

    /// Adds the next entries one by one. The places of the bests so far stay in front.
    fn add_each(&mut self, more: &[Entry]) -> Result<(), OutOfMemory>
        requires { self.old.entries + length more.now ≤ 2 ^ 63 }
        ensures ok { OnOk result (self.new ≡ index_after self.old more.now) }
        ensures front { take (length self.old.bests) self.new.bests ≡ self.old.bests }
    {
        for e in more {
            self.add(e)?;
        }
        Ok(())
    }

    /// The places of the bests, from 1.
    pub(crate) fn bests(&self) -> &[u64]
        ensures { result.now ≡ self.now.bests }
    {
        self.bests.as_slice()
    }

    /// Whether a lemma without atoms stands in the log.
    pub(crate) fn is_closed(&self) -> bool
        ensures { result ≡ self.now.closed }
    {
        self.is_closed
    }
}

// An index can be moved to a thread with its log.
fn cross_threads(index: &LogIndex) {
    can_be_moved(index);
}

fn can_be_moved<T: Send>(_: &T) {}
