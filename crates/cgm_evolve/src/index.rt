//! The truths of an earlier realization, found by name.
ghost use Rattle.std.specs.Prelude.{◌≡◌, List, ℕ, OnOk, if◌then◌else◌};
ghost use Rattle.std.specs.Str.{bytes_eq};
ghost use Rattle.cgm_evolve.specs.Index.{pair_found};

use cgm_base::OutOfMemory;
use indexmap::IndexMap;
use std::alloc::Global;

/// The truth of each name.
#[derive(Drop)]
pub(crate) struct Index {
    entries: IndexMap<Vec<u8>, bool>,
}

impl Index {
    /// The index of no names.
    pub(crate) fn new(alloc: Global) -> Index
        ensures { (name : List ℕ) → pair_found result name ≡ None }
    {
        Index {
            entries: IndexMap::new(alloc),
        }
    }

    pub(crate) fn get(&self, name: &[u8]) -> Option<bool>
        ensures { result ≡ pair_found self.now name.now }
    {
        self.entries.get(name).copied()
    }

    /// Says the name's truth, whatever it was before.
    pub(crate) fn set(&mut self, alloc: Global, name: &[u8], truth: bool) -> Result<(), OutOfMemory>
        ensures { OnOk result ((q : List ℕ) → pair_found self.new q
            ≡ (if bytes_eq q name.now then Some truth else pair_found self.old q)) }
    {
        let key = Vec::from_slice(alloc, name)?;
        self.entries.insert(key, truth)?;
        Ok(())
    }
}
