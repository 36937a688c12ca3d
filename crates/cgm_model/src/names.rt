//! Names, found by their bytes.
ghost use Rattle.std.specs.Prelude.{◌≡◌, ◌↔◌, List, ℕ, IsTrue, OnOk, OnErr, if◌then◌else◌};
ghost use Rattle.std.specs.Str.{bytes_eq};
ghost use Rattle.cgm_model.specs.Keeping.{AreFor};
ghost use Rattle.cgm_model.specs.NameTable.{thing_found};
ghost use Rattle.cgm_model.specs.Named.{IsNamedThing, thing_named};
ghost use Rattle.cgm_model.specs.Statement.{is_new};
ghost use Rattle.cgm_model.specs.WellFormed.{IsWellFormedModel};

use crate::aids::Aids;
use crate::lists::{Lists, Thing};
use cgm_base::OutOfMemory;
use indexmap::IndexMap;
use sqlite_items::at;
use std::alloc::Global;

/// What each name stands for. An entry may be left over from a statement that wasn't added.
#[derive(Drop)]
pub(crate) struct NameTable {
    entries: IndexMap<Vec<u8>, Thing>,
}

impl NameTable {
    pub(crate) fn new(alloc: Global) -> NameTable
        ensures { (name : List ℕ) → thing_found result name ≡ None }
    {
        NameTable {
            entries: IndexMap::new(alloc),
        }
    }

    pub(crate) fn get(&self, name: &[u8]) -> Option<Thing>
        ensures { result ≡ thing_found self.now name.now }
    {
        self.entries.get(name).copied()
    }

    /// Says what the name stands for, whatever it stood for before.
    pub(crate) fn set(
        &mut self,
        alloc: Global,
        name: &[u8],
        thing: Thing,
    ) -> Result<(), OutOfMemory>
        ensures set { OnOk result ((q : List ℕ) → thing_found self.new q
            ≡ (if bytes_eq q name.now then Some thing else thing_found self.old q)) }
        ensures unchanged { OnErr result ((q : List ℕ) → thing_found self.new q ≡ thing_found
            self.old q) }
    {
        let key = Vec::from_slice(alloc, name)?;
        self.entries.insert(key, thing)?;
        Ok(())
    }
}

/// Says what the name stands for by the lists.
pub(crate) fn find(lists: &Lists, aids: &Aids, name: &[u8]) -> Option<Thing>
    requires well_formed { IsWellFormedModel lists.now }
    requires aids { AreFor lists.now aids.now }
    ensures { result ≡ thing_named lists.now name.now }
{
    match aids.names.get(name) {
        None => None,
        Some(thing) => {
            if is_named(lists, name, thing) {
                return Some(thing);
            }
            None
        }
    }
}

pub(crate) fn is_new(lists: &Lists, aids: &Aids, name: &[u8]) -> bool
    requires well_formed { IsWellFormedModel lists.now }
    requires aids { AreFor lists.now aids.now }
    ensures { result ≡ is_new lists.now name.now }
{
    find(lists, aids, name).is_none()
}

/// Says whether the thing has this name by the lists.
fn is_named(lists: &Lists, name: &[u8], thing: Thing) -> bool
    ensures { IsTrue result ↔ IsNamedThing lists.now name.now thing }
{
    match thing {
        Thing::Element(k) => match at(lists.elements.as_slice(), k as usize) {
            None => false,
            Some(e) => e.name.is(name),
        },
        Thing::Refinement(k) => match at(lists.refinements.as_slice(), k as usize) {
            None => false,
            Some(r) => r.name.is(name),
        },
        Thing::Var(k) => match at(lists.vars.as_slice(), k as usize) {
            None => false,
            Some(v) => v.name.is(name),
        },
        Thing::Sum(k) => match at(lists.sums.as_slice(), k as usize) {
            None => false,
            Some(s) => s.name.is(name),
        },
    }
}

/// Enters a name that no statement declares yet.
pub(crate) fn declare(
    alloc: Global,
    names: &mut NameTable,
    name: &[u8],
    thing: Thing,
) -> Result<(), OutOfMemory>
    ensures set { OnOk result ((q : List ℕ) → thing_found names.new q
        ≡ (if bytes_eq q name.now then Some thing else thing_found names.old q)) }
    ensures others { OnErr result ((q : List ℕ) → thing_found names.new q ≡ thing_found names.old
        q) }
{
    names.set(alloc, name, thing)
}
