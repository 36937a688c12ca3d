// Stores as text, and how they are made: `add` has the name and the atoms of a clause that is added,
// `names` the place where the first lemma then lands, and `forget` a name that is then forgotten.
ghost use Rattle.std.specs.Prelude.{◌≡◌, [], IsTrue, IfOk, OnOk};
ghost use Rattle.cgm_clauses.specs.StoreState.{CanNamesLand, IsStoreOf};
ghost use Rattle.cgm_trail.specs.Landing.{CanLand};

use crate::problems::clause_of;
use crate::words::{after, count, hint, parted};
use cgm_atom::{Hint, Problem};
use cgm_clauses::ClauseStore;
use std::alloc::Global;
use std::test::Fail;

/// The store of a problem after what a text does to it.
pub(crate) fn store_of(alloc: Global, problem: &Problem, text: &str) -> Result<ClauseStore, Fail>
    ensures { IfOk result (λ s. IsStoreOf problem.now s) }
{
    let mut s = ClauseStore::new(alloc, problem)?;
    fill(alloc, problem, &mut s, text)?;
    Ok(s)
}

/// Does to a store what a text does.
fn fill(alloc: Global, problem: &Problem, store: &mut ClauseStore, text: &str) -> Result<(), Fail>
    requires store { IsStoreOf problem.now store.old }
    requires empty { store.old.added ≡ [] }
    ensures { IsStoreOf problem.now store.new }
{
    add_named(alloc, problem, store, text)?;
    forget(problem, store, after(text, "forget"));
    Ok(())
}

/// Adds the clauses of a text, of which the first lemma may land then.
fn add_named(
    alloc: Global,
    problem: &Problem,
    store: &mut ClauseStore,
    text: &str,
) -> Result<(), Fail>
    requires store { IsStoreOf problem.now store.old }
    requires empty { store.old.added ≡ [] }
    ensures { IsStoreOf problem.now store.new }
{
    let place = after(text, "names");
    if place.is_empty() {
        return add_all(alloc, problem, store, text, 1);
    }
    add_landed(alloc, problem, store, text, count(place))
}

fn forget(problem: &Problem, store: &mut ClauseStore, name: &str)
    requires { IsStoreOf problem.now store.old }
    ensures { IsStoreOf problem.now store.new }
{
    if !name.is_empty() {
        store.forget(&hint(name));
    }
}

/// Adds clauses, of which the first lemma then lands at a place.
fn add_landed(
    alloc: Global,
    problem: &Problem,
    store: &mut ClauseStore,
    text: &str,
    first: u64,
) -> Result<(), Fail>
    requires store { IsStoreOf problem.now store.old }
    requires empty { store.old.added ≡ [] }
    ensures { IsStoreOf problem.now store.new }
{
    add_all(alloc, problem, store, text, first)?;
    store.land(first);
    Ok(())
}

/// Adds clauses whose names can land where the first lemma gets this place.
fn add_all(
    alloc: Global,
    problem: &Problem,
    store: &mut ClauseStore,
    text: &str,
    first: u64,
) -> Result<(), Fail>
    requires store { IsStoreOf problem.now store.old }
    requires empty { store.old.added ≡ [] }
    ensures store { IsStoreOf problem.now store.new }
    ensures names { OnOk result (CanNamesLand first store.new.added) }
{
    for statement in text.split(';') {
        add(alloc, problem, store, statement, first)?;
    }
    Ok(())
}

fn add(
    alloc: Global,
    problem: &Problem,
    store: &mut ClauseStore,
    statement: &str,
    first: u64,
) -> Result<(), Fail>
    requires store { IsStoreOf problem.now store.old }
    requires names { CanNamesLand first store.old.added }
    ensures store { IsStoreOf problem.now store.new }
    ensures names { OnOk result (CanNamesLand first store.new.added) }
{
    let (head, rest) = parted(statement);
    if head != "add" {
        return Ok(());
    }
    let (name, atoms) = parted(rest);
    let name = hint(name);
    if !can_land(name, first) {
        return Err(Fail::new("no name that can land"));
    }
    store.add(clause_of(alloc, problem.vars(), atoms)?, name)?;
    Ok(())
}

/// Whether the lemma of the name, if it names one that has no place yet, counts from 1 and gets a
/// place of 64 bits.
fn can_land(name: Hint, first: u64) -> bool
    ensures { IsTrue result → CanLand first name }
{
    match name {
        Hint::Own(i) => i > 0 && u64::from(i - 1) <= u64::MAX - first,
        _ => true,
    }
}
