//! Clauses with the hints that name them.
ghost use Rattle.std.specs.Prelude.{◌≡◌, ◌<◌, ◌≤◌, ◌≢◌, length, map, IfOk};
ghost use Rattle.std.specs.List.{All, AllWithin, HoldsAt};
ghost use Rattle.cgm_clauses.specs.StoreState.{CanNamesLand, IsForgotten, landed_named, numbered};

use cgm_atom::{Clause, Hint, Problem};
use cgm_base::OutOfMemory;
use cgm_trail::landed;
use std::alloc::Global;

#[derive(Drop)]
pub(crate) struct Named {
    pub(crate) clause: Clause,
    pub(crate) name: Hint,
}

/// The problem's clauses by their numbers.
pub(crate) fn clauses_of(alloc: Global, problem: &Problem) -> Result<Vec<Named>, OutOfMemory>
    ensures { IfOk result (λ clauses. clauses.items ≡ numbered 0 problem.now.clauses) }
{
    let mut clauses = Vec::new(alloc);
    for number in 0..problem.clauses() {
        clauses.push(Named {
            clause: problem.clause(number).copy(alloc)?,
            name: Hint::Clause(number),
        })?;
    }
    Ok(clauses)
}

/// Drops the first clause of this name, if there is one.
pub(crate) fn forget_first(clauses: &mut Vec<Named>, name: Hint)
    ensures { IsForgotten name clauses.old.items clauses.new.items }
{
    let place = place_of(clauses.as_slice(), name);
    if place < clauses.len() {
        clauses.remove(place);
    }
}

/// The place of the first clause of this name, or the number of clauses where none has it.
fn place_of(clauses: &[Named], name: Hint) -> usize
    ensures others { AllWithin (λ n. n.name ≢ name) clauses.now 0 result }
    ensures found { result < length clauses.now → HoldsAt (λ n. n.name ≡ name) clauses.now result }
    ensures within { result ≤ length clauses.now }
{
    for i in 0..clauses.len() {
        if clauses[i].name == name {
            return i;
        }
    }
    clauses.len()
}

pub(crate) fn land_all(clauses: &mut Vec<Named>, first: u64)
    requires { CanNamesLand first clauses.old.items }
    ensures { clauses.new.items ≡ map (landed_named first) clauses.old.items }
{
    for named in clauses.iter_mut() {
        named.name = landed(named.name, first);
    }
}
