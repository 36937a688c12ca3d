// What a decision wants of a box: its atom is open there, and every clause and every row of the
// problem leaves the box as it is.
ghost use Rattle.std.specs.Prelude.{◌≡◌, ◌<◌, length, Some, IsTrue, IfOk};
ghost use Rattle.std.specs.List.{All, HoldsAt};
ghost use Rattle.cgm_atom.specs.Bounds.{IsBoxOf};
ghost use Rattle.cgm_atom.specs.Narrowing.{left_by_clause, left_by_row};
ghost use Rattle.cgm_trail.specs.TrailState.{IsAtRest, IsOpenIn};

use cgm_atom::{
    Atom, BoxState, ClauseAtoms, Narrowed, Problem, is_false, is_true, narrow_by_atoms,
    narrow_by_row,
};
use std::alloc::Global;
use std::test::Fail;

pub(crate) fn is_open(bounds: &BoxState, atom: Atom) -> bool
    requires { atom.var.0 < length bounds.now.lower }
    ensures { IsTrue result → IsOpenIn bounds.now atom }
{
    if is_true(bounds, atom) {
        return false;
    }
    !is_false(bounds, atom)
}

pub(crate) fn is_at_rest(alloc: Global, problem: &Problem, bounds: &BoxState) -> Result<bool, Fail>
    requires { IsBoxOf problem.now.bounds bounds.now }
    ensures { IfOk result (λ rests. IsTrue rests → IsAtRest problem.now bounds.now) }
{
    if !do_clauses_rest(alloc, problem, bounds)? {
        return Ok(false);
    }
    do_rows_rest(alloc, problem, bounds)
}

fn do_clauses_rest(alloc: Global, problem: &Problem, bounds: &BoxState) -> Result<bool, Fail>
    requires { IsBoxOf problem.now.bounds bounds.now }
    ensures { IfOk result (λ rests. IsTrue rests → All
        (λ c. left_by_clause bounds.now c ≡ Some bounds.now) problem.now.clauses) }
{
    for n in 0..problem.clauses() {
        if !does_clause_rest(alloc, problem, bounds, n)? {
            return Ok(false);
        }
    }
    Ok(true)
}

fn does_clause_rest(
    alloc: Global,
    problem: &Problem,
    bounds: &BoxState,
    n: u32,
) -> Result<bool, Fail>
    requires known { n < length problem.now.clauses }
    requires in_box { IsBoxOf problem.now.bounds bounds.now }
    ensures { IfOk result (λ rests. IsTrue rests → HoldsAt
        (λ c. left_by_clause bounds.now c ≡ Some bounds.now) problem.now.clauses n) }
{
    let mut left = bounds.copy(alloc)?;
    let atoms = ClauseAtoms::Listed(problem.clause(n).atoms.as_slice());
    match narrow_by_atoms(&mut left, atoms) {
        Narrowed::Same => Ok(true),
        Narrowed::Tighter => Ok(false),
        Narrowed::Conflict => Ok(false),
    }
}

fn do_rows_rest(alloc: Global, problem: &Problem, bounds: &BoxState) -> Result<bool, Fail>
    requires { IsBoxOf problem.now.bounds bounds.now }
    ensures { IfOk result (λ rests. IsTrue rests → All
        (λ r. left_by_row bounds.now r ≡ Some bounds.now) problem.now.rows) }
{
    for n in 0..problem.rows() {
        if !does_row_rest(alloc, problem, bounds, n)? {
            return Ok(false);
        }
    }
    Ok(true)
}

fn does_row_rest(alloc: Global, problem: &Problem, bounds: &BoxState, n: u32) -> Result<bool, Fail>
    requires known { n < length problem.now.rows }
    requires in_box { IsBoxOf problem.now.bounds bounds.now }
    ensures { IfOk result (λ rests. IsTrue rests → HoldsAt
        (λ r. left_by_row bounds.now r ≡ Some bounds.now) problem.now.rows n) }
{
    let mut left = bounds.copy(alloc)?;
    problem.recall_well_formed();
    match narrow_by_row(&mut left, problem.row(n)) {
        Narrowed::Same => Ok(true),
        Narrowed::Tighter => Ok(false),
        Narrowed::Conflict => Ok(false),
    }
}
