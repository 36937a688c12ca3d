// What narrowing by a hint gives, and what is in conflict. Both are tested when a test runs.
ghost use Rattle.std.specs.Prelude.{◌≡◌, ◌<◌, [], length, IsTrue, IfOk};
ghost use Rattle.cgm_atom.specs.Acceptance.{IsAcceptedState};
ghost use Rattle.cgm_atom.specs.Bounds.{IsBoxOf};
ghost use Rattle.cgm_atom.specs.Narrowing.{is_true_in, made_true};
ghost use Rattle.cgm_atom.specs.Relaxing.{bound_of};
ghost use Rattle.cgm_learn.specs.Learning.{IsConflictIn};
ghost use Rattle.cgm_rows_problems.specs.Driving.{HasName, IsGivenBy, IsOfProblem};
ghost use Rattle.cgm_trail.specs.TrailState.{IsOpenIn};

use cgm_atom::{Atom, BoxState, Hint, Narrowed, Problem, is_true};
use cgm_step::{IndexedLog, narrow};
use std::alloc::Global;
use std::test::Fail;

/// Whether narrowing by what a hint names gives an open atom, with just its number.
pub(crate) fn is_given(
    alloc: Global,
    problem: &Problem,
    log: &IndexedLog<'_>,
    bounds: &BoxState,
    hint: &Hint,
    atom: Atom,
) -> Result<bool, Fail>
    requires accepted { IsAcceptedState problem.now log.now }
    requires in_box { IsBoxOf problem.now.bounds bounds.now }
    requires undecided { IsOpenIn bounds.now atom }
    ensures { IfOk result (λ given. IsTrue given → IsGivenBy problem.now log.now bounds.now hint.now
        atom) }
{
    if !is_named(problem, log, hint) {
        return Ok(false);
    }
    let made = copy_with(alloc, bounds, atom)?;
    let mut left = bounds.copy(alloc)?;
    match narrow(problem, log, &mut left, hint) {
        Narrowed::Same => Ok(false),
        Narrowed::Tighter => Ok(is_same(&left, &made, atom)),
        Narrowed::Conflict => Ok(false),
    }
}

/// Whether what a hint names leaves nothing of a box.
pub(crate) fn is_conflict(
    alloc: Global,
    problem: &Problem,
    log: &IndexedLog<'_>,
    bounds: &BoxState,
    hint: &Hint,
) -> Result<bool, Fail>
    requires accepted { IsAcceptedState problem.now log.now }
    requires in_box { IsBoxOf problem.now.bounds bounds.now }
    ensures { IfOk result (λ found. IsTrue found → IsConflictIn problem.now log.now [] bounds.now
        hint.now) }
{
    if !is_named(problem, log, hint) {
        return Ok(false);
    }
    let mut left = bounds.copy(alloc)?;
    match narrow(problem, log, &mut left, hint) {
        Narrowed::Same => Ok(false),
        Narrowed::Tighter => Ok(false),
        Narrowed::Conflict => Ok(true),
    }
}

/// Whether a hint names a clause or a row of the problem.
fn is_named(problem: &Problem, log: &IndexedLog<'_>, hint: &Hint) -> bool
    requires { IsAcceptedState problem.now log.now }
    ensures { IsTrue result → HasName problem.now log.now hint.now }
{
    if !is_of_problem(hint) {
        return false;
    }
    match log.find(problem, hint) {
        None => false,
        Some(_) => true,
    }
}

fn is_of_problem(hint: &Hint) -> bool
    ensures { IsTrue result → IsOfProblem hint.now }
{
    match *hint {
        Hint::Clause(_) => true,
        Hint::Row(_) => true,
        Hint::Entry(_) => false,
        Hint::Own(_) => false,
        Hint::Cut { .. } => false,
    }
}

fn copy_with(alloc: Global, bounds: &BoxState, atom: Atom) -> Result<BoxState, Fail>
    requires { IsOpenIn bounds.now atom }
    ensures { IfOk result (λ made. made ≡ made_true bounds.now atom) }
{
    let mut made = bounds.copy(alloc)?;
    made.assume(atom);
    Ok(made)
}

/// Whether two boxes have the same bound of which an atom speaks, and the atom is true in the first.
fn is_same(left: &BoxState, made: &BoxState, atom: Atom) -> bool
    requires left { atom.var.0 < length left.now.lower }
    requires made { atom.var.0 < length made.now.lower }
    ensures met { IsTrue result → IsTrue (is_true_in left.now atom) }
    ensures same { IsTrue result → bound_of left.now atom ≡ bound_of made.now atom }
{
    if !is_true(left, atom) {
        return false;
    }
    if atom.at_least {
        left.lo(atom.var) == made.lo(atom.var)
    } else {
        left.hi(atom.var) == made.hi(atom.var)
    }
}
