//! Why narrowing gave an atom, or conflict: as little of a box as is needed for it.
ghost use Rattle.std.specs.Prelude.{◌≡◌, ◌<◌, length, false, true, None, OnOk};
ghost use Rattle.cgm_atom.specs.Bounds.{IsBoxOf, AreProperBounds};
ghost use Rattle.cgm_atom.specs.ClauseAtoms.{AreKnown, IsReadable, atoms_of, left_in};
ghost use Rattle.cgm_atom.specs.Constraints.{left_by};
ghost use Rattle.cgm_atom.specs.Laws.{IsSmaller};
ghost use Rattle.cgm_atom.specs.Limits.{IsBound};
ghost use Rattle.cgm_atom.specs.Narrowing.{is_false_in, is_true_in, made_true};
ghost use Rattle.cgm_learn.specs.Walking.{HasGiven, IsExplained, IsExplainedIn, IsLedTo};
ghost use Rattle.cgm_trail.specs.TrailState.{IsOpenIn};
ghost use Rattle.cgm_step.specs.Naming.{IsNamedIn, constraint_of};

use crate::rows::{explain_row_atom, explain_row_conflict};
use cgm_atom::{Atom, BoxState, ClauseAtoms, Problem, is_false, negated};
use cgm_base::OutOfMemory;
use cgm_step::Named;
use std::alloc::Global;

/// Adds an atom that is true in the box to the needed bounds.
pub(crate) fn need_atom(atom: Atom, work: &BoxState, need: &mut BoxState)
    requires known { atom.var.0 < length work.now.lower }
    requires proper { AreProperBounds work.now }
    requires met { is_true_in work.now atom ≡ true }
    requires inside { IsSmaller work.now need.old }
    ensures after { need.new ≡ made_true need.old atom }
    ensures explained { IsExplainedIn work.now need.old need.new }
{
    need.assume(atom);
}

/// Adds the negation of an atom where the atom is false in the box.
fn need_false(atom: Atom, work: &BoxState, need: &mut BoxState)
    requires known { atom.var.0 < length work.now.lower }
    requires proper { AreProperBounds work.now }
    requires inside { IsSmaller work.now need.old }
    ensures falsified { is_false_in work.now atom ≡ true → is_false_in need.new atom ≡ true }
    ensures explained { IsExplainedIn work.now need.old need.new }
{
    if !is_false(work, atom) {
        return;
    }
    match negated(work, atom) {
        None => {}
        Some(opposite) => need_atom(opposite, work, need),
    }
}

/// Adds the negations of those atoms of a clause that are false in the box.
fn explain_clause(atoms: ClauseAtoms<'_>, work: &BoxState, need: &mut BoxState)
    requires readable { IsReadable atoms }
    requires known { AreKnown (length work.now.lower) (atoms_of atoms) }
    requires proper { AreProperBounds work.now }
    requires inside { IsSmaller work.now need.old }
    ensures left { left_in need.new (atoms_of atoms.entry)
        ≡ left_in work.now (atoms_of atoms.entry) }
    ensures explained { IsExplainedIn work.now need.old need.new }
{
    for i in 0..atoms.count() {
        need_false(atoms.atom(i), work, need);
    }
}

/// Adds to the needed bounds what the clause or row needs to be in conflict.
pub(crate) fn explain_conflict(
    problem: &Problem,
    by: Named<'_>,
    work: &BoxState,
    need: &mut BoxState,
)
    requires named { IsNamedIn problem.now by }
    requires work_limits { IsBoxOf problem.now.bounds work.now }
    requires need_limits { IsBoxOf problem.now.bounds need.old }
    requires inside { IsSmaller work.now need.old }
    requires conflict { left_by work.now (constraint_of by) ≡ None }
    ensures conflict { left_by need.new (constraint_of by.entry) ≡ None }
    ensures explained { IsExplained problem.now.bounds work.now need.old need.new }
{
    problem.recall_well_formed();
    match by {
        Named::Clause(atoms) => explain_clause(atoms, work, need),
        Named::Row(row) => explain_row_conflict(row, work, need),
    }
}

/// Adds to the needed bounds what the clause or row needs to give the atom.
pub(crate) fn explain_atom(
    alloc: Global,
    problem: &Problem,
    by: Named<'_>,
    atom: Atom,
    work: &BoxState,
    need: &mut BoxState,
) -> Result<(), OutOfMemory>
    requires named { IsNamedIn problem.now by }
    requires work_limits { IsBoxOf problem.now.bounds work.now }
    requires need_limits { IsBoxOf problem.now.bounds need.old }
    requires inside { IsSmaller work.now need.old }
    requires undecided { IsOpenIn work.now atom }
    requires size { IsBound atom.k }
    requires given { HasGiven atom (left_by work.now (constraint_of by)) }
    ensures led { OnOk result (IsLedTo need.new (constraint_of by.entry) atom) }
    ensures explained { OnOk result (IsExplained problem.now.bounds work.now need.old need.new) }
{
    problem.recall_well_formed();
    match by {
        Named::Clause(atoms) => {
            explain_clause(atoms, work, need);
            Ok(())
        }
        Named::Row(row) => explain_row_atom(alloc, row, atom, work, need),
    }
}
