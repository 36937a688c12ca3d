//! Narrowing by hints.
ghost use Rattle.std.specs.Prelude.{◌≡◌, ◌≤◌, length, is_some, is_none, IfSome};
ghost use Rattle.cgm_atom.specs.Acceptance.{IsAcceptedState};
ghost use Rattle.cgm_atom.specs.Bounds.{IsBoxOf};
ghost use Rattle.cgm_atom.specs.Constraints.{left_by};
ghost use Rattle.cgm_atom.specs.LogState.{all_narrowed, named, narrowed};
ghost use Rattle.cgm_atom.specs.Outcome.{HasNoValues, IsNarrowing, KeepsValues};
ghost use Rattle.cgm_step.specs.Naming.{IsNamedIn, constraint_of};
ghost use Rattle.cgm_step.specs.Touching.{ChangesOnly, hints_before, vars_of_hints};

use crate::indexed::IndexedLog;
use crate::naming::Named;
use cgm_atom::{BoxState, Hint, Narrowed, Problem, narrow_by_atoms, narrow_by_row};

/// Narrows a box by the clause or row that a hint names. A hint that names nothing leaves the box.
///
/// `Conflict` comes where it leaves nothing of the box, which then is as it was, and `Tighter` where a bound
/// has changed. Values of the box that meet the clause or row stay in it. Takes no memory.
/// Condition: the log is accepted, and the box is one of the problem.
pub fn narrow(
    problem: &Problem,
    log: &IndexedLog<'_>,
    bounds: &mut BoxState,
    hint: &Hint,
) -> Narrowed
    requires accepted { IsAcceptedState problem.now log.now }
    requires in_box { IsBoxOf problem.now.bounds bounds.old }
    ensures exact { IsNarrowing (narrowed problem.now log.now bounds.old hint.now) bounds.old
        bounds.new result }
    ensures within { IsBoxOf problem.now.bounds bounds.new }
    ensures kept { KeepsValues (named problem.now log.now hint.now) bounds.old bounds.new }
    ensures conflict { result ≡ Narrowed.Conflict → HasNoValues (named problem.now log.now
        hint.now) bounds.old }
{
    match log.find(problem, hint) {
        Some(found) => narrow_by(problem, bounds, found.named),
        None => Narrowed::Same,
    }
}

/// Narrows a box by a clause or row.
fn narrow_by(problem: &Problem, bounds: &mut BoxState, by: Named<'_>) -> Narrowed
    requires known { IsNamedIn problem.now by }
    requires in_box { IsBoxOf problem.now.bounds bounds.old }
    ensures exact { IsNarrowing (left_by bounds.old (constraint_of by.entry)) bounds.old bounds.new
        result }
    ensures within { IsBoxOf problem.now.bounds bounds.new }
{
    problem.recall_well_formed();
    match by {
        Named::Clause(atoms) => narrow_by_atoms(bounds, atoms),
        Named::Row(row) => narrow_by_row(bounds, row),
    }
}

/// The place, from 0, of the hint that conflicts with what those before it leave, if there is one.
/// The box is then what those before it leave, and otherwise what all leave.
pub(crate) fn conflict_at(
    problem: &Problem,
    log: &IndexedLog<'_>,
    bounds: &mut BoxState,
    hints: &[Hint],
) -> Option<usize>
    requires accepted { IsAcceptedState problem.now log.now }
    requires in_box { IsBoxOf problem.now.bounds bounds.old }
    ensures exact { is_some result ≡ is_none (all_narrowed problem.now log.now bounds.old
        hints.now) }
    ensures place { IfSome result (λ place. place ≤ length hints.now) }
    ensures touched { ChangesOnly (vars_of_hints problem.now log.now
        (hints_before result hints.now))
        bounds.old bounds.new }
    ensures within { IsBoxOf problem.now.bounds bounds.new }
{
    for (i, h) in hints.iter().enumerate() {
        match narrow(problem, log, bounds, h) {
            Narrowed::Conflict => return Some(i),
            Narrowed::Same => {}
            Narrowed::Tighter => {}
        }
    }
    None
}
