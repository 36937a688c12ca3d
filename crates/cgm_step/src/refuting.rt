//! Whether hints refute the negation of a clause, on the problem's own box.
ghost use Rattle.std.specs.Prelude.{◌≡◌, ◌≤◌, length, map, Some, None, MatchBool, IfSome};
ghost use Rattle.cgm_atom.specs.Acceptance.{IsAcceptedState, is_refuted};
ghost use Rattle.cgm_atom.specs.Atoms.{negation};
ghost use Rattle.cgm_atom.specs.Bounds.{Bounds, IsBoxOf};
ghost use Rattle.cgm_atom.specs.ClauseAtoms.{AreKnown};
ghost use Rattle.cgm_atom.specs.Instance.{var_count};
ghost use Rattle.cgm_atom.specs.Narrowing.{all_assumed};
ghost use Rattle.cgm_step.specs.Touching.{ChangesOnly, hints_before, vars_of_atoms};

use crate::indexed::IndexedLog;
use crate::narrowing::conflict_at;
use crate::restoring::{restore_atoms, restore_hints};
use cgm_atom::{Atom, BoxState, ClauseAtoms, Hint, Problem, make_true, negated};

/// Whether the hints, in their order, reach conflict from the box with each atom's negation.
/// The box is the problem's own, and is so again afterwards.
pub(crate) fn refutes(
    problem: &Problem,
    log: &IndexedLog<'_>,
    work: &mut BoxState,
    atoms: &[Atom],
    hints: &[Hint],
) -> bool
    requires accepted { IsAcceptedState problem.now log.now }
    requires own_box { work.old ≡ problem.now.bounds }
    requires known { AreKnown (var_count problem.now) atoms.now }
    ensures exact { result ≡ is_refuted problem.now log.now (record { atoms = atoms.now })
        hints.now }
    ensures own_box { work.new ≡ problem.now.bounds }
{
    problem.recall_well_formed();
    if !assume_negations(work, atoms) {
        restore_atoms(problem, work, ClauseAtoms::Listed(atoms));
        return true;
    }
    let conflict = conflict_at(problem, log, work, hints);
    restore_atoms(problem, work, ClauseAtoms::Listed(atoms));
    restore_hints(problem, log, work, used_hints(hints, conflict));
    conflict.is_some()
}

/// The hints before the one in conflict, if one is, else all.
fn used_hints(hints: &[Hint], conflict: Option<usize>) -> &[Hint]
    requires { IfSome conflict (λ place. place ≤ length hints.now) }
    ensures { result.now ≡ hints_before conflict hints.now }
{
    match conflict {
        Some(place) => &hints[..place],
        None => hints,
    }
}

/// Makes the negations of the atoms true, in their order. Answers false where one is false.
fn assume_negations(bounds: &mut BoxState, atoms: &[Atom]) -> bool
    requires { AreKnown (length bounds.old.lower) atoms.now }
    ensures exact { MatchBool result
        (all_assumed bounds.old (map negation atoms.now) ≡ Some bounds.new)
        (all_assumed bounds.old (map negation atoms.now) ≡ None) }
    ensures touched { ChangesOnly (vars_of_atoms atoms.now) bounds.old bounds.new }
    ensures within { (limits : Bounds) → IsBoxOf limits bounds.old → IsBoxOf limits bounds.new }
{
    for a in atoms {
        match negated(bounds, *a) {
            Some(opposite) => make_true(bounds, opposite),
            None => return false,
        };
    }
    true
}
