//! Giving variables the problem's bounds again.
ghost use Rattle.std.specs.Prelude.{◌<◌, ◌++◌, ◌∷◌, ℕ, List, IfSome};
ghost use Rattle.cgm_atom.specs.Acceptance.{IsAcceptedState};
ghost use Rattle.cgm_atom.specs.Bounds.{IsBoxOf};
ghost use Rattle.cgm_atom.specs.ClauseAtoms.{AreKnown, IsReadable, atoms_of};
ghost use Rattle.cgm_atom.specs.Instance.{var_count};
ghost use Rattle.cgm_atom.specs.Limits.{AreTermsOf, IsRowOf};
ghost use Rattle.cgm_step.specs.Naming.{IsNamedIn, constraint_of};
ghost use Rattle.cgm_step.specs.Touching.{ChangesOnly, vars_of, vars_of_atoms, vars_of_guard, vars_of_hint, vars_of_hints, vars_of_terms};

use crate::indexed::IndexedLog;
use crate::naming::Named;
use cgm_atom::{Atom, BoxState, ClauseAtoms, Hint, Problem, Var};

/// Gives one variable the problem's bounds again.
fn restore(problem: &Problem, bounds: &mut BoxState, variable: Var)
    requires known { variable.0 < var_count problem.now }
    requires in_box { IsBoxOf problem.now.bounds bounds.old }
    ensures after { (vars : List ℕ) → ChangesOnly (variable.0 ∷ vars) problem.now.bounds bounds.old
        → ChangesOnly vars problem.now.bounds bounds.new }
    ensures within { IsBoxOf problem.now.bounds bounds.new }
{
    let (lo, hi) = problem.bounds(variable);
    bounds.relax(Atom {
        var: variable,
        at_least: true,
        k: lo,
    });
    bounds.relax(Atom {
        var: variable,
        at_least: false,
        k: hi,
    });
}

/// Gives the variables of a clause's atoms the problem's bounds again.
pub(crate) fn restore_atoms(problem: &Problem, bounds: &mut BoxState, atoms: ClauseAtoms<'_>)
    requires readable { IsReadable atoms }
    requires known { AreKnown (var_count problem.now) (atoms_of atoms) }
    requires in_box { IsBoxOf problem.now.bounds bounds.old }
    ensures after { (vars : List ℕ)
        → ChangesOnly (vars_of_atoms (atoms_of atoms.entry) ++ vars) problem.now.bounds bounds.old
        → ChangesOnly vars problem.now.bounds bounds.new }
    ensures within { IsBoxOf problem.now.bounds bounds.new }
{
    for i in 0..atoms.count() {
        restore(problem, bounds, atoms.atom(i).var);
    }
}

fn restore_terms(problem: &Problem, bounds: &mut BoxState, terms: &[(i64, Var)])
    requires known { AreTermsOf (var_count problem.now) terms.now }
    requires in_box { IsBoxOf problem.now.bounds bounds.old }
    ensures after { (vars : List ℕ)
        → ChangesOnly (vars_of_terms terms.now ++ vars) problem.now.bounds bounds.old
        → ChangesOnly vars problem.now.bounds bounds.new }
    ensures within { IsBoxOf problem.now.bounds bounds.new }
{
    for term in terms {
        restore(problem, bounds, term.1);
    }
}

fn restore_guard(problem: &Problem, bounds: &mut BoxState, guard: Option<Atom>)
    requires known { IfSome guard (λ g. g.var.0 < var_count problem.now) }
    requires in_box { IsBoxOf problem.now.bounds bounds.old }
    ensures after { (vars : List ℕ)
        → ChangesOnly (vars_of_guard guard ++ vars) problem.now.bounds bounds.old
        → ChangesOnly vars problem.now.bounds bounds.new }
    ensures within { IsBoxOf problem.now.bounds bounds.new }
{
    match guard {
        None => {}
        Some(g) => restore(problem, bounds, g.var),
    }
}

/// Gives the variables of a clause or row the problem's bounds again.
fn restore_named(problem: &Problem, bounds: &mut BoxState, named: Named<'_>)
    requires known { IsNamedIn problem.now named }
    requires in_box { IsBoxOf problem.now.bounds bounds.old }
    ensures after { (vars : List ℕ)
        → ChangesOnly (vars_of (constraint_of named.entry) ++ vars) problem.now.bounds bounds.old
        → ChangesOnly vars problem.now.bounds bounds.new }
    ensures within { IsBoxOf problem.now.bounds bounds.new }
{
    match named {
        Named::Clause(atoms) => restore_atoms(problem, bounds, atoms),
        Named::Row(row) => {
            restore_guard(problem, bounds, row.guard);
            restore_terms(problem, bounds, row.terms.as_slice());
        }
    }
}

fn restore_hint(problem: &Problem, log: &IndexedLog<'_>, bounds: &mut BoxState, hint: &Hint)
    requires accepted { IsAcceptedState problem.now log.now }
    requires in_box { IsBoxOf problem.now.bounds bounds.old }
    ensures after { (vars : List ℕ)
        → ChangesOnly (vars_of_hint problem.now log.now hint.now ++ vars) problem.now.bounds
        bounds.old
        → ChangesOnly vars problem.now.bounds bounds.new }
    ensures within { IsBoxOf problem.now.bounds bounds.new }
{
    match log.find(problem, hint) {
        Some(found) => restore_named(problem, bounds, found.named),
        None => {}
    }
}

/// Gives the variables of what the hints name the problem's bounds again.
pub(crate) fn restore_hints(
    problem: &Problem,
    log: &IndexedLog<'_>,
    bounds: &mut BoxState,
    hints: &[Hint],
)
    requires accepted { IsAcceptedState problem.now log.now }
    requires in_box { IsBoxOf problem.now.bounds bounds.old }
    ensures after { (vars : List ℕ)
        → ChangesOnly (vars_of_hints problem.now log.now hints.now ++ vars) problem.now.bounds
        bounds.old
        → ChangesOnly vars problem.now.bounds bounds.new }
    ensures within { IsBoxOf problem.now.bounds bounds.new }
{
    for h in hints {
        restore_hint(problem, log, bounds, h);
    }
}
