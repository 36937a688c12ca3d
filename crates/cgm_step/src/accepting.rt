//! The test of the next entry of a log.
ghost use Rattle.std.specs.Prelude.{◌≡◌, ◌+◌, ◌<◌, ◌==◌, length, map, nat_lt, not, Some, None, MatchBool, IfOk, OnOk};
ghost use Rattle.std.specs.List.{All, position_from};
ghost use Rattle.std.specs.Option.{is_none, option_map};
ghost use Rattle.cgm_atom.specs.declared.entries.BadStep.TheVariants as fault;
ghost use Rattle.cgm_atom.specs.declared.entries.Entry.TheVariants as entry;
ghost use Rattle.cgm_atom.specs.Acceptance.{IsAcceptedState, fault_of, first_fault, is_refuted};
ghost use Rattle.cgm_atom.specs.Instance.{fault_unless, first_violation, values_at, var_count, vector};
ghost use Rattle.cgm_atom.specs.LogState.{greatest_carried, last_best, named};
ghost use Rattle.cgm_atom.specs.Order.{is_below, is_less as is_less_vector};
ghost use Rattle.cgm_atom.specs.ClauseAtoms.{AreKnown};
ghost use Rattle.cgm_atom.specs.Limits.{AreValuesOf};
ghost use Rattle.cgm_step.specs.Outcome.{IsVerdict};

use crate::indexed::IndexedLog;
use crate::refuting::refutes;
use cgm_atom::{
    Atom, BadStep, BoxState, Clause, Entry, Hint, Problem, Var, Violated, first_violated,
    make_true, negated,
};

/// Tests the next entry of a log: answers the fault of the first test that it fails, in their order.
///
/// For a best: no lemma without atoms stands before it, its values are a solution, and its vector is less than
/// that of the last best. For a lemma: none without atoms stands before it, its variables exist, its hints name
/// something, its bound is the greatest that they carry, and they refute it.
/// Takes no memory: what a lemma's atoms and the hints that were used have touched of `work` is taken back.
/// Condition: the log is accepted, and `work` is the problem's own box, which it is again afterwards.
#[tactic(auto, unfolding(cgm_atom::specs::Acceptance::first_fault))]
pub fn accepts_next(
    problem: &Problem,
    log: &IndexedLog<'_>,
    next: &Entry,
    work: &mut BoxState,
) -> Result<(), BadStep>
    requires accepted { IsAcceptedState problem.now log.now }
    requires own_box { work.old ≡ problem.now.bounds }
    ensures exact { IsVerdict (first_fault problem.now log.now next.now) result }
    ensures own_box { work.new ≡ problem.now.bounds }
{
    match next {
        Entry::Best { values, .. } => accepts_best(problem, log, values.as_slice()),
        Entry::Lemma {
            clause,
            hints,
            bound,
            ..
        } => accepts_lemma(problem, log, clause, hints.as_slice(), *bound, work),
    }
}

#[tactic(auto, unfolding(cgm_atom::specs::Acceptance::first_fault))]
fn accepts_best(problem: &Problem, log: &IndexedLog<'_>, values: &[i64]) -> Result<(), BadStep>
    requires accepted { IsAcceptedState problem.now log.now }
    ensures { IsVerdict (first_fault problem.now log.now (entry.Best 0 values.now)) result }
{
    test_open(log)?;
    test_values(problem, values)?;
    test_less(problem, log, values)
}

#[tactic(auto, unfolding(cgm_atom::specs::Acceptance::first_fault))]
fn accepts_lemma(
    problem: &Problem,
    log: &IndexedLog<'_>,
    clause: &Clause,
    hints: &[Hint],
    bound: u64,
    work: &mut BoxState,
) -> Result<(), BadStep>
    requires accepted { IsAcceptedState problem.now log.now }
    requires own_box { work.old ≡ problem.now.bounds }
    ensures exact { IsVerdict (first_fault problem.now log.now (entry.Lemma 0 clause.now
        hints.now bound)) result }
    ensures own_box { work.new ≡ problem.now.bounds }
{
    test_open(log)?;
    test_atoms(problem, clause.atoms.as_slice())?;
    let found = test_hints(problem, log, hints)?;
    test_bound(found, bound)?;
    test_refuted(problem, log, clause, hints, work)
}

/// No lemma without atoms stands in the log.
fn test_open(log: &IndexedLog<'_>) -> Result<(), BadStep>
    ensures { IsVerdict (fault_unless (not log.now.closed) fault.AfterEnd) result }
{
    if log.is_closed() {
        return Err(BadStep::AfterEnd);
    }
    Ok(())
}

/// The values are a solution.
fn test_values(problem: &Problem, values: &[i64]) -> Result<(), BadStep>
    ensures exact { IsVerdict (option_map (fault_of (length values.now))
        (first_violation problem.now
        values.now)) result }
    ensures fit { OnOk result (AreValuesOf problem.now values.now) }
{
    problem.recall_well_formed();
    match first_violated(problem, values) {
        Some(violated) => Err(fault_for(values.len() as u64, violated)),
        None => Ok(()),
    }
}

fn fault_for(given: u64, violated: Violated) -> BadStep
    ensures { result ≡ fault_of given violated }
{
    match violated {
        Violated::Count => BadStep::Values { given },
        Violated::Bound(var) => BadStep::Bounds { var },
        Violated::Clause(number) => BadStep::Clause { number },
        Violated::Row(number) => BadStep::Row { number },
    }
}

/// The vector of the values is less than that of the last best, if there is one.
fn test_less(problem: &Problem, log: &IndexedLog<'_>, values: &[i64]) -> Result<(), BadStep>
    requires accepted { IsAcceptedState problem.now log.now }
    requires values { AreValuesOf problem.now values.now }
    ensures { IsVerdict
        (fault_unless (is_below (vector problem.now values.now)
        (option_map (vector problem.now) (last_best log.now))) fault.NotLess)
        result }
{
    let objectives = problem.objectives();
    match log.last_best() {
        Some(best) => {
            if is_less(objectives, values, best) {
                return Ok(());
            }
            Err(BadStep::NotLess)
        }
        None => Ok(()),
    }
}

/// Whether the objective values are less than those of the others, in their order.
/// Condition: each objective has a value in both.
pub fn is_less(objectives: &[Var], values: &[i64], others: &[i64]) -> bool
    requires known { All (λ v. v.0 < length values.now) objectives.now }
    requires others_known { All (λ v. v.0 < length others.now) objectives.now }
    ensures { result ≡ is_less_vector (values_at values.now objectives.now) (values_at others.now
        objectives.now) }
{
    for objective in objectives {
        let at = objective.0 as usize;
        if values[at] < others[at] {
            return true;
        }
        if others[at] < values[at] {
            return false;
        }
    }
    false
}

/// The variables of the atoms exist.
fn test_atoms(problem: &Problem, atoms: &[Atom]) -> Result<(), BadStep>
    ensures exact { IsVerdict
        (option_map (λ i. fault.Atom (i + 1)) (position_from
        (λ a. not (nat_lt a.var.0 (var_count problem.now))) 0 atoms.now))
        result }
    ensures known { OnOk result (AreKnown (var_count problem.now) atoms.now) }
{
    for (i, a) in atoms.iter().enumerate() {
        let place = i as u64 + 1;
        if a.var.0 >= problem.vars() {
            return Err(BadStep::Atom { place });
        }
    }
    Ok(())
}

/// The hints name something. Answers the greatest that they carry.
fn test_hints<'l>(
    problem: &'l Problem,
    log: &IndexedLog<'l>,
    hints: &[Hint],
) -> Result<u64, BadStep>
    requires accepted { IsAcceptedState problem.now log.now }
    ensures exact { IsVerdict
        (option_map (λ i. fault.Hint (i + 1)) (position_from
        (λ h. is_none (named problem.now log.now h)) 0 hints.now))
        result }
    ensures greatest { IfOk result (λ found. found ≡ greatest_carried log.now hints.now) }
{
    let mut greatest = 0;
    for (i, h) in hints.iter().enumerate() {
        let place = i as u64 + 1;
        match log.find(problem, h) {
            Some(found) => greatest = found.carried.max(greatest),
            None => return Err(BadStep::Hint { place }),
        }
    }
    Ok(greatest)
}

/// The bound is the greatest that the hints carry.
fn test_bound(found: u64, bound: u64) -> Result<(), BadStep>
    ensures { IsVerdict (fault_unless (bound == found) (fault.Bound found)) result }
{
    if bound == found {
        return Ok(());
    }
    Err(BadStep::Bound { found })
}

/// From the problem's bounds with each atom's negation, the hints reach conflict.
fn test_refuted(
    problem: &Problem,
    log: &IndexedLog<'_>,
    clause: &Clause,
    hints: &[Hint],
    work: &mut BoxState,
) -> Result<(), BadStep>
    requires accepted { IsAcceptedState problem.now log.now }
    requires own_box { work.old ≡ problem.now.bounds }
    requires known { AreKnown (var_count problem.now) clause.now.atoms }
    ensures exact { IsVerdict (fault_unless (is_refuted problem.now log.now clause.now hints.now)
        fault.NoConflict) result }
    ensures own_box { work.new ≡ problem.now.bounds }
{
    if refutes(problem, log, work, clause.atoms.as_slice(), hints) {
        return Ok(());
    }
    Err(BadStep::NoConflict)
}
