// Trails that are made step by step, and what a conflict at their end teaches. `decide` has an atom,
// `follow` a hint and an atom that narrowing by it gives, `conflict` a hint. `lemma` has the atoms and
// the hints of what is learned, and `back` its bound and the level to which it leads back.
ghost use Rattle.std.specs.Prelude.{◌≡◌, false, OnOk};
ghost use Rattle.cgm_atom.specs.Acceptance.{IsAcceptedState};
ghost use Rattle.cgm_rows_problems.specs.Driving.{IsDriven};

use crate::given::{is_conflict, is_given};
use crate::steps::{may_decide, may_make, reasoned};
use crate::words::{after, are_atoms, are_hints, atom, hint, is_count, parted};
use cgm_atom::{Atom, Hint, Problem};
use cgm_learn::{Learned, analyse};
use cgm_step::{IndexedLog, LogIndex};
use cgm_trail::Trail;
use std::alloc::Global;
use std::test::Fail;

/// Opens a level by a decision.
fn decide(
    alloc: Global,
    problem: &Problem,
    log: &IndexedLog<'_>,
    trail: &mut Trail,
    atom: Atom,
) -> Result<(), Fail>
    requires { IsDriven problem.now log.now trail.old }
    ensures { OnOk result (IsDriven problem.now log.now trail.new) }
{
    if !may_decide(alloc, problem, trail, atom)? {
        return Err(Fail::new("no decision"));
    }
    trail.open_level(atom)?;
    Ok(())
}

/// Makes an atom true that narrowing by a hint gives.
fn follow(
    alloc: Global,
    problem: &Problem,
    log: &IndexedLog<'_>,
    trail: &mut Trail,
    by: Hint,
    atom: Atom,
) -> Result<(), Fail>
    requires accepted { IsAcceptedState problem.now log.now }
    requires driven { IsDriven problem.now log.now trail.old }
    ensures { OnOk result (IsDriven problem.now log.now trail.new) }
{
    if !may_make(problem, trail, atom) {
        return Err(Fail::new("no open atom"));
    }
    trail.recall_trail();
    if !is_given(alloc, problem, log, trail.state(), &by, atom)? {
        return Err(Fail::new("no atom that the hint gives"));
    }
    trail.tighten(atom, by)?;
    Ok(())
}

fn take(
    alloc: Global,
    problem: &Problem,
    log: &IndexedLog<'_>,
    trail: &mut Trail,
    statement: &str,
) -> Result<(), Fail>
    requires accepted { IsAcceptedState problem.now log.now }
    requires driven { IsDriven problem.now log.now trail.old }
    ensures { OnOk result (IsDriven problem.now log.now trail.new) }
{
    let (head, rest) = parted(statement);
    match head {
        "decide" => decide(alloc, problem, log, trail, atom(rest)),
        "follow" => {
            let (by, a) = reasoned(rest);
            follow(alloc, problem, log, trail, by, a)
        }
        _ => Ok(()),
    }
}

/// Takes the steps of a text.
fn drive(
    alloc: Global,
    problem: &Problem,
    log: &IndexedLog<'_>,
    trail: &mut Trail,
    text: &str,
) -> Result<(), Fail>
    requires accepted { IsAcceptedState problem.now log.now }
    requires driven { IsDriven problem.now log.now trail.old }
    ensures { OnOk result (IsDriven problem.now log.now trail.new) }
{
    for statement in text.split(';') {
        take(alloc, problem, log, trail, statement)?;
    }
    Ok(())
}

/// What a conflict teaches that ends a trail.
fn taught(
    alloc: Global,
    problem: &Problem,
    log: &IndexedLog<'_>,
    trail: &Trail,
    conflict: &Hint,
) -> Result<Learned, Fail>
    requires accepted { IsAcceptedState problem.now log.now }
    requires still_open { log.now.closed ≡ false }
    requires driven { IsDriven problem.now log.now trail.now }
{
    trail.recall_trail();
    if !is_conflict(alloc, problem, log, trail.state(), conflict)? {
        return Err(Fail::new("no conflict"));
    }
    Ok(analyse(alloc, problem, trail, log, &[], conflict)?)
}

/// What a conflict after some steps teaches, over a log.
fn taught_after(
    alloc: Global,
    problem: &Problem,
    log: &IndexedLog<'_>,
    text: &str,
    conflict: &Hint,
) -> Result<Learned, Fail>
    requires accepted { IsAcceptedState problem.now log.now }
    requires still_open { log.now.closed ≡ false }
{
    let mut t = Trail::new(alloc, problem)?;
    drive(alloc, problem, log, &mut t, text)?;
    taught(alloc, problem, log, &t, conflict)
}

/// What a conflict after some steps teaches, over the empty log.
fn lesson(alloc: Global, problem: &Problem, text: &str) -> Result<Learned, Fail> {
    let conflict = hint(after(text, "conflict"));
    let index = LogIndex::new(alloc);
    let log = IndexedLog::of(&[], &index);
    taught_after(alloc, problem, &log, text, &conflict)
}

/// Whether the lesson of a case is what it says.
pub(crate) fn is_taught(alloc: Global, problem: &Problem, text: &str) -> Result<bool, Fail> {
    let l = lesson(alloc, problem, text)?;
    Ok(is_lesson(&l, after(text, "lemma"), after(text, "back")))
}

fn is_lesson(learned: &Learned, lemma: &str, back: &str) -> bool {
    let (bound, level) = parted(back);
    if !is_count(bound, learned.bound) {
        return false;
    }
    if !is_count(level, learned.level) {
        return false;
    }
    match lemma.split_once(": ") {
        None => false,
        Some((wanted, named)) => is_lemma(learned, wanted, named),
    }
}

fn is_lemma(learned: &Learned, wanted: &str, named: &str) -> bool {
    if !are_atoms(wanted, learned.clause.atoms.as_slice()) {
        return false;
    }
    are_hints(named, learned.hints.as_slice())
}
