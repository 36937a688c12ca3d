// Steps of a search on a trail, and what they leave of it. What a step requires is tested when the
// test runs.
ghost use Rattle.std.specs.Prelude.{◌≡◌, ◌<◌, ◌≤◌, ◌+◌, ◌^◌, length, take, IsTrue, IfOk};
ghost use Rattle.cgm_clauses.specs.StoreState.{IsStoreOf};
ghost use Rattle.cgm_trail.specs.Landing.{CanChangesLand, CanReasonLand};
ghost use Rattle.cgm_trail.specs.TrailState.{IsAtRest, IsOpenIn, box_after, box_of, cut_trail, level_of};

use crate::resting::{is_at_rest, is_open};
use crate::words::{atom, count, hint, is_count, parted, place};
use cgm_atom::{Atom, BoxState, Hint, Problem};
use cgm_clauses::ClauseStore;
use cgm_linear::propagate_row;
use cgm_trail::{Change, Reason, Swept, Trail};
use std::alloc::Global;
use std::test::Fail;

const MANY: u64 = 1_000_000;

/// Takes the step of a statement, and says whether it may be taken and answers what is wanted; the
/// statements of other words are passed over.
///
/// `decide` opens a level by an atom, `follow` makes an atom true for a hint, `jump` cuts to a level
/// and makes an atom true there for a hint, `restart` cuts to level 0, and `land` renames the lemmas
/// that the reasons name. `by-clauses` and `by-row` propagate by the store and by a row, with so many steps
/// at most; the answer and the steps that are left follow.
pub(crate) fn take(
    alloc: Global,
    problem: &Problem,
    store: &mut ClauseStore,
    trail: &mut Trail,
    statement: &str,
) -> Result<bool, Fail>
    requires problem { trail.old.problem ≡ problem.now }
    requires store { IsStoreOf problem.now store.old }
    ensures problem { trail.new.problem ≡ problem.now }
    ensures store { IsStoreOf problem.now store.new }
{
    let (head, rest) = parted(statement);
    match head {
        "by-clauses" => sweep_clauses(problem, store, trail, rest),
        other => step(alloc, problem, trail, other, rest),
    }
}

/// Takes a step that no store takes part in.
fn step(
    alloc: Global,
    problem: &Problem,
    trail: &mut Trail,
    head: &str,
    rest: &str,
) -> Result<bool, Fail>
    requires { trail.old.problem ≡ problem.now }
    ensures { trail.new.problem ≡ problem.now }
{
    match head {
        "decide" => decide(alloc, problem, trail, rest),
        "follow" => follow(problem, trail, rest),
        "jump" => jump(alloc, problem, trail, rest),
        "restart" => Ok(restart(problem, trail)),
        "land" => Ok(land(problem, trail, rest)),
        "by-row" => sweep_row(problem, trail, rest),
        _ => Ok(true),
    }
}

/// Whether an atom may be made true: it is open, and moves are left.
pub(crate) fn may_make(problem: &Problem, trail: &Trail, atom: Atom) -> bool
    requires { trail.now.problem ≡ problem.now }
    ensures undecided { IsTrue result → IsOpenIn (box_of trail.now) atom }
    ensures room { IsTrue result → trail.now.moves < 1000000 }
{
    if atom.var.0 >= problem.vars() {
        return false;
    }
    trail.recall_trail();
    if trail.moves() >= MANY {
        return false;
    }
    is_open(trail.state(), atom)
}

/// Whether a level may be opened by an atom: it may be made true, and nothing propagates.
pub(crate) fn may_decide(
    alloc: Global,
    problem: &Problem,
    trail: &Trail,
    atom: Atom,
) -> Result<bool, Fail>
    requires { trail.now.problem ≡ problem.now }
    ensures undecided { IfOk result (λ may. IsTrue may → IsOpenIn (box_of trail.now) atom) }
    ensures room { IfOk result (λ may. IsTrue may → trail.now.moves < 1000000) }
    ensures rest { IfOk result (λ may. IsTrue may → IsAtRest problem.now (box_of trail.now)) }
{
    if !may_make(problem, trail, atom) {
        return Ok(false);
    }
    trail.recall_trail();
    is_at_rest(alloc, problem, trail.state())
}

fn decide(alloc: Global, problem: &Problem, trail: &mut Trail, word: &str) -> Result<bool, Fail>
    requires { trail.old.problem ≡ problem.now }
    ensures { trail.new.problem ≡ problem.now }
{
    let a = atom(word);
    if !may_decide(alloc, problem, trail, a)? {
        return Ok(false);
    }
    trail.open_level(a)?;
    Ok(true)
}

fn follow(problem: &Problem, trail: &mut Trail, words: &str) -> Result<bool, Fail>
    requires { trail.old.problem ≡ problem.now }
    ensures { trail.new.problem ≡ problem.now }
{
    let (by, a) = reasoned(words);
    make(problem, trail, by, a)
}

/// Makes an atom true for a reason, if it may be.
pub(crate) fn make(problem: &Problem, trail: &mut Trail, by: Hint, atom: Atom) -> Result<bool, Fail>
    requires { trail.old.problem ≡ problem.now }
    ensures { trail.new.problem ≡ problem.now }
{
    if !may_make(problem, trail, atom) {
        return Ok(false);
    }
    trail.tighten(atom, by)?;
    Ok(true)
}

/// A hint and an atom.
pub(crate) fn reasoned(words: &str) -> (Hint, Atom) {
    let (by, a) = parted(words);
    (hint(by), atom(a))
}

fn jump(alloc: Global, problem: &Problem, trail: &mut Trail, words: &str) -> Result<bool, Fail>
    requires { trail.old.problem ≡ problem.now }
    ensures { trail.new.problem ≡ problem.now }
{
    let (level, rest) = parted(words);
    let level = count(level);
    let (by, a) = reasoned(rest);
    if !may_jump(alloc, problem, trail, level, a)? {
        return Ok(false);
    }
    trail.jump(level, a, by)?;
    Ok(true)
}

/// Whether a jump to a level may make an atom true: it is open there, and moves are left.
fn may_jump(
    alloc: Global,
    problem: &Problem,
    trail: &Trail,
    level: u64,
    atom: Atom,
) -> Result<bool, Fail>
    requires { trail.now.problem ≡ problem.now }
    ensures earlier { IfOk result (λ may. IsTrue may → level < level_of trail.now.changes) }
    ensures undecided { IfOk result (λ may. IsTrue may → IsOpenIn
        (box_of (cut_trail level trail.now)) atom) }
    ensures room { IfOk result (λ may. IsTrue may → trail.now.moves < 1000000) }
{
    if atom.var.0 >= problem.vars() {
        return Ok(false);
    }
    if level >= trail.level() {
        return Ok(false);
    }
    if trail.moves() >= MANY {
        return Ok(false);
    }
    is_open_at(alloc, trail, level, atom)
}

/// Whether an atom is open in the box before the levels after this one.
fn is_open_at(alloc: Global, trail: &Trail, level: u64, atom: Atom) -> Result<bool, Fail>
    requires known { atom.var.0 < length trail.now.problem.bounds.lower }
    requires earlier { level < level_of trail.now.changes }
    ensures { IfOk result (λ found. IsTrue found → IsOpenIn (box_of (cut_trail level trail.now))
        atom) }
{
    if level >= MANY {
        return Ok(false);
    }
    let b = box_at(alloc, trail, level)?;
    Ok(is_open(&b, atom))
}

fn restart(problem: &Problem, trail: &mut Trail) -> bool
    requires { trail.old.problem ≡ problem.now }
    ensures { trail.new.problem ≡ problem.now }
{
    if trail.moves() >= MANY {
        return false;
    }
    if trail.restarts() >= 1_000 {
        return false;
    }
    trail.restart();
    true
}

fn land(problem: &Problem, trail: &mut Trail, word: &str) -> bool
    requires { trail.old.problem ≡ problem.now }
    ensures { trail.new.problem ≡ problem.now }
{
    let first = count(word);
    if first >= MANY {
        return false;
    }
    if !can_land(trail, first) {
        return false;
    }
    trail.land(first);
    true
}

/// Whether the trail may make so many moves more.
fn has_room(trail: &Trail, left: u64) -> bool
    ensures { IsTrue result → trail.now.moves + left ≤ 2 ^ 62 }
{
    if left >= MANY {
        return false;
    }
    trail.moves() < MANY
}

fn sweep_clauses(
    problem: &Problem,
    store: &mut ClauseStore,
    trail: &mut Trail,
    words: &str,
) -> Result<bool, Fail>
    requires problem { trail.old.problem ≡ problem.now }
    requires store { IsStoreOf problem.now store.old }
    ensures problem { trail.new.problem ≡ problem.now }
    ensures store { IsStoreOf problem.now store.new }
{
    let (steps, wanted) = parted(words);
    let mut left = count(steps);
    if !has_room(trail, left) {
        return Ok(false);
    }
    let swept = store.propagate(trail, &mut left)?;
    Ok(is_answer(problem, swept, left, wanted))
}

fn sweep_row(problem: &Problem, trail: &mut Trail, words: &str) -> Result<bool, Fail>
    requires { trail.old.problem ≡ problem.now }
    ensures { trail.new.problem ≡ problem.now }
{
    let (n, rest) = parted(words);
    let (steps, wanted) = parted(rest);
    let n = place(n);
    if n >= problem.rows() {
        return Ok(false);
    }
    sweep_by(problem, n, trail, count(steps), wanted)
}

fn sweep_by(
    problem: &Problem,
    n: u32,
    trail: &mut Trail,
    steps: u64,
    wanted: &str,
) -> Result<bool, Fail>
    requires problem { trail.old.problem ≡ problem.now }
    requires known { n < length problem.now.rows }
    ensures { trail.new.problem ≡ problem.now }
{
    let mut left = steps;
    if !has_room(trail, left) {
        return Ok(false);
    }
    let swept = propagate_row(problem, n, trail, &mut left)?;
    Ok(is_answer(problem, swept, left, wanted))
}

/// Whether the answer and the steps that are left are the wanted ones. `clause` stands for a conflict
/// with any clause of the problem, and a hint for one with what it names.
fn is_answer(problem: &Problem, swept: Swept, left: u64, wanted: &str) -> bool {
    let (answer, rest) = parted(wanted);
    if !is_count(rest, left) {
        return false;
    }
    match answer {
        "quiet" => swept == Swept::Quiet,
        "spent" => swept == Swept::Spent,
        "clause" => is_clause_of(problem, swept),
        named => swept == Swept::Conflict(hint(named)),
    }
}

fn is_clause_of(problem: &Problem, swept: Swept) -> bool {
    match swept {
        Swept::Conflict(Hint::Clause(n)) => n < problem.clauses(),
        _ => false,
    }
}

/// Whether the lemmas that the reasons name count from 1.
fn can_land(trail: &Trail, first: u64) -> bool
    requires { first < 1000000 }
    ensures { IsTrue result → CanChangesLand first trail.now.changes }
{
    for n in 0..trail.changes() {
        if !can_change_land(trail.change(n), first) {
            return false;
        }
    }
    true
}

fn can_change_land(change: &Change, first: u64) -> bool
    requires { first < 1000000 }
    ensures { IsTrue result → CanReasonLand first change.now.reason }
{
    match change.reason {
        Reason::Decision => true,
        Reason::By(Hint::Own(i)) => i > 0,
        Reason::By(_) => true,
    }
}

/// The box before the levels after this one.
fn box_at(alloc: Global, trail: &Trail, level: u64) -> Result<BoxState, Fail>
    requires known { level < level_of trail.now.changes }
    requires small { level < 1000000 }
    ensures cut { IfOk result (λ b. b ≡ box_of (cut_trail level trail.now)) }
    ensures count { IfOk result (λ b. length b.lower ≡ length trail.now.problem.bounds.lower) }
{
    let mut b = trail.state().copy(alloc)?;
    take_back(trail, &mut b, trail.level_start(level + 1));
    Ok(b)
}

/// Takes back the changes from a number on.
fn take_back(trail: &Trail, bounds: &mut BoxState, from: u64)
    requires state { bounds.old ≡ box_of trail.now }
    requires known { from ≤ length trail.now.changes }
    ensures { bounds.new ≡ box_after trail.now.problem.bounds (take from trail.now.changes) }
{
    let mut at = trail.changes();
    while at > from {
        at -= 1;
        bounds.relax(trail.change(at).earlier());
    }
}
