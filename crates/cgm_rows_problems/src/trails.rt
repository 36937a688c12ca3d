// The driver of trails: a case has statements of a problem, of a store, of steps, of decisions, and
// of what stands after them. `counts` has
// the moves, the level, the restarts and the changes of the trail, `bounds` the values that are left
// to each variable, `start` a level and the number of its first change, and `change` a number, an
// atom, the bound that it had, and the reason, `d` for a decision.
ghost use Rattle.std.specs.Prelude.{◌≡◌, ◌<◌, length};
ghost use Rattle.cgm_atom.specs.Instance.{var_count};
ghost use Rattle.cgm_clauses.specs.StoreState.{IsStoreOf};

use crate::choices::is_chosen;
use crate::narrowing::has_ranges;
use crate::steps::take;
use crate::stores::store_of;
use crate::words::{atom, count, hint, is_count, number, parted};
use cgm_atom::{Atom, Problem};
use cgm_clauses::ClauseStore;
use cgm_split::Activity;
use cgm_trail::{Change, Reason, Trail};
use std::alloc::Global;
use std::test::Fail;

/// Takes the steps of a case, and answers the first statement that isn't so.
pub(crate) fn failing<'t>(
    alloc: Global,
    problem: &Problem,
    case: &'t str,
) -> Result<Option<&'t str>, Fail> {
    let mut s = store_of(alloc, problem, case)?;
    failing_over(alloc, problem, &mut s, case)
}

fn failing_over<'t>(
    alloc: Global,
    problem: &Problem,
    store: &mut ClauseStore,
    case: &'t str,
) -> Result<Option<&'t str>, Fail>
    requires { IsStoreOf problem.now store.old }
{
    let mut t = Trail::new(alloc, problem)?;
    failing_on(alloc, problem, store, &mut t, case)
}

fn failing_on<'t>(
    alloc: Global,
    problem: &Problem,
    store: &mut ClauseStore,
    trail: &mut Trail,
    case: &'t str,
) -> Result<Option<&'t str>, Fail>
    requires problem { trail.old.problem ≡ problem.now }
    requires store { IsStoreOf problem.now store.old }
{
    let mut activity = Activity::new(alloc, problem, 0, 0)?;
    follow_all(alloc, problem, store, trail, &mut activity, case)
}

fn follow_all<'t>(
    alloc: Global,
    problem: &Problem,
    store: &mut ClauseStore,
    trail: &mut Trail,
    activity: &mut Activity,
    case: &'t str,
) -> Result<Option<&'t str>, Fail>
    requires problem { trail.old.problem ≡ problem.now }
    requires store { IsStoreOf problem.now store.old }
    requires order { length activity.old.weights ≡ var_count problem.now }
{
    for statement in case.split(';') {
        if !is_so(alloc, problem, store, trail, activity, statement)? {
            return Ok(Some(statement));
        }
    }
    Ok(None)
}

/// Whether a statement's step may be taken, and what it says is so.
fn is_so(
    alloc: Global,
    problem: &Problem,
    store: &mut ClauseStore,
    trail: &mut Trail,
    activity: &mut Activity,
    statement: &str,
) -> Result<bool, Fail>
    requires problem { trail.old.problem ≡ problem.now }
    requires store { IsStoreOf problem.now store.old }
    requires order { length activity.old.weights ≡ var_count problem.now }
    ensures problem { trail.new.problem ≡ problem.now }
    ensures store { IsStoreOf problem.now store.new }
    ensures order { length activity.new.weights ≡ var_count problem.now }
{
    if !take(alloc, problem, store, trail, statement)? {
        return Ok(false);
    }
    if !is_chosen(alloc, problem, trail, activity, statement)? {
        return Ok(false);
    }
    Ok(is_met(problem, trail, statement))
}

/// Whether what a statement says of the trail is so.
fn is_met(problem: &Problem, trail: &Trail, statement: &str) -> bool
    requires { trail.now.problem ≡ problem.now }
{
    let (head, rest) = parted(statement);
    match head {
        "counts" => has_counts(trail, rest),
        "bounds" => has_bounds(problem, trail, rest),
        "start" => has_start(trail, rest),
        "change" => has_change(trail, rest),
        _ => true,
    }
}

fn has_counts(trail: &Trail, words: &str) -> bool {
    let (moves, rest) = parted(words);
    let (level, rest) = parted(rest);
    let (restarts, changes) = parted(rest);
    is_count(moves, trail.moves())
        && is_count(level, trail.level())
        && is_count(restarts, u64::from(trail.restarts()))
        && is_count(changes, trail.changes())
}

/// Whether the box of the trail is one of those that are told, parted by `or`.
fn has_bounds(problem: &Problem, trail: &Trail, words: &str) -> bool
    requires { trail.now.problem ≡ problem.now }
{
    trail.recall_trail();
    for ranges in words.split('|') {
        if has_ranges(problem, trail.state(), ranges) {
            return true;
        }
    }
    false
}

fn has_start(trail: &Trail, words: &str) -> bool {
    let (level, start) = parted(words);
    let level = count(level);
    if level > trail.level() {
        return false;
    }
    is_count(start, trail.level_start(level))
}

fn has_change(trail: &Trail, words: &str) -> bool {
    let (n, rest) = parted(words);
    let n = count(n);
    if n >= trail.changes() {
        return false;
    }
    is_change(trail.change(n), change(rest))
}

/// Whether this is the change, and keeps its earlier bound.
fn is_change(found: &Change, wanted: Change) -> bool {
    let was = Atom {
        var: wanted.atom.var,
        at_least: wanted.atom.at_least,
        k: wanted.was,
    };
    *found == wanted && found.earlier() == was
}

fn change(words: &str) -> Change {
    let (a, rest) = parted(words);
    let (was, by) = parted(rest);
    Change {
        atom: atom(a),
        was: number(was),
        reason: reason(by),
    }
}

fn reason(word: &str) -> Reason {
    match word {
        "d" => Reason::Decision,
        by => Reason::By(hint(by)),
    }
}
