// What clauses and rows leave of boxes. `assume` has an atom, and whether it could be assumed, `narrow`
// a hint, and how the box was narrowed by it, `box` the values that are left, and `reset` makes the box
// whole again.
ghost use Rattle.cgm_atom.specs.Bounds.{IsBoxOf};

use crate::words::{atom, hint, parted, range};
use cgm_atom::{BoxState, Hint, Problem, Var};
use cgm_step::{IndexedLog, LogIndex, Narrowed, narrow};
use std::alloc::Global;
use std::test::Fail;

/// Does what each statement says to the box of a problem, and answers the first one that isn't so.
pub(crate) fn failing<'t>(
    alloc: Global,
    problem: &Problem,
    case: &'t str,
) -> Result<Option<&'t str>, Fail> {
    let mut b = BoxState::of(alloc, problem)?;
    Ok(narrow_each(alloc, problem, &mut b, case))
}

fn narrow_each<'t>(
    alloc: Global,
    problem: &Problem,
    bounds: &mut BoxState,
    case: &'t str,
) -> Option<&'t str>
    requires { IsBoxOf problem.now.bounds bounds.old }
{
    for statement in case.split(';') {
        let (head, rest) = parted(statement);
        if !is_met(alloc, problem, bounds, head, rest) {
            return Some(statement);
        }
    }
    None
}

fn is_met(alloc: Global, problem: &Problem, bounds: &mut BoxState, head: &str, rest: &str) -> bool
    requires { IsBoxOf problem.now.bounds bounds.old }
    ensures { IsBoxOf problem.now.bounds bounds.new }
{
    match head {
        "assume" => is_assumed(problem, bounds, rest),
        "narrow" => is_narrowed(alloc, problem, bounds, rest),
        "box" => has_ranges(problem, bounds, rest),
        "reset" => {
            bounds.reset(problem);
            true
        }
        _ => true,
    }
}

fn is_assumed(problem: &Problem, bounds: &mut BoxState, words: &str) -> bool
    requires { IsBoxOf problem.now.bounds bounds.old }
    ensures { IsBoxOf problem.now.bounds bounds.new }
{
    let (a, wanted) = parted(words);
    let a = atom(a);
    if a.var.0 >= problem.vars() {
        return false;
    }
    bounds.assume(a) == (wanted == "= yes")
}

fn is_narrowed(alloc: Global, problem: &Problem, bounds: &mut BoxState, words: &str) -> bool
    requires { IsBoxOf problem.now.bounds bounds.old }
    ensures { IsBoxOf problem.now.bounds bounds.new }
{
    let (by, wanted) = parted(words);
    let narrowed = narrow_by(alloc, problem, bounds, hint(by));
    wanted == answer(narrowed)
}

fn answer(narrowed: Narrowed) -> &'static str {
    match narrowed {
        Narrowed::Same => "= same",
        Narrowed::Tighter => "= tighter",
        Narrowed::Conflict => "= conflict",
    }
}

/// Narrows the box by a hint over the empty log.
fn narrow_by(alloc: Global, problem: &Problem, bounds: &mut BoxState, by: Hint) -> Narrowed
    requires { IsBoxOf problem.now.bounds bounds.old }
    ensures { IsBoxOf problem.now.bounds bounds.new }
{
    let index = LogIndex::new(alloc);
    let log = IndexedLog::of(&[], &index);
    narrow(problem, &log, bounds, &by)
}

/// Whether these are the values of all variables.
pub(crate) fn has_ranges(problem: &Problem, bounds: &BoxState, ranges: &str) -> bool
    requires { IsBoxOf problem.now.bounds bounds.now }
{
    let mut x: u32 = 0;
    for word in ranges.split_whitespace() {
        if x >= problem.vars() {
            return false;
        }
        if (bounds.lo(Var(x)), bounds.hi(Var(x))) != range(word) {
            return false;
        }
        x += 1;
    }
    x == problem.vars()
}
