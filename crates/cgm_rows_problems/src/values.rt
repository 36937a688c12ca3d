// Which values are solutions of a problem: `holds` and values, or `breaks`, what they violate first,
// and values. `sizes` has the numbers of variables, clauses and rows, and `atoms` a clause and the
// atoms that it has. What a problem can't have is told by its variable, a row over it, and `stop`.
ghost use Rattle.std.specs.Prelude.{◌<◌, ◌≤ℤ◌, IfSome};
ghost use Rattle.cgm_atom.specs.Limits.{AreTermsOf};

use crate::problems::{bounds, discard, row_of};
use crate::words::{after, are_atoms, is_count, numbers, parted, place};
use cgm_atom::{BuildStop, Problem, ProblemBuilder, Row, Violated, first_violated, satisfied};
use std::alloc::Global;
use std::test::Fail;

/// The first statement of a case that isn't so of a copy of its problem.
pub(crate) fn failing<'t>(
    alloc: Global,
    problem: &Problem,
    case: &'t str,
) -> Result<Option<&'t str>, Fail> {
    let copy = problem.copy(alloc)?;
    let failing = failing_of(alloc, &copy, case);
    discard(copy);
    failing
}

fn failing_of<'t>(
    alloc: Global,
    problem: &Problem,
    case: &'t str,
) -> Result<Option<&'t str>, Fail> {
    for statement in case.split(';') {
        if !is_met(alloc, problem, statement)? {
            return Ok(Some(statement));
        }
    }
    Ok(None)
}

/// Whether a statement about values is met.
fn is_met(alloc: Global, problem: &Problem, statement: &str) -> Result<bool, Fail> {
    let (head, rest) = parted(statement);
    match head {
        "holds" => is_solved(alloc, problem, rest),
        "breaks" => is_broken(alloc, problem, rest),
        "sizes" => Ok(has_sizes(problem, rest)),
        "atoms" => Ok(has_atoms(problem, rest)),
        _ => Ok(true),
    }
}

fn is_solved(alloc: Global, problem: &Problem, values: &str) -> Result<bool, Fail> {
    Ok(satisfied(problem, numbers(alloc, values)?.as_slice()))
}

fn is_broken(alloc: Global, problem: &Problem, rest: &str) -> Result<bool, Fail> {
    match rest.split_once(" : ") {
        None => Err(Fail::new("no values")),
        Some((part, values)) => breaks(alloc, problem, violated(part), values),
    }
}

/// Whether the values violate this first.
fn breaks(alloc: Global, problem: &Problem, first: Violated, values: &str) -> Result<bool, Fail> {
    let values = numbers(alloc, values)?;
    if satisfied(problem, values.as_slice()) {
        return Ok(false);
    }
    Ok(first_violated(problem, values.as_slice()) == Some(first))
}

fn violated(words: &str) -> Violated {
    match parted(words) {
        ("bound", x) => Violated::Bound(place(x)),
        ("clause", n) => Violated::Clause(place(n)),
        ("row", n) => Violated::Row(place(n)),
        ("count", _) => Violated::Count,
        _ => Violated::Bound(u32::MAX),
    }
}

fn has_sizes(problem: &Problem, words: &str) -> bool {
    let (variables, rest) = parted(words);
    let (clauses, rows) = parted(rest);
    is_count(variables, u64::from(problem.vars()))
        && is_count(clauses, u64::from(problem.clauses()))
        && is_count(rows, u64::from(problem.rows()))
}

fn has_atoms(problem: &Problem, words: &str) -> bool {
    let (n, wanted) = parted(words);
    let n = place(n);
    if n >= problem.clauses() {
        return false;
    }
    are_atoms(wanted, problem.clause(n).atoms.as_slice())
}

/// Whether the builder refuses a case's variable or row as it says.
pub(crate) fn is_stopped(alloc: Global, case: &str) -> Result<bool, Fail> {
    let (lo, hi) = bounds(after(case, "vars"))?;
    let row = row_of(alloc, 1, after(case, "row"))?;
    Ok(stop_at(alloc, lo, hi, row) == stop(after(case, "stop")))
}

fn stop(word: &str) -> Option<BuildStop> {
    match word {
        "bound" => Some(BuildStop::Bound),
        "row" => Some(BuildStop::Row),
        _ => None,
    }
}

/// Why the builder refuses a variable with these bounds or a row over it.
fn stop_at(alloc: Global, lo: i64, hi: i64, row: Row) -> Option<BuildStop>
    requires ordered { lo ≤ℤ hi }
    requires guard { IfSome row.guard (λ g. g.var.0 < 1) }
    requires terms { AreTermsOf 1 row.terms }
{
    let mut builder = ProblemBuilder::new(alloc);
    match builder.var(lo, hi) {
        Err(stop) => Some(stop),
        Ok(_) => match builder.row(row) {
            Err(stop) => Some(stop),
            Ok(_) => None,
        },
    }
}
