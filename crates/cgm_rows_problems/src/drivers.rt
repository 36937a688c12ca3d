// Cases: the problem of each, and what is done with it.
use crate::problems::{discard, problem_of};
use crate::{histories, lessons, narrowing, runs, trails, values, verdicts};
use cgm_atom::Problem;
use std::alloc::Global;
use std::process::Abort;
use std::test::Fail;

/// What a case does with its problem: the statements are those of the module.
#[derive(Clone, Copy)]
pub(crate) enum Driver {
    Histories,
    Narrowing,
    Lessons,
    Runs,
    Trails,
    Values,
    Verdicts,
}

/// Asserts each case, behind the statements that all of them begin with.
pub(crate) fn hold(
    rt: &impl Abort,
    alloc: Global,
    driver: Driver,
    front: &str,
    cases: &[&str],
) -> Result<(), Fail> {
    for case in cases {
        let text = format!(in alloc; "{front}{case}")?;
        let failing = failing(alloc, driver, text.as_str())?;
        assert!(rt; failing.is_none(), "at {failing:?} in {case}");
    }
    Ok(())
}

/// The first statement of a case that isn't so, or the whole case where it isn't told by statements.
fn failing<'t>(alloc: Global, driver: Driver, text: &'t str) -> Result<Option<&'t str>, Fail> {
    let p = problem_of(alloc, text)?;
    let failing = failing_over(alloc, driver, &p, text);
    discard(p);
    failing
}

fn failing_over<'t>(
    alloc: Global,
    driver: Driver,
    problem: &Problem,
    text: &'t str,
) -> Result<Option<&'t str>, Fail> {
    match driver {
        Driver::Histories => histories::failing(alloc, problem, text),
        Driver::Narrowing => narrowing::failing(alloc, problem, text),
        Driver::Trails => trails::failing(alloc, problem, text),
        Driver::Values => values::failing(alloc, problem, text),
        Driver::Lessons => Ok(unless(lessons::is_taught(alloc, problem, text)?, text)),
        Driver::Runs => Ok(unless(runs::has_ended(alloc, problem, text)?, text)),
        Driver::Verdicts => Ok(unless(verdicts::is_told(alloc, problem, text)?, text)),
    }
}

/// The text, unless it holds.
fn unless(holds: bool, text: &str) -> Option<&str> {
    if holds { None } else { Some(text) }
}
