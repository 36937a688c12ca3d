// What is asked of a model: `by` has an assignment and the first rule that it breaks, or `none`, and
// `fits` an assignment and whether it fits; the answer stands behind `=`.
use crate::assignments::{assignment, parted};
use cgm_model::{Assignment, Broken, Model, fits, is_realization, sums};
use std::alloc::Global;
use std::test::Fail;

/// Whether each question has its answer.
pub(crate) fn are_answered(alloc: Global, model: &Model, questions: &str) -> Result<bool, Fail> {
    for question in questions.split(';') {
        if !is_answered(alloc, model, question)? {
            return Ok(false);
        }
    }
    Ok(true)
}

fn is_answered(alloc: Global, model: &Model, question: &str) -> Result<bool, Fail> {
    match question.split_once(" = ") {
        None => Err(Fail::new("no question")),
        Some((asked, wanted)) => is_answered_by(alloc, model, asked, wanted),
    }
}

fn is_answered_by(alloc: Global, model: &Model, asked: &str, wanted: &str) -> Result<bool, Fail> {
    let (word, words) = parted(asked);
    if word == "by" {
        breaks(alloc, model, words, wanted)
    } else if word == "fits" {
        is_fitting(alloc, model, words, wanted)
    } else {
        Err(Fail::new("no question"))
    }
}

fn is_fitting(alloc: Global, model: &Model, words: &str, wanted: &str) -> Result<bool, Fail> {
    let a = assignment(alloc, words)?;
    Ok(fits(model, &a) == (wanted == "yes"))
}

/// Whether the first rule that a fitting assignment breaks is the wanted one.
fn breaks(alloc: Global, model: &Model, words: &str, wanted: &str) -> Result<bool, Fail> {
    let a = assignment(alloc, words)?;
    breaks_first(alloc, model, &a, wanted)
}

fn breaks_first(
    alloc: Global,
    model: &Model,
    assignment: &Assignment,
    wanted: &str,
) -> Result<bool, Fail> {
    if !fits(model, assignment) {
        return Err(Fail::new("no assignment to the model"));
    }
    let totals = sums(alloc, model, assignment)?;
    let broken = is_realization(model, assignment, totals.as_slice());
    is_rule(broken, wanted)
}

/// Whether this is the rule that the words name, or none where they say `none`.
fn is_rule(broken: Option<Broken>, wanted: &str) -> Result<bool, Fail> {
    let (head, number) = parted(wanted);
    match broken {
        None => Ok(head == "none"),
        Some(broken) => {
            let (word, place) = named(broken);
            Ok(head == word && number.parse::<u32>()? == place)
        }
    }
}

/// The word of a rule's kind, and its number.
fn named(broken: Broken) -> (&'static str, u32) {
    match broken {
        Broken::Refinement(n) => ("refinement", n),
        Broken::Element(n) => ("element", n),
        Broken::Contrib(n) => ("contrib", n),
        Broken::Conflict(n) => ("conflict", n),
        Broken::Bind(n) => ("bind", n),
        Broken::Must(n) => ("must", n),
        Broken::Assert(n) => ("assert", n),
        Broken::Rule(n) => ("rule", n),
    }
}
