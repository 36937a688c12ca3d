// The values of assignments to a model, and the assignments of values. `extended` has an assignment and
// the values of its extension, `decoded` values and the assignment that they stand for; the answer
// stands behind `=`.
ghost use Rattle.std.specs.Prelude.{IsTrue, IfOk};
ghost use Rattle.cgm_model.specs.Model.{lists_of};
ghost use Rattle.cgm_encode.specs.Encoding.{IsEncodingOf};
ghost use Rattle.cgm_obj.specs.Least.{Realizes};

use crate::assignments::{are_numbers, are_truths, assignment, numbers, parted};
use cgm_atom::satisfied;
use cgm_encode::{Encoded, decode, encode, extend};
use cgm_evolve::Earlier;
use cgm_model::{Assignment, Model, fits, is_realization, sums};
use std::alloc::Global;
use std::test::Fail;

/// Whether each question has its answer.
pub(crate) fn are_answered(
    alloc: Global,
    model: &Model,
    earlier: &Earlier,
    questions: &str,
) -> Result<bool, Fail> {
    let encoded = encode(alloc, model, earlier)?;
    are_answered_by(alloc, model, earlier, &encoded, questions)
}

fn are_answered_by(
    alloc: Global,
    model: &Model,
    earlier: &Earlier,
    encoded: &Encoded,
    questions: &str,
) -> Result<bool, Fail>
    requires { IsEncodingOf (lists_of model.now) earlier.now.pairs encoded.now }
{
    for question in questions.split(';') {
        if !is_answered(alloc, model, earlier, encoded, question)? {
            return Ok(false);
        }
    }
    Ok(true)
}

fn is_answered(
    alloc: Global,
    model: &Model,
    earlier: &Earlier,
    encoded: &Encoded,
    question: &str,
) -> Result<bool, Fail>
    requires { IsEncodingOf (lists_of model.now) earlier.now.pairs encoded.now }
{
    match question.split_once(" = ") {
        None => Err(Fail::new("no question")),
        Some((asked, wanted)) => {
            let (word, words) = parted(asked);
            if word == "extended" {
                is_extended(alloc, model, earlier, encoded, words, wanted)
            } else if word == "decoded" {
                is_decoded(alloc, encoded, words, wanted)
            } else {
                Err(Fail::new("no question"))
            }
        }
    }
}

fn realizes(alloc: Global, model: &Model, assignment: &Assignment) -> Result<bool, Fail>
    ensures { IfOk result (λ answer. IsTrue answer → Realizes (lists_of model.now) assignment.now) }
{
    if !fits(model, assignment) {
        return Ok(false);
    }
    let totals = sums(alloc, model, assignment)?;
    match is_realization(model, assignment, totals.as_slice()) {
        None => Ok(true),
        Some(_) => Ok(false),
    }
}

fn is_extended(
    alloc: Global,
    model: &Model,
    earlier: &Earlier,
    encoded: &Encoded,
    words: &str,
    wanted: &str,
) -> Result<bool, Fail>
    requires { IsEncodingOf (lists_of model.now) earlier.now.pairs encoded.now }
{
    let a = assignment(alloc, words)?;
    has_extension(alloc, model, earlier, encoded, &a, wanted)
}

/// Whether a realization's extension has these values.
fn has_extension(
    alloc: Global,
    model: &Model,
    earlier: &Earlier,
    encoded: &Encoded,
    assignment: &Assignment,
    wanted: &str,
) -> Result<bool, Fail>
    requires { IsEncodingOf (lists_of model.now) earlier.now.pairs encoded.now }
{
    if !realizes(alloc, model, assignment)? {
        return Err(Fail::new("no realization of the model"));
    }
    let values = extend(alloc, model, earlier, encoded, assignment)?;
    are_numbers(alloc, wanted, values.as_slice())
}

fn is_decoded(alloc: Global, encoded: &Encoded, words: &str, wanted: &str) -> Result<bool, Fail> {
    let values = numbers(alloc, words)?;
    has_meaning(alloc, encoded, values.as_slice(), wanted)
}

/// Whether a solution's values stand for this assignment.
fn has_meaning(
    alloc: Global,
    encoded: &Encoded,
    values: &[i64],
    wanted: &str,
) -> Result<bool, Fail> {
    if !satisfied(&encoded.problem, values) {
        return Err(Fail::new("no solution of the problem"));
    }
    let a = decode(alloc, encoded, values)?;
    has_parts(alloc, &a, wanted)
}

fn has_parts(alloc: Global, assignment: &Assignment, wanted: &str) -> Result<bool, Fail> {
    let (elements, rest) = parted(wanted);
    let (refinements, vars) = parted(rest);
    if !are_truths(alloc, elements, assignment.elements.as_slice())? {
        return Ok(false);
    }
    if !are_truths(alloc, refinements, assignment.refinements.as_slice())? {
        return Ok(false);
    }
    are_numbers(alloc, vars, assignment.vars.as_slice())
}
