//! The problem of a model, or the row limit that it passes.
ghost use Rattle.std.specs.Prelude.{◌≡◌, MatchResult, OnOk, length};
ghost use Rattle.cgm_enc_formula.specs.Measures.{IsWithinMeasure};
ghost use Rattle.cgm_encode.specs.Encoding.{IsEncodable, IsEncodingOf, number_box};
ghost use Rattle.cgm_encode.specs.ProblemText.{problem_text};
ghost use Rattle.cgm_model.specs.Model.{lists_of};
ghost use Rattle.cgm_base.specs.Place.{FirstFails};
ghost use Rattle.cgm_cli.specs.Inputs.{HasNoProblem};
ghost use Rattle.cgm_cli.specs.Outcome.{HasTextOutcome};

use crate::faults::{PlacedFault, tell_fault};
use crate::input::Input;
use crate::print::{print_report, tell_memory};
use cgm_base::{Limit, Status, Which, limits};
use cgm_encode::{EncodeStop, Encoded, encode, print_problem};
use cgm_shelf::Sink;
use std::alloc::Global;

/// Tells that a comparison of this rule, the first such rule, passes the limit, with the rule's line.
pub(crate) fn tell_row_limit<O: Sink>(
    alloc: Global,
    input: &Input,
    rule: u32,
    out: &mut O,
) -> Status
    requires lines { length input.now.reading.rule_lines.items
        ≡ length input.now.reading.model.rules }
    requires first { FirstFails
        (IsWithinMeasure (lists_of input.now.reading.model)
        (number_box (lists_of input.now.reading.model))) input.now.reading.model.rules rule }
    ensures { HasNoProblem (lists_of input.now.reading.model) input.now.reading.rule_lines.items
        (O.state out.old) (O.state out.new) result }
{
    let rule_lines = input.reading.rule_lines.as_slice();
    let limit = Limit {
        which: Which::Row,
        number: limits::ROW,
        line: rule_lines[rule as usize],
    };
    tell_fault(alloc, out, PlacedFault::Limit(limit))
}

/// The problem of a model and an earlier realization, or the status after it was told why there is
/// none.
pub(crate) fn encoding_of<O: Sink>(
    alloc: Global,
    input: &Input,
    out: &mut O,
) -> Result<Encoded, Status>
    requires { length input.now.reading.rule_lines.items ≡ length input.now.reading.model.rules }
    ensures outcome { MatchResult result
        (λ encoded. IsEncodable (lists_of input.now.reading.model)
        × IsEncodingOf (lists_of input.now.reading.model) input.now.earlier.pairs encoded)
        (HasNoProblem (lists_of input.now.reading.model) input.now.reading.rule_lines.items
        (O.state out.old) (O.state out.new)) }
    ensures untouched { OnOk result (out.new ≡ out.old) }
{
    match encode(alloc, &input.reading.model, &input.earlier) {
        Ok(encoded) => Ok(encoded),
        Err(EncodeStop::Row { rule }) => Err(tell_row_limit(alloc, input, rule, out)),
        Err(EncodeStop::Memory) => Err(tell_memory(out)),
    }
}

/// Prints the text of a problem.
pub(crate) fn print_encoding<O: Sink>(alloc: Global, encoded: &Encoded, out: &mut O) -> Status
    ensures { HasTextOutcome (problem_text encoded.now.problem) (O.state out.old)
        (O.state out.new) result }
{
    match print_problem(alloc, &encoded.problem) {
        Ok(text) => print_report(out, text.as_slice(), Status::Done),
        Err(_) => tell_memory(out),
    }
}
