//! Reports of answers, and their statuses.
ghost use Rattle.std.specs.Prelude.{◌≡◌};
ghost use Rattle.cgm_model.specs.Model.{lists_of};
ghost use Rattle.cgm_report.specs.Answers.{IsReportable, report_of};
ghost use Rattle.cgm_cli.specs.Answers.{answer_status, entries_of};
ghost use Rattle.cgm_cli.specs.Effects.{PrintsReportOrLacksMemory};

use crate::print::{print_report, tell_memory};
use cgm_atom::Entry;
use cgm_base::Status;
use cgm_model::Model;
use cgm_report::report;
use cgm_shelf::Sink;
use cgm_solve::Answer;
use std::alloc::Global;

/// Prints the report of an answer, gives its memory back, and answers its status.
pub(crate) fn print_answer<O: Sink>(
    alloc: Global,
    model: &Model,
    answer: Answer,
    out: &mut O,
) -> Status
    requires { IsReportable (lists_of model.now) answer }
    ensures { PrintsReportOrLacksMemory (report_of (lists_of model.now) answer)
        (answer_status answer) (O.state out.old) (O.state out.new) result }
{
    match report(alloc, model, &answer) {
        Ok(text) => print_report(out, text.as_slice(), status_of(&answer)),
        Err(_) => tell_memory(out),
    }
}

pub(crate) fn status_of(answer: &Answer) -> Status
    ensures { result ≡ answer_status answer.now }
{
    match answer {
        Answer::Realized { .. } => Status::Done,
        Answer::Unrealizable { .. } => Status::Unrealizable,
        Answer::Exhausted { .. } => Status::Open,
        Answer::Open { .. } => Status::Open,
    }
}

/// The entries that show an answer; none where it has none of its own.
pub(crate) fn entries_of(answer: &Answer) -> &[Entry]
    ensures { result.now ≡ entries_of answer.now }
{
    match answer {
        Answer::Realized { entries, .. } => entries.as_slice(),
        Answer::Unrealizable { entries } => entries.as_slice(),
        Answer::Exhausted { entries, .. } => entries.as_slice(),
        Answer::Open { .. } => &[],
    }
}
