//! The reports of answers.
ghost use Rattle.std.specs.Prelude.{◌≡◌, ◌++◌, length, IfOk, IfSome, OnOk};
ghost use Rattle.std.specs.String.{string_bytes};
ghost use Rattle.cgm_model.specs.Model.{lists_of};
ghost use Rattle.cgm_report.specs.Answers.{IsReportable, best_lines, exhausted, left_open, report_of, spent_line, spent_lines};
ghost use Rattle.cgm_report.specs.Shown.{IsShowable, shown_report};

use crate::found::push_found;
use cgm_base::OutOfMemory;
use cgm_encode::{Answer, Found};
use cgm_model::Model;
use std::alloc::Global;

/// The report of an answer.
///
/// Conditions: each assignment in it fits the model, and its vector has a number for each objective.
pub fn report(alloc: Global, model: &Model, answer: &Answer) -> Result<Vec<u8>, OutOfMemory>
    requires { IsReportable (lists_of model.now) answer.now }
    ensures { IfOk result (λ report. report.items ≡ report_of (lists_of model.now) answer.now) }
{
    match answer {
        Answer::Realized { found, .. } => realized(alloc, model, found),
        Answer::Unrealizable { .. } => Vec::from_slice(alloc, b"unrealizable\n"),
        Answer::Exhausted { best, spent, .. } => exhausted(alloc, model, best, spent.as_slice()),
        Answer::Open { best } => left_open(alloc, model, best),
    }
}

fn realized(alloc: Global, model: &Model, found: &Found) -> Result<Vec<u8>, OutOfMemory>
    requires { IsShowable (lists_of model.now) found.now }
    ensures { IfOk result (λ report. report.items ≡ shown_report (lists_of model.now) found.now) }
{
    let mut report = Vec::from_slice(alloc, b"realized\n")?;
    push_found(alloc, &mut report, model, found)?;
    Ok(report)
}

fn exhausted(
    alloc: Global,
    model: &Model,
    best: &Option<Found>,
    spent: &[u64],
) -> Result<Vec<u8>, OutOfMemory>
    requires { IfSome best.now (IsShowable (lists_of model.now)) }
    ensures { IfOk result (λ report. report.items ≡ exhausted (lists_of model.now) best.now
        spent.now) }
{
    let mut report = Vec::from_slice(alloc, b"exhausted\n")?;
    push_spent(alloc, &mut report, spent)?;
    push_best(alloc, &mut report, model, best)?;
    Ok(report)
}

fn left_open(alloc: Global, model: &Model, best: &Option<Found>) -> Result<Vec<u8>, OutOfMemory>
    requires { IfSome best.now (IsShowable (lists_of model.now)) }
    ensures { IfOk result (λ report. report.items ≡ left_open (lists_of model.now) best.now) }
{
    let mut report = Vec::from_slice(alloc, b"open\n")?;
    push_best(alloc, &mut report, model, best)?;
    Ok(report)
}

/// Adds what is the best realization so far, or that there is none.
fn push_best(
    alloc: Global,
    report: &mut Vec<u8>,
    model: &Model,
    best: &Option<Found>,
) -> Result<(), OutOfMemory>
    requires { IfSome best.now (IsShowable (lists_of model.now)) }
    ensures { OnOk result (report.new.items ≡ report.old.items ++ best_lines (lists_of model.now)
        best.now) }
{
    match best {
        None => report.extend_from_slice(b"best none\n"),
        Some(found) => {
            report.extend_from_slice(b"best\n")?;
            push_found(alloc, report, model, found)
        }
    }
}

/// Adds a line for each worker with what it spent.
fn push_spent(alloc: Global, report: &mut Vec<u8>, spent: &[u64]) -> Result<(), OutOfMemory>
    ensures { OnOk result (report.new.items ≡ report.old.items ++ spent_lines 0 spent.now) }
{
    for (worker, moves) in spent.iter().enumerate() {
        let line = spent_line(alloc, worker, *moves)?;
        report.extend_from_slice(line.as_bytes())?;
    }
    Ok(())
}

fn spent_line(alloc: Global, worker: usize, moves: u64) -> Result<String, OutOfMemory>
    ensures { IfOk result (λ line. string_bytes line ≡ spent_line worker moves) }
{
    format!(in alloc; "spent {worker} {moves}\n")
}
