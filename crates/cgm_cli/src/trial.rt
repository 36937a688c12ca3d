//! The command `trial`: a generated model solved, its certificate checked, and a summary printed.
ghost use Rattle.std.specs.Prelude.{◌≡◌, ◌≤◌, ◌↔◌, [], length, IfErr, IfOk, IsTrue, OnOk};
ghost use Rattle.std.specs.String.{string_bytes};
ghost use Rattle.cgm_base.specs.Words.{most_bytes};
ghost use Rattle.cgm_base.specs.declared.status.Status.TheVariants as statuses;
ghost use Rattle.cgm_encode.specs.Encoding.{IsEncodable};
ghost use Rattle.cgm_encode.specs.declared.answer.Found.{Found};
ghost use Rattle.cgm_gen.specs.Draws.{least_cost, most_goals};
ghost use Rattle.cgm_gen.specs.GeneratedModel.{generated_model};
ghost use Rattle.cgm_gen.specs.GeneratedText.{generated_text};
ghost use Rattle.cgm_model.specs.Model.{lists_of};
ghost use Rattle.cgm_report.specs.Answers.{IsReportable, report_of};
ghost use Rattle.cgm_shelf.specs.Shelf.{ShelfState};
ghost use Rattle.cgm_solve.specs.Answers.{ShowsRealized};
ghost use Rattle.cgm_cli.specs.Answers.{answer_status};
ghost use Rattle.cgm_cli.specs.Commands.{HasActionPlan};
ghost use Rattle.cgm_cli.specs.declared.command.Action.TheVariants as asked;
ghost use Rattle.cgm_cli.specs.Effects.{PrintsReportOrLacksMemory, world};
ghost use Rattle.cgm_cli.specs.Outcome.{IsWorkOfSearch};
ghost use Rattle.cgm_cli.specs.TrialOutcome.{HasNothingGenerated, HasTrialOutcome, IsTrialAnswer, cost_vector, is_least_verdict, trial_limit, trial_report, trial_summary};

use crate::command::TrialRequest;
use crate::faults::{PlacedFault, tell_fault};
use crate::input::discard_reading;
use crate::print::{print_report, tell_memory};
use crate::solvers::ByCrew;
use cgm_atom::Entry;
use cgm_base::limits::TRIAL;
use cgm_base::{Limit, OutOfMemory, Status, Which};
use cgm_encode::Found;
use cgm_evolve::Earlier;
use cgm_gen::{GenStop, generate};
use cgm_model::Model;
use cgm_report::report;
use cgm_search::Gate;
use cgm_shelf::Sink;
use cgm_solve::{Answer, SolveStop, Verified, solve, verify};
use cgm_text::{Reading, TextStop, read};
use cgm_trail::Work;
use std::alloc::Global;
use std::marker::Sync;
use std::sync::Wait;
use std::thread::Threads;

/// The limit that too many goals pass.
fn too_many_goals() -> Limit
    ensures { result ≡ trial_limit }
{
    Limit {
        which: Which::Trial,
        number: TRIAL,
        line: 0,
    }
}

/// The generated model of so many goals with its reading, or the status after it was told why there is
/// none.
pub(crate) fn reading_of_goals<O: Sink>(
    alloc: Global,
    goals: u32,
    out: &mut O,
) -> Result<Reading, Status>
    ensures within { OnOk result (goals ≤ most_goals) }
    ensures model { IfOk result (λ reading. lists_of reading.model ≡ generated_model goals) }
    ensures untouched { OnOk result (out.new ≡ out.old) }
    ensures refused { IfErr result
        (HasNothingGenerated goals (O.state out.old) (O.state out.new)) }
{
    match generate(alloc, goals) {
        Ok(text) => reading_of_text(alloc, goals, text.as_slice(), out),
        Err(GenStop::Limit) => Err(tell_fault(alloc, out, PlacedFault::Limit(too_many_goals()))),
        Err(GenStop::Memory) => Err(tell_memory(out)),
    }
}

/// The same with the generated text.
fn reading_of_text<O: Sink>(
    alloc: Global,
    goals: u32,
    text: &[u8],
    out: &mut O,
) -> Result<Reading, Status>
    requires within { goals ≤ most_goals }
    requires text { text.now ≡ generated_text goals }
    requires short { length text.now ≤ most_bytes }
    ensures within { OnOk result (goals ≤ most_goals) }
    ensures model { IfOk result (λ reading. lists_of reading.model ≡ generated_model goals) }
    ensures untouched { OnOk result (out.new ≡ out.old) }
    ensures refused { IfErr result
        (HasNothingGenerated goals (O.state out.old) (O.state out.new)) }
{
    match generated_reading(alloc, goals, text) {
        Ok(reading) => Ok(reading),
        Err(_) => Err(tell_memory(out)),
    }
}

/// The model of a generated text.
fn generated_reading(alloc: Global, goals: u32, text: &[u8]) -> Result<Reading, OutOfMemory>
    requires within { goals ≤ most_goals }
    requires text { text.now ≡ generated_text goals }
    requires short { length text.now ≤ most_bytes }
    ensures { IfOk result (λ reading. lists_of reading.model ≡ generated_model goals) }
{
    match read(alloc, text) {
        Ok(reading) => Ok(reading),
        // A generated text has no fault.
        Err(TextStop::Bad { line, kind }) => unreachable!(),
        Err(TextStop::Limit(limit)) => unreachable!(),
        Err(TextStop::Memory) => Err(OutOfMemory),
    }
}

/// Generates the model of so many goals, solves it by a crew as the request asks, checks the entries
/// that show the answer and prints the summary; where the budget is spent, the report of that. No file
/// is touched.
pub(crate) fn trial_by_crew<'a, R: Threads + Wait + Sync, G: Gate, O: Sink>(
    by: &ByCrew<'a, R, G>,
    request: TrialRequest,
    out: &mut O,
    work: &mut Work,
) -> Status
    requires { HasActionPlan (asked.Trial request) }
    ensures outcome { (shelf : ShelfState) → HasTrialOutcome request.goals request.workers
        request.plan (world shelf (O.state out.old) work.old)
        (world shelf (O.state out.new) work.new) result }
    ensures work { IsWorkOfSearch work.old work.new result }
{
    match reading_of_goals(by.alloc, request.goals, out) {
        Ok(reading) => {
            let status = solve_generated_by_crew(by, request, &reading.model, out, work);
            discard_reading(reading);
            status
        }
        Err(status) => status,
    }
}

/// The same with the generated model.
fn solve_generated_by_crew<'a, R: Threads + Wait + Sync, G: Gate, O: Sink>(
    by: &ByCrew<'a, R, G>,
    request: TrialRequest,
    model: &Model,
    out: &mut O,
    work: &mut Work,
) -> Status
    requires plan { HasActionPlan (asked.Trial request) }
    requires within { request.goals ≤ most_goals }
    requires model { lists_of model.now ≡ generated_model request.goals }
    ensures outcome { (shelf : ShelfState) → HasTrialOutcome request.goals request.workers
        request.plan (world shelf (O.state out.old) work.old)
        (world shelf (O.state out.new) work.new) result }
    ensures work { IsWorkOfSearch work.old work.new result }
{
    let alloc = by.alloc;
    let earlier = Earlier::unknown(alloc);
    let crew = request.crew();
    match solve(by.rt, alloc, model, &earlier, crew, by.gate, work) {
        Ok(answer) => conclude(alloc, request.goals, model, &answer, out),
        // No comparison of a generated model passes the row limit.
        Err(SolveStop::Row { rule }) => unreachable!(),
        Err(SolveStop::Memory) => tell_memory(out),
    }
}

/// Prints what comes of an answer: for a realization the summary, once its entries are checked; for a
/// spent budget its report.
pub(crate) fn conclude<O: Sink>(
    alloc: Global,
    goals: u32,
    model: &Model,
    answer: &Answer,
    out: &mut O,
) -> Status
    requires within { goals ≤ most_goals }
    requires model { lists_of model.now ≡ generated_model goals }
    requires concluded { IsTrialAnswer goals answer.now }
    ensures { PrintsReportOrLacksMemory (trial_report goals answer.now) (answer_status answer.now)
        (O.state out.old) (O.state out.new) result }
{
    match answer {
        Answer::Realized { found, entries } => {
            verdict(alloc, goals, model, found, entries.as_slice(), out)
        }
        // A generated model has a realization, and a search leaves nothing open but by its budget.
        Answer::Unrealizable { .. } => unreachable!(),
        Answer::Open { .. } => unreachable!(),
        Answer::Exhausted { .. } => print_exhausted(alloc, model, answer, out),
    }
}

/// Prints the report of a spent budget.
fn print_exhausted<O: Sink>(alloc: Global, model: &Model, answer: &Answer, out: &mut O) -> Status
    requires { IsReportable (lists_of model.now) answer.now }
    ensures { PrintsReportOrLacksMemory (report_of (lists_of model.now) answer.now) statuses.Open
        (O.state out.old) (O.state out.new) result }
{
    match report(alloc, model, answer) {
        Ok(text) => print_report(out, text.as_slice(), Status::Open),
        Err(_) => tell_memory(out),
    }
}

/// Checks that these entries show a least realization, and prints the summary.
fn verdict<O: Sink>(
    alloc: Global,
    goals: u32,
    model: &Model,
    found: &Found,
    entries: &[Entry],
    out: &mut O,
) -> Status
    requires within { goals ≤ most_goals }
    requires model { lists_of model.now ≡ generated_model goals }
    requires shown { ShowsRealized (generated_model goals) [] entries.now found.now }
    ensures { PrintsReportOrLacksMemory (trial_summary goals) statuses.Done
        (O.state out.old) (O.state out.new) result }
{
    match shows_least(alloc, model, entries) {
        Ok(true) => print_summary(alloc, goals, found, out),
        // What entries show of a model is what they show at each check.
        Ok(false) => unreachable!(),
        Err(_) => tell_memory(out),
    }
}

/// Whether these entries, whoever made them, show a least realization of a model.
fn shows_least(alloc: Global, model: &Model, entries: &[Entry]) -> Result<bool, OutOfMemory>
    requires { IsEncodable (lists_of model.now) }
    ensures { IfOk result (λ least. IsTrue least ↔ ((found : Found)
        × ShowsRealized (lists_of model.now) [] entries.now found)) }
{
    let earlier = Earlier::unknown(alloc);
    match verify(alloc, model, &earlier, entries) {
        Ok(verified) => Ok(is_least(&verified)),
        // The model has an encoding.
        Err(SolveStop::Row { rule }) => unreachable!(),
        Err(SolveStop::Memory) => Err(OutOfMemory),
    }
}

fn is_least(verified: &Verified) -> bool
    ensures { result ≡ is_least_verdict verified.now }
{
    match verified {
        Verified::Shown(Answer::Realized { .. }) => true,
        Verified::Shown(_) => false,
        Verified::Refused { .. } => false,
    }
}

/// Prints the number of goals and the one objective of what was found.
fn print_summary<O: Sink>(alloc: Global, goals: u32, found: &Found, out: &mut O) -> Status
    requires { found.now.vector ≡ cost_vector goals }
    ensures { PrintsReportOrLacksMemory (trial_summary goals) statuses.Done
        (O.state out.old) (O.state out.new) result }
{
    let cost = cost_found(goals, found.vector.as_slice());
    match summary(alloc, goals, cost) {
        Ok(text) => print_report(out, text.as_bytes(), Status::Done),
        Err(_) => tell_memory(out),
    }
}

/// The one objective of what was found, which is the stated cost.
fn cost_found(goals: u32, vector: &[i64]) -> u64
    requires { vector.now ≡ cost_vector goals }
    ensures { result ≡ least_cost goals }
{
    vector[0].unsigned_abs()
}

fn summary(alloc: Global, goals: u32, cost: u64) -> Result<String, OutOfMemory>
    requires { cost ≡ least_cost goals }
    ensures { IfOk result (λ text. string_bytes text ≡ trial_summary goals) }
{
    format!(in alloc; "trial {goals}\nobjective min cost {cost}\nverdict least\n")
}
