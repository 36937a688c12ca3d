//! The top call with one worker, which waits for nobody.
ghost use Rattle.std.specs.Prelude.{◌≡◌, ◌≤◌, length, map};
ghost use Rattle.std.specs.String.{string_bytes};
ghost use Rattle.cgm_gen.specs.Draws.{most_goals};
ghost use Rattle.cgm_gen.specs.GeneratedModel.{generated_model};
ghost use Rattle.cgm_model.specs.Model.{lists_of};
ghost use Rattle.cgm_shelf.specs.Shelf.{ShelfState};
ghost use Rattle.cgm_cli.specs.CommandLine.{command_for, on_files, one_worker, searching_by, with_workers};
ghost use Rattle.cgm_cli.specs.Commands.{HasActionPlan, HasPlan, asked_by, solving, told_by};
ghost use Rattle.cgm_cli.specs.declared.command.Action.TheVariants as asked;
ghost use Rattle.cgm_cli.specs.declared.command.Command.TheVariants as read;
ghost use Rattle.cgm_cli.specs.Effects.{world};
ghost use Rattle.cgm_cli.specs.Outcome.{AreFilesOf, Ends, HasOutcome, HasOwnOutcome, IsWorkOf, IsWorkOfSearch, LeavesFiles, LeavesWork, Runs};
ghost use Rattle.cgm_cli.specs.TrialOutcome.{HasTrialOutcome};

use crate::check::check;
use crate::command::{Action, Command, SolveRequest, TrialRequest, action_in};
use crate::encoding::tell_row_limit;
use crate::input::{Input, discard, discard_reading, input_of_files};
use crate::print::{tell, tell_memory};
use crate::runs::encode_input;
use crate::show::show;
use crate::solve::deliver;
use crate::trial::{conclude, reading_of_goals};
use cgm_base::Status;
use cgm_evolve::Earlier;
use cgm_model::Model;
use cgm_shelf::{Shelf, Sink};
use cgm_solve::{SolveStop, solve_alone};
use cgm_trail::Work;
use std::alloc::Global;

/// Does what `run` does, with one worker, whatever number of workers is given. It waits for nobody and
/// always returns.
pub fn run_quiet<F: Shelf, O: Sink>(
    alloc: Global,
    words: &[String],
    shelf: &mut F,
    out: &mut O,
    work: &mut Work,
) -> Status
    ensures outcome { HasOutcome one_worker (map string_bytes words.now)
        (world (F.state shelf.old) (O.state out.old) work.old)
        (world (F.state shelf.new) (O.state out.new) work.new) result }
    ensures files { AreFilesOf (command_for one_worker (map string_bytes words.now))
        (F.state shelf.old) (F.state shelf.new) result }
    ensures work { IsWorkOf (command_for one_worker (map string_bytes words.now)) work.old work.new
        result }
{
    run_words(alloc, words, shelf, out, work)
}

/// Does what the words ask for.
fn run_words<F: Shelf, O: Sink>(
    alloc: Global,
    words: &[String],
    shelf: &mut F,
    out: &mut O,
    work: &mut Work,
) -> Status
    ensures { Runs (command_for one_worker (map string_bytes words.now))
        (world (F.state shelf.old) (O.state out.old) work.old)
        (world (F.state shelf.new) (O.state out.new) work.new) result }
{
    match action_in(alloc, words) {
        Ok(Some(action)) => run_action(alloc, action, shelf, out, work),
        Ok(None) => {
            tell(out, b"fault usage\n");
            Status::Usage
        }
        Err(_) => tell_memory(out),
    }
}

/// Does what was read of the words.
fn run_action<F: Shelf, O: Sink>(
    alloc: Global,
    action: Action<'_>,
    shelf: &mut F,
    out: &mut O,
    work: &mut Work,
) -> Status
    requires { HasActionPlan action }
    ensures { Ends (searching_by one_worker (asked_by action.entry))
        (world (F.state shelf.old) (O.state out.old) work.old)
        (world (F.state shelf.new) (O.state out.new) work.new) result }
{
    match action {
        Action::OnFiles(command) => run_command(alloc, command, shelf, out, work),
        Action::Trial(request) => trial_by_one(alloc, request, out, work),
    }
}

/// Does what a command asks for: takes what its files give, else the status.
fn run_command<F: Shelf, O: Sink>(
    alloc: Global,
    command: Command<'_>,
    shelf: &mut F,
    out: &mut O,
    work: &mut Work,
) -> Status
    requires { HasPlan command }
    ensures { Ends (on_files (with_workers one_worker (told_by command.entry)))
        (world (F.state shelf.old) (O.state out.old) work.old)
        (world (F.state shelf.new) (O.state out.new) work.new) result }
{
    match input_of_files(alloc, command.model(), command.earlier(), shelf, out) {
        Ok(input) => {
            let status = run_on(alloc, command, &input, shelf, out, work);
            discard(input);
            status
        }
        Err(status) => status,
    }
}

/// Does what a command asks for with what its files gave.
fn run_on<F: Shelf, O: Sink>(
    alloc: Global,
    command: Command<'_>,
    input: &Input,
    shelf: &mut F,
    out: &mut O,
    work: &mut Work,
) -> Status
    requires lines { length input.now.reading.rule_lines.items
        ≡ length input.now.reading.model.rules }
    requires plan { HasPlan command }
    ensures outcome { HasOwnOutcome (with_workers one_worker (told_by command.entry))
        (world (F.state shelf.old) (O.state out.old) work.old)
        (world (F.state shelf.new) (O.state out.new) work.new)
        (lists_of input.now.reading.model) input.now.reading.rule_lines.items
        input.now.earlier.pairs result }
    ensures files { LeavesFiles (with_workers one_worker (told_by command.entry))
        (F.state shelf.old) (F.state shelf.new) result }
    ensures work { LeavesWork (with_workers one_worker (told_by command.entry))
        work.old work.new result }
{
    match command {
        Command::Solve(request) => solve_by_one(alloc, request, input, shelf, out, work),
        Command::Check(request) => check(alloc, input, request.cert, shelf, out),
        Command::Show { .. } => show(alloc, &input.reading.model, out),
        Command::Encode(_) => encode_input(alloc, input, out),
    }
}

/// Solves a model by one worker as the request asks, with what is known of an earlier realization.
/// Writes the certificate where a file is named for it, and prints the answer, or why there is none.
fn solve_by_one<F: Shelf, O: Sink>(
    alloc: Global,
    request: SolveRequest<'_>,
    input: &Input,
    shelf: &mut F,
    out: &mut O,
    work: &mut Work,
) -> Status
    requires lines { length input.now.reading.rule_lines.items
        ≡ length input.now.reading.model.rules }
    requires plan { HasPlan (read.Solve request) }
    ensures outcome { HasOwnOutcome (with_workers one_worker (solving request.entry))
        (world (F.state shelf.old) (O.state out.old) work.old)
        (world (F.state shelf.new) (O.state out.new) work.new)
        (lists_of input.now.reading.model) input.now.reading.rule_lines.items
        input.now.earlier.pairs result }
    ensures files { LeavesFiles (with_workers one_worker (solving request.entry))
        (F.state shelf.old) (F.state shelf.new) result }
    ensures work { LeavesWork (with_workers one_worker (solving request.entry))
        work.old work.new result }
    ensures reads { (F.state shelf.new).read_faults ≡ (F.state shelf.old).read_faults }
{
    let m = &input.reading.model;
    match solve_alone(alloc, m, &input.earlier, request.plan, work) {
        Ok(answer) => deliver(alloc, m, &answer, request.cert, shelf, out),
        Err(SolveStop::Row { rule }) => tell_row_limit(alloc, input, rule, out),
        Err(SolveStop::Memory) => tell_memory(out),
    }
}

/// Generates the model of so many goals, solves it by one worker as the request asks, checks the
/// entries that show the answer and prints the summary; where the budget is spent, the report of that.
/// No file is touched.
fn trial_by_one<O: Sink>(
    alloc: Global,
    request: TrialRequest,
    out: &mut O,
    work: &mut Work,
) -> Status
    requires { HasActionPlan (asked.Trial request) }
    ensures outcome { (shelf : ShelfState) → HasTrialOutcome request.goals 1 request.plan
        (world shelf (O.state out.old) work.old) (world shelf (O.state out.new) work.new) result }
    ensures work { IsWorkOfSearch work.old work.new result }
{
    match reading_of_goals(alloc, request.goals, out) {
        Ok(reading) => {
            let status = solve_generated_by_one(alloc, request, &reading.model, out, work);
            discard_reading(reading);
            status
        }
        Err(status) => status,
    }
}

/// The same with the generated model.
fn solve_generated_by_one<O: Sink>(
    alloc: Global,
    request: TrialRequest,
    model: &Model,
    out: &mut O,
    work: &mut Work,
) -> Status
    requires plan { HasActionPlan (asked.Trial request) }
    requires within { request.goals ≤ most_goals }
    requires model { lists_of model.now ≡ generated_model request.goals }
    ensures outcome { (shelf : ShelfState) → HasTrialOutcome request.goals 1 request.plan
        (world shelf (O.state out.old) work.old) (world shelf (O.state out.new) work.new) result }
    ensures work { IsWorkOfSearch work.old work.new result }
{
    let earlier = Earlier::unknown(alloc);
    match solve_alone(alloc, model, &earlier, request.plan, work) {
        Ok(answer) => conclude(alloc, request.goals, model, &answer, out),
        // No comparison of a generated model passes the row limit.
        Err(SolveStop::Row { rule }) => unreachable!(),
        Err(SolveStop::Memory) => tell_memory(out),
    }
}
