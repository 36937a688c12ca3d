//! The top call: what the program does for its words.
ghost use Rattle.std.specs.Prelude.{◌≡◌, length, map};
ghost use Rattle.std.specs.String.{string_bytes};
ghost use Rattle.cgm_model.specs.Model.{lists_of};
ghost use Rattle.cgm_cli.specs.CommandLine.{as_asked, command_for, on_files, searching_by, with_workers};
ghost use Rattle.cgm_cli.specs.Commands.{HasActionPlan, HasPlan, asked_by, told_by};
ghost use Rattle.cgm_cli.specs.Effects.{world};
ghost use Rattle.cgm_cli.specs.Inputs.{HasProblemOutcome};
ghost use Rattle.cgm_cli.specs.Outcome.{AreFilesOf, Ends, HasEncodeOutcome, HasOutcome, HasOwnOutcome, IsWorkOf, LeavesFiles, LeavesWork, Runs};

use crate::check::check;
use crate::command::{Action, Command, action_in};
use crate::encoding::{encoding_of, print_encoding};
use crate::input::{Input, discard, input_of_files};
use crate::print::{tell, tell_memory};
use crate::show::show;
use crate::solve::solve_by_crew;
use crate::solvers::ByCrew;
use crate::trial::trial_by_crew;
use cgm_base::Status;
use cgm_search::Gate;
use cgm_shelf::{Shelf, Sink};
use cgm_trail::Work;
use std::alloc::Global;
use std::marker::Sync;
use std::sync::Wait;
use std::thread::Threads;

/// Does all that the program does for the words after its own name, and answers its status. It may
/// wait for turns and for its workers, so its clauses hold if it returns, whatever the words ask
/// for. The gate may hold a worker at some points, and touches no result.
///
/// `solve MODEL --earlier=FILE --cert=FILE --workers=N --budget=N --restarts=N --seed=N` prints a
/// realization of the model than whose vector no realization's is less (`Done`), or that there is
/// none (`Unrealizable`). It runs as many workers as are given, over one log, and four where no
/// number is. `Open` comes only where each of them made as many moves as its budget says, and no
/// more restarts than it may. Then `work` gains as many trails as workers, and the last best of an
/// accepted log that isn't closed is printed, if any. Every lemma and every best on which a change
/// of a trail rests stands in this log. So a budget that no trail can spend leaves nothing open.
/// With `--cert` the named file holds exactly a certificate of entries that show the answer by
/// themselves, for `Open` of that log; it is written before the report, and no other file changes.
/// `check MODEL CERT --earlier=FILE` reads such a certificate, whoever made it, and prints what it
/// shows: a least realization (`Done`), that there is none (`Unrealizable`), or the best of a
/// certificate that leaves open which realization is least (`Open`). `encode MODEL --earlier=FILE`
/// prints the text of the model's problem (`Done`). Without the option nothing is known of an
/// earlier realization. `show MODEL` prints the model's canonical text (`Done`).
/// `trial N --workers=N --seed=N` generates a model of N goals, solves it with the default budget
/// and restarts, checks the entries that show the answer, and prints its least cost and that it is
/// least (`Done`), or what a spent budget leaves (`Open`). It reads and writes no file. `Limit`
/// comes exactly for more than 2,000 goals.
///
/// Every other status is a refusal with one fault line, unless the sink itself failed: `Usage` for
/// other words, `Text` for a model text whose first fault is of a kind, `Earlier` for such an
/// earlier text, `Limit` for a text that passes a limit first, `Certificate` for a certificate
/// whose first faulty line or first entry that isn't accepted is told, `Read` and `Write` for
/// faults that the shelf and the sink count, and `Memory`. `solve`, `check` and `encode` also
/// answer `Limit` for a model with a comparison whose measure passes the row limit, at the line of
/// the first such rule. The model is read and judged first, then the earlier text, then the row
/// limit, then the certificate. A file changes only where `solve` writes a certificate, with the
/// statuses `Done`, `Unrealizable`, `Open` and `Write`. `work` stays, but for `solve` and
/// `trial` with the statuses `Open`, `Write` and `Memory`: there it may have gained trails.
pub fn run<R: Threads + Wait + Sync, F: Shelf, O: Sink, G: Gate>(
    rt: &R,
    alloc: Global,
    words: &[String],
    shelf: &mut F,
    out: &mut O,
    gate: &G,
    work: &mut Work,
) -> Status
    ensures outcome { HasOutcome as_asked (map string_bytes words.now)
        (world (F.state shelf.old) (O.state out.old) work.old)
        (world (F.state shelf.new) (O.state out.new) work.new) result }
    ensures files { AreFilesOf (command_for as_asked (map string_bytes words.now))
        (F.state shelf.old) (F.state shelf.new) result }
    ensures work { IsWorkOf (command_for as_asked (map string_bytes words.now)) work.old work.new
        result }
{
    run_words(&ByCrew { rt, alloc, gate }, words, shelf, out, work)
}

/// Does what the words ask for.
fn run_words<'a, R: Threads + Wait + Sync, G: Gate, F: Shelf, O: Sink>(
    by: &ByCrew<'a, R, G>,
    words: &[String],
    shelf: &mut F,
    out: &mut O,
    work: &mut Work,
) -> Status
    ensures { Runs (command_for as_asked (map string_bytes words.now))
        (world (F.state shelf.old) (O.state out.old) work.old)
        (world (F.state shelf.new) (O.state out.new) work.new) result }
{
    match action_in(by.alloc, words) {
        Ok(Some(action)) => run_action(by, action, shelf, out, work),
        Ok(None) => {
            tell(out, b"fault usage\n");
            Status::Usage
        }
        Err(_) => tell_memory(out),
    }
}

/// Does what was read of the words.
fn run_action<'a, R: Threads + Wait + Sync, G: Gate, F: Shelf, O: Sink>(
    by: &ByCrew<'a, R, G>,
    action: Action<'_>,
    shelf: &mut F,
    out: &mut O,
    work: &mut Work,
) -> Status
    requires { HasActionPlan action }
    ensures { Ends (searching_by as_asked (asked_by action.entry))
        (world (F.state shelf.old) (O.state out.old) work.old)
        (world (F.state shelf.new) (O.state out.new) work.new) result }
{
    match action {
        Action::OnFiles(command) => run_command(by, command, shelf, out, work),
        Action::Trial(request) => trial_by_crew(by, request, out, work),
    }
}

/// Does what a command asks for: takes what its files give, else the status.
fn run_command<'a, R: Threads + Wait + Sync, G: Gate, F: Shelf, O: Sink>(
    by: &ByCrew<'a, R, G>,
    command: Command<'_>,
    shelf: &mut F,
    out: &mut O,
    work: &mut Work,
) -> Status
    requires { HasPlan command }
    ensures { Ends (on_files (with_workers as_asked (told_by command.entry)))
        (world (F.state shelf.old) (O.state out.old) work.old)
        (world (F.state shelf.new) (O.state out.new) work.new) result }
{
    match input_of_files(by.alloc, command.model(), command.earlier(), shelf, out) {
        Ok(input) => {
            let status = run_on(by, command, &input, shelf, out, work);
            discard(input);
            status
        }
        Err(status) => status,
    }
}

/// Does what a command asks for with what its files gave.
fn run_on<'a, R: Threads + Wait + Sync, G: Gate, F: Shelf, O: Sink>(
    by: &ByCrew<'a, R, G>,
    command: Command<'_>,
    input: &Input,
    shelf: &mut F,
    out: &mut O,
    work: &mut Work,
) -> Status
    requires lines { length input.now.reading.rule_lines.items
        ≡ length input.now.reading.model.rules }
    requires plan { HasPlan command }
    ensures outcome { HasOwnOutcome (with_workers as_asked (told_by command.entry))
        (world (F.state shelf.old) (O.state out.old) work.old)
        (world (F.state shelf.new) (O.state out.new) work.new)
        (lists_of input.now.reading.model) input.now.reading.rule_lines.items
        input.now.earlier.pairs result }
    ensures files { LeavesFiles (with_workers as_asked (told_by command.entry))
        (F.state shelf.old) (F.state shelf.new) result }
    ensures work { LeavesWork (with_workers as_asked (told_by command.entry))
        work.old work.new result }
{
    let alloc = by.alloc;
    match command {
        Command::Solve(request) => solve_by_crew(by, request, input, shelf, out, work),
        Command::Check(request) => check(alloc, input, request.cert, shelf, out),
        Command::Show { .. } => show(alloc, &input.reading.model, out),
        Command::Encode(_) => encode_input(alloc, input, out),
    }
}

/// Makes the problem of a model and an earlier realization, and prints its text.
pub(crate) fn encode_input<O: Sink>(alloc: Global, input: &Input, out: &mut O) -> Status
    requires { length input.now.reading.rule_lines.items ≡ length input.now.reading.model.rules }
    ensures { HasProblemOutcome (HasEncodeOutcome (O.state out.old) (O.state out.new))
        (O.state out.old) (O.state out.new) (lists_of input.now.reading.model)
        input.now.reading.rule_lines.items input.now.earlier.pairs result }
{
    match encoding_of(alloc, input, out) {
        Ok(encoded) => print_encoding(alloc, &encoded, out),
        Err(status) => status,
    }
}
