//! A model solved, the certificate written, and the answer printed.
ghost use Rattle.std.specs.Prelude.{◌≡◌, Some, length, option_map};
ghost use Rattle.std.specs.List.{All};
ghost use Rattle.cgm_atom.specs.Ranges.{IsPrintable};
ghost use Rattle.cgm_model.specs.Model.{lists_of};
ghost use Rattle.cgm_report.specs.Answers.{IsReportable, report_of};
ghost use Rattle.cgm_cli.specs.Answers.{answer_status, entries_of};
ghost use Rattle.cgm_cli.specs.CommandLine.{as_asked, with_workers};
ghost use Rattle.cgm_cli.specs.Commands.{HasPlan, solving};
ghost use Rattle.cgm_cli.specs.declared.command.Command.TheVariants as read;
ghost use Rattle.cgm_cli.specs.Effects.{outside, world};
ghost use Rattle.cgm_cli.specs.Outcome.{HasOwnOutcome, LeavesFiles, LeavesWork};
ghost use Rattle.cgm_cli.specs.SolveOutcome.{IsDelivered};

use crate::answer::{entries_of, status_of};
use crate::command::SolveRequest;
use crate::encoding::tell_row_limit;
use crate::input::Input;
use crate::print::{print_report, tell, tell_memory};
use crate::solvers::ByCrew;
use cgm_base::Status;
use cgm_cert::print_cert;
use cgm_model::Model;
use cgm_report::report;
use cgm_search::Gate;
use cgm_shelf::{Shelf, Sink, write_file};
use cgm_solve::{Answer, SolveStop, solve};
use cgm_trail::Work;
use std::alloc::Global;
use std::marker::Sync;
use std::sync::Wait;
use std::thread::Threads;

/// Solves a model by a crew as the request asks, with what is known of an earlier realization. Writes
/// the certificate where a file is named for it, and prints the answer, or why there is none.
pub(crate) fn solve_by_crew<'a, R: Threads + Wait + Sync, G: Gate, F: Shelf, O: Sink>(
    by: &ByCrew<'a, R, G>,
    request: SolveRequest<'_>,
    input: &Input,
    shelf: &mut F,
    out: &mut O,
    work: &mut Work,
) -> Status
    requires lines { length input.now.reading.rule_lines.items
        ≡ length input.now.reading.model.rules }
    requires plan { HasPlan (read.Solve request) }
    ensures outcome { HasOwnOutcome (with_workers as_asked (solving request.entry))
        (world (F.state shelf.old) (O.state out.old) work.old)
        (world (F.state shelf.new) (O.state out.new) work.new)
        (lists_of input.now.reading.model) input.now.reading.rule_lines.items
        input.now.earlier.pairs result }
    ensures files { LeavesFiles (with_workers as_asked (solving request.entry))
        (F.state shelf.old) (F.state shelf.new) result }
    ensures work { LeavesWork (with_workers as_asked (solving request.entry))
        work.old work.new result }
    ensures reads { (F.state shelf.new).read_faults ≡ (F.state shelf.old).read_faults }
{
    let alloc = by.alloc;
    let m = &input.reading.model;
    let crew = request.crew();
    match solve(by.rt, alloc, m, &input.earlier, crew, by.gate, work) {
        Ok(answer) => deliver(alloc, m, &answer, request.cert, shelf, out),
        Err(SolveStop::Row { rule }) => tell_row_limit(alloc, input, rule, out),
        Err(SolveStop::Memory) => tell_memory(out),
    }
}

/// Makes the report of an answer. Then writes the certificate where a file is named for it, and prints
/// the report.
pub(crate) fn deliver<F: Shelf, O: Sink>(
    alloc: Global,
    model: &Model,
    answer: &Answer,
    cert: Option<&str>,
    shelf: &mut F,
    out: &mut O,
) -> Status
    requires report { IsReportable (lists_of model.now) answer.now }
    requires entries { All IsPrintable (entries_of answer.now) }
    ensures outcome { IsDelivered (option_map (λ file. file.now) cert.entry) (entries_of answer.now)
        (report_of (lists_of model.now) answer.now) (answer_status answer.now)
        (outside (F.state shelf.old) (O.state out.old))
        (outside (F.state shelf.new) (O.state out.new)) result }
    ensures reads { (F.state shelf.new).read_faults ≡ (F.state shelf.old).read_faults }
{
    match report(alloc, model, answer) {
        Ok(text) => {
            let report = text.as_slice();
            match cert {
                None => print_report(out, report, status_of(answer)),
                Some(name) => certify(alloc, answer, name, report, shelf, out),
            }
        }
        Err(_) => tell_memory(out),
    }
}

/// Makes the certificate of an answer. Then writes it to the named file, and prints the report.
fn certify<F: Shelf, O: Sink>(
    alloc: Global,
    answer: &Answer,
    name: &str,
    report: &[u8],
    shelf: &mut F,
    out: &mut O,
) -> Status
    requires { All IsPrintable (entries_of answer.now) }
    ensures outcome { IsDelivered (Some name.now) (entries_of answer.now) report.now
        (answer_status answer.now)
        (outside (F.state shelf.old) (O.state out.old))
        (outside (F.state shelf.new) (O.state out.new)) result }
    ensures reads { (F.state shelf.new).read_faults ≡ (F.state shelf.old).read_faults }
{
    match print_cert(alloc, entries_of(answer)) {
        Ok(text) => match write_file(shelf, name, text.as_slice()) {
            Ok(()) => print_report(out, report, status_of(answer)),
            Err(_) => {
                tell(out, b"fault write\n");
                Status::Write
            }
        },
        Err(_) => tell_memory(out),
    }
}
