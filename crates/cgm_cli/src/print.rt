//! Printing reports and fault lines.
ghost use Rattle.std.specs.Prelude.{◌≡◌};
ghost use Rattle.cgm_base.specs.declared.status.Status.TheVariants as statuses;
ghost use Rattle.cgm_cli.specs.Effects.{IsTold, PrintsReport};
ghost use Rattle.cgm_cli.specs.FaultLines.{memory_fault};

use cgm_base::Status;
use cgm_shelf::{Sink, write_whole};

/// Prints a fault line; where the sink fails, a front of it.
pub(crate) fn tell<O: Sink>(out: &mut O, line: &[u8])
    ensures { IsTold line.now (O.state out.old) (O.state out.new) }
{
    let _ = write_whole(out, line);
}

/// Prints a report and answers its status, or that the sink failed.
pub(crate) fn print_report<O: Sink>(out: &mut O, report: &[u8], status: Status) -> Status
    ensures { PrintsReport report.now status (O.state out.old) (O.state out.new) result }
{
    match write_whole(out, report) {
        Ok(()) => status,
        Err(_) => Status::Write,
    }
}

/// Prints the fault line of want of memory; where the sink fails, a front of it. Answers `Memory`.
pub(crate) fn tell_memory<O: Sink>(out: &mut O) -> Status
    ensures status { result ≡ statuses.Memory }
    ensures told { IsTold memory_fault (O.state out.old) (O.state out.new) }
{
    tell(out, b"fault memory\n");
    Status::Memory
}
