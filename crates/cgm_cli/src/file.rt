//! The bytes of a file, and the model or the earlier realization that they give, or why there is none.
ghost use Rattle.std.specs.Prelude.{◌≡◌, ◌≤◌, length, IfOk, MatchResult, OnOk};
ghost use Rattle.cgm_base.specs.Words.{most_bytes};
ghost use Rattle.cgm_evolve.specs.Text.{IsTextOf as IsEarlierTextOf};
ghost use Rattle.cgm_model.specs.Model.{lists_of};
ghost use Rattle.cgm_text.specs.Text.{IsReading};
ghost use Rattle.cgm_shelf.specs.Shelf.{OnlyReads};
ghost use Rattle.cgm_cli.specs.Effects.{outside};
ghost use Rattle.cgm_cli.specs.Inputs.{HasEarlierFaultOutcome, HasFaultOutcome, HasNoContent, HasNoEarlier, HasNoModel, IsContent, IsEarlierOf, IsReadingOf, text_limit};

use crate::faults::{PlacedFault, tell_fault};
use crate::print::{tell, tell_memory};
use cgm_base::limits::TEXT_BYTES;
use cgm_base::{Limit, Status, Which};
use cgm_evolve::{Earlier, EarlierStop, read_earlier};
use cgm_shelf::{ReadStop, Shelf, Sink, read_whole};
use cgm_text::{Reading, TextStop, read};
use std::alloc::Global;

/// The limit that a text of too many bytes passes.
fn too_long() -> Limit
    ensures { result ≡ text_limit }
{
    Limit {
        which: Which::TextBytes,
        number: TEXT_BYTES,
        line: 0,
    }
}

/// The bytes of the named file, or the status after it was told why there are none. With a limit, a
/// file of more bytes passes it.
pub(crate) fn read_file<F: Shelf, O: Sink>(
    alloc: Global,
    name: &str,
    limit: Option<u64>,
    shelf: &mut F,
    out: &mut O,
) -> Result<Vec<u8>, Status>
    ensures outcome { MatchResult result
        (λ bytes. IsContent (F.state shelf.old).files name.now limit bytes.items)
        (HasNoContent name.now limit
        (outside (F.state shelf.old) (O.state out.old))
        (outside (F.state shelf.new) (O.state out.new))) }
    ensures untouched { OnOk result (out.new ≡ out.old) }
    ensures only { OnlyReads (F.state shelf.old) (F.state shelf.new) }
{
    match read_whole(alloc, shelf, name, limit) {
        Ok(bytes) => Ok(bytes),
        Err(ReadStop::Fault) => {
            tell(out, b"fault read\n");
            Err(Status::Read)
        }
        Err(ReadStop::TooLong) => Err(tell_fault(alloc, out, PlacedFault::Limit(too_long()))),
        Err(ReadStop::Memory) => Err(tell_memory(out)),
    }
}

/// The model of a text with the lines of its rules, or the status after its first fault was told.
fn reading_of_text<O: Sink>(alloc: Global, text: &[u8], out: &mut O) -> Result<Reading, Status>
    requires { length text.now ≤ most_bytes }
    ensures outcome { MatchResult result
        (λ reading. IsReading text.now (lists_of reading.model) reading.rule_lines.items)
        (HasFaultOutcome text.now (O.state out.old) (O.state out.new)) }
    ensures lines { IfOk result (λ reading. length reading.rule_lines.items ≡ length
        reading.model.rules) }
    ensures untouched { OnOk result (out.new ≡ out.old) }
{
    match read(alloc, text) {
        Ok(reading) => Ok(reading),
        Err(TextStop::Bad { line, kind }) => {
            Err(tell_fault(alloc, out, PlacedFault::Text { line, kind }))
        }
        Err(TextStop::Limit(limit)) => Err(tell_fault(alloc, out, PlacedFault::Limit(limit))),
        Err(TextStop::Memory) => Err(tell_memory(out)),
    }
}

/// The model of the named file with the lines of its rules, or the status after it was told why
/// there is none.
pub(crate) fn reading_of_file<F: Shelf, O: Sink>(
    alloc: Global,
    name: &str,
    shelf: &mut F,
    out: &mut O,
) -> Result<Reading, Status>
    ensures outcome { MatchResult result
        (λ reading. IsReadingOf (F.state shelf.old).files name.now (lists_of reading.model)
        reading.rule_lines.items)
        (HasNoModel name.now
        (outside (F.state shelf.old) (O.state out.old))
        (outside (F.state shelf.new) (O.state out.new))) }
    ensures untouched { OnOk result (out.new ≡ out.old) }
    ensures lines { IfOk result (λ reading. length reading.rule_lines.items ≡ length
        reading.model.rules) }
    ensures only { OnlyReads (F.state shelf.old) (F.state shelf.new) }
{
    match read_file(alloc, name, Some(TEXT_BYTES), shelf, out) {
        Ok(text) => reading_of_text(alloc, text.as_slice(), out),
        Err(status) => Err(status),
    }
}

/// The earlier realization of a text, or the status after its first fault was told.
fn earlier_of_text<O: Sink>(alloc: Global, text: &[u8], out: &mut O) -> Result<Earlier, Status>
    requires { length text.now ≤ most_bytes }
    ensures outcome { MatchResult result (λ e. IsEarlierTextOf text.now e.pairs)
        (HasEarlierFaultOutcome text.now (O.state out.old) (O.state out.new)) }
    ensures untouched { OnOk result (out.new ≡ out.old) }
{
    match read_earlier(alloc, text) {
        Ok(earlier) => Ok(earlier),
        Err(EarlierStop::Bad { line, kind }) => {
            Err(tell_fault(alloc, out, PlacedFault::Earlier { line, kind }))
        }
        Err(EarlierStop::Limit(limit)) => Err(tell_fault(alloc, out, PlacedFault::Limit(limit))),
        Err(EarlierStop::Memory) => Err(tell_memory(out)),
    }
}

/// The earlier realization of the named file, or the status after it was told why there is none.
pub(crate) fn earlier_of_file<F: Shelf, O: Sink>(
    alloc: Global,
    name: &str,
    shelf: &mut F,
    out: &mut O,
) -> Result<Earlier, Status>
    ensures outcome { MatchResult result
        (λ e. IsEarlierOf (F.state shelf.old).files name.now e.pairs)
        (HasNoEarlier name.now
        (outside (F.state shelf.old) (O.state out.old))
        (outside (F.state shelf.new) (O.state out.new))) }
    ensures untouched { OnOk result (out.new ≡ out.old) }
    ensures only { OnlyReads (F.state shelf.old) (F.state shelf.new) }
{
    match read_file(alloc, name, Some(TEXT_BYTES), shelf, out) {
        Ok(text) => earlier_of_text(alloc, text.as_slice(), out),
        Err(status) => Err(status),
    }
}
