//! The entries of a certificate, checked against a model, and what they show printed.
ghost use Rattle.std.specs.Prelude.{◌≡◌, MatchResult, OnOk, length};
ghost use Rattle.cgm_cert.specs.Fault.{IsTextOf};
ghost use Rattle.cgm_encode.specs.Encoding.{IsEncodingOf};
ghost use Rattle.cgm_model.specs.Model.{lists_of};
ghost use Rattle.cgm_shelf.specs.Shelf.{OnlyReads};
ghost use Rattle.cgm_cli.specs.CheckOutcome.{HasCertificateOutcome, HasCheckOutcome, HasEntriesOutcome, HasNoEntries};
ghost use Rattle.cgm_cli.specs.Effects.{outside};
ghost use Rattle.cgm_cli.specs.Inputs.{HasProblemOutcome};

use crate::answer::print_answer;
use crate::encoding::encoding_of;
use crate::faults::{PlacedFault, tell_fault};
use crate::file::read_file;
use crate::input::Input;
use crate::print::tell_memory;
use cgm_atom::{Entry, Seq};
use cgm_base::Status;
use cgm_cert::{CertStop, read_cert};
use cgm_encode::Encoded;
use cgm_shelf::{Shelf, Sink};
use cgm_solve::{Verified, verify_encoded};
use std::alloc::Global;

/// Checks the named certificate against a model, with what is known of an earlier realization, and
/// prints what it shows, or its first fault. The model's problem comes first.
pub(crate) fn check<F: Shelf, O: Sink>(
    alloc: Global,
    input: &Input,
    cert: &str,
    shelf: &mut F,
    out: &mut O,
) -> Status
    requires { length input.now.reading.rule_lines.items ≡ length input.now.reading.model.rules }
    ensures outcome { HasProblemOutcome (HasCheckOutcome cert.now
        (outside (F.state shelf.old) (O.state out.old))
        (outside (F.state shelf.new) (O.state out.new)))
        (O.state out.old) (O.state out.new) (lists_of input.now.reading.model)
        input.now.reading.rule_lines.items input.now.earlier.pairs result }
    ensures only { OnlyReads (F.state shelf.old) (F.state shelf.new) }
{
    match encoding_of(alloc, input, out) {
        Ok(encoded) => check_file(alloc, input, &encoded, cert, shelf, out),
        Err(status) => status,
    }
}

/// Checks the entries of the named file against a model with this encoding.
fn check_file<F: Shelf, O: Sink>(
    alloc: Global,
    input: &Input,
    encoded: &Encoded,
    cert: &str,
    shelf: &mut F,
    out: &mut O,
) -> Status
    requires { IsEncodingOf (lists_of input.now.reading.model) input.now.earlier.pairs encoded.now }
    ensures outcome { HasCheckOutcome cert.now
        (outside (F.state shelf.old) (O.state out.old))
        (outside (F.state shelf.new) (O.state out.new))
        (lists_of input.now.reading.model) input.now.earlier.pairs result }
    ensures only { OnlyReads (F.state shelf.old) (F.state shelf.new) }
{
    match read_file(alloc, cert, None, shelf, out) {
        Ok(text) => check_text(alloc, input, encoded, text.as_slice(), out),
        Err(status) => status,
    }
}

/// Checks the entries of a certificate's text.
fn check_text<O: Sink>(
    alloc: Global,
    input: &Input,
    encoded: &Encoded,
    text: &[u8],
    out: &mut O,
) -> Status
    requires { IsEncodingOf (lists_of input.now.reading.model) input.now.earlier.pairs encoded.now }
    ensures { HasCertificateOutcome (lists_of input.now.reading.model) input.now.earlier.pairs
        text.now (O.state out.old) (O.state out.new) result }
{
    match entries_of_text(alloc, text, out) {
        Ok(entries) => check_entries(alloc, input, encoded, Seq::of(entries), out),
        Err(status) => status,
    }
}

/// The entries of a certificate's text, or the status after its first fault was told.
fn entries_of_text<O: Sink>(alloc: Global, text: &[u8], out: &mut O) -> Result<Vec<Entry>, Status>
    ensures outcome { MatchResult result (λ entries. IsTextOf text.now entries.items)
        (HasNoEntries text.now (O.state out.old) (O.state out.new)) }
    ensures untouched { OnOk result (out.new ≡ out.old) }
{
    match read_cert(alloc, text) {
        Ok(entries) => Ok(entries),
        Err(CertStop::Bad { line, kind }) => {
            Err(tell_fault(alloc, out, PlacedFault::Certificate { line, kind }))
        }
        Err(CertStop::Memory) => Err(tell_memory(out)),
    }
}

/// Checks entries against a model with this encoding, and prints what they show, or the first of them
/// that isn't accepted.
fn check_entries<O: Sink>(
    alloc: Global,
    input: &Input,
    encoded: &Encoded,
    entries: Seq<Entry>,
    out: &mut O,
) -> Status
    requires { IsEncodingOf (lists_of input.now.reading.model) input.now.earlier.pairs encoded.now }
    ensures { HasEntriesOutcome (lists_of input.now.reading.model) input.now.earlier.pairs
        entries (O.state out.old) (O.state out.new) result }
{
    match verify_encoded(alloc, encoded, entries) {
        Ok(Verified::Shown(answer)) => print_answer(alloc, &input.reading.model, answer, out),
        Ok(Verified::Refused { step, why }) => {
            tell_fault(alloc, out, PlacedFault::Entry { number: step, why })
        }
        Err(_) => tell_memory(out),
    }
}
