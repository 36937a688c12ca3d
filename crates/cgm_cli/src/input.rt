//! What the files of a command give: a model, and what is known of an earlier realization.
ghost use Rattle.std.specs.Prelude.{◌≡◌, IfOk, MatchResult, OnOk, length, option_map};
ghost use Rattle.cgm_model.specs.Model.{lists_of};
ghost use Rattle.cgm_shelf.specs.Shelf.{OnlyReads};
ghost use Rattle.cgm_cli.specs.Effects.{outside};
ghost use Rattle.cgm_cli.specs.Inputs.{HasNoInput, HasNothingKnown, IsInputOf, IsKnownOf};

use crate::file::{earlier_of_file, reading_of_file};
use cgm_base::Status;
use cgm_evolve::Earlier;
use cgm_shelf::{Shelf, Sink};
use cgm_text::Reading;
use std::alloc::Global;

/// A model with the lines of its rules, and what is known of an earlier realization.
#[derive(Drop)]
pub(crate) struct Input {
    pub(crate) reading: Reading,
    pub(crate) earlier: Earlier,
}

/// Gives the memory of an input back. What drops an input is long to prove, so it is done here alone.
pub(crate) fn discard(_input: Input) {}

/// The same for a reading.
pub(crate) fn discard_reading(_reading: Reading) {}

/// The model of the named file, and the earlier realization of the other file where one is named, or
/// the status after it was told why there is none. Without that file nothing is known of an earlier
/// realization. The model comes first.
pub(crate) fn input_of_files<F: Shelf, O: Sink>(
    alloc: Global,
    name: &str,
    earlier: Option<&str>,
    shelf: &mut F,
    out: &mut O,
) -> Result<Input, Status>
    ensures outcome { MatchResult result
        (λ input. IsInputOf (F.state shelf.old).files
        name.now (option_map (λ file. file.now) earlier.entry)
        (lists_of input.reading.model) input.reading.rule_lines.items input.earlier.pairs)
        (HasNoInput name.now (option_map (λ file. file.now) earlier.entry)
        (outside (F.state shelf.old) (O.state out.old))
        (outside (F.state shelf.new) (O.state out.new))) }
    ensures lines { IfOk result (λ input. length input.reading.rule_lines.items ≡ length
        input.reading.model.rules) }
    ensures untouched { OnOk result (out.new ≡ out.old) }
    ensures only { OnlyReads (F.state shelf.old) (F.state shelf.new) }
{
    let reading = match reading_of_file(alloc, name, shelf, out) {
        Ok(reading) => reading,
        Err(status) => return Err(status),
    };
    match earlier_known(alloc, earlier, shelf, out) {
        Ok(earlier) => Ok(Input { reading, earlier }),
        Err(status) => {
            discard_reading(reading);
            Err(status)
        }
    }
}

/// The earlier realization of a file where one is named, or the status after it was told why there is
/// none. Without a file nothing is known.
fn earlier_known<F: Shelf, O: Sink>(
    alloc: Global,
    earlier: Option<&str>,
    shelf: &mut F,
    out: &mut O,
) -> Result<Earlier, Status>
    ensures outcome { MatchResult result
        (λ known. IsKnownOf (F.state shelf.old).files (option_map (λ file. file.now) earlier.entry)
        known.pairs)
        (HasNothingKnown (option_map (λ file. file.now) earlier.entry)
        (outside (F.state shelf.old) (O.state out.old))
        (outside (F.state shelf.new) (O.state out.new))) }
    ensures untouched { OnOk result (out.new ≡ out.old) }
    ensures only { OnlyReads (F.state shelf.old) (F.state shelf.new) }
{
    match earlier {
        None => Ok(Earlier::unknown(alloc)),
        Some(file) => earlier_of_file(alloc, file, shelf, out),
    }
}
