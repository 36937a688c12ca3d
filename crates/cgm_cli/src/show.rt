//! The command `show`.
ghost use Rattle.cgm_model.specs.Model.{lists_of};
ghost use Rattle.cgm_cli.specs.Outcome.{HasShowOutcome};

use crate::print::{print_report, tell_memory};
use cgm_base::Status;
use cgm_model::Model;
use cgm_shelf::Sink;
use cgm_text::print;
use std::alloc::Global;

/// Prints the canonical text of a model.
pub(crate) fn show<O: Sink>(alloc: Global, model: &Model, out: &mut O) -> Status
    ensures { HasShowOutcome (O.state out.old) (O.state out.new) (lists_of model.now) result }
{
    match print(alloc, model) {
        Ok(text) => print_report(out, text.as_slice(), Status::Done),
        Err(_) => tell_memory(out),
    }
}
