//! The reader of a model text.
ghost use Rattle.std.specs.Prelude.{◌≤◌, length, IfOk, IfErr};
ghost use Rattle.cgm_base.specs.Words.{most_bytes};
ghost use Rattle.cgm_model.specs.Model.{lists_of};
ghost use Rattle.cgm_text.specs.Text.{IsReading, IsNotRead};

use crate::draft::ModelDraft;
use cgm_lex::reading::{TextStop, read_lines};
use cgm_model::Model;
use std::alloc::Global;

/// A model that was read from a text.
#[derive(Drop)]
pub struct Reading {
    pub model: Model,
    /// The line of each rule, numbered from 1, in the order of the rules.
    pub rule_lines: Vec<u32>,
}

/// Reads a model text of at most 16 MiB: its model with the lines of the rules, or the first fault:
/// its line and its kind, or the limit that is passed there. Only want of memory comes beside these.
pub fn read(alloc: Global, bytes: &[u8]) -> Result<Reading, TextStop>
    requires { length bytes.now ≤ most_bytes }
    ensures read { IfOk result (λ reading. IsReading bytes.now (lists_of reading.model)
        reading.rule_lines.items) }
    ensures stop { IfErr result (IsNotRead bytes.now) }
{
    let mut draft = ModelDraft::new(alloc);
    match read_lines(alloc, bytes, &mut draft) {
        Ok(()) => Ok(draft.finish()),
        Err(stop) => {
            draft.discard();
            Err(stop)
        }
    }
}
