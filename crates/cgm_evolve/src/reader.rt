//! The reader of an earlier text.
ghost use Rattle.std.specs.Prelude.{◌≤◌, length, IfOk, IfErr};
ghost use Rattle.cgm_base.specs.Words.{most_bytes};
ghost use Rattle.cgm_evolve.specs.Text.{IsTextOf, IsNotRead};

use crate::draft::EarlierDraft;
use crate::earlier::Earlier;
use cgm_lex::reading::{TextStop as EarlierStop, read_lines};
use std::alloc::Global;

/// Reads an earlier text of at most 16 MiB: its pairs in order, or the first fault: its line and its
/// kind, or the limit that is passed there. Only want of memory comes beside these.
pub fn read_earlier(alloc: Global, bytes: &[u8]) -> Result<Earlier, EarlierStop>
    requires { length bytes.now ≤ most_bytes }
    ensures read { IfOk result (λ e. IsTextOf bytes.now e.pairs) }
    ensures stop { IfErr result (IsNotRead bytes.now) }
{
    let mut draft = EarlierDraft::new(alloc);
    match read_lines(alloc, bytes, &mut draft) {
        Ok(()) => Ok(draft.finish()),
        Err(stop) => Err(stop),
    }
}
