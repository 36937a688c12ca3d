//! The reader of texts, line by line, over any draft that takes lines.
ghost use Rattle.std.specs.Prelude.{◌≡◌, ◌≤◌, length, IfErr, OnOk};
ghost use Rattle.cgm_base.specs.Words.{most_bytes};
ghost use Rattle.cgm_lex.specs.Readings.{IsNotReadAs, IsReadAs, IsReadWhole, LineStep, LineStops, Starts, TextForm, lack_of};

use crate::line::split_line;
use crate::stops::text_stop;
pub use crate::stops::{LineFault, LineStop, TextStop, lexing_stop};
use std::alloc::Global;

/// What the lines of a text make, one after another. It holds what the lines so far said.
pub trait Draft {
    /// What lines say.
    ghost Said: { Type 0 };

    /// The form of its texts: what a line comes to after what was said so far, and what the end asks
    /// for.
    ghost form: { TextForm Said };

    /// The draft holds what was said so far.
    ghost holds: { Said → Self → Type 0 };

    /// Adds what a line says, which has this number.
    fn add_line(&mut self, alloc: Global, line: &[u8], number: u32) -> Result<(), LineStop>
        requires { length line.now ≤ most_bytes }
        ensures step { OnOk result (LineStep form holds number line.now self.old self.new) }
        ensures stop { IfErr result (LineStops form holds number line.now self.old) };

    /// What the text lacks that ends here, which is a fault of its first line.
    fn lack(&self) -> Option<LineFault>
        ensures { (said : Said) → holds said self.now → result ≡ lack_of form said };
}

/// Adds the lines of a text to a draft that has none yet.
fn add_lines<D: Draft>(alloc: Global, bytes: &[u8], draft: &mut D) -> Result<(), TextStop>
    requires short { length bytes.now ≤ most_bytes }
    requires empty { Starts D.form D.holds draft.old }
    ensures read { OnOk result (IsReadWhole D.form D.holds bytes.now draft.new) }
    ensures stop { IfErr result (IsNotReadAs D.form bytes.now) }
{
    let mut rest = bytes;
    let mut number = 1;
    while let Some((line, after)) = split_line(rest) {
        match draft.add_line(alloc, line, number) {
            Ok(()) => {}
            Err(stop) => return Err(text_stop(stop, number)),
        }
        rest = after;
        number += 1;
    }
    match draft.add_line(alloc, rest, number) {
        Ok(()) => Ok(()),
        Err(stop) => Err(text_stop(stop, number)),
    }
}

/// Reads a text of at most 16 MiB into a draft that has no line yet: all that it says, or the first
/// fault: its line and its kind, or the limit that is passed there. Only want of memory comes beside
/// these.
pub fn read_lines<D: Draft>(alloc: Global, bytes: &[u8], draft: &mut D) -> Result<(), TextStop>
    requires short { length bytes.now ≤ most_bytes }
    requires empty { Starts D.form D.holds draft.old }
    ensures read { OnOk result (IsReadAs D.form D.holds bytes.now draft.new) }
    ensures stop { IfErr result (IsNotReadAs D.form bytes.now) }
{
    match add_lines(alloc, bytes, draft) {
        Err(stop) => Err(stop),
        Ok(()) => match draft.lack() {
            None => Ok(()),
            Some(fault) => Err(text_stop(LineStop::Faulty(fault), 1)),
        },
    }
}
