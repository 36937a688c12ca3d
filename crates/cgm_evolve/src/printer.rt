//! The canonical text of an earlier realization.
ghost use Rattle.std.specs.Prelude.{◌≡◌, ◌++◌, IfOk, OnOk};
ghost use Rattle.cgm_evolve.specs.Text.{canonical_text, pair_line};

use crate::earlier::Earlier;
use cgm_base::{OutOfMemory, truth_word};
use cgm_formula::Name;
use std::alloc::Global;

/// Writes the line of a pair.
fn print_pair(out: &mut Vec<u8>, name: &[u8], truth: bool) -> Result<(), OutOfMemory>
    ensures { OnOk result (out.new.items ≡ out.old.items ++ pair_line (name.now, truth)) }
{
    out.extend_from_slice(name)?;
    out.push(b' ')?;
    out.extend_from_slice(truth_word(truth))?;
    out.push(b'\n')?;
    Ok(())
}

/// The canonical text of an earlier realization: the header, then a line for each pair, in order.
pub fn print_earlier(alloc: Global, earlier: &Earlier) -> Result<Vec<u8>, OutOfMemory>
    ensures { IfOk result (λ bytes. bytes.items ≡ canonical_text earlier.now.pairs) }
{
    let mut out = Vec::from_slice(alloc, b"earlier 1\n")?;
    for pair in earlier.pairs.as_slice() {
        print_pair(&mut out, pair.0.as_slice(), pair.1)?;
    }
    Ok(out)
}
