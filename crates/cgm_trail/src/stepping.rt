//! One step of propagation.
ghost use Rattle.std.specs.Prelude.{◌≡◌, ◌+◌, ◌^◌, ◌<◌, ◌≤◌, OnOk, OnErr};
ghost use Rattle.cgm_atom.specs.Constraints.{Constraint};
ghost use Rattle.cgm_trail.specs.Steps.{IsGiven, IsOnly, IsPropagated};
ghost use Rattle.cgm_trail.specs.TrailState.{IsOpenIn, box_of, tightened};

use crate::trails::Trail;
use cgm_atom::{Atom, Hint};
use cgm_base::OutOfMemory;

/// Makes an atom true that is neither true nor false, as narrowing by the hint does, and takes one
/// from `left`. `left` is at least 1, and the trail's moves with `left` are at most 2^62.
/// For want of memory nothing changes.
pub fn step(trail: &mut Trail, atom: Atom, by: Hint, left: &mut u64) -> Result<(), OutOfMemory>
    requires undecided { IsOpenIn (box_of trail.old) atom }
    requires budget { 0 < left.old }
    requires room { trail.old.moves + left.old ≤ 2 ^ 62 }
    ensures trail { OnOk result (trail.new ≡ tightened trail.old atom by) }
    ensures left { OnOk result (left.new + 1 ≡ left.old) }
    ensures err_trail { OnErr result (trail.new ≡ trail.old) }
    ensures err_left { OnErr result (left.new ≡ left.old) }
    ensures made { (k : Constraint) → IsGiven (box_of trail.old) k atom → IsPropagated (IsOnly by k)
        trail.old trail.new left.old left.new }
{
    trail.tighten(atom, by)?;
    *left -= 1;
    Ok(())
}
