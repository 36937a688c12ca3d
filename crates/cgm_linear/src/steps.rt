//! One atom made true, or found to be.
ghost use Rattle.std.specs.Prelude.{◌≡◌, false, ◌+◌, ◌^◌, ◌<◌, ◌≤◌, length};
ghost use Rattle.cgm_atom.specs.Constraints.{Constraint};
ghost use Rattle.cgm_atom.specs.Narrowing.{is_false_in};
ghost use Rattle.cgm_linear.specs.Making.{IsMadeTrue};
ghost use Rattle.cgm_trail.specs.Steps.{IsGiven, IsOnly, IsPropagated};
ghost use Rattle.cgm_trail.specs.TrailState.{box_of};

use cgm_atom::{Atom, Hint, is_true};
use cgm_base::OutOfMemory;
use cgm_trail::{Trail, step};

/// Makes an atom true that isn't false, as narrowing by the hint does, and tells whether it is true
/// now. A step is taken only where the atom isn't true yet, and it isn't true afterwards where none
/// is left. The trail's moves with `left` are at most 2^62. Memory is wanted for a step alone, and
/// for want of it nothing changes.
pub(crate) fn make(
    trail: &mut Trail,
    atom: Atom,
    by: Hint,
    left: &mut u64,
) -> Result<bool, OutOfMemory>
    requires known { atom.var.0 < length (box_of trail.old).lower }
    requires not_false { is_false_in (box_of trail.old) atom ≡ false }
    requires room { trail.old.moves + left.old ≤ 2 ^ 62 }
    ensures made { (k : Constraint) → IsGiven (box_of trail.old) k atom → IsPropagated (IsOnly by k)
        trail.old trail.new left.old left.new }
    ensures answer { IsMadeTrue atom trail.old trail.new left.new result }
{
    if is_true(trail.state(), atom) {
        return Ok(true);
    }
    if *left == 0 {
        return Ok(false);
    }
    step(trail, atom, by, left)?;
    Ok(true)
}
