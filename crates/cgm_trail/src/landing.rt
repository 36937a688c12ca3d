//! Hints to lemmas that landed on the log.
ghost use Rattle.std.specs.Prelude.{◌≡◌};
ghost use Rattle.cgm_trail.specs.Landing.{CanLand, CanReasonLand, hint_landed as landed_hint, landed_change};

use crate::changes::{Change, Reason};
use cgm_atom::Hint;

/// The hint after the lemmas that had no place yet landed, the first of them at the place `first`
/// of the log: `Own(i)` is then the entry at `first + i - 1`, and any other hint stays.
/// `i` is at least 1, and the place fits 64 bits.
pub fn landed(hint: Hint, first: u64) -> Hint
    requires { CanLand first hint }
    ensures { result ≡ landed_hint first hint }
{
    match hint {
        Hint::Own(i) => Hint::Entry(first + (i as u64 - 1)),
        other => other,
    }
}

pub(crate) fn change_landed(change: Change, first: u64) -> Change
    requires { CanReasonLand first change.reason }
    ensures { result ≡ landed_change first change }
{
    match change.reason {
        Reason::Decision => change,
        Reason::By(h) => Change {
            atom: change.atom,
            was: change.was,
            reason: Reason::By(landed(h, first)),
        },
    }
}
