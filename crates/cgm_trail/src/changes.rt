//! Changes of a trail, and why they were made.
ghost use Rattle.std.specs.Prelude.{◌≡◌};
ghost use Rattle.cgm_trail.specs.Earlier.{earlier_bound};

use cgm_atom::{Atom, Hint};

/// Why a bound was tightened.
#[derive(Clone, Copy, PartialEq, Eq)]
pub enum Reason {
    /// The search decided so. A decision opens a level.
    Decision,
    /// Narrowing by what the hint names makes the atom true.
    By(Hint),
}

/// A bound that was tightened: the atom was made true.
#[derive(Clone, Copy, PartialEq, Eq)]
pub struct Change {
    pub atom: Atom,
    /// The number that the atom's bound had before.
    pub was: i64,
    pub reason: Reason,
}

impl Change {
    /// The bound before the change: the atom of the same variable and direction, at the number
    /// `was`. A box that is relaxed to it is the box before the change.
    pub fn earlier(self) -> Atom
        ensures { result ≡ earlier_bound self }
    {
        Atom {
            var: self.atom.var,
            at_least: self.atom.at_least,
            k: self.was,
        }
    }
}

/// How a round of propagation ended.
#[derive(Clone, Copy, PartialEq, Eq)]
pub enum Swept {
    /// There is nothing to tighten.
    Quiet,
    /// What the hint names leaves conflict of the box.
    Conflict(Hint),
    /// A tightening stands, and none is left in the budget.
    Spent,
}
