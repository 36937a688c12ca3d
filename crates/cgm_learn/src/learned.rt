//! What is learned from a conflict.

use cgm_atom::{Clause, Hint, Seq};

/// A lemma, and where it is unit.
#[derive(Drop)]
pub struct Learned {
    /// The clause. Its last atom is the one that is open after a cut to `level`.
    pub clause: Clause,
    /// The hints that refute its negation, in their order. `Own(i)` is the i-th pending lemma, from 1.
    pub hints: Seq<Hint>,
    /// The greatest ordinal of a best that the hints carry.
    pub bound: u64,
    /// The level after a cut to which the clause is unit. It is 0 where the clause has no atoms.
    pub level: u64,
}
