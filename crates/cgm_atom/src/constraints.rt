//! Variables, atoms, clauses and rows.
ghost use Rattle.std.specs.Prelude.{◌≡◌, IfOk};

use crate::lists::Seq;
use cgm_base::OutOfMemory;
use std::alloc::Global;

/// A variable, by its number from 0.
#[derive(Clone, Copy, Debug, PartialEq, Eq, PartialOrd, Ord)]
pub struct Var(pub u32);

/// A bound on one variable: `var >= k` where `at_least` is set, else `var <= k`.
#[derive(Clone, Copy, Debug, PartialEq, Eq, PartialOrd, Ord)]
pub struct Atom {
    pub var: Var,
    pub at_least: bool,
    pub k: i64,
}

/// The claim that one of its atoms is true. Without atoms it is false.
#[derive(Debug, Drop)]
pub struct Clause {
    pub atoms: Seq<Atom>,
}

impl Clause {
    /// An equal clause.
    pub fn copy(&self, alloc: Global) -> Result<Clause, OutOfMemory>
        ensures { IfOk result (λ c. c ≡ self.now) }
    {
        let atoms = Vec::from_slice(alloc, self.atoms.as_slice())?;
        Ok(Clause {
            atoms: Seq::of(atoms),
        })
    }
}

/// The claim that the sum of coefficient times variable is at least `least`.
/// With a guard it is claimed only where the guard is true.
#[derive(Debug, Drop)]
pub struct Row {
    pub guard: Option<Atom>,
    pub terms: Seq<(i64, Var)>,
    pub least: i64,
}

impl Row {
    pub(crate) fn copy(&self, alloc: Global) -> Result<Row, OutOfMemory>
        ensures { IfOk result (λ r. r ≡ self.now) }
    {
        let terms = Vec::from_slice(alloc, self.terms.as_slice())?;
        Ok(Row {
            guard: self.guard,
            terms: Seq::of(terms),
            least: self.least,
        })
    }
}
