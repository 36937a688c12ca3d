//! An earlier realization.
ghost use Rattle.std.specs.Prelude.{◌≡◌, []};
ghost use Rattle.cgm_evolve.specs.Index.{Indexes};
ghost use Rattle.cgm_evolve.specs.Pairs.{ArePairs, truth_in};

use crate::index::Index;
use cgm_formula::{Name, Parts};
use std::alloc::Global;

/// An earlier realization: names, each with the truth that it had. The names are distinct, each is
/// spelled as a name, a reserved word too, and has at most 64 bytes.
#[derive(Drop)]
pub struct Earlier {
    /// The names with their truths, in the order of the text.
    pub pairs: Parts<(Name, bool)>,
    /// The same, to be looked up.
    pub(crate) index: Index,
    pub ghost proper: { ∥ ArePairs pairs ∥₁ },
    pub ghost indexed: { ∥ Indexes pairs index ∥₁ },
}

impl Earlier {
    /// The earlier realization of which nothing is known. It takes no memory.
    pub fn unknown(alloc: Global) -> Earlier
        ensures { result.pairs ≡ [] }
    {
        Earlier {
            pairs: Parts::of(Vec::new(alloc)),
            index: Index::new(alloc),
        }
    }

    /// The truth that the name had, where it is known. It takes no memory.
    pub fn truth_of(&self, name: &[u8]) -> Option<bool>
        ensures { result ≡ truth_in self.now.pairs name.now }
    {
        self.index.get(name)
    }
}
