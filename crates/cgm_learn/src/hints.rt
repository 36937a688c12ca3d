//! The hints that an analysis has used.
ghost use Rattle.std.specs.Prelude.{◌≡◌, ◌++◌, ◌∷◌, ◌<◌, ◌^◌, [], max, OnOk};
ghost use Rattle.cgm_atom.specs.Ranges.{IsHintInRange};

use cgm_atom::Hint;
use cgm_base::OutOfMemory;
use std::alloc::Global;

/// Hints, the last one of the replay first, and the greatest ordinal that they carry.
#[derive(Drop)]
pub(crate) struct Used {
    pub(crate) hints: Vec<Hint>,
    pub(crate) bound: u64,
}

impl Used {
    pub(crate) fn new(alloc: Global) -> Used
        ensures hints { result.hints.items ≡ [] }
        ensures bound { result.bound ≡ 0 }
    {
        Used {
            hints: Vec::new(alloc),
            bound: 0,
        }
    }

    /// Adds a hint that carries this much.
    pub(crate) fn add(&mut self, hint: Hint, carried: u64) -> Result<(), OutOfMemory>
        ensures hints { OnOk result (self.new.hints.items ≡ self.old.hints.items ++ hint ∷ []) }
        ensures bound { OnOk result (self.new.bound ≡ max carried self.old.bound) }
        ensures fits { OnOk result (self.new.bound < 2 ^ 64) }
    {
        self.hints.push(hint)?;
        self.bound = carried.max(self.bound);
        Ok(())
    }
}

/// The numbers of a hint fit their types.
pub(crate) fn recall_range(hint: Hint)
    ensures { IsHintInRange hint }
{
    match hint {
        Hint::Clause(_) => {}
        Hint::Row(_) => {}
        Hint::Entry(_) => {}
        Hint::Own(_) => {}
        Hint::Cut { .. } => {}
    }
}
