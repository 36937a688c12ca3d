//! The calls of one kind that a shelf or a sink in memory takes.
ghost use Rattle.std.specs.Prelude.{◌≡◌, ◌↔◌, ◌≤◌, IsTrue, Contains};
ghost use Rattle.cgm_shelf.specs.Faults.{next};

/// Which calls are to fail, by their numbers from 1 on, and how many were made and how many failed.
#[derive(Drop)]
pub(crate) struct Calls {
    pub(crate) failing: Vec<u64>,
    pub(crate) made: u64,
    pub(crate) faults: u64,
}

impl Calls {
    pub(crate) fn new(failing: Vec<u64>) -> Self
        ensures failing { result.failing ≡ failing }
        ensures made { result.made ≡ 0 }
        ensures faults { result.faults ≡ 0 }
    {
        Calls {
            failing,
            made: 0,
            faults: 0,
        }
    }

    /// Counts a call.
    pub(crate) fn count(&mut self)
        ensures made { self.new.made ≡ next self.old.made }
        ensures failing { self.new.failing.items ≡ self.old.failing.items }
        ensures faults { self.new.faults ≡ self.old.faults }
    {
        self.made = self.made.saturating_add(1);
    }

    /// Whether the call that was counted last is to fail.
    pub(crate) fn is_failing(&self) -> bool
        ensures { IsTrue result ↔ Contains self.now.failing.items self.now.made }
    {
        self.failing.contains(&self.made)
    }

    /// Counts a fault.
    pub(crate) fn fail(&mut self)
        ensures faults { self.new.faults ≡ next self.old.faults }
        ensures later { self.old.faults ≤ self.new.faults }
        ensures failing { self.new.failing.items ≡ self.old.failing.items }
        ensures made { self.new.made ≡ self.old.made }
    {
        self.faults = self.faults.saturating_add(1);
    }
}
