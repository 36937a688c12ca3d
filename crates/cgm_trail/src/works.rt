//! The trails of workers that ended.
ghost use Rattle.std.specs.Prelude.{◌≡◌, ◌++◌, [], OnOk, OnErr};

use crate::trails::Trail;
use cgm_base::OutOfMemory;
use std::alloc::Global;
use std::marker::Model;

/// A list of trails, which shows how many moves were made.
#[derive(Drop)]
pub struct Work {
    trails: Vec<Trail>,
}

impl Model for Work {
    ghost use Rattle.std.specs.Prelude.{List};
    ghost use Rattle.cgm_trail.specs.TrailState.{TrailState};

    ghost Value = { List TrailState };

    ghost use Rattle.cgm_trail.specs.WorkParts.{kept_trails};

    ghost view = { kept_trails };
}

impl Work {
    /// No trails. Takes no memory.
    pub fn new(alloc: Global) -> Work
        ensures { result ≡ [] }
    {
        Work {
            trails: Vec::new(alloc),
        }
    }

    /// Adds the trails at the end. For want of memory the list stays.
    pub fn keep(&mut self, trails: Vec<Trail>) -> Result<(), OutOfMemory>
        ensures ok { OnOk result (self.new ≡ self.old ++ trails.items) }
        ensures err { OnErr result (self.new ≡ self.old) }
    {
        let mut trails = trails;
        self.trails.append(&mut trails)?;
        Ok(())
    }

    /// The trails.
    pub fn trails(&self) -> &[Trail]
        ensures { result.now ≡ self.now }
    {
        self.trails.as_slice()
    }
}
