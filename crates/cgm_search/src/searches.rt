//! The state of a search, and its propagation.
ghost use Rattle.std.specs.Prelude.{◌≡◌, ◌-◌, ◌≤◌, ◌<◌, [], IfOk};
ghost use Rattle.cgm_atom.specs.Limits.{max_workers};
ghost use Rattle.cgm_search.specs.Knowing.{seen};
ghost use Rattle.cgm_search.specs.Searching.{IsKeptSearch, IsSearchOutcome, IsPlan, IsReady, need};
ghost use Rattle.cgm_trail.specs.TrailState.{level_of, trail_started};

use crate::decisions::Choice;
use crate::knowledge::Known;
use crate::plans::Plan;
use crate::settlement::settle;
use cgm_atom::Problem;
use cgm_base::OutOfMemory;
use cgm_trail::{Swept, Trail};
use std::alloc::Global;

const FIRST_RESTART: u64 = 100;

/// A search: what it knows, its trail, and how it goes on.
#[derive(Drop)]
pub(crate) struct Search {
    pub(crate) alloc: Global,
    pub(crate) worker: u32,
    pub(crate) plan: Plan,
    pub(crate) known: Known,
    pub(crate) trail: Trail,
    pub(crate) choice: Choice,
    // conflicts since the last restart, and after how many of them the next one comes
    pub(crate) conflicts: u64,
    pub(crate) limit: u64,
}

impl Search {
    pub(crate) fn new(
        alloc: Global,
        problem: &Problem,
        worker: u32,
        plan: Plan,
    ) -> Result<Search, OutOfMemory>
        requires worker { worker < max_workers }
        requires plan { IsPlan plan }
        ensures ready { IfOk result IsReady }
        ensures problem { IfOk result (λ s. s.known.problem ≡ problem.now) }
        ensures nothing { IfOk result (λ s. seen s.known ≡ []) }
        ensures worker { IfOk result (λ s. s.worker ≡ worker) }
        ensures plan { IfOk result (λ s. s.plan ≡ plan) }
        ensures trail { IfOk result (λ s. s.trail ≡ trail_started problem.now) }
    {
        let known = Known::new(alloc, problem)?;
        let trail = Trail::new(alloc, problem)?;
        let choice = Choice::new(alloc, problem, plan, worker)?;
        Ok(Search {
            alloc,
            worker,
            plan,
            known,
            trail,
            choice,
            conflicts: 0,
            limit: FIRST_RESTART,
        })
    }

    /// How many moves are left.
    pub(crate) fn moves_left(&self) -> u64
        requires { self.now.trail.moves ≤ self.now.plan.budget }
        ensures { result ≡ self.now.plan.budget - self.now.trail.moves }
    {
        self.plan.budget - self.trail.moves()
    }

    /// Propagates by the store and all rows, until a whole round changes nothing.
    pub(crate) fn propagate(&mut self) -> Result<Swept, OutOfMemory>
        requires { IsReady self.old }
        ensures ready { IsReady self.new }
        ensures answer { IsSearchOutcome self.new result }
        ensures known { self.new.known ≡ self.old.known }
        ensures kept { IsKeptSearch self.old self.new }
        ensures moves { self.old.trail.moves ≤ self.new.trail.moves }
        ensures level { level_of self.new.trail.changes ≡ level_of self.old.trail.changes }
    {
        let mut left = self.moves_left();
        settle(
            &self.known.problem,
            &mut self.known.store,
            &mut self.trail,
            &mut left,
        )
    }
}
