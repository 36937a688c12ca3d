//! A crew of workers on one log.
ghost use Rattle.std.specs.Prelude.{◌≡◌, IfOk};
ghost use Rattle.cgm_crew.specs.Crews.{IsCrew, IsCrewEnd, plan_of};

use crate::ending::{Ended, Places, end_all, places_for};
use crate::running::run_crew;
use crate::seating::seat_all;
use cgm_atom::Problem;
use cgm_base::OutOfMemory;
use cgm_log::Log;
use cgm_search::{Gate, Plan, Stopped};
use cgm_trail::Trail;
use cgm_turn::Turn;
use std::alloc::Global;
use std::marker::Sync;
use std::sync::Wait;
use std::thread::Threads;

/// How many workers search, from 1 to 16, and how each of them does.
#[derive(Clone, Copy, Debug, PartialEq, Eq)]
pub struct Crew {
    pub workers: u32,
    pub budget: u64,
    pub restarts: u32,
    pub seed: u64,
}

/// The log of a crew, and as many ends as workers, each with its trail.
#[derive(Drop)]
pub struct CrewEnd {
    pub log: Log,
    pub stopped: Vec<Stopped>,
    pub trails: Vec<Trail>,
}

impl Crew {
    /// The plan of each worker.
    pub(crate) fn plan(self) -> Plan
        ensures { result ≡ plan_of self }
    {
        Plan {
            budget: self.budget,
            restarts: self.restarts,
            seed: self.seed,
        }
    }
}

/// Runs the workers on the problem, over one log that begins empty, each in a thread of its own
/// where one can be made. Each goes by the order of its own number.
///
/// The log is accepted, and only the crew's numbers stand in it. A worker ends with `Final` only
/// where the log is closed, and with `Spent` only where its trail is one of the problem that has as
/// many moves as the budget says, and at most so many restarts; every lemma and every best that a
/// change of this trail rests on stands in the log. Each trail is one of the problem, with no more
/// moves and restarts than the plan says. No clause says so: a worker that ran out of memory takes
/// nothing from what the others reach, and where a worker can't be made, none runs.
///
/// It waits for turns and for its workers, so this holds if it returns.
/// Condition: the numbers of the crew are within their limits.
pub fn search_all<R: Threads + Wait + Sync, G: Gate>(
    rt: &R,
    alloc: Global,
    problem: &Problem,
    crew: Crew,
    gate: &G,
) -> Result<CrewEnd, OutOfMemory>
    requires { IsCrew crew }
    ensures { IfOk result (IsCrewEnd problem.now crew) }
{
    let places = places_for(alloc, crew)?;
    let log = Log::new(alloc, problem.copy(alloc)?);
    let (turn, first) = Turn::new(alloc, log, crew.workers)?;
    let (lead, others) = seat_all(rt, alloc, problem, &turn, first, crew)?;
    let (lead, others) = run_crew(rt, lead, others, gate)?;
    let ended = end_all(&turn, crew, lead, others, places);
    let Ended { first, places } = ended;
    let Places { stopped, trails } = places;
    let log = turn.close(first);
    log.recall_log();
    Ok(CrewEnd {
        log,
        stopped,
        trails,
    })
}
