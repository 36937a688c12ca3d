//! The run of one worker on a problem.
ghost use Rattle.std.specs.Prelude.{◌≡◌, ◌≤◌, [], None, vec_capacity, IfOk};
ghost use Rattle.cgm_search.specs.Searching.{IsPlan};
ghost use Rattle.cgm_solve.specs.Runs.{IsEnded};

use cgm_atom::Problem;
use cgm_base::OutOfMemory;
use cgm_crew::CrewEnd;
use cgm_log::{Alone, Log, Trader};
use cgm_search::{IdleGate, Plan, Stopped, Worker};
use cgm_trail::Trail;
use std::alloc::Global;

/// Runs a worker on the problem, which begins with an empty log. It waits for nobody.
pub(crate) fn run_worker(
    alloc: Global,
    problem: &Problem,
    plan: Plan,
) -> Result<CrewEnd, OutOfMemory>
    requires { IsPlan plan }
    ensures { IfOk result (IsEnded problem.now 1 plan) }
{
    let stopped = Vec::with_capacity(alloc, 1)?;
    let trails = Vec::with_capacity(alloc, 1)?;
    let trader = Alone::new(Log::new(alloc, problem.copy(alloc)?));
    match Worker::new(alloc, problem, trader, 0, plan) {
        Err(_) => Err(OutOfMemory),
        Ok(worker) => Ok(run_to_end(worker, stopped, trails)),
    }
}

fn run_to_end(worker: Worker<Alone>, stopped: Vec<Stopped>, trails: Vec<Trail>) -> CrewEnd
    requires new { worker.ended ≡ None }
    requires empty { (stopped.items ≡ []) × (trails.items ≡ []) }
    requires room { (1 ≤ vec_capacity stopped) × (1 ≤ vec_capacity trails) }
    ensures { IsEnded worker.seat.problem 1 worker.plan result }
{
    let mut worker = worker;
    let mut stopped = stopped;
    let mut trails = trails;
    let how = worker.run(&IdleGate);
    let (trader, trail) = worker.into_parts();
    let log = log_of(trader);
    log.recall_log();
    stopped.push_reserved(how);
    trails.push_reserved(trail);
    CrewEnd {
        log,
        stopped,
        trails,
    }
}

fn log_of(trader: Alone) -> Log
    ensures problem { result.problem ≡ (⟦<Alone as Trader>⟧.seat trader).problem }
    ensures entries { result.entries ≡ (⟦<Alone as Trader>⟧.seat trader).told }
{
    trader.into_log_if_alone().unwrap()
}
