//! Solving a model, by one worker or by a crew.
ghost use Rattle.std.specs.Prelude.{◌≡◌};
ghost use Rattle.cgm_model.specs.Model.{lists_of};
ghost use Rattle.cgm_crew.specs.Crews.{IsCrew, plan_of};
ghost use Rattle.cgm_encode.specs.Decoding.{ForEncoded};
ghost use Rattle.cgm_search.specs.Searching.{IsPlan};
ghost use Rattle.cgm_solve.specs.Answers.{IsSolveAnswer};
ghost use Rattle.cgm_solve.specs.Searches.{IsSearchAnswer};

use crate::answering::tell;
use crate::running::run_worker;
use cgm_base::OutOfMemory;
use cgm_crew::{Crew, search_all};
use cgm_encode::{Answer, Encoded, SolveStop, encode};
use cgm_evolve::Earlier;
use cgm_model::Model;
use cgm_search::{Gate, Plan};
use cgm_trail::Work;
use std::alloc::Global;
use std::marker::Sync;
use std::sync::Wait;
use std::thread::Threads;

/// Solves a model, with what is known of an earlier realization, by one worker with this plan. It
/// waits for nobody.
///
/// `Realized` has a least realization with its vector, and `Unrealizable` says that there is none.
/// The entries are then an accepted, closed log of the model's problem, which shows this by itself.
/// `Exhausted` comes only where the worker made as many moves as its budget says. Its entries are
/// an accepted log that isn't closed, and the best is their last best, if any. Then the work gains
/// the worker's trail, and the entries have every lemma and every best that a change of this trail
/// rests on. Otherwise the work stays. `Open` never comes. A certificate can write the entries of
/// each answer. `SolveStop::Row` comes exactly where the model has no encoding.
///
/// Condition: the numbers of the plan are within their limits.
pub fn solve_alone(
    alloc: Global,
    model: &Model,
    earlier: &Earlier,
    plan: Plan,
    work: &mut Work,
) -> Result<Answer, SolveStop>
    requires { IsPlan plan }
    ensures { IsSolveAnswer (lists_of model.now) earlier.now.pairs 1 plan work.old work.new result }
{
    let encoded = encode(alloc, model, earlier)?;
    match search(alloc, &encoded, plan, work) {
        Ok(answer) => Ok(answer),
        Err(_) => Err(SolveStop::Memory),
    }
}

/// The same by a crew of workers, which search at once over one log. `Exhausted` comes only where
/// each of them made as many moves as its budget says. Then the work gains as many trails as
/// workers, and `spent` has their moves. A worker that runs out of memory takes nothing from what
/// the others reach.
///
/// It waits for turns and for its workers, so this holds if it returns.
/// Condition: the numbers of the crew are within their limits.
pub fn solve<R: Threads + Wait + Sync, G: Gate>(
    rt: &R,
    alloc: Global,
    model: &Model,
    earlier: &Earlier,
    crew: Crew,
    gate: &G,
    work: &mut Work,
) -> Result<Answer, SolveStop>
    requires { IsCrew crew }
    ensures { IsSolveAnswer (lists_of model.now) earlier.now.pairs crew.workers (plan_of crew)
        work.old work.new result }
{
    let encoded = encode(alloc, model, earlier)?;
    match search_by_crew(rt, alloc, &encoded, crew, gate, work) {
        Ok(told) => Ok(told),
        Err(_) => Err(SolveStop::Memory),
    }
}

/// Searches for a least solution of an encoding by one worker.
fn search(
    alloc: Global,
    encoded: &Encoded,
    plan: Plan,
    work: &mut Work,
) -> Result<Answer, OutOfMemory>
    requires { IsPlan plan }
    ensures { ForEncoded encoded.now (λ m pairs. IsSearchAnswer m pairs 1 plan work.old work.new
        result) }
{
    let ended = run_worker(alloc, &encoded.problem, plan)?;
    tell(alloc, encoded, ended, work)
}

/// The same by a crew.
fn search_by_crew<R: Threads + Wait + Sync, G: Gate>(
    rt: &R,
    alloc: Global,
    encoded: &Encoded,
    crew: Crew,
    gate: &G,
    work: &mut Work,
) -> Result<Answer, OutOfMemory>
    requires { IsCrew crew }
    ensures { ForEncoded encoded.now (λ m pairs. IsSearchAnswer m pairs crew.workers (plan_of crew)
        work.old work.new result) }
{
    let ended = search_all(rt, alloc, &encoded.problem, crew, gate)?;
    tell(alloc, encoded, ended, work)
}
