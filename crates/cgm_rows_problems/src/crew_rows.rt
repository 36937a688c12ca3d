// Crews: several workers over one log, held at points of their runs by gates.
ghost use Rattle.std.specs.Prelude.{◌≤◌, ◌^◌};
ghost use Rattle.cgm_crew.specs.Crews.{IsCrew};

use crate::problems::problem_of;
use cgm_crew::{Crew, CrewEnd, search_all};
use cgm_search::{Gate, IdleGate, Stopped};
use std::alloc::Global;
use std::marker::Sync;
use std::sync::Wait;
use std::sync::atomic::{AtomicBool, Ordering};
use std::test::Fail;
use std::thread::Threads;

/// Two rows make variables 0 and 1 equal, and the second is the objective.
const ONE: &str = "vars 0..1 0..1; row 1*1 -1*0 >= 0; row -1*1 1*0 >= 0; objectives 1";

/// The problem of a goal with two tasks, one at the cost 7 and one at 5: the goal, the tasks, their
/// refinements, the cost and the objective.
const CHEAP: &str =
    "vars 0..1 0..1 0..1 0..1 0..1 0..12 0..12; clause 3<=0 1>=1; clause 1<=0 3>=1; \
    clause 3<=0 0>=1; clause 4<=0 2>=1; clause 2<=0 4>=1; clause 4<=0 0>=1; clause 0<=0 3>=1 4>=1; \
    clause 0>=1; row 1*5 -7*1 -5*2 >= 0; row -1*5 7*1 5*2 >= 0; row 1*6 -1*5 >= 0; \
    row -1*6 1*5 >= 0; objectives 6";

/// How often a held worker looks whether it may go on.
const LOOKS: u64 = 1_000_000_000;

/// Looks until the flag is set, and tells where the looks run out.
fn hold(until: &AtomicBool, is_wrong: &AtomicBool) {
    for _ in 0..LOOKS {
        if until.load(Ordering::SeqCst) {
            return;
        }
    }
    is_wrong.store(true, Ordering::SeqCst);
}

/// Holds worker 1 as its run starts until the run of worker 0 ends.
#[derive(Drop)]
struct AfterTheFirst {
    is_ended: AtomicBool,
    is_wrong: AtomicBool,
}

impl Gate for AfterTheFirst {
    fn arrive(&self, worker: u32, point: u32) {
        if worker == 0 && point == 3 {
            self.is_ended.store(true, Ordering::SeqCst);
        }
        if worker == 1 && point == 0 {
            hold(&self.is_ended, &self.is_wrong);
        }
    }
}

/// Holds each of two workers before its first trade until the other is there.
#[derive(Drop)]
struct AtOnce {
    is_first_there: AtomicBool,
    is_second_there: AtomicBool,
    is_wrong: AtomicBool,
}

impl Gate for AtOnce {
    fn arrive(&self, worker: u32, point: u32) {
        if point == 1 {
            self.meet(worker);
        }
    }
}

impl AtOnce {
    fn meet(&self, worker: u32) {
        if worker == 0 {
            self.is_first_there.store(true, Ordering::SeqCst);
            hold(&self.is_second_there, &self.is_wrong);
        } else {
            self.is_second_there.store(true, Ordering::SeqCst);
            hold(&self.is_first_there, &self.is_wrong);
        }
    }
}

fn crew_of(workers: u32, budget: u64) -> Crew
    requires few { (1 ≤ workers) × (workers ≤ 16) }
    requires budget { budget ≤ 2 ^ 40 }
    ensures { IsCrew result }
{
    Crew {
        workers,
        budget,
        restarts: 10,
        seed: 7,
    }
}

/// The end of a crew on the problem of a text.
fn end_of<R: Threads + Wait + Sync, G: Gate>(
    rt: &R,
    alloc: Global,
    text: &str,
    crew: Crew,
    gate: &G,
) -> Result<CrewEnd, Fail>
    requires { IsCrew crew }
{
    let problem = problem_of(alloc, text)?;
    match search_all(rt, alloc, &problem, crew, gate) {
        Ok(end) => Ok(end),
        Err(_) => Err(Fail::new("no memory")),
    }
}

fn all_end(end: &CrewEnd, how: Stopped) -> bool {
    for stopped in end.stopped.as_slice() {
        if *stopped != how {
            return false;
        }
    }
    true
}

/// Whether worker 1, which starts as worker 0 ends, takes up the closing lemma and makes no move.
fn is_taken_up<R: Threads + Wait + Sync>(rt: &R, alloc: Global) -> Result<bool, Fail> {
    let gate = AfterTheFirst {
        is_ended: AtomicBool::new(false),
        is_wrong: AtomicBool::new(false),
    };
    let end = end_of(rt, alloc, CHEAP, crew_of(2, 1_000), &gate)?;
    let moves = match end.trails.as_slice() {
        [first, second] => first.moves() >= 1 && second.moves() == 0,
        _ => false,
    };
    Ok(moves && all_end(&end, Stopped::Final) && !gate.is_wrong.load(Ordering::SeqCst))
}

/// Whether two workers that wait for each other both end.
fn run_at_once<R: Threads + Wait + Sync>(rt: &R, alloc: Global) -> Result<bool, Fail> {
    let gate = AtOnce {
        is_first_there: AtomicBool::new(false),
        is_second_there: AtomicBool::new(false),
        is_wrong: AtomicBool::new(false),
    };
    let end = end_of(rt, alloc, ONE, crew_of(2, 1_000), &gate)?;
    Ok(all_end(&end, Stopped::Final) && !gate.is_wrong.load(Ordering::SeqCst))
}

/// Whether so many workers end alike, and each has its place and its trail.
fn end_alike<R: Threads + Wait + Sync>(
    rt: &R,
    alloc: Global,
    crew: Crew,
    how: Stopped,
) -> Result<bool, Fail>
    requires { IsCrew crew }
{
    let end = end_of(rt, alloc, ONE, crew, &IdleGate)?;
    let workers = crew.workers as usize;
    let places = end.stopped.len() == workers && end.trails.len() == workers;
    Ok(places && all_end(&end, how) && end.log.closed() == (how == Stopped::Final))
}

#[test]
fn closing_lemma_taken_up(rt: HostRuntime) -> Result<(), Fail> {
    assert!(rt;
        is_taken_up(&rt, rt.alloc())?,
        "the closing lemma of another worker"
    );
    Ok(())
}

#[test]
fn crew_at_once(rt: HostRuntime) -> Result<(), Fail> {
    assert!(rt; run_at_once(&rt, rt.alloc())?, "two workers at once");
    Ok(())
}

#[test]
fn crews(rt: HostRuntime) -> Result<(), Fail> {
    let alloc = rt.alloc();
    assert!(rt;
        end_alike(&rt, alloc, crew_of(1, 1_000), Stopped::Final)?,
        "one worker"
    );
    assert!(rt;
        end_alike(&rt, alloc, crew_of(4, 1_000), Stopped::Final)?,
        "four workers"
    );
    assert!(rt;
        end_alike(&rt, alloc, crew_of(16, 1_000), Stopped::Final)?,
        "sixteen workers"
    );
    assert!(rt;
        end_alike(&rt, alloc, crew_of(2, 0), Stopped::Spent)?,
        "two without a budget"
    );
    Ok(())
}
