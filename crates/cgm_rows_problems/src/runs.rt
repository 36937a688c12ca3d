// Whole runs of one worker. `budget` has the moves that it may make, `ends` how its run ends:
// `spent` and the moves that it made, `none` without a best, or `least` and the value of the last
// variable in the last best. A gate records the points at which the worker calls it.
ghost use Rattle.std.specs.Prelude.{◌≤◌, ◌^◌};

use crate::words::{after, count, is_count, number, parted};
use cgm_atom::{Entry, Problem};
use cgm_base::OutOfMemory;
use cgm_log::{Alone, Log, Trader};
use cgm_search::{Gate, Plan, Stopped, Worker};
use std::alloc::Global;
use std::sync::atomic::{AtomicBool, AtomicU64, Ordering};
use std::test::Fail;

/// A gate that records at which points it was called.
#[derive(Drop)]
pub(crate) struct Record {
    last: AtomicU64,
    trades: AtomicU64,
    is_wrong: AtomicBool,
}

/// No point was reached yet.
const NOWHERE: u64 = 9;

impl Record {
    fn new() -> Record {
        Record {
            last: AtomicU64::new(NOWHERE),
            trades: AtomicU64::new(0),
            is_wrong: AtomicBool::new(false),
        }
    }
}

impl Gate for Record {
    fn arrive(&self, worker: u32, point: u32) {
        let before = self.last.swap(u64::from(point), Ordering::SeqCst);
        if worker != NUMBER {
            self.is_wrong.store(true, Ordering::SeqCst);
        }
        if !may_follow(before, point) {
            self.is_wrong.store(true, Ordering::SeqCst);
        }
        if point == 2 {
            self.trades.fetch_add(1, Ordering::SeqCst);
        }
    }
}

/// Whether a worker that is never without memory reaches this point after that one: first the start,
/// then the first trade and its answer, then further trades and their answers, then the end.
fn may_follow(before: u64, point: u32) -> bool {
    match before {
        NOWHERE => point == 0,
        0 => point == 1,
        1 => point == 2,
        2 => point == 1 || point == 3,
        _ => false,
    }
}

/// The worker's number.
const NUMBER: u32 = 3;

fn worker(alloc: Global, problem: &Problem, budget: u64) -> Result<Worker<Alone>, Fail>
    requires { budget ≤ 2 ^ 40 }
{
    let plan = Plan {
        budget,
        restarts: 10,
        seed: 7,
    };
    let log = Log::new(alloc, problem.copy(alloc)?);
    match Worker::new(alloc, problem, Alone::new(log), NUMBER, plan) {
        Ok(w) => Ok(w),
        Err(_) => Err(OutOfMemory.into()),
    }
}

/// Whether a worker ends as the case says.
pub(crate) fn has_ended(alloc: Global, problem: &Problem, case: &str) -> Result<bool, Fail> {
    let budget = count(after(case, "budget"));
    if budget > 1_000_000 {
        return Err(Fail::new("too great a budget"));
    }
    ends_so(worker(alloc, problem, budget)?, after(case, "ends"))
}

fn ends_so(mut w: Worker<Alone>, wanted: &str) -> Result<bool, Fail> {
    let ended = ended_twice(&mut w);
    let (trader, _) = w.into_parts();
    match trader.into_log_if_alone() {
        None => Err(Fail::new("no log")),
        Some(log) => Ok(is_end(&log, ended, wanted)),
    }
}

/// How a worker ends and with how many moves, or none where it ends otherwise when it runs again, or
/// calls its gate otherwise than it should.
fn ended_twice(w: &mut Worker<Alone>) -> Option<(Stopped, u64)> {
    let record = Record::new();
    let stopped = w.run(&record);
    let spent = w.spent();
    if is_whole(&record) && w.run(&record) == stopped && is_whole(&record) {
        Some((stopped, spent))
    } else {
        None
    }
}

/// Whether the run has ended after a trade or more, each point in its place.
fn is_whole(record: &Record) -> bool {
    if record.is_wrong.load(Ordering::SeqCst) {
        return false;
    }
    if record.trades.load(Ordering::SeqCst) == 0 {
        return false;
    }
    record.last.load(Ordering::SeqCst) == 3
}

fn is_end(log: &Log, ended: Option<(Stopped, u64)>, wanted: &str) -> bool {
    let (head, rest) = parted(wanted);
    match ended {
        None => false,
        Some((stopped, spent)) => match head {
            "spent" => stopped == Stopped::Spent && !log.closed() && is_count(rest, spent),
            "none" => is_final(log, stopped) && count_bests(log) == 0,
            "least" => is_final(log, stopped) && last_value(log) == Some(number(rest)),
            _ => false,
        },
    }
}

fn is_final(log: &Log, stopped: Stopped) -> bool {
    stopped == Stopped::Final && log.closed()
}

fn count_bests(log: &Log) -> usize {
    log.entries()
        .iter()
        .filter(|e| matches!(e, Entry::Best { .. }))
        .count()
}

/// The value of the last variable in the last best.
fn last_value(log: &Log) -> Option<i64> {
    let mut last = None;
    for e in log.entries() {
        match e {
            Entry::Lemma { .. } => {}
            Entry::Best { values, .. } => last = values.as_slice().last().copied(),
        }
    }
    last
}
