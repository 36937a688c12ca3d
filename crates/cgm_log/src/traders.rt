//! How a worker reaches the log that it adds to.
ghost use Rattle.std.specs.Prelude.{◌≡◌, ◌+◌, ◌++◌, ◌^◌, ◌<◌, ◌≤◌, [], drop, length, None, IfOk, IfErr, IfSome, IsSome, OnErr};
ghost use Rattle.cgm_atom.specs.Acceptance.{IsAccepted};
ghost use Rattle.cgm_log.specs.Landing.{IsProperBatch};
ghost use Rattle.cgm_log.specs.Seats.{Seat};
ghost use Rattle.cgm_log.specs.Trading.{IsAnswer, landed_by, with_batch, with_news};

use crate::batches::{Batch, Refund, Traded};
use crate::logs::Log;

/// How many trades `Alone` can make.
pub const MAX_TRADES: u64 = 1 << 59;

/// What a worker trades with: it has seen a front of a log, and hands the worker's batches to it.
pub trait Trader {
    /// Of this type is what its owner knows of it. No value of it is made.
    type Home;

    /// The problem of the log, the entries that were seen and those that it landed, the worker's
    /// number, and how many trades may still be made.
    ghost seat: { Self → Seat };

    /// What its owner knows of it and no trade changes.
    ghost home: { Self → Self.Home };

    /// How many entries were seen.
    fn seen(&self) -> u64
        ensures count { result ≡ length (seat self.now).told }
        ensures accepted { IsAccepted (seat self.now).problem (seat self.now).told }
        ensures room { length (seat self.now).told < 2 ^ 63 };

    /// Lands a batch on the log, after the entries that were seen and the answer's news. Then these
    /// and what landed were seen too, and what landed is its own. Without memory the log, what was
    /// seen and what it landed are as before.
    ///
    /// Conditions: the batch is proper after the entries that were seen, it has the trader's number
    /// where there is one, and a trade may still be made.
    fn trade(&mut self, batch: Batch) -> Result<Traded, Refund>
        requires proper { IsProperBatch (seat self.old).problem (seat self.old).told batch }
        requires own_number { IfSome (seat self.old).number (λ n. batch.by ≡ n) }
        requires left { 1 ≤ (seat self.old).trades }
        ensures answer { IfOk result
            (λ t. IsAnswer (seat self.old).problem (with_news (seat self.old) t) batch t) }
        ensures landed { IfOk result
            (λ t. (seat self.new).told ≡ with_batch (seat self.old) t batch) }
        ensures own { IfOk result
            (λ t. (seat self.new).own ≡ (seat self.old).own ++ landed_by (seat self.old) t batch) }
        ensures own_kept { OnErr result ((seat self.new).own ≡ (seat self.old).own) }
        ensures refund { IfErr result
            (λ r. ((seat self.new).told ≡ (seat self.old).told) × (r.batch ≡ batch)) }
        ensures problem { (seat self.new).problem ≡ (seat self.old).problem }
        ensures number { (seat self.new).number ≡ (seat self.old).number }
        ensures home { Self.home self.new ≡ Self.home self.old }
        ensures left { (seat self.new).trades + 1 ≡ (seat self.old).trades };

    /// The log, if nobody else adds to it. It is the problem's, with the entries that were seen.
    fn into_log_if_alone(self) -> Option<Log>
        ensures problem { IfSome result (λ log. log.problem ≡ (seat self).problem) }
        ensures entries { IfSome result (λ log. log.entries ≡ (seat self).told) };
}

/// The trader of one worker, which holds the log itself. It has seen all that its log holds.
#[derive(Drop)]
pub struct Alone {
    log: Log,
    // how many entries the log had before its first trade
    begun: u64,
    left: u64,
    ghost front: { begun ≤ length log.entries },
}

impl Alone {
    /// The log's trader, with `MAX_TRADES` trades. Takes no memory.
    pub fn new(log: Log) -> Alone
        ensures problem { (⟦<Alone as Trader>⟧.seat result).problem ≡ log.problem }
        ensures told { (⟦<Alone as Trader>⟧.seat result).told ≡ log.entries }
        ensures own { (⟦<Alone as Trader>⟧.seat result).own ≡ [] }
        ensures number { (⟦<Alone as Trader>⟧.seat result).number ≡ None }
        ensures trades { (⟦<Alone as Trader>⟧.seat result).trades ≡ 2 ^ 59 }
    {
        let begun = log.entries().len() as u64;
        Alone {
            log,
            begun,
            left: MAX_TRADES,
        }
    }
}

impl Trader for Alone {
    type Home = u64;

    ghost seat = { λ a. record {
      problem = a.log.problem;
      told = a.log.entries;
      own = drop a.begun a.log.entries;
      number = None;
      trades = a.left;
    } };

    ghost home = { λ _. 0 };

    fn seen(&self) -> u64 {
        self.log.entries().len() as u64
    }

    fn trade(&mut self, batch: Batch) -> Result<Traded, Refund> {
        self.left -= 1;
        let seen = self.seen();
        self.log.trade(seen, batch)
    }

    /// The log, always.
    fn into_log_if_alone(self) -> Option<Log>
        ensures always { IsSome result }
        ensures problem { IfSome result (λ log. log.problem ≡ self.log.problem) }
        ensures entries { IfSome result (λ log. log.entries ≡ self.log.entries) }
    {
        let Alone { log, .. } = self;
        Some(log)
    }
}
