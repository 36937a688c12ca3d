//! Trades.
ghost use Rattle.std.specs.Prelude.{◌≡◌, ◌+◌, ◌^◌, ◌<◌, ◌≤◌, length, OnOk};
ghost use Rattle.cgm_atom.specs.Acceptance.{IsAccepted};
ghost use Rattle.cgm_log.specs.Landing.{IsProperBatch};
ghost use Rattle.cgm_log.specs.Seats.{KeepsOwn, KeepsSeat};
ghost use Rattle.cgm_log.specs.Trading.{IsAnswer};
ghost use Rattle.cgm_search.specs.Knowing.{IsKnowledge, seen};
ghost use Rattle.cgm_search.specs.Searching.{IsTradedIn, Sits};
ghost use Rattle.cgm_search.specs.Trading.{HasLanded, after_news, after_trade};

use crate::batches::{copy_batch, landing_of};
use crate::gates::{AFTER_TRADE, BEFORE_TRADE, Gate};
use crate::knowledge::Known;
use crate::searches::Search;
use cgm_base::OutOfMemory;
use cgm_log::{Batch, Traded, Trader};
use std::alloc::Global;

impl Search {
    /// Trades a batch, and takes up the news and what landed of it.
    pub(crate) fn exchange<T: Trader, G: Gate>(
        &mut self,
        trader: &mut T,
        gate: &G,
        batch: Batch,
    ) -> Result<(), OutOfMemory>
        requires known { IsKnowledge self.old.known }
        requires seat { Sits self.old (T.seat trader.old) }
        requires proper { IsProperBatch self.old.known.problem (seen self.old.known) batch }
        requires own { batch.by ≡ self.old.worker }
        requires left { 1 ≤ (T.seat trader.old).trades }
        ensures known { OnOk result (IsKnowledge self.new.known) }
        ensures told { OnOk result (Sits self.new (T.seat trader.new)) }
        ensures landed { OnOk result
            (HasLanded self.old.known.problem (seen self.old.known) batch (seen self.new.known)) }
        ensures once { OnOk result ((T.seat trader.new).trades + 1 ≡ (T.seat trader.old).trades) }
        ensures traded { IsTradedIn self.old self.new }
        ensures seat { KeepsSeat 1 (T.seat trader.old) (T.seat trader.new) }
        ensures own { KeepsOwn self.old.worker (T.seat trader.old) (T.seat trader.new) }
        ensures home { T.home trader.new ≡ T.home trader.old }
    {
        let copy = copy_batch(self.alloc, &batch)?;
        gate.arrive(self.worker, BEFORE_TRADE);
        match trader.trade(batch) {
            Err(_) => Err(OutOfMemory),
            Ok(traded) => {
                gate.arrive(self.worker, AFTER_TRADE);
                let _count = trader.seen();
                self.known.take_up(self.alloc, traded, copy)
            }
        }
    }
}

impl Known {
    /// Takes up the news of an answer, and what landed of the batch.
    fn take_up(&mut self, alloc: Global, traded: Traded, batch: Batch) -> Result<(), OutOfMemory>
        requires known { IsKnowledge self.old }
        requires answer { IsAnswer self.old.problem (after_news self.old traded) batch traded }
        requires accepted { IsAccepted self.old.problem (after_trade self.old traded batch) }
        requires room { length (after_trade self.old traded batch) < 2 ^ 63 }
        requires proper { IsProperBatch self.old.problem (seen self.old) batch }
        ensures known { OnOk result (IsKnowledge self.new) }
        ensures entries { OnOk result (seen self.new ≡ after_trade self.old traded batch) }
        ensures problem { self.new.problem ≡ self.old.problem }
    {
        match traded {
            Traded::Closed { news } => self.absorb_all(alloc, news.into_inner()),
            Traded::Landed { news, first, fate } => {
                self.absorb_all(alloc, news.into_inner())?;
                let landing = landing_of(alloc, batch, first, &fate)?;
                self.absorb_all(alloc, landing)
            }
        }
    }
}
