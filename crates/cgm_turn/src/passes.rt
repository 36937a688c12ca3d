//! The turn and its passes.
ghost use Rattle.std.specs.Prelude.{◌≡◌, ◌<◌, ◌≤◌, ◌+◌, ◌^◌, [], length, IfOk, Some};
ghost use Rattle.std.specs.Slots.{IsFull, slots_items, slots_len};
ghost use mathlib.Core.Option.{some};
ghost use lib.ListN.{get_elem?};
ghost use Rattle.cgm_atom.specs.Acceptance.{IsAccepted};
ghost use Rattle.cgm_log.specs.Landing.{IsProperBatch};
ghost use Rattle.cgm_log.specs.LogBook.{LogBook};
ghost use Rattle.cgm_turn.specs.Passes.{IsLogAtClose, IsPassOf, IsTradeOf, beginner, first_after_split, joined_pass, split_pass};

use crate::moves::{Place, draw_ticket, join_seat, split_seat, trade_in_turn, wait};
use crate::views::{Served, View};
use atomic_table::{Closed, Refused, Table};
use cgm_base::OutOfMemory;
use cgm_log::{Batch, Log, Refund, Traded};
use std::alloc::Global;
use std::marker::Model;
use std::snapshot::Snapshot;
use std::sync::Wait;

/// One log that several passes add to, each in its turn. Turns fall in the order of tickets, which
/// passes draw.
#[derive(Drop)]
pub struct Turn {
    table: Table<Option<Log>, View, Snapshot<Log>, Served, Global>,
    workers: u32,
}

impl Model for Turn {
    ghost use Rattle.cgm_turn.specs.Passes.{TurnState};

    ghost Value = { TurnState };

    ghost use Rattle.cgm_turn.specs.TurnParts.{IsTableOfTurn, turn_state};

    ghost view = { turn_state };

    ghost invariant = { IsTableOfTurn };
}

/// What one worker knows of the turn's log. The first pass has the number 0, and others are split
/// from it and joined to it.
#[derive(Drop)]
pub struct Pass {
    seat: Place,
    number: u32,
    seen: u64,
    trades: u64,
    splits: u32,
    out: u32,
}

impl Model for Pass {
    ghost use Rattle.cgm_turn.specs.Passes.{PassState};

    ghost Value = { PassState };

    ghost use Rattle.cgm_turn.specs.PassParts.{IsRestingPass, pass_state};

    ghost view = { pass_state };

    ghost invariant = { IsRestingPass };
}

impl Pass {
    /// Its number.
    pub fn number(&self) -> u32
        ensures { result ≡ self.now.number }
    {
        self.number
    }

    /// How many entries it was told.
    pub fn seen(&self) -> u64
        ensures count { result ≡ length self.now.told }
        ensures accepted { IsAccepted self.now.problem self.now.told }
        ensures room { length self.now.told < 2 ^ 63 }
    {
        self.seen
    }

    /// How many trades it began.
    pub fn trades(&self) -> u64
        ensures { result ≡ self.now.trades }
    {
        self.trades
    }

    /// How many passes were split from it and aren't joined to it yet.
    pub fn out(&self) -> u32
        ensures { result ≡ self.now.out }
    {
        self.out
    }
}

impl Turn {
    /// The turn of a log without entries for so many workers, and its first pass, which has seen
    /// nothing. Without memory the log is given up.
    /// Conditions: the log has no entries, and there are 1 to 16 workers.
    pub fn new(alloc: Global, log: Log, workers: u32) -> Result<(Turn, Pass), OutOfMemory>
        requires empty { log.entries ≡ [] }
        requires workers { (1 ≤ workers) × (workers ≤ 16) }
        ensures own { IfOk result (λ t. IsPassOf t.0 t.1) }
        ensures turn { IfOk result (λ t. (t.0.problem ≡ log.problem) × (t.0.workers ≡ workers)) }
        ensures first { IfOk result (λ t. t.1 ≡ beginner t.1.table log.problem) }
    {
        let key = Snapshot::of(&log);
        let mut slots = Vec::with_capacity(alloc, 1)?;
        slots.push_reserved(Some(log));
        match Table::new(alloc, &[0, 0], slots, &key) {
            Ok((table, seat)) => {
                let pass = Pass {
                    seat,
                    number: 0,
                    seen: 0,
                    trades: 0,
                    splits: 0,
                    out: 0,
                };
                Ok((Turn { table, workers }, pass))
            }
            Err(Refused { slots: _ }) => Err(OutOfMemory),
        }
    }

    /// Splits a new pass off from the first. It has the next number, and has seen what the first has.
    /// Takes no memory.
    /// Conditions: the first is of this turn and has number 0, and fewer passes were split from it than
    /// there are workers beside it.
    pub fn split(&self, first: &mut Pass) -> Pass
        requires own { IsPassOf self.now first.old }
        requires first { first.old.number ≡ 0 }
        requires few { first.old.splits + 1 < self.now.workers }
        ensures first { first.new ≡ first_after_split first.old }
        ensures other { result ≡ split_pass first.old }
    {
        let seat = split_seat(&self.table.shared, &mut first.seat);
        first.splits += 1;
        first.out += 1;
        Pass {
            seat,
            number: first.splits,
            seen: first.seen,
            trades: 0,
            splits: 0,
            out: 0,
        }
    }

    /// Joins a pass that was split off to the first, which has then seen the longer of both.
    /// Takes no memory.
    /// Conditions: both are of this turn, and the first has number 0.
    pub fn join(&self, first: &mut Pass, other: Pass)
        requires own { IsPassOf self.now first.old }
        requires other { IsPassOf self.now other }
        requires first { first.old.number ≡ 0 }
        ensures { first.new ≡ joined_pass first.old other }
    {
        let Pass { seat, seen, .. } = other;
        join_seat(&self.table.shared, &mut first.seat, seat);
        first.seen = first.seen.max(seen);
        first.out = first.out.saturating_sub(1);
    }

    /// The log at the end: it has exactly what each pass landed, in its order, each once, and begins
    /// with all that was told. Takes no memory.
    /// Conditions: the first is of this turn and has number 0, and all others were joined to it.
    pub fn close(self, first: Pass) -> Log
        requires own { IsPassOf self first }
        requires first { first.number ≡ 0 }
        requires alone { first.out ≡ 0 }
        ensures { IsLogAtClose first result }
    {
        let Turn { table, .. } = self;
        let Pass { seat, .. } = first;
        take_log(table.close_with(seat))
    }

    /// Waits for the pass's next turn, and lands the batch on the log as it stands then. The answer's
    /// news are what others landed since the pass was told.
    ///
    /// Without memory the log and what the pass has seen are as before, and the batch comes back.
    /// Conditions: the pass is of this turn, the batch is proper after what it has seen and has its
    /// number, and it began fewer than 2^59 trades.
    pub fn trade<R: Wait>(&self, rt: &R, pass: &mut Pass, batch: Batch) -> Result<Traded, Refund>
        requires own { IsPassOf self.now pass.old }
        requires proper { IsProperBatch pass.old.problem pass.old.told batch }
        requires number { batch.by ≡ pass.old.number }
        requires left { pass.old.trades < 2 ^ 59 }
        ensures { IsTradeOf pass.old batch result pass.new }
    {
        let board = &self.table.shared;
        let ticket = draw_ticket(board, &mut pass.seat);
        wait(rt, board, &mut pass.seat, ticket);
        let (answer, seen) = trade_in_turn(board, &mut pass.seat, pass.seen, batch);
        pass.trades += 1;
        pass.seen = seen;
        answer
    }
}

/// The log in the only slot of a closed table.
fn take_log(closed: Closed<Option<Log>, Global>) -> Log
    requires slots { (slots_len closed.slots ≡ 1) × IsFull closed.slots }
    requires there { (log : LogBook)
        × (get_elem? (slots_items closed.slots) 0 ≡ some (Some log)) }
    ensures { get_elem? (slots_items closed.slots) 0 ≡ some (Some result) }
{
    let mut closed = closed;
    let slot = closed.take(0);
    closed.free();
    slot.unwrap()
}
