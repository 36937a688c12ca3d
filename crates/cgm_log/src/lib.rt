//! The log of a search: entries that are accepted one after another, and the trades by which workers add to it.
#![tactic(auto)]

mod batches;
mod events;
mod judging;
pub mod laws;
mod logs;
mod traders;

pub use batches::{Batch, Fate, Refund, Traded};
pub use events::Event;
pub use logs::Log;
use std::marker::Send;
pub use traders::{Alone, MAX_TRADES, Trader};

// A log, its trader and what they exchange can be moved to a thread.
fn cross_threads(
    log: &Log,
    alone: &Alone,
    batch: &Batch,
    traded: &Traded,
    refund: &Refund,
    event: &Event,
) {
    can_be_moved(log);
    can_be_moved(alone);
    can_be_moved(batch);
    can_be_moved(traded);
    can_be_moved(refund);
    can_be_moved(event);
}

fn can_be_moved<T: Send>(_: &T) {}
