//! One worker of a search: it propagates, learns from conflicts, decides, and trades lemmas and solutions with a log.
#![tactic(auto)]

mod batches;
mod conflicts;
mod cuts;
mod decisions;
mod gates;
mod knowledge;
mod plans;
mod points;
mod searches;
mod settlement;
mod trades;
mod units;
mod workers;

use cgm_log::Alone;
pub use gates::{Gate, IdleGate};
pub use plans::{MAX_BUDGET, MAX_RESTARTS, NoWorker, Plan, Stopped};
use std::marker::Send;
pub use workers::Worker;

// A worker with its trader can be moved to a thread.
fn cross_threads(w: &Worker<Alone>) {
    can_be_moved(w);
}

fn can_be_moved<T: Send>(_: &T) {}
