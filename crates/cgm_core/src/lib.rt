//! The state machine of a search: a log, and how much of it each worker that is in has seen.
#![tactic(auto)]

mod batches;
mod cores;
pub mod laws;
mod stops;

pub use batches::is_proper;
pub use cgm_log::Event;
pub use cores::{Core, replay};
use std::marker::Send;
pub use stops::CoreStop;

// A core can be moved to a thread.
fn cross_threads(core: &Core) {
    can_be_moved(core);
}

fn can_be_moved<T: Send>(_: &T) {}
