//! A store of clauses and propagation by them: each clause that is unit makes its one open atom true.
#![tactic(auto)]

pub mod laws;
mod named;
mod standing;
mod stores;
mod sweeping;

use std::marker::Send;
pub use stores::ClauseStore;

// A store can be moved to a thread.
fn cross_threads(store: &ClauseStore) {
    can_be_moved(store);
}

fn can_be_moved<T: Send>(_: &T) {}
