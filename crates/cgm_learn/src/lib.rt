//! The analysis of conflicts: what is learned from one is a lemma that is accepted after the log, and that is unit after
//! a cut of the trail.
#![tactic(auto)]

mod analysis;
mod explaining;
mod grounds;
mod hints;
mod learned;
mod negations;
mod places;
mod rows;
mod walks;

pub use analysis::analyse;
pub use learned::Learned;
use std::marker::Send;

// What is learned can be moved to a thread.
fn cross_threads(learned: &Learned) {
    can_be_moved(learned);
}

fn can_be_moved<T: Send>(_: &T) {}
