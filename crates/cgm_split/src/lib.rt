//! What to decide next: the lower half of a variable that isn't fixed.
#![tactic(auto)]

mod activities;
mod drawing;
mod halves;
mod orders;

pub use activities::Activity;
pub use orders::{Order, next};
use std::marker::Send;

// Both orders can be moved to a thread.
fn cross_threads(order: &Order, activity: &Activity) {
    can_be_moved(order);
    can_be_moved(activity);
}

fn can_be_moved<T: Send>(_: &T) {}
