//! The turn: one log that the passes of several workers add to, each in its turn.
#![tactic(auto)]

pub mod laws;
mod moves;
mod passes;
mod seated;
mod views;

pub use passes::{Pass, Turn};
pub use seated::Seated;
use std::marker::{Send, Sync};
use std::sync::Wait;

// A turn can be shared between threads, and a pass can be moved to one.
fn cross_threads(turn: &Turn, pass: &Pass) {
    can_be_moved(turn);
    can_be_shared(turn);
    can_be_moved(pass);
}

// A pass as a trader can be moved to a thread, where its handle can be shared.
fn seated_cross_threads<'t, R: Wait + Sync>(seated: &Seated<'t, R>) {
    can_be_moved(seated);
}

fn can_be_moved<T: Send>(_: &T) {}

fn can_be_shared<T: Sync>(_: &T) {}
