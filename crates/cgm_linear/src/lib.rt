//! Propagation by rows: the tightenings that narrowing by a row makes, each as a change of a trail.
#![tactic(auto)]

mod rows;
mod steps;

pub use rows::propagate_row;
