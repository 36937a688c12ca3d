//! Generated models: the text of a model of so many goals, whose least cost is known beforehand.
#![tactic(auto)]

mod costs;
mod generator;
pub mod laws;
mod lines;

pub use generator::{GenStop, generate};
