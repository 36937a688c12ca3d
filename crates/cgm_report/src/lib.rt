//! Reports: the lines that tell an answer, and those of a found realization.
#![tactic(auto)]

mod answers;
mod found;
pub mod laws;

pub use answers::report;
pub use found::found_lines;
