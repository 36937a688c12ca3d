//! The clauses of a goal graph: refinements, contributions, conflicts, bindings, goals with `must` and assertions.
#![tactic(auto)]

mod edges;
mod facts;
mod graph;
pub mod laws;
mod refinements;
mod targets;

pub use graph::add_graph;
