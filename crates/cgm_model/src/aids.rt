//! What a builder keeps to find names, cycles and counts fast.
use crate::graph::Graph;
use crate::names::NameTable;
use std::alloc::Global;

/// What serves to find names, cycles, interest lines and counts fast.
#[derive(Drop)]
pub(crate) struct Aids {
    pub(crate) alloc: Global,
    pub(crate) names: NameTable,
    pub(crate) graph: Graph,
    /// How many formula nodes may still come.
    pub(crate) node_room: usize,
    /// For each element whether it has an interest line, and room for more.
    pub(crate) interests: Vec<bool>,
}
