//! By whom a model is solved.
use cgm_search::Gate;
use std::alloc::Global;
use std::marker::Sync;
use std::sync::Wait;
use std::thread::Threads;

/// As many workers as are asked for, each of which this gate may hold.
#[derive(Drop)]
pub(crate) struct ByCrew<'a, R: Threads + Wait + Sync, G: Gate> {
    pub(crate) rt: &'a R,
    pub(crate) alloc: Global,
    pub(crate) gate: &'a G,
}
