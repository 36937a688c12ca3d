//! Points of a worker's run at which it can be held.
use std::marker::Sync;

/// A worker calls its gate at four points: 0 as its run starts, 1 before each trade, 2 after each
/// trade that was answered, and 3 as its run ends. What a gate does touches no result.
pub trait Gate: Sync {
    /// The worker with this number is at this point.
    fn arrive(&self, worker: u32, point: u32);
}

/// The gate that does nothing.
#[derive(Clone, Copy, Debug)]
pub struct IdleGate;

impl Gate for IdleGate {
    fn arrive(&self, _worker: u32, _point: u32) {}
}

pub(crate) const RUN_STARTS: u32 = 0;

pub(crate) const BEFORE_TRADE: u32 = 1;

pub(crate) const AFTER_TRADE: u32 = 2;

pub(crate) const RUN_ENDS: u32 = 3;
