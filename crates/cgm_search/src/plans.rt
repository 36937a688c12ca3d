//! How long and how a worker searches, and how its search ends.

/// The greatest budget.
pub const MAX_BUDGET: u64 = 1 << 40;

/// The greatest number of restarts.
pub const MAX_RESTARTS: u32 = 1_000;

/// How long and how a worker searches.
#[derive(Clone, Copy, Debug, PartialEq, Eq)]
pub struct Plan {
    /// How many moves of the trail it makes at most: tightenings, decisions, jumps and restarts.
    /// At most `MAX_BUDGET`.
    pub budget: u64,
    /// How many restarts it makes at most. At most `MAX_RESTARTS`.
    pub restarts: u32,
    /// Gives the order of its first decisions, for every worker but number 0.
    pub seed: u64,
}

/// How a worker's run ended.
#[derive(Clone, Copy, Debug, PartialEq, Eq)]
pub enum Stopped {
    /// What it has seen of the log is closed.
    Final,
    /// It made as many moves as its budget says.
    Spent,
    /// It ran out of memory.
    Memory,
}

/// There was no memory for a worker. This is its trader, which made no trade.
#[derive(Drop)]
pub struct NoWorker<T> {
    pub trader: T,
}
