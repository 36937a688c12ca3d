//! What a worker hands to a log, and what it is answered.

use cgm_atom::{Entry, Seq};

/// What a worker adds to a log at once: lemmas, in which `Own(i)` is the i-th of them, from 1, and
/// a solution that may become the last best.
#[derive(Drop)]
pub struct Batch {
    /// The worker's number, from 0 to 15.
    pub by: u32,
    /// At most 64 lemmas of this worker.
    pub lemmas: Seq<Entry>,
    pub candidate: Option<Seq<i64>>,
}

/// What became of a candidate.
#[derive(Drop)]
pub enum Fate {
    /// It is the last best, with this ordinal, from 1.
    Kept { ordinal: u64 },
    /// It isn't less than the last best, which has this ordinal and these values.
    Behind { ordinal: u64, values: Seq<i64> },
}

/// The answer of a trade. `news` are the entries that stood before it and weren't seen.
#[derive(Drop)]
pub enum Traded {
    /// The batch landed, its first lemma at the place `first` of the log, from 1.
    Landed {
        news: Seq<Entry>,
        first: u64,
        fate: Option<Fate>,
    },
    /// The log was closed, and nothing was added.
    Closed {
        news: Seq<Entry>,
    },
}

/// There was no memory for a trade: the log is as before, and this is the batch.
#[derive(Drop)]
pub struct Refund {
    pub batch: Batch,
}
