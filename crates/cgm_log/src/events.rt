//! What workers do with a log, one after another.

use crate::batches::Batch;

/// One act of one worker.
#[derive(Drop)]
pub enum Event {
    /// The worker comes in, and has seen nothing.
    Enter { worker: u32 },
    /// The worker's batch lands, and it has seen the whole log.
    Trade { worker: u32, batch: Batch },
    /// The worker is told of a length that the log has had. Nothing changes.
    Look { worker: u32, length: u64 },
    /// The worker is out.
    Leave { worker: u32 },
}
