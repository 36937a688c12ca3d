//! The trail of a search: which bounds were tightened, in which order, and for what reason.
#![tactic(auto)]

mod changes;
mod landing;
pub mod laws;
mod paths;
mod stepping;
mod trails;
mod works;

pub use changes::{Change, Reason, Swept};
pub use landing::landed;
use std::marker::Send;
pub use stepping::step;
pub use trails::Trail;
pub use works::Work;

// A trail and a work can be moved to a thread.
fn cross_threads(trail: &Trail, work: &Work) {
    can_be_moved(trail);
    can_be_moved(work);
}

fn can_be_moved<T: Send>(_: &T) {}
