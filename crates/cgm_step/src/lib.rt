//! What hints name in a log, narrowing by hints, and the test of the next entry of a log.
#![tactic(auto)]

mod accepting;
mod index;
mod indexed;
mod naming;
mod narrowing;
mod refuting;
mod restoring;

pub use accepting::{accepts_next, is_less};
pub use cgm_atom::{BadStep, Narrowed};
pub use index::LogIndex;
pub use indexed::IndexedLog;
pub use naming::{Found, Named};
pub use narrowing::narrow;
