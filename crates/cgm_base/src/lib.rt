//! The statuses of the commands, the limits of a model, the kinds of faults, and the words of truth values.
#![tactic(auto)]

mod fault;
mod limit;
pub mod limits;
mod status;
mod word;

pub use fault::BadKind;
pub use limit::{Limit, Which};
pub use status::Status;
pub use word::{is_word, truth_of_word, truth_word};

/// Want of memory: the error of std, under one name for all crates.
pub use std::alloc::AllocError as OutOfMemory;
