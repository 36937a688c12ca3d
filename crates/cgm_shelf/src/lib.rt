//! The outside of the program: where files come from and where output goes.
#![tactic(auto)]

mod calls;
mod host;
mod mem_shelf;
mod mem_sink;
mod outside;
mod whole;

pub use host::{FileShelf, OutSink};
pub use mem_shelf::MemShelf;
pub use mem_sink::{MemSink, NullSink};
pub use outside::{Failed, Shelf, Sink};
pub use whole::{ReadStop, read_whole, write_file, write_whole};
