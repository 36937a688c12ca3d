//! Why the program ends before its cases.
use cgm_base::OutOfMemory;
use cgm_shelf::{Sink, write_whole};
use std::alloc::AllocFailed;

/// Why the cases can't be run.
#[derive(Clone, Copy)]
pub(crate) enum Stop {
    /// The words are none of the program's.
    Usage,
    /// The folder can't be listed.
    NoFolder,
    /// A file can't be read or is no transcript, as a line has told.
    Told,
    /// The output can't be written.
    NoOutput,
    /// There is no memory.
    Memory,
}

impl Stop {
    /// The line that tells it.
    fn line(self) -> &'static str {
        match self {
            Stop::Usage => {
                "usage: cgm_cases [FILE..] [--wrong FILE..] [--broken FILE..] [--only NAME]\n"
            }
            Stop::NoFolder => "the folder can't be listed\n",
            Stop::Told => "",
            Stop::NoOutput => "the output can't be written\n",
            Stop::Memory => "no memory\n",
        }
    }
}

impl From<OutOfMemory> for Stop {
    fn from(_error: OutOfMemory) -> Stop {
        Stop::Memory
    }
}

impl<T: Drop> From<AllocFailed<T>> for Stop {
    fn from(_error: AllocFailed<T>) -> Stop {
        Stop::Memory
    }
}

/// Prints why the program ends.
pub(crate) fn print_stop<O: Sink>(out: &mut O, stop: Stop) {
    let _ = write_whole(out, stop.line().as_bytes());
}
