//! Shelves of files and sinks of bytes, with counts of their faults.
ghost use Rattle.std.specs.Prelude.{◌<◌, ◌^◌};
ghost use Rattle.cgm_shelf.specs.Shelf.{AllBelow, IsAppend, IsRead, IsStart, ShelfState};
ghost use Rattle.cgm_shelf.specs.Sink.{IsWrite, SinkState};

/// A call to the outside that failed. The object that was called has the count of its faults.
#[derive(Clone, Copy, Debug, PartialEq, Eq)]
pub struct Failed;

/// Files by their names, each of fewer than 2^63 bytes.
///
/// A call fails only where the shelf's count of such faults rises in it, or stands at 2^64 - 1.
/// Where a shelf tells its files, a read or an append of a name that isn't there fails too, and
/// leaves both counts as they were. A shelf that tells its files goes on telling them, and one that
/// doesn't tell them doesn't begin to.
pub trait Shelf {
    /// The files, where the shelf tells them, and how many reads have failed, and how many starts and
    /// appends.
    ghost state: { Self → ShelfState };

    /// Makes the named file empty, whether it was there or not. After a fault the files are as before.
    fn start(&mut self, name: &str) -> Result<(), Failed>
        ensures { IsStart (state self.old) (state self.new) name.now result };

    /// Fills the front of the buffer with the named file's bytes from place `at` on, and answers how
    /// many. Over a buffer that isn't empty it answers 0 only at the file's end or past it.
    fn read(&mut self, name: &str, at: u64, buf: &mut [u8]) -> Result<usize, Failed>
        requires { at < 2 ^ 63 }
        ensures { IsRead (state self.old) (state self.new) name.now at buf.new result };

    /// Adds a front of the piece to the named file, and answers its length, which is at least 1 for a
    /// piece that isn't empty. After a fault the files are as before.
    fn append(&mut self, name: &str, piece: &[u8]) -> Result<usize, Failed>
        ensures { IsAppend (state self.old) (state self.new) name.now piece.now result };

    /// A file has fewer than 2^63 bytes.
    ghost small: { (shelf : Self) → AllBelow (2 ^ 63) (state shelf).files };
}

/// A stream of bytes that are written one after another.
///
/// A write fails only where the sink's count of faults rises in it, or stands at 2^64 - 1. A sink
/// that tells its bytes goes on telling them, and one that doesn't tell them doesn't begin to.
pub trait Sink {
    /// The bytes written so far, where the sink tells them, and how many writes have failed.
    ghost state: { Self → SinkState };

    /// Adds a front of the piece, and answers its length, which is at least 1 for a piece that isn't
    /// empty. After a fault the bytes are as before.
    fn write(&mut self, piece: &[u8]) -> Result<usize, Failed>
        ensures { IsWrite (state self.old) (state self.new) piece.now result };
}
