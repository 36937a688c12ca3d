//! Shelves and sinks by themselves: what came before a fault is kept, and faults are counted.
use cgm_base::OutOfMemory;
use cgm_shelf::{
    FileShelf, MemShelf, MemSink, NullSink, OutSink, ReadStop, Shelf, Sink, read_whole, write_file,
    write_whole,
};
use std::alloc::Global;
use std::rt::Files;
use std::test::Fail;

/// A shelf of pieces of four bytes with one file of ten, of whose calls these fail.
fn shelf_of_ten(
    alloc: Global,
    fail_reads: Vec<u64>,
    fail_writes: Vec<u64>,
) -> Result<MemShelf, OutOfMemory> {
    let mut shelf = MemShelf::new(alloc, 4, fail_reads, fail_writes);
    shelf.put("ten", b"0123456789")?;
    Ok(shelf)
}

/// Whether the whole file is read, and has these bytes.
fn is_read<F: Shelf>(
    alloc: Global,
    shelf: &mut F,
    name: &str,
    limit: Option<u64>,
    bytes: &[u8],
) -> bool {
    match read_whole(alloc, shelf, name, limit) {
        Ok(whole) => whole.as_slice() == bytes,
        Err(_) => false,
    }
}

/// Whether the file isn't read, for this cause.
fn is_stopped<F: Shelf>(
    alloc: Global,
    shelf: &mut F,
    name: &str,
    limit: Option<u64>,
    cause: ReadStop,
) -> bool {
    match read_whole(alloc, shelf, name, limit) {
        Ok(_) => false,
        Err(stop) => stop == cause,
    }
}

/// Whether the shelf has this file with these bytes.
fn has_file(shelf: &MemShelf, name: &str, bytes: &[u8]) -> bool {
    match shelf.bytes(name) {
        Some(held) => held == bytes,
        None => false,
    }
}

/// Whether a shelf whose ninth read fails reads its file until then.
fn reads_files(alloc: Global, shelf: &mut MemShelf) -> bool {
    is_read(alloc, shelf, "ten", Some(10), b"0123456789")
        && is_stopped(alloc, shelf, "ten", Some(9), ReadStop::TooLong)
        && is_stopped(alloc, shelf, "nowhere", None, ReadStop::Fault)
        && shelf.read_faults() == 0
        && is_stopped(alloc, shelf, "ten", None, ReadStop::Fault)
        && shelf.read_faults() == 1
}

/// Whether a shelf whose third start or append fails keeps what it has of a file, and writes it then.
fn writes_files(shelf: &mut MemShelf) -> bool {
    write_file(shelf, "new", b"abcdefghij").is_err()
        && has_file(shelf, "new", b"abcd")
        && shelf.write_faults() == 1
        && write_file(shelf, "new", b"abcdefghij").is_ok()
        && has_file(shelf, "new", b"abcdefghij")
        && has_file(shelf, "ten", b"0123456789")
}

/// Whether a shelf takes no bytes for a file that isn't there, and counts no fault for it.
fn wants_files(shelf: &mut MemShelf) -> bool {
    shelf.bytes("nowhere").is_none()
        && shelf.append("nowhere", b"a").is_err()
        && shelf.write_faults() == 1
        && shelf.refused() == 0
}

/// Whether a sink whose second write fails keeps what came before, and goes on.
fn writes_texts(sink: &mut MemSink) -> bool {
    write_whole(sink, b"abcdefghijklmnopqrst").is_err()
        && sink.written() == b"abcdefgh".as_slice()
        && sink.faults() == 1
        && write_whole(sink, b"ijklmnopqrst").is_ok()
        && sink.written() == b"abcdefghijklmnopqrst".as_slice()
        && sink.refused() == 0
}

#[test]
fn reads_of_files(rt: HostRuntime) -> Result<(), Fail> {
    let alloc = rt.alloc();
    let mut shelf = shelf_of_ten(alloc, vec![in alloc; 9]?, Vec::new(alloc))?;
    assert!(rt; reads_files(alloc, &mut shelf));
    Ok(())
}

#[test]
fn writes_of_files(rt: HostRuntime) -> Result<(), Fail> {
    let alloc = rt.alloc();
    let mut shelf = shelf_of_ten(alloc, Vec::new(alloc), vec![in alloc; 3]?)?;
    assert!(rt; writes_files(&mut shelf) && wants_files(&mut shelf));
    Ok(())
}

#[test]
fn writes_of_texts(rt: HostRuntime) -> Result<(), Fail> {
    let alloc = rt.alloc();
    let mut sink = MemSink::new(alloc, 8, vec![in alloc; 2]?);
    assert!(rt; writes_texts(&mut sink));
    Ok(())
}

/// A read of a whole file of so many bytes, of whose reads one fails: does it end with all of them?
fn ends_whole(alloc: Global, size: usize, failing: u64) -> Result<bool, OutOfMemory> {
    let bytes = vec![in alloc; b'a'; size]?;
    ends_after(alloc, bytes.as_slice(), failing)
}

fn ends_after(alloc: Global, bytes: &[u8], failing: u64) -> Result<bool, OutOfMemory> {
    let reads = vec![in alloc; failing]?;
    let mut shelf = MemShelf::new(alloc, 1_000_000, reads, Vec::new(alloc));
    ends_over(alloc, bytes, &mut shelf)
}

fn ends_over(alloc: Global, bytes: &[u8], shelf: &mut MemShelf) -> Result<bool, OutOfMemory> {
    shelf.put("file", bytes)?;
    Ok(is_read(alloc, shelf, "file", None, bytes))
}

/// Sizes of a file, the number of the read that fails, and whether the file is read.
const READS: &[(usize, u64, bool)] = &[
    (0, 1, false),
    (0, 2, true),
    (1, 2, false),
    (4_096, 3, true),
    (65_536, 2, false),
    (65_536, 3, true),
    (65_537, 3, false),
    (65_537, 4, true),
];

// The last read of a file finds its end, and each one before it asks for at least 4,096 bytes.
#[test]
fn reads_ask_for_large_pieces(rt: HostRuntime) -> Result<(), Fail> {
    for (size, failing, whole) in READS {
        assert!(rt;
            ends_whole(rt.alloc(), *size, *failing)? == *whole,
            "at {size} bytes and read {failing}"
        );
    }
    Ok(())
}

/// Pieces, how much of each is taken, and how many writes have failed then.
const WRITES: &[(&str, Option<usize>, u64)] = &[
    ("abcdef", Some(4), 0),
    ("ef", None, 1),
    ("ef", Some(2), 1),
    ("", None, 2),
    ("", Some(0), 2),
];

/// Whether so much of a piece is taken, and so many writes have failed then. A sink that takes all
/// takes the whole piece.
fn is_taken(sink: &mut MemSink, piece: &str, taken: Option<usize>, faults: u64) -> bool {
    sink.write(piece.as_bytes()).ok() == taken
        && sink.faults() == faults
        && sink.refused() == 0
        && NullSink.write(piece.as_bytes()) == Ok(piece.len())
}

// Each write is answered by its length, or fails by the plan; none is refused.
#[test]
fn writes_and_their_counts(rt: HostRuntime) -> Result<(), Fail> {
    let alloc = rt.alloc();
    let mut sink = MemSink::new(alloc, 4, vec![in alloc; 2, 4]?);
    for (piece, taken, faults) in WRITES {
        assert!(rt; is_taken(&mut sink, piece, *taken, *faults), "at {piece}");
    }
    Ok(())
}

/// Whether the host's files are there only once they are written, and keep what is written last.
fn keeps_files<R: Files>(alloc: Global, shelf: &mut FileShelf<'_, R>) -> bool {
    shelf.append("file.txt", b"a").is_err()
        && write_file(shelf, "file.txt", b"first").is_ok()
        && write_file(shelf, "file.txt", b"second").is_ok()
        && is_read(alloc, shelf, "file.txt", None, b"second")
        && is_stopped(alloc, shelf, "nowhere.txt", None, ReadStop::Fault)
}

#[test]
fn host_files_are_read_back(rt: HostRuntime) {
    let mut shelf = FileShelf::new(&rt);
    assert!(rt; keeps_files(rt.alloc(), &mut shelf));
}

#[test]
fn output_is_written(rt: HostRuntime) -> Result<(), Fail> {
    let mut sink = OutSink::new(&rt);
    write_whole(&mut sink, b"output\n")?;
    Ok(())
}
