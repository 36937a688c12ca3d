// Runs of the program over shelves and sinks in memory.
use cgm_base::{OutOfMemory, Status};
use cgm_cli::run_quiet;
use cgm_shelf::{MemShelf, MemSink};
use cgm_trail::Work;
use std::alloc::Global;

pub(crate) const FIRST: &str = "cgm 1\ngoal G must\ntask T\nrefine R G : T\n";

/// How a run ended, what it printed, and the trails that it left.
#[derive(Drop)]
pub(crate) struct Ended {
    pub(crate) status: Status,
    pub(crate) sink: MemSink,
    pub(crate) work: Work,
}

/// The words of a line, which single spaces part.
pub(crate) fn owned_words(alloc: Global, line: &str) -> Result<Vec<String>, OutOfMemory> {
    let mut owned = Vec::new(alloc);
    for word in line.split(' ') {
        owned.push(String::from_str(alloc, word)?)?;
    }
    Ok(owned)
}

/// Runs the words of a line, printing to this sink.
pub(crate) fn run_printing(
    alloc: Global,
    line: &str,
    shelf: &mut MemShelf,
    sink: MemSink,
) -> Result<Ended, OutOfMemory> {
    let words = owned_words(alloc, line)?;
    Ok(run_to_end(alloc, words.as_slice(), shelf, sink))
}

fn run_to_end(alloc: Global, words: &[String], shelf: &mut MemShelf, mut sink: MemSink) -> Ended {
    let mut work = Work::new(alloc);
    let status = run_with(alloc, words, shelf, &mut sink, &mut work);
    Ended { status, sink, work }
}

/// Runs the words. This is the place that calls the top call.
pub(crate) fn run_with(
    alloc: Global,
    words: &[String],
    shelf: &mut MemShelf,
    sink: &mut MemSink,
    work: &mut Work,
) -> Status {
    run_quiet(alloc, words, shelf, sink, work)
}

/// Runs the words of a line, printing to a sink that never fails.
pub(crate) fn run_words(
    alloc: Global,
    line: &str,
    shelf: &mut MemShelf,
) -> Result<Ended, OutOfMemory> {
    run_printing(
        alloc,
        line,
        shelf,
        MemSink::new(alloc, 65_536, Vec::new(alloc)),
    )
}

/// A shelf that never fails, with a model and another file.
pub(crate) fn shelf_of(
    alloc: Global,
    model: &[u8],
    name: &str,
    bytes: &[u8],
) -> Result<MemShelf, OutOfMemory> {
    let mut shelf = MemShelf::new(alloc, 65_536, Vec::new(alloc), Vec::new(alloc));
    shelf.put("model.cgm", model)?;
    shelf.put(name, bytes)?;
    Ok(shelf)
}

/// Whether the run ended with this status and printed this.
pub(crate) fn has_answered(ended: &Ended, status: Status, printed: &[u8]) -> bool {
    ended.status == status && ended.sink.written() == printed
}

/// Whether the words of a line end with the status and print these bytes, with a model and another file.
pub(crate) fn prints(
    alloc: Global,
    line: &str,
    model: &[u8],
    (name, bytes): (&str, &[u8]),
    (status, printed): (Status, &[u8]),
) -> Result<bool, OutOfMemory> {
    let mut shelf = shelf_of(alloc, model, name, bytes)?;
    prints_over(alloc, line, &mut shelf, status, printed)
}

fn prints_over(
    alloc: Global,
    line: &str,
    shelf: &mut MemShelf,
    status: Status,
    printed: &[u8],
) -> Result<bool, OutOfMemory> {
    let ended = run_words(alloc, line, shelf)?;
    Ok(has_answered(&ended, status, printed))
}
