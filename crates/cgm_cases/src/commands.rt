//! The programs that the cases are run by.
use cgm_base::{OutOfMemory, Status};
use cgm_cli::{run, run_quiet};
use cgm_search::IdleGate;
use cgm_shelf::{MemShelf, MemSink};
use cgm_trail::Work;
use std::alloc::Global;
use std::marker::Sync;
use std::sync::Wait;
use std::thread::Threads;

/// Runs the commands, with one worker that waits for nobody.
pub(crate) fn run_alone(
    alloc: Global,
    words: &[String],
    shelf: &mut MemShelf,
    sink: &mut MemSink,
) -> Status {
    let mut work = Work::new(alloc);
    run_quiet(alloc, words, shelf, sink, &mut work)
}

/// Runs the commands, by a crew. A search whose words name no number of workers is given this option.
pub(crate) fn run_by_crew<R: Threads + Wait + Sync>(
    rt: &R,
    alloc: Global,
    option: Option<&str>,
    words: &[String],
    shelf: &mut MemShelf,
    sink: &mut MemSink,
) -> Status {
    match with_option(alloc, words, option) {
        Ok(words) => {
            let mut work = Work::new(alloc);
            let words = words.as_slice();
            run(rt, alloc, words, shelf, sink, &IdleGate, &mut work)
        }
        Err(_) => Status::Memory,
    }
}

/// The words, with the option behind the first where they ask for a search and name no number of
/// workers.
fn with_option(
    alloc: Global,
    words: &[String],
    option: Option<&str>,
) -> Result<Vec<String>, OutOfMemory> {
    let (first, rest) = words.split_at(words.len().min(1));
    let mut given = Vec::new(alloc);
    push_all(alloc, first, &mut given)?;
    if searches(words) && !names_workers(words) {
        push_option(alloc, option, &mut given)?;
    }
    push_all(alloc, rest, &mut given)?;
    Ok(given)
}

fn push_all(alloc: Global, words: &[String], given: &mut Vec<String>) -> Result<(), OutOfMemory> {
    for word in words {
        given.push(String::from_str(alloc, word.as_str())?)?;
    }
    Ok(())
}

fn push_option(
    alloc: Global,
    option: Option<&str>,
    given: &mut Vec<String>,
) -> Result<(), OutOfMemory> {
    if let Some(word) = option {
        given.push(String::from_str(alloc, word)?)?;
    }
    Ok(())
}

/// Whether the words ask for a search.
fn searches(words: &[String]) -> bool {
    match words.first() {
        Some(word) => word.as_str() == "solve" || word.as_str() == "trial",
        None => false,
    }
}

/// Whether a word names a number of workers.
fn names_workers(words: &[String]) -> bool {
    for word in words {
        if word.as_str().starts_with("--workers") {
            return true;
        }
    }
    false
}
