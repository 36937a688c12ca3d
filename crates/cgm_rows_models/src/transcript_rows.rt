// Whole runs over transcripts in memory: how they end, and with what their output ends.
use crate::runs::{owned_words, run_with};
use cgm_base::{OutOfMemory, Status};
use cgm_shelf::{MemShelf, MemSink};
use cgm_trail::Work;
use cgm_transcripts::{Ending, Searcher, run_transcripts};
use std::alloc::Global;
use std::rt::Files;
use std::test::Fail;

/// Runs the commands, with one worker.
fn run_commands(
    alloc: Global,
    words: &[String],
    shelf: &mut MemShelf,
    sink: &mut MemSink,
) -> Status {
    let mut work = Work::new(alloc);
    run_with(alloc, words, shelf, sink, &mut work)
}

/// The transcripts: one whose case agrees, one whose case differs, one with a case of each kind, two
/// whose case differs where one worker or a crew searches, and a text that is none.
const TEXTS: &[(&str, &str)] = &[
    (
        "good",
        "case one\nrun fly\nstatus 2\nprints\n  fault usage\n",
    ),
    (
        "wrong",
        "case one\nrun fly\nstatus 7\nprints\n  fault usage\n",
    ),
    (
        "two",
        "case one\nrun fly\nstatus 7\nprints\n\ncase second\nrun fly\nstatus 2\nprints\n  fault usage\n",
    ),
    (
        "alone",
        "case one\nalone\nrun fly\nstatus 7\nprints\n  fault usage\n",
    ),
    (
        "together",
        "case one\ntogether\nrun fly\nstatus 7\nprints\n  fault usage\n",
    ),
    ("broken", "case one\nruns\n"),
];

const USAGE: &str = "usage: cgm_cases [FILE..] [--wrong FILE..] [--broken FILE..] [--only NAME]\n";

/// Words, who searches, how they end, and with what their output ends.
const ROWS: &[(&str, Searcher, Ending, &str)] = &[
    (
        "good",
        Searcher::Alone,
        Ending::Agree,
        "0 broken texts, 0 told\n0 wrong cases, 0 told\n1 cases, 0 differ\n",
    ),
    (
        "wrong",
        Searcher::Alone,
        Ending::Differ,
        "\n1 cases, 1 differ\n",
    ),
    (
        "good wrong",
        Searcher::Alone,
        Ending::Differ,
        "\n2 cases, 1 differ\n",
    ),
    (
        "good --wrong wrong",
        Searcher::Alone,
        Ending::Agree,
        "\n1 wrong cases, 1 told\n1 cases, 0 differ\n",
    ),
    (
        "good --wrong good",
        Searcher::Alone,
        Ending::Differ,
        "\n1 wrong cases, 0 told\n1 cases, 0 differ\n",
    ),
    (
        "good --broken broken",
        Searcher::Alone,
        Ending::Agree,
        "1 broken texts, 1 told\n0 wrong cases, 0 told\n1 cases, 0 differ\n",
    ),
    (
        "good --broken good",
        Searcher::Alone,
        Ending::Differ,
        "1 broken texts, 0 told\n0 wrong cases, 0 told\n1 cases, 0 differ\n",
    ),
    (
        "broken",
        Searcher::Alone,
        Ending::Unfit,
        "broken: line 2: no directive\n",
    ),
    (
        "nowhere",
        Searcher::Alone,
        Ending::Unfit,
        "nowhere can't be read\n",
    ),
    (
        "two",
        Searcher::Alone,
        Ending::Differ,
        "\n2 cases, 1 differ\n",
    ),
    (
        "two --only second",
        Searcher::Alone,
        Ending::Agree,
        "\n1 cases, 0 differ\n",
    ),
    (
        "good --only other",
        Searcher::Alone,
        Ending::Unfit,
        "\n0 cases, 0 differ\n",
    ),
    ("good --only", Searcher::Alone, Ending::Unfit, USAGE),
    ("good --no", Searcher::Alone, Ending::Unfit, USAGE),
    (
        "alone",
        Searcher::Alone,
        Ending::Differ,
        "\n1 cases, 1 differ\n",
    ),
    (
        "together",
        Searcher::Alone,
        Ending::Agree,
        "\n1 cases, 0 differ\n",
    ),
    ("good", Searcher::Crew, Ending::Agree, "1 cases, 0 differ\n"),
    (
        "wrong",
        Searcher::Crew,
        Ending::Differ,
        "\n1 cases, 1 differ\n",
    ),
    (
        "good --wrong good",
        Searcher::Crew,
        Ending::Agree,
        "1 cases, 0 differ\n",
    ),
    (
        "good --broken good",
        Searcher::Crew,
        Ending::Agree,
        "1 cases, 0 differ\n",
    ),
    (
        "alone",
        Searcher::Crew,
        Ending::Agree,
        "1 cases, 0 differ\n",
    ),
    (
        "together",
        Searcher::Crew,
        Ending::Differ,
        "\n1 cases, 1 differ\n",
    ),
];

/// A shelf with the transcripts.
fn shelf_of_texts(alloc: Global) -> Result<MemShelf, OutOfMemory> {
    let mut shelf = MemShelf::new(alloc, 4096, Vec::new(alloc), Vec::new(alloc));
    for (name, text) in TEXTS {
        shelf.put(name, text.as_bytes())?;
    }
    Ok(shelf)
}

/// Whether these words end so where this one searches, and their output ends with this text.
fn is_ended<R: Files + AllocGlobal + Clone + Drop>(
    rt: &R,
    words: &str,
    searcher: Searcher,
    ending: Ending,
    printed: &str,
) -> Result<bool, OutOfMemory> {
    let owned = owned_words(rt.alloc(), words)?;
    let mut shelf = shelf_of_texts(rt.alloc())?;
    let mut sink = MemSink::new(rt.alloc(), 4096, Vec::new(rt.alloc()));
    let ended = run_transcripts(
        rt,
        &run_commands,
        searcher,
        owned.as_slice(),
        &mut shelf,
        &mut sink,
    );
    Ok(ended == ending && sink.written().ends_with(printed.as_bytes()))
}

/// A sink that fails leaves no case agreed.
fn is_unfit_unprinted<R: Files + AllocGlobal + Clone + Drop>(
    rt: &R,
    searcher: Searcher,
) -> Result<bool, OutOfMemory> {
    let owned = owned_words(rt.alloc(), "good")?;
    let mut shelf = shelf_of_texts(rt.alloc())?;
    let mut failing = Vec::new(rt.alloc());
    failing.push(1)?;
    let mut sink = MemSink::new(rt.alloc(), 4096, failing);
    let ended = run_transcripts(
        rt,
        &run_commands,
        searcher,
        owned.as_slice(),
        &mut shelf,
        &mut sink,
    );
    Ok(ended == Ending::Unfit)
}

#[test]
fn each_ending(rt: HostRuntime) -> Result<(), Fail> {
    for (words, searcher, ending, printed) in ROWS {
        assert!(rt;
            is_ended(&rt, words, *searcher, *ending, printed)?,
            "at {words}"
        );
    }
    Ok(())
}

#[test]
fn no_output_is_unfit(rt: HostRuntime) -> Result<(), Fail> {
    assert!(rt; is_unfit_unprinted(&rt, Searcher::Alone)?);
    assert!(rt; is_unfit_unprinted(&rt, Searcher::Crew)?);
    Ok(())
}
