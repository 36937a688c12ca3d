//! What is done for words that name transcripts.
use crate::case::Case;
use crate::case_reader::cases_of;
use crate::ending::{Ending, Tally, ending_of};
use crate::flaw::Flaw;
use crate::listing::take_folder;
use crate::request::{Request, discard, take_words};
use crate::scene::run_case;
use crate::searcher::Searcher;
use crate::stop::{Stop, print_stop};
use crate::telling::Told;
use cgm_base::{OutOfMemory, Status};
use cgm_shelf::{MemShelf, MemSink, ReadStop, Shelf, Sink, read_whole, write_whole};
use std::alloc::Global;
use std::rt::Files;

/// What is counted, and what those that are told did.
type Counted = (&'static str, &'static str);

const BROKEN: Counted = ("broken texts", "told");

const WRONG: Counted = ("wrong cases", "told");

const CASES: Counted = ("cases", "differ");

/// Which cases of a transcript are run: those that hold where this one searches, and with a name only
/// those of this name.
#[derive(Clone, Copy)]
struct Selection<'r> {
    searcher: Searcher,
    only: &'r Option<String>,
}

impl<'r> Selection<'r> {
    /// Whether the case has the name that is asked for, if one is.
    fn names(self, case: &Case<'_>) -> bool {
        match self.only {
            Some(name) => case.name == name.as_str(),
            None => true,
        }
    }
}

/// Runs a program on the cases that the words ask for, prints each that differs and the counts, and
/// says how it ends. The program may be called at any time, by words, a shelf and a sink; `searcher`
/// says who searches in it.
pub fn run_transcripts<
    R: Files + AllocGlobal + Clone + Drop,
    P: Fn(Global, &[String], &mut MemShelf, &mut MemSink) -> Status,
    F: Shelf,
    O: Sink,
>(rt: &R, program: &P, searcher: Searcher, words: &[String], shelf: &mut F, out: &mut O) -> Ending
    requires { P.IsAlwaysCallable program.now }
{
    let mut request = Request::new(rt.alloc());
    let ending = match fill(rt, words, &mut request) {
        Ok(()) => run_request(rt.alloc(), program, searcher, &request, shelf, out),
        Err(stop) => Err(stop),
    };
    discard(request);
    match ending {
        Ok(ending) => ending,
        Err(stop) => {
            print_stop(out, stop);
            Ending::Unfit
        }
    }
}

/// Asks for what the words say, and where they name no file for the files of the folder.
fn fill<R: Files + AllocGlobal + Clone + Drop>(
    rt: &R,
    words: &[String],
    request: &mut Request,
) -> Result<(), Stop> {
    take_words(rt.alloc(), words, request)?;
    if request.is_empty() {
        take_folder(rt, request)?;
    }
    Ok(())
}

/// Judges the wrong cases and the broken texts, if it is the one to judge them, and runs the cases.
fn run_request<P: Fn(Global, &[String], &mut MemShelf, &mut MemSink) -> Status, F: Shelf, O: Sink>(
    alloc: Global,
    program: &P,
    searcher: Searcher,
    request: &Request,
    shelf: &mut F,
    out: &mut O,
) -> Result<Ending, Stop>
    requires { P.IsAlwaysCallable program.now }
{
    let (wrong, broken) = match searcher {
        Searcher::Alone => judge_faults(alloc, program, request, shelf, out)?,
        Searcher::Crew => (Tally::NONE, Tally::NONE),
    };
    let only = &request.only;
    let selection = Selection { searcher, only };
    let files = request.files.as_slice();
    let cases = run_files(alloc, program, selection, files, shelf, out)?;
    print_counts(alloc, out, CASES, cases)?;
    Ok(ending_of(cases, wrong, broken))
}

/// Runs the wrong cases, and reads the texts that are to be no transcripts.
fn judge_faults<P: Fn(Global, &[String], &mut MemShelf, &mut MemSink) -> Status, F: Shelf, O: Sink>(
    alloc: Global,
    program: &P,
    request: &Request,
    shelf: &mut F,
    out: &mut O,
) -> Result<(Tally, Tally), Stop>
    requires { P.IsAlwaysCallable program.now }
{
    let broken = refuse_files(alloc, request.broken.as_slice(), shelf, out)?;
    print_counts(alloc, out, BROKEN, broken)?;
    let searcher = Searcher::Alone;
    let only = &request.only;
    let selection = Selection { searcher, only };
    let files = request.wrong.as_slice();
    let wrong = run_files(alloc, program, selection, files, shelf, out)?;
    print_counts(alloc, out, WRONG, wrong)?;
    Ok((wrong, broken))
}

/// Prints how many there were, and how many of them were told.
fn print_counts<O: Sink>(
    alloc: Global,
    out: &mut O,
    (what, did): Counted,
    tally: Tally,
) -> Result<(), Stop> {
    let all = tally.all();
    let told = tally.told;
    print(out, format!(in alloc; "{all} {what}, {told} {did}\n"))
}

/// Prints a line, where there was memory for it.
fn print<O: Sink>(out: &mut O, line: Result<String, OutOfMemory>) -> Result<(), Stop> {
    match line {
        Ok(line) => print_text(out, line.as_str()),
        Err(_) => Err(Stop::Memory),
    }
}

fn print_text<O: Sink>(out: &mut O, text: &str) -> Result<(), Stop> {
    match write_whole(out, text.as_bytes()) {
        Ok(()) => Ok(()),
        Err(_) => Err(Stop::NoOutput),
    }
}

/// Reads texts that are to be no transcripts, and prints for each at which line it isn't one.
fn refuse_files<F: Shelf, O: Sink>(
    alloc: Global,
    names: &[String],
    shelf: &mut F,
    out: &mut O,
) -> Result<Tally, Stop> {
    let mut tally = Tally::NONE;
    for name in names {
        tally.count(refuse_file(alloc, name.as_str(), shelf, out)?);
    }
    Ok(tally)
}

/// Prints at which line a file isn't a transcript, and says whether it isn't one.
fn refuse_file<F: Shelf, O: Sink>(
    alloc: Global,
    name: &str,
    shelf: &mut F,
    out: &mut O,
) -> Result<bool, Stop> {
    let text = bytes_of(alloc, name, shelf, out)?;
    match flaw_of(alloc, text.as_slice()) {
        Some(flaw) => {
            tell_flaw(alloc, name, flaw, out)?;
            Ok(true)
        }
        None => Ok(false),
    }
}

/// Why a text is no transcript, if it is none.
fn flaw_of(alloc: Global, text: &[u8]) -> Option<Flaw> {
    match cases_of(alloc, text) {
        Ok(_) => None,
        Err(flaw) => Some(flaw),
    }
}

/// Prints why a text is no transcript.
fn tell_flaw<O: Sink>(alloc: Global, name: &str, flaw: Flaw, out: &mut O) -> Result<(), Stop> {
    match flaw {
        Flaw::Form { line, fault } => {
            let words = fault.words();
            print(out, format!(in alloc; "{name}: line {line}: {words}\n"))
        }
        Flaw::Memory => Err(Stop::Memory),
    }
}

/// Runs the selected cases of transcripts, and prints each that differs.
fn run_files<P: Fn(Global, &[String], &mut MemShelf, &mut MemSink) -> Status, F: Shelf, O: Sink>(
    alloc: Global,
    program: &P,
    selection: Selection<'_>,
    names: &[String],
    shelf: &mut F,
    out: &mut O,
) -> Result<Tally, Stop>
    requires { P.IsAlwaysCallable program.now }
{
    let mut tally = Tally::NONE;
    for name in names {
        let name = name.as_str();
        let text = bytes_of(alloc, name, shelf, out)?;
        let of_text = run_text(alloc, program, selection, name, text.as_slice(), out)?;
        tally.add(of_text);
    }
    Ok(tally)
}

/// Runs the selected cases of a file's text.
fn run_text<P: Fn(Global, &[String], &mut MemShelf, &mut MemSink) -> Status, O: Sink>(
    alloc: Global,
    program: &P,
    selection: Selection<'_>,
    name: &str,
    text: &[u8],
    out: &mut O,
) -> Result<Tally, Stop>
    requires { P.IsAlwaysCallable program.now }
{
    match cases_of(alloc, text) {
        Ok(cases) => run_cases(alloc, program, selection, name, cases.as_slice(), out),
        Err(flaw) => {
            tell_flaw(alloc, name, flaw, out)?;
            Err(Stop::Told)
        }
    }
}

/// Runs the selected cases of a file.
fn run_cases<P: Fn(Global, &[String], &mut MemShelf, &mut MemSink) -> Status, O: Sink>(
    alloc: Global,
    program: &P,
    selection: Selection<'_>,
    name: &str,
    cases: &[Case<'_>],
    out: &mut O,
) -> Result<Tally, Stop>
    requires { P.IsAlwaysCallable program.now }
{
    let mut tally = Tally::NONE;
    for case in cases {
        if selection.names(case) {
            tally.count(tell_case(alloc, program, selection.searcher, name, case, out)?);
        }
    }
    Ok(tally)
}

/// Runs a case that holds where this one searches, prints what differs first, and says whether
/// something does.
fn tell_case<P: Fn(Global, &[String], &mut MemShelf, &mut MemSink) -> Status, O: Sink>(
    alloc: Global,
    program: &P,
    searcher: Searcher,
    file: &str,
    case: &Case<'_>,
    out: &mut O,
) -> Result<bool, Stop>
    requires { P.IsAlwaysCallable program.now }
{
    if !case.holds_for(searcher) {
        return Ok(false);
    }
    match run_case(alloc, program, case) {
        Ok(Some(told)) => print_told(alloc, file, case.name, told, out),
        Ok(None) => Ok(false),
        Err(_) => Err(Stop::Memory),
    }
}

/// Prints what differs, which is something.
fn print_told<O: Sink>(
    alloc: Global,
    file: &str,
    name: &str,
    told: Told,
    out: &mut O,
) -> Result<bool, Stop> {
    let line = told.line;
    let text = told.text.as_str();
    print(
        out,
        format!(in alloc; "{file} {name}: line {line}: {text}\n"),
    )?;
    Ok(true)
}

/// The bytes of a file.
fn bytes_of<F: Shelf, O: Sink>(
    alloc: Global,
    name: &str,
    shelf: &mut F,
    out: &mut O,
) -> Result<Vec<u8>, Stop> {
    match read_whole(alloc, shelf, name, None) {
        Ok(bytes) => Ok(bytes),
        Err(ReadStop::Memory) => Err(Stop::Memory),
        Err(_) => Err(tell_unread(alloc, name, out)),
    }
}

/// Prints that a file can't be read.
fn tell_unread<O: Sink>(alloc: Global, name: &str, out: &mut O) -> Stop {
    match print(out, format!(in alloc; "{name} can't be read\n")) {
        Ok(()) => Stop::Told,
        Err(stop) => stop,
    }
}
