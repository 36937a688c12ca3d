//! Cases: files, runs of the program over them, and what each run must give.
ghost use Rattle.std.specs.Prelude.{IfOk, ◌≤◌};

use crate::searcher::Searcher;

/// A case of a transcript.
#[derive(Drop)]
pub(crate) struct Case<'a> {
    pub(crate) name: &'a str,
    pub(crate) steps: Vec<Step<'a>>,
}

impl<'a> Case<'a> {
    /// Whether the case holds where this one searches.
    pub(crate) fn holds_for(&self, searcher: Searcher) -> bool {
        for step in self.steps.as_slice() {
            match (step, searcher) {
                (Step::Alone, Searcher::Crew) => return false,
                (Step::Together, Searcher::Alone) => return false,
                _ => {}
            }
        }
        true
    }
}

/// A step of a case.
#[derive(Drop)]
pub(crate) enum Step<'a> {
    /// The folder has this file from here on.
    File(NamedFile<'a>),
    /// The shelf and the sink move at most so many bytes a call from here on.
    Piece(Piece),
    /// A call of the next run fails.
    Fail(FailingCall),
    /// The case holds for one worker alone.
    Alone,
    /// The case holds for as many workers as its words say, and not for one that is run in their
    /// place.
    Together,
    /// The program is run.
    Run(Run),
}

#[derive(Drop)]
pub(crate) struct NamedFile<'a> {
    pub(crate) name: &'a str,
    pub(crate) bytes: Vec<u8>,
}

/// How many bytes one call moves at most.
#[derive(Clone, Copy)]
pub(crate) struct Piece {
    pub(crate) size: usize,
    ghost moves: { 1 ≤ size },
}

/// What a call of a shelf or a sink does.
#[derive(Clone, Copy)]
pub(crate) enum Call {
    Read,
    Start,
    Write,
    Print,
}

/// The calls of one kind are numbered from 1 on.
#[derive(Clone, Copy)]
pub(crate) struct FailingCall {
    pub(crate) call: Call,
    pub(crate) number: u64,
}

/// A run of the program and what it must give.
#[derive(Drop)]
pub(crate) struct Run {
    pub(crate) line: u64,
    pub(crate) words: Vec<String>,
    pub(crate) status: WantedStatus,
    pub(crate) output: Output,
    pub(crate) files: Vec<WantedFile>,
}

#[derive(Clone, Copy)]
pub(crate) struct WantedStatus {
    pub(crate) line: u64,
    pub(crate) code: u64,
}

/// How much of the output the wanted bytes are.
#[derive(Clone, Copy)]
pub(crate) enum Extent {
    Whole,
    Front,
}

#[derive(Drop)]
pub(crate) struct Output {
    pub(crate) line: u64,
    pub(crate) extent: Extent,
    pub(crate) bytes: Vec<u8>,
}

/// A file that the run leaves, or, with no bytes, one that isn't there then.
#[derive(Drop)]
pub(crate) struct WantedFile {
    pub(crate) line: u64,
    pub(crate) name: String,
    pub(crate) bytes: Option<Vec<u8>>,
}
