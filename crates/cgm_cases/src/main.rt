//! The cases: runs the cases of transcripts over the commands, by one worker and by crews, and tells
//! each that differs.
#![tactic(auto)]

mod commands;

use cgm_cli::words_after_name;
use cgm_shelf::{FileShelf, MemShelf, MemSink, OutSink};
use cgm_transcripts::{Ending, Searcher, run_transcripts};
use commands::{run_alone, run_by_crew};
use std::alloc::Global;
use std::env;
use std::process::ExitCode;

/// The crews: what they are told of their workers where a case tells nothing. Told nothing, they are
/// four.
const CREWS: [Option<&str>; 3] = [Some("--workers=1"), Some("--workers=2"), None];

fn main(rt: HostRuntime) -> ExitCode {
    let mut shelf = FileShelf::new(&rt);
    let mut out = OutSink::new(&rt);
    let Ok(words) = words_after_name(rt.alloc(), env::args(&rt)) else {
        return ExitCode::from(Ending::Unfit.code());
    };
    let words = words.as_slice();
    let alone = run_transcripts(
        &rt,
        &run_alone,
        Searcher::Alone,
        words,
        &mut shelf,
        &mut out,
    );
    let mut code = alone.code();
    for option in CREWS {
        let by_crew = |alloc: Global, words: &[String], shelf: &mut MemShelf, sink: &mut MemSink| {
            run_by_crew(&rt, alloc, option, words, shelf, sink)
        };
        let crew = run_transcripts(&rt, &by_crew, Searcher::Crew, words, &mut shelf, &mut out);
        code = code.max(crew.code());
    }
    ExitCode::from(code)
}
