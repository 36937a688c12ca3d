//! Transcripts: reads their cases, runs a program over the files of each, and tells what differs.
#![tactic(auto)]

mod case;
mod case_reader;
mod comparison;
mod content;
mod directive;
mod ending;
mod escapes;
mod flaw;
mod folder;
mod listing;
mod request;
mod run_reader;
mod scene;
mod searcher;
mod stop;
mod telling;
mod transcripts;
mod values;

pub use ending::Ending;
pub use searcher::Searcher;
pub use transcripts::run_transcripts;
