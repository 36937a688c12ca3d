//! The commands of the program over any shelf of files and any sink.
#![tactic(auto)]

mod answer;
mod check;
mod command;
mod encoding;
mod faults;
mod file;
mod input;
pub mod laws;
mod numbers;
mod options;
mod print;
mod program;
mod quiet;
mod runs;
mod show;
mod solve;
mod solvers;
mod trial;

pub use program::{exit_code, run_program, words_after_name};
pub use quiet::run_quiet;
pub use runs::run;
