//! A crew of workers that search one problem at once, over one log.
#![tactic(auto)]

mod crews;
mod ending;
mod running;
mod seating;

pub use crews::{Crew, CrewEnd, search_all};
