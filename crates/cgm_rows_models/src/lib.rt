//! Worked examples over models and by the whole program, as tests: assignments and the rules that they
//! break, encoding and back, what entries show, lines of reports, earlier texts that are printed,
//! generated texts, and small calls; limits that only long texts meet, counts that no text tells, how runs over transcripts
//! end, crews held at their gates, and the shelves and sinks by themselves.
#![tactic(auto)]

#[cfg(test)]
mod assignments;
#[cfg(test)]
mod call_rows;
#[cfg(test)]
mod count_rows;
#[cfg(test)]
mod crew_rows;
#[cfg(test)]
mod earlier_rows;
#[cfg(test)]
mod encoding_rows;
#[cfg(test)]
mod encodings;
#[cfg(test)]
mod generated_rows;
#[cfg(test)]
mod limit_rows;
#[cfg(test)]
mod model_rows;
#[cfg(test)]
mod models;
#[cfg(test)]
mod questions;
#[cfg(test)]
mod runs;
#[cfg(test)]
mod shelf_rows;
#[cfg(test)]
mod shown;
#[cfg(test)]
mod texts;
#[cfg(test)]
mod transcript_rows;
#[cfg(test)]
mod verify_rows;
