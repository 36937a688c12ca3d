//! Problems over bounded whole numbers, their solutions, boxes and their narrowing, and the entries of a log.
#![tactic(auto)]

mod arithmetic;
mod atoms;
mod boxes;
mod builders;
mod checks;
mod clauses;
mod constraints;
mod entries;
pub mod laws;
mod limits;
mod lists;
pub mod literals;
mod outcome;
mod placing;
mod problems;
mod rows;

pub use atoms::{is_false, is_true, make_true, negated};
pub use boxes::BoxState;
pub use builders::{BuildStop, ProblemBuilder};
pub use checks::{Violated, first_violated, satisfied};
pub use clauses::{ClauseAtoms, narrow_by_atoms};
pub use constraints::{Atom, Clause, Row, Var};
pub use entries::{BadStep, Entry, Hint, copy_entries};
pub use limits::{
    MAX_ATOM_NUMBER, MAX_BATCH_LEMMAS, MAX_BOUND, MAX_LEAST, MAX_MEASURE, MAX_OBJECTIVES,
    MAX_WORKERS,
};
pub use lists::Seq;
pub use outcome::Narrowed;
pub use placing::place_all;
pub use problems::Problem;
pub use rows::{greatest_activity, kept_by_term, narrow_by_row};
use std::marker::{Send, Sync};

// A problem, a box and an entry can be moved to a thread, and a problem can be shared between threads.
fn cross_threads(problem: &Problem, bounds: &BoxState, entry: &Entry) {
    can_be_moved(problem);
    can_be_moved(bounds);
    can_be_moved(entry);
    can_be_shared(problem);
}

fn can_be_moved<T: Send>(_: &T) {}

fn can_be_shared<T: Sync>(_: &T) {}
