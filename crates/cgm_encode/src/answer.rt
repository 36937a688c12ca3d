//! The encoding of a model, and what a reasoner answers.
use cgm_atom::{Entry, Problem, Seq};
use cgm_model::Assignment;

/// The problem of a model and an earlier realization, and how many of its first variables stand for
/// elements, then for refinements, then for the model's variables.
#[derive(Drop)]
pub struct Encoded {
    pub problem: Problem,
    pub elements: u32,
    pub refinements: u32,
    pub vars: u32,
}

/// A realization with its vector.
#[derive(Drop)]
pub struct Found {
    pub assignment: Assignment,
    /// One number for each objective, in order.
    pub vector: Seq<i64>,
}

/// What a reasoner answers of a model. Entries are those of the log of the model's problem.
#[derive(Drop)]
pub enum Answer {
    /// A least realization was found, and the entries show that it is least.
    Realized {
        found: Found,
        entries: Seq<Entry>,
    },
    /// There is no realization, as the entries show.
    Unrealizable {
        entries: Seq<Entry>,
    },
    /// The budgets are spent: the best realization so far, if any, and what each worker spent.
    Exhausted {
        best: Option<Found>,
        spent: Seq<u64>,
        entries: Seq<Entry>,
    },
    /// The entries that are there leave it open: the best realization so far, if any.
    Open {
        best: Option<Found>,
    },
}
