//! Formulas over elements, refinements and bounded numbers, and what they mean under an assignment.
#![tactic(auto)]

mod assignment;
mod formula;
mod meaning;
mod name;
mod parts;

pub use assignment::{Assignment, number_at, truth_at};
pub use formula::{Formula, Linear, Number, Truth};
pub use meaning::{holds, is_true, value};
pub use name::Name;
pub use parts::Parts;
