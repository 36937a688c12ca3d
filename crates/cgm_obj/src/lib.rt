//! The objectives of a model: the vector of an assignment, and which realizations are least.
#![tactic(auto)]

mod counts;
mod laws;
mod order;
mod quantities;
mod vectors;
mod weights;

pub use counts::is_free_requirement;
pub use laws::{vector_has_a_number_for_each_objective, vector_is_small};
pub use order::less;
pub use vectors::vector;
