//! A model solved by one worker or by a crew, and what entries show of a model.
#![tactic(auto)]

mod answering;
mod running;
mod solving;
mod verifying;

pub use cgm_crew::Crew;
pub use cgm_encode::{Answer, Found, SolveStop};
pub use cgm_search::Plan;
pub use solving::{solve, solve_alone};
pub use verifying::{Verified, verify, verify_encoded};
