//! A model as a problem and back, the text of a problem, and the answers of a reasoner.
#![tactic(auto)]

mod answer;
mod assignments;
mod encoding;
mod expressions;
mod interest;
pub mod laws;
mod names;
mod preferences;
mod printer;
mod quantities;
mod ranges;
mod rows;
mod solutions;
mod sums;
mod values;
mod variables;
mod words;

pub use answer::{Answer, Encoded, Found};
pub use assignments::decode;
pub use cgm_enc_formula::{EncodeStop, EncodeStop as SolveStop};
pub use encoding::encode;
pub use printer::print_problem;
pub use solutions::decoded;
pub use values::extend;
