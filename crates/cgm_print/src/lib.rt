//! The canonical text of a model, and the words of statements and formulas.
#![tactic(auto)]

mod formula_printer;
mod line;
mod model_printer;
pub mod names;
mod printer;
mod statement_printer;
pub mod words;

pub use model_printer::print;
