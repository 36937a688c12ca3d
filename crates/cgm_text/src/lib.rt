//! The text form of a model: reading it, or telling the first fault of a text that has none.
#![tactic(auto)]

mod depth;
mod draft;
mod fault;
mod form;
mod formula;
mod judge;
mod keyword;
mod laws;
mod linear;
mod meaning;
mod names;
mod printing_laws;
mod reader;
mod shape;
mod take;
mod word;
mod written;

pub use cgm_lex::reading::{LineFault, TextStop};
pub use cgm_print::print;
pub use laws::{
    lines_are_decided, text_has_model_or_fault, text_has_one_fault, text_has_one_model,
    tokens_have_one_statement,
};
pub use printing_laws::{
    canonical_formula_is_read_back, canonical_statement_is_read_back, canonical_text_is_read_back,
};
pub use reader::{Reading, read};
