//! An earlier realization and its text form, and what it costs to move on from it.
#![tactic(auto)]

mod costs;
mod draft;
mod earlier;
mod form;
mod index;
mod laws;
mod printer;
mod reader;

pub use cgm_lex::reading::{LineFault, TextStop as EarlierStop};
pub use costs::{effort, familiarity};
pub use earlier::Earlier;
pub use laws::{
    canonical_earlier_text_is_read_back, earlier_lines_are_decided,
    earlier_text_fails_at_its_first_faulty_line, earlier_text_has_one_fault,
    earlier_text_has_one_list, earlier_text_has_pairs_or_fault, earlier_text_is_header_and_pairs,
};
pub use printer::print_earlier;
pub use reader::read_earlier;
