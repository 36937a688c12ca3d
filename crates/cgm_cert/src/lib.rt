//! Certificates: the text of a log's entries, read and printed.
#![tactic(auto)]

mod cuts;
mod entry_reader;
pub mod laws;
mod numbers;
mod printer;
mod reader;
mod stop;
mod word_lists;
mod words;

pub use printer::print_cert;
pub use reader::read_cert;
pub use stop::{CertKind, CertStop};
