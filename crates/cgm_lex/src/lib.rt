//! The tokens of a text, with their spans, and the first fault; and the reader of texts, line by line.
#![tactic(auto)]

mod bytes;
mod laws;
mod lexer;
mod line;
mod number;
pub mod reading;
mod spelling;
mod stops;
mod token;

pub use laws::{
    canonical_line_has_no_feed, canonical_line_is_read_back, line_is_plain, run_is_text,
    spans_are_pieces, text_fails_once, text_says_one_thing, text_says_or_fails,
};
pub use lexer::{tokens, tokens_of_line};
pub use spelling::is_spelled;
pub use token::{Flaw, Kind, LexFault, LexStop, Lexed, Token, bytes_of};
