//! Numbers, and what a piece of a line is.
ghost use Rattle.std.specs.Prelude.{◌≡◌, ◌<◌, length, IsTrue, MatchResult, true, Ok, Err};
ghost use Rattle.cgm_lex.specs.Lexemes.{lexeme_of, lexeme_with, run_lexeme};
ghost use Rattle.cgm_lex.specs.Numbers.{begins_number as begins, number_of as number_in};

use crate::bytes::is_run_byte;
use crate::token::{Flaw, Kind};
use fast_float::parse_i64;

/// Whether a digit, or a minus sign and a digit, stands first.
fn begins_number(run: &[u8]) -> bool
    ensures { result ≡ begins run.now }
{
    match run {
        [] => false,
        [only] => only.is_ascii_digit(),
        [first, next, ..] => first.is_ascii_digit() || (*first == b'-' && next.is_ascii_digit()),
    }
}

/// The number that a run writes.
fn number_of(run: &[u8]) -> Option<i64>
    requires { begins run.now ≡ true }
    ensures { result ≡ number_in run.now }
{
    parse_i64(run).ok()
}

fn run_kind(run: &[u8]) -> Result<Kind, Flaw>
    ensures { MatchResult result (λ kind. run_lexeme run.now ≡ Ok (lexeme_with run.now kind))
        (λ flaw.
        run_lexeme run.now ≡ Err flaw) }
{
    if !begins_number(run) {
        return Ok(Kind::Word);
    }
    match number_of(run) {
        None => Err(Flaw::BadNumber),
        Some(number) => Ok(Kind::Number(number)),
    }
}

/// What a piece of a line is.
pub(crate) fn kind_of(piece: &[u8]) -> Result<Kind, Flaw>
    requires { 0 < length piece.now }
    ensures { MatchResult result (λ kind. lexeme_of piece.now
        ≡ Ok (lexeme_with piece.now kind)) (λ flaw. lexeme_of piece.now ≡ Err flaw) }
{
    match piece[0] {
        b'(' => Ok(Kind::Open),
        b')' => Ok(Kind::Close),
        b':' => Ok(Kind::Colon),
        byte => {
            if is_run_byte(byte) {
                run_kind(piece)
            } else {
                Err(Flaw::BadByte)
            }
        }
    }
}
