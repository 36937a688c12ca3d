//! Taking the first token off.
ghost use Rattle.std.specs.Prelude.{◌≡◌, ℕ, ℤ, List, MatchOption};
ghost use Rattle.cgm_lex.specs.Lexemes.{number, word};
ghost use Rattle.cgm_text.specs.Taken.{IsBehind, IsBehindInEach, IsNotFirst, mark_lexeme};
ghost use Rattle.cgm_text.specs.Trees.{word_in};

use crate::written::Word;
use cgm_base::is_word;
use cgm_lex::{Kind, Token};

/// A bracket or a colon.
#[derive(Clone, Copy)]
pub(crate) enum Mark {
    Open,
    Close,
    Colon,
}

/// Takes a word off.
pub(crate) fn take_word(tokens: &[Token]) -> Option<(Word, &[Token])>
    ensures { MatchOption result ((line w : List ℕ) → IsNotFirst line (word w) tokens.now)
        (λ parts. IsBehindInEach (λ line. word (word_in line parts.0)) tokens.now parts.1.now) }
{
    match tokens.split_first() {
        None => None,
        Some((token, rest)) => match token.kind {
            Kind::Word => Some((
                Word {
                    from: token.from,
                    to: token.to,
                },
                rest,
            )),
            _ => None,
        },
    }
}

/// Takes a number off.
pub(crate) fn take_number(tokens: &[Token]) -> Option<(i64, &[Token])>
    ensures { MatchOption result
        ((line : List ℕ) (k : ℤ) → IsNotFirst line (number k) tokens.now)
        (λ parts. IsBehindInEach (λ line. number parts.0) tokens.now parts.1.now) }
{
    match tokens.split_first() {
        None => None,
        Some((token, rest)) => match token.kind {
            Kind::Number(k) => Some((k, rest)),
            _ => None,
        },
    }
}

/// Takes this bracket or colon off.
pub(crate) fn take(tokens: &[Token], mark: Mark) -> Option<&[Token]>
    ensures { MatchOption result
        ((line : List ℕ) → IsNotFirst line (mark_lexeme mark) tokens.now)
        (λ rest. IsBehindInEach (λ line. mark_lexeme mark) tokens.now rest.now) }
{
    match tokens.split_first() {
        None => None,
        Some((token, rest)) => match mark {
            Mark::Open => match token.kind {
                Kind::Open => Some(rest),
                _ => None,
            },
            Mark::Close => match token.kind {
                Kind::Close => Some(rest),
                _ => None,
            },
            Mark::Colon => match token.kind {
                Kind::Colon => Some(rest),
                _ => None,
            },
        },
    }
}

/// The bytes of a word of this line.
pub(crate) fn bytes_in<'l>(line: &'l [u8], word: Word) -> &'l [u8]
    ensures { result.now ≡ word_in line.now word }
{
    let to = (word.to as usize).min(line.len());
    let from = (word.from as usize).min(to);
    &line[from..to]
}

/// Takes this word off.
pub(crate) fn take_exact<'t>(line: &[u8], tokens: &'t [Token], text: &str) -> Option<&'t [Token]>
    ensures { MatchOption result (IsNotFirst line.now (word text.now) tokens.now)
        (λ rest. IsBehind line.now (word text.now) tokens.now rest.now) }
{
    match take_word(tokens) {
        None => None,
        Some((w, rest)) => {
            if is_word(bytes_in(line, w), text) {
                Some(rest)
            } else {
                None
            }
        }
    }
}
