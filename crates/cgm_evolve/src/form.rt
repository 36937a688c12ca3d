//! The forms of a line of an earlier text.
ghost use Rattle.std.specs.Prelude.{◌≡◌, ◌≢◌, ◌↔◌, ℕ, ℤ, List, [], ◌∷◌, map, IsTrue, IfSome, IfNone};
ghost use Rattle.cgm_lex.specs.Lexemes.{Lexeme, number, token_seen, word};
ghost use Rattle.cgm_evolve.specs.Line.{SayPair, header_tokens};
ghost use Rattle.cgm_evolve.specs.Pairs.{Pair};

use cgm_base::{is_word, truth_of_word};
use cgm_lex::{Kind, Token, bytes_of, is_spelled};

/// Says whether no token is left.
pub(crate) fn is_end(tokens: &[Token]) -> bool
    ensures { (line : List ℕ) → IsTrue result ↔ (map (token_seen line) tokens.now ≡ []) }
{
    match tokens.split_first() {
        None => true,
        Some(_) => false,
    }
}

/// Takes a word off.
fn take_word<'l, 't>(line: &'l [u8], tokens: &'t [Token]) -> Option<(&'l [u8], &'t [Token])>
    ensures found { IfSome result (λ parts. map (token_seen line.now) tokens.now ≡ word parts.0.now
        ∷ map (token_seen line.now) parts.1.now) }
    ensures none { IfNone result ((w : List ℕ) (after : List Lexeme) → map (token_seen line.now)
        tokens.now ≢ word w ∷ after) }
{
    match tokens.split_first() {
        None => None,
        Some((token, rest)) => match token.kind {
            Kind::Word => Some((bytes_of(line, token), rest)),
            _ => None,
        },
    }
}

/// A word and nothing else.
fn one_word<'l>(line: &'l [u8], tokens: &[Token]) -> Option<&'l [u8]>
    ensures found { IfSome result (λ w. map (token_seen line.now) tokens.now ≡ word w.now ∷ []) }
    ensures none { IfNone result ((w : List ℕ) → map (token_seen line.now) tokens.now ≢ word w
        ∷ []) }
{
    match take_word(line, tokens) {
        None => None,
        Some((w, rest)) => { if is_end(rest) { Some(w) } else { None } }
    }
}

/// Two words and nothing else.
fn two_words<'l>(line: &'l [u8], tokens: &[Token]) -> Option<(&'l [u8], &'l [u8])>
    ensures found { IfSome result (λ parts. map (token_seen line.now) tokens.now ≡ word parts.0.now
        ∷ word parts.1.now ∷ []) }
    ensures none { IfNone result ((one other : List ℕ) → map (token_seen line.now) tokens.now ≢ word
        one ∷ word other ∷ []) }
{
    match take_word(line, tokens) {
        None => None,
        Some((one, rest)) => match one_word(line, rest) {
            None => None,
            Some(other) => Some((one, other)),
        },
    }
}

/// A number and nothing else.
fn one_number(tokens: &[Token]) -> Option<i64>
    ensures found { IfSome result (λ k. (line : List ℕ) → map (token_seen line) tokens.now ≡ number
        k ∷ []) }
    ensures none { IfNone result ((line : List ℕ) (k : ℤ) → map (token_seen line) tokens.now
        ≢ number k ∷ []) }
{
    match tokens.split_first() {
        None => None,
        Some((token, rest)) => match token.kind {
            Kind::Number(k) => { if is_end(rest) { Some(k) } else { None } }
            _ => None,
        },
    }
}

/// Says whether these are the tokens of the header.
pub(crate) fn is_header(line: &[u8], tokens: &[Token]) -> bool
    ensures { IsTrue result ↔ (map (token_seen line.now) tokens.now ≡ header_tokens) }
{
    match take_word(line, tokens) {
        None => false,
        Some((w, rest)) => match one_number(rest) {
            None => false,
            Some(version) => version == 1 && is_word(w, "earlier"),
        },
    }
}

/// The name and the truth that tokens say.
pub(crate) fn pair_of<'l>(line: &'l [u8], tokens: &[Token]) -> Option<(&'l [u8], bool)>
    ensures found { IfSome result (λ p. SayPair (map (token_seen line.now) tokens.now)
        (p.0.now, p.1)) }
    ensures none { IfNone result ((p : Pair) → ¬ SayPair (map (token_seen line.now) tokens.now) p) }
{
    match two_words(line, tokens) {
        None => None,
        Some((name, w)) => {
            if !is_spelled(name) {
                return None;
            }
            match truth_of_word(w) {
                None => None,
                Some(truth) => Some((name, truth)),
            }
        }
    }
}
