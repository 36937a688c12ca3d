//! Lines of a word or two and a number.
ghost use Rattle.std.specs.Prelude.{◌≡◌, ◌≢◌, ◌↔◌, ℕ, ℤ, Bool, List, [], ◌∷◌, ◌++◌, map, IsTrue, IfSome, IfNone, IfOk, IfErr, OnOk};
ghost use Rattle.cgm_base.specs.Printed.{truth_word};
ghost use Rattle.cgm_lex.specs.Lexemes.{number, word};
ghost use Rattle.cgm_print.specs.declared.words.Direction.{Direction};
ghost use Rattle.cgm_print.specs.Statements.{direction_word, must_tokens};
ghost use Rattle.cgm_text.specs.Trees.{IsFor, seen_all, word_in};

use crate::keyword::direction_of_word;
use crate::take::{bytes_in, take_exact, take_number, take_word};
use crate::written::{FormStop, Word};
use cgm_base::truth_of_word;
use cgm_lex::Token;
use cgm_print::words::Direction;
use sqlite_items::Items;
use std::alloc::Global;

/// Says whether no token is left.
pub(crate) fn is_end(tokens: &[Token]) -> bool
    ensures { (line : List ℕ) → IsTrue result ↔ (seen_all line tokens.now ≡ []) }
{
    match tokens.split_first() {
        None => true,
        Some(_) => false,
    }
}

/// A word and nothing else.
pub(crate) fn one_word(tokens: &[Token]) -> Option<Word>
    ensures found { IfSome result (λ w. (line : List ℕ) → seen_all line tokens.now ≡ word
        (word_in line w) ∷ []) }
    ensures none { IfNone result ((line w : List ℕ) → seen_all line tokens.now ≢ word w ∷ []) }
{
    match take_word(tokens) {
        None => None,
        Some((w, rest)) => { if is_end(rest) { Some(w) } else { None } }
    }
}

/// A number and nothing else.
fn one_number(tokens: &[Token]) -> Option<i64>
    ensures found { IfSome result (λ k. (line : List ℕ) → seen_all line tokens.now ≡ number k
        ∷ []) }
    ensures none { IfNone result ((line : List ℕ) (k : ℤ) → seen_all line tokens.now ≢ number k
        ∷ []) }
{
    match take_number(tokens) {
        None => None,
        Some((k, rest)) => { if is_end(rest) { Some(k) } else { None } }
    }
}

/// Two words and nothing else.
pub(crate) fn two_words(tokens: &[Token]) -> Option<(Word, Word)>
    ensures found { IfSome result (λ parts. (line : List ℕ) → seen_all line tokens.now ≡ word
        (word_in line parts.0) ∷ word (word_in line parts.1) ∷ []) }
    ensures none { IfNone result ((line one other : List ℕ) → seen_all line tokens.now ≢ word one
        ∷ word other ∷ []) }
{
    match take_word(tokens) {
        None => None,
        Some((one, rest)) => match one_word(rest) {
            None => None,
            Some(other) => Some((one, other)),
        },
    }
}

/// A word, a number and nothing else.
pub(crate) fn word_and_number(tokens: &[Token]) -> Option<(Word, i64)>
    ensures found { IfSome result (λ parts. (line : List ℕ) → seen_all line tokens.now ≡ word
        (word_in line parts.0) ∷ number parts.1 ∷ []) }
    ensures none { IfNone result ((line w : List ℕ) (k : ℤ) → seen_all line tokens.now ≢ word w
        ∷ number k ∷ []) }
{
    match take_word(tokens) {
        None => None,
        Some((w, rest)) => match one_number(rest) {
            None => None,
            Some(k) => Some((w, k)),
        },
    }
}

/// Two words, a number and nothing else.
pub(crate) fn two_words_and_number(tokens: &[Token]) -> Option<(Word, Word, i64)>
    ensures found { IfSome result (λ parts. (line : List ℕ) → seen_all line tokens.now ≡ word
        (word_in line parts.0) ∷ word (word_in line parts.1) ∷ number parts.2 ∷ []) }
    ensures none { IfNone result ((line one other : List ℕ) (k : ℤ) → seen_all line tokens.now
        ≢ word one ∷ word other ∷ number k ∷ []) }
{
    match take_word(tokens) {
        None => None,
        Some((one, rest)) => match word_and_number(rest) {
            None => None,
            Some((other, k)) => Some((one, other, k)),
        },
    }
}

/// A word, two numbers and nothing else.
pub(crate) fn word_and_two_numbers(tokens: &[Token]) -> Option<(Word, i64, i64)>
    ensures found { IfSome result (λ parts. (line : List ℕ) → seen_all line tokens.now ≡ word
        (word_in line parts.0) ∷ number parts.1 ∷ number parts.2 ∷ []) }
    ensures none { IfNone result ((line w : List ℕ) (j k : ℤ) → seen_all line tokens.now ≢ word w
        ∷ number j ∷ number k ∷ []) }
{
    match take_word(tokens) {
        None => None,
        Some((w, rest)) => match take_number(rest) {
            None => None,
            Some((j, rest)) => match one_number(rest) {
                None => None,
                Some(k) => Some((w, j, k)),
            },
        },
    }
}

/// Whether `must` is what is left, or nothing.
fn must_of(line: &[u8], tokens: &[Token]) -> Option<bool>
    ensures found { IfSome result (λ must. seen_all line.now tokens.now ≡ must_tokens must) }
    ensures none { IfNone result ((must : Bool) → seen_all line.now tokens.now ≢ must_tokens must) }
{
    if is_end(tokens) {
        return Some(false);
    }
    match take_exact(line, tokens, "must") {
        None => None,
        Some(rest) => { if is_end(rest) { Some(true) } else { None } }
    }
}

/// A word, and `must` or nothing.
pub(crate) fn word_and_must(line: &[u8], tokens: &[Token]) -> Option<(Word, bool)>
    ensures found { IfSome result (λ parts. seen_all line.now tokens.now ≡ word
        (word_in line.now parts.0) ∷ must_tokens parts.1) }
    ensures none { IfNone result ((w : List ℕ) (must : Bool) → seen_all line.now tokens.now ≢ word w
        ∷ must_tokens must) }
{
    match take_word(tokens) {
        None => None,
        Some((w, rest)) => match must_of(line, rest) {
            None => None,
            Some(must) => Some((w, must)),
        },
    }
}

/// A word, a truth value and nothing else.
pub(crate) fn word_and_truth(line: &[u8], tokens: &[Token]) -> Option<(Word, bool)>
    ensures found { IfSome result (λ parts. seen_all line.now tokens.now ≡ word
        (word_in line.now parts.0) ∷ word (truth_word parts.1) ∷ []) }
    ensures none { IfNone result ((w : List ℕ) (truth : Bool) → seen_all line.now tokens.now ≢ word
        w ∷ word (truth_word truth) ∷ []) }
{
    match two_words(tokens) {
        None => None,
        Some((w, last)) => match truth_of_word(bytes_in(line, last)) {
            None => None,
            Some(truth) => Some((w, truth)),
        },
    }
}

/// A direction, a word and nothing else.
pub(crate) fn direction_and_word(line: &[u8], tokens: &[Token]) -> Option<(Direction, Word)>
    ensures found { IfSome result (λ parts. seen_all line.now tokens.now ≡ word
        (direction_word parts.0) ∷ word (word_in line.now parts.1) ∷ []) }
    ensures none { IfNone result ((direction : Direction) (w : List ℕ) → seen_all line.now
        tokens.now ≢ word (direction_word direction) ∷ word w ∷ []) }
{
    match two_words(tokens) {
        None => None,
        Some((first, w)) => match direction_of_word(bytes_in(line, first)) {
            None => None,
            Some(direction) => Some((direction, w)),
        },
    }
}

fn push(words: &mut Items<Word>, word: Word) -> Result<(), FormStop>
    ensures pushed { OnOk result (words.new ≡ words.old ++ word ∷ []) }
    ensures memory { IfErr result (λ stop. stop ≡ FormStop.Memory) }
{
    match words.push(word) {
        Ok(()) => Ok(()),
        Err(_) => Err(FormStop::Memory),
    }
}

/// Words and nothing else.
pub(crate) fn all_words(alloc: Global, tokens: &[Token]) -> Result<Items<Word>, FormStop>
    ensures found { IfOk result (λ words. (line : List ℕ) → seen_all line tokens.now ≡ map word
        (map (word_in line) words)) }
    ensures form { IfErr result (IsFor ((line : List ℕ) (ws : List (List ℕ)) → seen_all line
        tokens.now ≢ map word ws)) }
{
    let mut words = Items::new(alloc);
    let mut rest = tokens;
    loop {
        match take_word(rest) {
            None => {
                if is_end(rest) {
                    return Ok(words);
                }
                return Err(FormStop::Form);
            }
            Some((w, after)) => {
                push(&mut words, w)?;
                rest = after;
            }
        }
    }
}
