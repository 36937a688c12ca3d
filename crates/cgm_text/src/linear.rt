//! The form of a linear expression.
ghost use Rattle.std.specs.Prelude.{◌≡◌, ◌≢◌, ◌<◌, List, ◌∷◌, codes, length, IfSome, IfNone, IfOk, IfErr, OnOk, [], ◌++◌};
ghost use Rattle.cgm_lex.specs.Lexemes.{Lexeme, opening, word};
ghost use Rattle.cgm_text.specs.Trees.{IsFor, linear_in, seen_all, term_in};
ghost use Rattle.cgm_text.specs.Parsed.{BeginsNoLinear, BeginsNoTerm};
ghost use Rattle.cgm_print.specs.Written.{spelled_linear, spelled_term};

use crate::take::{Mark, take, take_exact, take_number, take_word};
use crate::written::{FormStop, Linear, Term};
use cgm_lex::Token;
use sqlite_items::Items;
use std::alloc::Global;

/// The rest of a term that begins with a bracket.
fn scaled<'t>(line: &[u8], tokens: &'t [Token]) -> Option<(Term, &'t [Token])>
    ensures found { IfSome result (λ parts. opening ∷ seen_all line.now tokens.now ≡ spelled_term
        (term_in line.now parts.0) (seen_all line.now parts.1.now)) }
    ensures shorter { IfSome result (λ parts. length parts.1.now < length tokens.now) }
    ensures none { IfNone result (BeginsNoTerm (opening ∷ seen_all line.now tokens.now)) }
{
    match take_exact(line, tokens, "*") {
        None => None,
        Some(rest) => match take_number(rest) {
            None => None,
            Some((k, rest)) => match take_word(rest) {
                None => None,
                Some((name, rest)) => match take(rest, Mark::Close) {
                    None => None,
                    Some(rest) => Some((Term::Scaled(k, name), rest)),
                },
            },
        },
    }
}

/// The term that these tokens begin with.
fn term<'t>(line: &[u8], tokens: &'t [Token]) -> Option<(Term, &'t [Token])>
    ensures found { IfSome result (λ parts. seen_all line.now tokens.now ≡ spelled_term
        (term_in line.now parts.0) (seen_all line.now parts.1.now)) }
    ensures shorter { IfSome result (λ parts. length parts.1.now < length tokens.now) }
    ensures none { IfNone result (BeginsNoTerm (seen_all line.now tokens.now)) }
{
    match take_word(tokens) {
        Some((name, rest)) => Some((Term::Plain(name), rest)),
        None => match take(tokens, Mark::Open) {
            None => None,
            Some(rest) => scaled(line, rest),
        },
    }
}

/// Takes the bracket and the word of a total off.
fn take_plus<'t>(line: &[u8], tokens: &'t [Token]) -> Option<&'t [Token]>
    ensures found { IfSome result (λ rest. seen_all line.now tokens.now ≡ opening ∷ word (codes "+")
        ∷ seen_all line.now rest.now) }
    ensures shorter { IfSome result (λ rest. length rest.now < length tokens.now) }
    ensures none { IfNone result ((after : List Lexeme) → seen_all line.now tokens.now ≢ opening
        ∷ word (codes "+") ∷ after) }
{
    match take(tokens, Mark::Open) {
        None => None,
        Some(rest) => take_exact(line, rest, "+"),
    }
}

fn push(terms: &mut Items<Term>, term: Term) -> Result<(), FormStop>
    ensures pushed { OnOk result (terms.new ≡ terms.old ++ term ∷ []) }
    ensures memory { IfErr result (λ stop. stop ≡ FormStop.Memory) }
{
    match terms.push(term) {
        Ok(()) => Ok(()),
        Err(_) => Err(FormStop::Memory),
    }
}

/// The rest of a total.
fn total<'t>(
    alloc: Global,
    line: &[u8],
    tokens: &'t [Token],
) -> Result<(Linear, &'t [Token]), FormStop>
    ensures found { IfOk result (λ parts. opening ∷ word (codes "+") ∷ seen_all line.now tokens.now
        ≡ spelled_linear (linear_in line.now parts.0) (seen_all line.now parts.1.now)) }
    ensures shorter { IfOk result (λ parts. length parts.1.now < length tokens.now) }
    ensures form { IfErr result (IsFor (BeginsNoLinear
        (opening ∷ word (codes "+") ∷ seen_all line.now tokens.now))) }
{
    match term(line, tokens) {
        None => Err(FormStop::Form),
        Some((first, after)) => {
            let mut others = Items::new(alloc);
            let mut rest = after;
            loop {
                match take(rest, Mark::Close) {
                    Some(after) => return Ok((Linear::Total(first, others), after)),
                    None => {}
                }
                match term(line, rest) {
                    None => return Err(FormStop::Form),
                    Some((next, after)) => {
                        push(&mut others, next)?;
                        rest = after;
                    }
                }
            }
        }
    }
}

/// The linear expression that these tokens begin with.
pub(crate) fn linear<'t>(
    alloc: Global,
    line: &[u8],
    tokens: &'t [Token],
) -> Result<(Linear, &'t [Token]), FormStop>
    ensures found { IfOk result (λ parts. seen_all line.now tokens.now ≡ spelled_linear
        (linear_in line.now parts.0) (seen_all line.now parts.1.now)) }
    ensures shorter { IfOk result (λ parts. length parts.1.now < length tokens.now) }
    ensures form { IfErr result (IsFor (BeginsNoLinear (seen_all line.now tokens.now))) }
{
    match take_plus(line, tokens) {
        Some(rest) => total(alloc, line, rest),
        None => match term(line, tokens) {
            None => Err(FormStop::Form),
            Some((single, rest)) => Ok((Linear::Single(single), rest)),
        },
    }
}
