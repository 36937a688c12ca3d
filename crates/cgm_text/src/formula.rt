//! The form of a formula.
ghost use Rattle.std.specs.Prelude.{◌≡◌, ◌≢◌, ◌<◌, ℕ, ℤ, List, [], ◌∷◌, ◌++◌, codes, length, map, IfSome, IfNone, IfOk, IfErr, MatchOption, OnOk};
ghost use Rattle.cgm_lex.specs.Lexemes.{Lexeme, closing, number, opening, word};
ghost use Rattle.cgm_text.specs.declared.written.Connective.{Connective};
ghost use Rattle.cgm_text.specs.Taken.{IsBehind, IsNotFirst};
ghost use Rattle.cgm_text.specs.Trees.{IsFor, formula_in, seen_all};
ghost use Rattle.cgm_text.specs.Parsed.{BeginsNoFormula, BeginsNoParts, connective_word};
ghost use Rattle.cgm_print.specs.Written.{comparison_word, joined, joint_word, negation, paired, pairing_word, spelled, spelled_each, formulas_of};

use crate::keyword::connective_of;
use crate::linear::linear;
use crate::take::{Mark, bytes_in, take, take_number, take_word};
use crate::written::{Connective, FormStop, Linear, Tree};
use cgm_lex::Token;
use cgm_print::words::{Comparison, Joint, Pairing};
use sqlite_items::{Boxed, Items};
use std::alloc::Global;

/// Takes the word of a connective off.
fn take_connective<'t>(line: &[u8], tokens: &'t [Token]) -> Option<(Connective, &'t [Token])>
    ensures { MatchOption result
        ((c : Connective) → IsNotFirst line.now (word (connective_word c)) tokens.now)
        (λ parts. IsBehind line.now (word (connective_word parts.0)) tokens.now parts.1.now) }
{
    match take_word(tokens) {
        None => None,
        Some((name, rest)) => match connective_of(bytes_in(line, name)) {
            None => None,
            Some(connective) => Some((connective, rest)),
        },
    }
}

/// Gives the memory of a formula back.
pub(crate) fn discard(_tree: Tree) {}

/// Gives the memory of formulas back.
fn discard_each(_trees: Items<Tree>) {}

fn boxed(alloc: Global, part: Tree) -> Result<Boxed<Tree>, FormStop>
    ensures same { IfOk result (λ tree. tree ≡ part) }
    ensures memory { IfErr result (λ stop. stop ≡ FormStop.Memory) }
{
    match Boxed::new(alloc, part) {
        Ok(part) => Ok(part),
        Err(_) => Err(FormStop::Memory),
    }
}

fn push(parts: &mut Items<Tree>, part: Tree) -> Result<(), FormStop>
    ensures pushed { OnOk result (parts.new ≡ parts.old ++ part ∷ []) }
    ensures memory { IfErr result (λ stop. stop ≡ FormStop.Memory) }
{
    match parts.push(part) {
        Ok(()) => Ok(()),
        Err(_) => Err(FormStop::Memory),
    }
}

fn negated(alloc: Global, part: Tree) -> Result<Tree, FormStop>
    ensures tree { IfOk result (λ tree. (line : List ℕ) → formula_in line tree ≡ negation
        (formula_in line part)) }
    ensures memory { IfErr result (λ stop. stop ≡ FormStop.Memory) }
{
    Ok(Tree::Not(boxed(alloc, part)?))
}

fn join(alloc: Global, joint: Joint, first: Tree, others: Items<Tree>) -> Result<Tree, FormStop>
    ensures tree { IfOk result (λ tree. (line : List ℕ) → formula_in line tree ≡ joined joint
        (formula_in line first) (formulas_of (map (formula_in line) others))) }
    ensures memory { IfErr result (λ stop. stop ≡ FormStop.Memory) }
{
    match boxed(alloc, first) {
        Ok(first) => Ok(Tree::Join(joint, first, others)),
        Err(stop) => {
            discard_each(others);
            Err(stop)
        }
    }
}

fn pair(alloc: Global, pairing: Pairing, one: Tree, other: Tree) -> Result<Tree, FormStop>
    ensures tree { IfOk result (λ tree. (line : List ℕ) → formula_in line tree ≡ paired pairing
        (formula_in line one) (formula_in line other)) }
    ensures memory { IfErr result (λ stop. stop ≡ FormStop.Memory) }
{
    match boxed(alloc, one) {
        Ok(one) => Ok(Tree::Pair(pairing, one, boxed(alloc, other)?)),
        Err(stop) => {
            discard(other);
            Err(stop)
        }
    }
}

/// Takes a number and the closing bracket after it off.
fn take_bound(tokens: &[Token]) -> Option<(i64, &[Token])>
    ensures found { IfSome result (λ parts. (line : List ℕ) → seen_all line tokens.now ≡ number
        parts.0 ∷ closing ∷ seen_all line parts.1.now) }
    ensures shorter { IfSome result (λ parts. length parts.1.now < length tokens.now) }
    ensures none { IfNone result ((line : List ℕ) (k : ℤ) (after : List Lexeme) → seen_all line
        tokens.now ≢ number k ∷ closing ∷ after) }
{
    match take_number(tokens) {
        None => None,
        Some((k, rest)) => match take(rest, Mark::Close) {
            None => None,
            Some(rest) => Some((k, rest)),
        },
    }
}

/// Gives the memory of a linear expression back.
fn discard_linear(_linear: Linear) {}

/// The rest of a comparison.
fn compared<'t>(
    alloc: Global,
    line: &[u8],
    comparison: Comparison,
    tokens: &'t [Token],
) -> Result<(Tree, &'t [Token]), FormStop>
    ensures found { IfOk result (λ parts. opening ∷ word (comparison_word comparison) ∷ seen_all
        line.now tokens.now ≡ spelled (formula_in line.now parts.0)
        (seen_all line.now parts.1.now)) }
    ensures shorter { IfOk result (λ parts. length parts.1.now < length tokens.now) }
    ensures form { IfErr result (IsFor (BeginsNoFormula
        (opening ∷ word (comparison_word comparison) ∷ seen_all line.now tokens.now))) }
{
    match linear(alloc, line, tokens) {
        Err(stop) => Err(stop),
        Ok((left, rest)) => match take_bound(rest) {
            Some((k, rest)) => Ok((Tree::Compare(comparison, left, k), rest)),
            None => {
                discard_linear(left);
                Err(FormStop::Form)
            }
        },
    }
}

/// The rest of a negation.
#[cycle(formula)]
fn negation<'t>(
    alloc: Global,
    line: &[u8],
    tokens: &'t [Token],
) -> Result<(Tree, &'t [Token]), FormStop>
    ensures found { IfOk result (λ parts. opening ∷ word (codes "not") ∷ seen_all line.now
        tokens.now ≡ spelled (formula_in line.now parts.0) (seen_all line.now parts.1.now)) }
    ensures shorter { IfOk result (λ parts. length parts.1.now < length tokens.now) }
    ensures form { IfErr result (IsFor (BeginsNoFormula
        (opening ∷ word (codes "not") ∷ seen_all line.now tokens.now))) }
{
    match formula(alloc, line, tokens) {
        Err(stop) => Err(stop),
        Ok((part, rest)) => match take(rest, Mark::Close) {
            None => {
                discard(part);
                Err(FormStop::Form)
            }
            Some(rest) => match negated(alloc, part) {
                Ok(tree) => Ok((tree, rest)),
                Err(stop) => Err(stop),
            },
        },
    }
}

/// The rest of a conjunction or a disjunction.
#[cycle(formula)]
fn joined<'t>(
    alloc: Global,
    line: &[u8],
    joint: Joint,
    tokens: &'t [Token],
) -> Result<(Tree, &'t [Token]), FormStop>
    ensures found { IfOk result (λ parts. opening ∷ word (joint_word joint) ∷ seen_all line.now
        tokens.now ≡ spelled (formula_in line.now parts.0) (seen_all line.now parts.1.now)) }
    ensures shorter { IfOk result (λ parts. length parts.1.now < length tokens.now) }
    ensures form { IfErr result (IsFor (BeginsNoFormula
        (opening ∷ word (joint_word joint) ∷ seen_all line.now tokens.now))) }
{
    match formula(alloc, line, tokens) {
        Err(stop) => Err(stop),
        Ok((first, after)) => {
            let mut others = Items::new(alloc);
            match push_parts(alloc, line, &mut others, after) {
                Ok(rest) => match join(alloc, joint, first, others) {
                    Ok(tree) => Ok((tree, rest)),
                    Err(stop) => Err(stop),
                },
                Err(stop) => {
                    discard(first);
                    discard_each(others);
                    Err(stop)
                }
            }
        }
    }
}

/// Adds the formulas up to the closing bracket, and gives the tokens after it.
#[cycle(formula)]
fn push_parts<'t>(
    alloc: Global,
    line: &[u8],
    parts: &mut Items<Tree>,
    tokens: &'t [Token],
) -> Result<&'t [Token], FormStop>
    requires empty { parts.old ≡ [] }
    ensures found { IfOk result (λ rest. seen_all line.now tokens.now
        ≡ spelled_each (formulas_of (map (formula_in line.now) parts.new))
        (closing ∷ seen_all line.now rest.now)) }
    ensures shorter { IfOk result (λ rest. length rest.now < length tokens.now) }
    ensures form { IfErr result (IsFor (BeginsNoParts (seen_all line.now tokens.now))) }
{
    let mut rest = tokens;
    loop {
        match take(rest, Mark::Close) {
            Some(after) => return Ok(after),
            None => {}
        }
        match formula(alloc, line, rest) {
            Err(stop) => return Err(stop),
            Ok((next, after)) => {
                match push(parts, next) {
                    Ok(()) => {}
                    Err(stop) => return Err(stop),
                }
                rest = after;
            }
        }
    }
}

/// The rest of an implication or an equivalence.
#[cycle(formula)]
fn paired<'t>(
    alloc: Global,
    line: &[u8],
    pairing: Pairing,
    tokens: &'t [Token],
) -> Result<(Tree, &'t [Token]), FormStop>
    ensures found { IfOk result (λ parts. opening ∷ word (pairing_word pairing) ∷ seen_all line.now
        tokens.now ≡ spelled (formula_in line.now parts.0) (seen_all line.now parts.1.now)) }
    ensures shorter { IfOk result (λ parts. length parts.1.now < length tokens.now) }
    ensures form { IfErr result (IsFor (BeginsNoFormula
        (opening ∷ word (pairing_word pairing) ∷ seen_all line.now tokens.now))) }
{
    match formula(alloc, line, tokens) {
        Err(stop) => Err(stop),
        Ok((one, rest)) => match formula(alloc, line, rest) {
            Err(stop) => {
                discard(one);
                Err(stop)
            }
            Ok((other, rest)) => match take(rest, Mark::Close) {
                None => {
                    discard(one);
                    discard(other);
                    Err(FormStop::Form)
                }
                Some(rest) => match pair(alloc, pairing, one, other) {
                    Ok(tree) => Ok((tree, rest)),
                    Err(stop) => Err(stop),
                },
            },
        },
    }
}

/// The rest of a formula that begins with a bracket.
#[cycle(formula)]
fn bracketed<'t>(
    alloc: Global,
    line: &[u8],
    tokens: &'t [Token],
) -> Result<(Tree, &'t [Token]), FormStop>
    ensures found { IfOk result (λ parts. opening ∷ seen_all line.now tokens.now ≡ spelled
        (formula_in line.now parts.0) (seen_all line.now parts.1.now)) }
    ensures shorter { IfOk result (λ parts. length parts.1.now < length tokens.now) }
    ensures form { IfErr result (IsFor (BeginsNoFormula (opening ∷ seen_all line.now tokens.now))) }
{
    match take_connective(line, tokens) {
        None => Err(FormStop::Form),
        Some((connective, rest)) => match connective {
            Connective::Not => negation(alloc, line, rest),
            Connective::Join(joint) => joined(alloc, line, joint, rest),
            Connective::Pair(pairing) => paired(alloc, line, pairing, rest),
            Connective::Compare(comparison) => compared(alloc, line, comparison, rest),
        },
    }
}

/// The formula that these tokens begin with, and the tokens after it.
#[cycle(formula)]
pub(crate) fn formula<'t>(
    alloc: Global,
    line: &[u8],
    tokens: &'t [Token],
) -> Result<(Tree, &'t [Token]), FormStop>
    ensures found { IfOk result (λ parts. seen_all line.now tokens.now ≡ spelled
        (formula_in line.now parts.0) (seen_all line.now parts.1.now)) }
    ensures shorter { IfOk result (λ parts. length parts.1.now < length tokens.now) }
    ensures form { IfErr result (IsFor (BeginsNoFormula (seen_all line.now tokens.now))) }
{
    match take_word(tokens) {
        Some((name, rest)) => Ok((Tree::Name(name), rest)),
        None => match take(tokens, Mark::Open) {
            None => Err(FormStop::Form),
            Some(rest) => bracketed(alloc, line, rest),
        },
    }
}
