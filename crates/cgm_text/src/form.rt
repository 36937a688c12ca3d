//! The form of each statement after its word.
ghost use Rattle.std.specs.Prelude.{◌≡◌, ◌≢◌, [], IfOk, IfErr};
ghost use Rattle.cgm_text.specs.Trees.{IsFor, formula_in, seen_all};
ghost use Rattle.cgm_text.specs.Parsed.{IsBody, IsNoBody};
ghost use Rattle.cgm_print.specs.Written.{WrittenFormula, spelled};

use crate::formula::{discard, formula};
use crate::shape::{
    all_words, direction_and_word, is_end, one_word, two_words, two_words_and_number,
    word_and_must, word_and_number, word_and_truth, word_and_two_numbers,
};
use crate::take::{Mark, take, take_word};
use crate::written::{FormStop, Tree, Written};
use cgm_lex::Token;
use cgm_print::words::{ConditionWord, NameWord, PairWord, Sort, WeightWord};
use std::alloc::Global;

fn goal(line: &[u8], tokens: &[Token]) -> Result<Written, FormStop>
    ensures found { IfOk result (IsBody line.now (seen_all line.now tokens.now) Sort.Goal) }
    ensures form { IfErr result (IsFor (IsNoBody (seen_all line.now tokens.now) Sort.Goal)) }
{
    match word_and_must(line, tokens) {
        None => Err(FormStop::Form),
        Some((name, must)) => Ok(Written::Goal { name, must }),
    }
}

fn named(line: &[u8], what: NameWord, tokens: &[Token]) -> Result<Written, FormStop>
    ensures found { IfOk result (IsBody line.now (seen_all line.now tokens.now) (Sort.Name what)) }
    ensures form { IfErr result (IsFor (IsNoBody (seen_all line.now tokens.now) (Sort.Name what))) }
{
    match one_word(tokens) {
        None => Err(FormStop::Form),
        Some(name) => Ok(Written::Name { what, name }),
    }
}

fn refinement(alloc: Global, line: &[u8], tokens: &[Token]) -> Result<Written, FormStop>
    ensures found { IfOk result (IsBody line.now (seen_all line.now tokens.now) Sort.Refine) }
    ensures form { IfErr result (IsFor (IsNoBody (seen_all line.now tokens.now) Sort.Refine)) }
{
    match take_word(tokens) {
        None => Err(FormStop::Form),
        Some((name, rest)) => match take_word(rest) {
            None => Err(FormStop::Form),
            Some((target, rest)) => match take(rest, Mark::Colon) {
                None => Err(FormStop::Form),
                Some(rest) => match take_word(rest) {
                    None => Err(FormStop::Form),
                    Some((first, rest)) => {
                        match all_words(alloc, rest) {
                            Err(stop) => Err(stop),
                            Ok(others) => Ok(Written::Refine {
                                name,
                                target,
                                first,
                                others,
                            }),
                        }
                    }
                },
            },
        },
    }
}

fn pair(line: &[u8], what: PairWord, tokens: &[Token]) -> Result<Written, FormStop>
    ensures found { IfOk result (IsBody line.now (seen_all line.now tokens.now) (Sort.Pair what)) }
    ensures form { IfErr result (IsFor (IsNoBody (seen_all line.now tokens.now) (Sort.Pair what))) }
{
    match two_words(tokens) {
        None => Err(FormStop::Form),
        Some((one, other)) => Ok(Written::Pair { what, one, other }),
    }
}

fn assertion(line: &[u8], tokens: &[Token]) -> Result<Written, FormStop>
    ensures found { IfOk result (IsBody line.now (seen_all line.now tokens.now) Sort.Assert) }
    ensures form { IfErr result (IsFor (IsNoBody (seen_all line.now tokens.now) Sort.Assert)) }
{
    match word_and_truth(line, tokens) {
        None => Err(FormStop::Form),
        Some((name, truth)) => Ok(Written::Assert { name, truth }),
    }
}

fn variable(line: &[u8], tokens: &[Token]) -> Result<Written, FormStop>
    ensures found { IfOk result (IsBody line.now (seen_all line.now tokens.now) Sort.Var) }
    ensures form { IfErr result (IsFor (IsNoBody (seen_all line.now tokens.now) Sort.Var)) }
{
    match word_and_two_numbers(tokens) {
        None => Err(FormStop::Form),
        Some((name, lo, hi)) => Ok(Written::Var { name, lo, hi }),
    }
}

fn value(line: &[u8], tokens: &[Token]) -> Result<Written, FormStop>
    ensures found { IfOk result (IsBody line.now (seen_all line.now tokens.now) Sort.Value) }
    ensures form { IfErr result (IsFor (IsNoBody (seen_all line.now tokens.now) Sort.Value)) }
{
    match two_words_and_number(tokens) {
        None => Err(FormStop::Form),
        Some((sum, of, k)) => Ok(Written::Value { sum, of, k }),
    }
}

fn weight(line: &[u8], what: WeightWord, tokens: &[Token]) -> Result<Written, FormStop>
    ensures found { IfOk result (IsBody line.now (seen_all line.now tokens.now)
        (Sort.Weight what)) }
    ensures form { IfErr result (IsFor (IsNoBody (seen_all line.now tokens.now)
        (Sort.Weight what))) }
{
    match word_and_number(tokens) {
        None => Err(FormStop::Form),
        Some((name, k)) => Ok(Written::Weight { what, name, k }),
    }
}

/// A formula and nothing else.
fn whole_formula(alloc: Global, line: &[u8], tokens: &[Token]) -> Result<Tree, FormStop>
    ensures found { IfOk result (λ tree. seen_all line.now tokens.now ≡ spelled
        (formula_in line.now tree) []) }
    ensures form { IfErr result (IsFor ((f : WrittenFormula) → seen_all line.now tokens.now
        ≢ spelled f [])) }
{
    match formula(alloc, line, tokens) {
        Err(stop) => Err(stop),
        Ok((tree, rest)) => {
            if is_end(rest) {
                Ok(tree)
            } else {
                discard(tree);
                Err(FormStop::Form)
            }
        }
    }
}

fn condition(
    alloc: Global,
    line: &[u8],
    what: ConditionWord,
    tokens: &[Token],
) -> Result<Written, FormStop>
    ensures found { IfOk result (IsBody line.now (seen_all line.now tokens.now)
        (Sort.Condition what)) }
    ensures form { IfErr result (IsFor (IsNoBody (seen_all line.now tokens.now)
        (Sort.Condition what))) }
{
    match take_word(tokens) {
        None => Err(FormStop::Form),
        Some((name, rest)) => match whole_formula(alloc, line, rest) {
            Err(stop) => Err(stop),
            Ok(formula) => Ok(Written::Condition {
                what,
                name,
                formula,
            }),
        },
    }
}

fn requirement(alloc: Global, line: &[u8], tokens: &[Token]) -> Result<Written, FormStop>
    ensures found { IfOk result (IsBody line.now (seen_all line.now tokens.now) Sort.Require) }
    ensures form { IfErr result (IsFor (IsNoBody (seen_all line.now tokens.now) Sort.Require)) }
{
    match whole_formula(alloc, line, tokens) {
        Err(stop) => Err(stop),
        Ok(formula) => Ok(Written::Require { formula }),
    }
}

fn objective(line: &[u8], tokens: &[Token]) -> Result<Written, FormStop>
    ensures found { IfOk result (IsBody line.now (seen_all line.now tokens.now) Sort.Objective) }
    ensures form { IfErr result (IsFor (IsNoBody (seen_all line.now tokens.now) Sort.Objective)) }
{
    match direction_and_word(line, tokens) {
        None => Err(FormStop::Form),
        Some((direction, quantity)) => Ok(Written::Objective {
            direction,
            quantity,
        }),
    }
}

/// The statement of this sort that has these tokens after its word.
pub(crate) fn statement_of_sort(
    alloc: Global,
    line: &[u8],
    sort: Sort,
    tokens: &[Token],
) -> Result<Written, FormStop>
    ensures found { IfOk result (IsBody line.now (seen_all line.now tokens.now) sort) }
    ensures form { IfErr result (IsFor (IsNoBody (seen_all line.now tokens.now) sort)) }
{
    match sort {
        Sort::Goal => goal(line, tokens),
        Sort::Name(what) => named(line, what, tokens),
        Sort::Refine => refinement(alloc, line, tokens),
        Sort::Pair(what) => pair(line, what, tokens),
        Sort::Assert => assertion(line, tokens),
        Sort::Var => variable(line, tokens),
        Sort::Value => value(line, tokens),
        Sort::Weight(what) => weight(line, what, tokens),
        Sort::Condition(what) => condition(alloc, line, what, tokens),
        Sort::Require => requirement(alloc, line, tokens),
        Sort::Objective => objective(line, tokens),
    }
}
