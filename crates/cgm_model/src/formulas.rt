//! What stands in a formula.
ghost use Rattle.std.specs.Prelude.{◌≡◌, ◌+◌, ◌<◌, nat_le, length, map, sum, unsigned_abs, IfSome, MatchOption};
ghost use Rattle.std.specs.List.{list_all, list_any};
ghost use Rattle.cgm_base.specs.declared.limit.Which.TheVariants as limits;
ghost use Rattle.cgm_base.specs.Words.{limit_number};
ghost use Rattle.cgm_formula.specs.Nodes.{node_count};
ghost use Rattle.cgm_model.specs.Formulas.{formula_of, every_linear, are_distinct_terms, is_same_number};
ghost use Rattle.cgm_model.specs.Checks.{passes};
ghost use Rattle.cgm_model.specs.Met.{Meets};

use crate::limits;
use crate::lists::Rule;
use cgm_formula::{Formula, Linear, Number};
use indexmap::IndexSet;
use std::alloc::Global;

/// The variables and sums that were met.
#[derive(Drop)]
struct Met {
    vars: IndexSet<u32>,
    sums: IndexSet<u32>,
}

/// A test on a linear expression.
#[derive(Clone, Copy)]
pub(crate) enum LinearTest {
    /// No coefficient passes its limit.
    Small,
    /// No variable or sum stands twice.
    Distinct,
}

pub(crate) fn formula_of(rule: &Rule) -> &Formula
    ensures { result.now ≡ formula_of rule.now }
{
    match rule {
        Rule::Positive(_, formula) => formula,
        Rule::Negative(_, formula) => formula,
        Rule::Require(formula) => formula,
    }
}

/// Says whether each linear expression of the formula passes the test.
#[cycle(every)]
pub(crate) fn every_linear(alloc: Global, test: LinearTest, formula: &Formula) -> bool
    ensures { result ≡ every_linear (passes test) formula.now }
{
    match formula {
        Formula::Name(_) => true,
        Formula::Not(part) => every_linear(alloc, test, part.get()),
        Formula::And(parts) => every_linear_each(alloc, test, parts.as_slice()),
        Formula::Or(parts) => every_linear_each(alloc, test, parts.as_slice()),
        Formula::Implies(premise, conclusion) => {
            every_linear(alloc, test, premise.get()) && every_linear(alloc, test, conclusion.get())
        }
        Formula::Iff(one, other) => {
            every_linear(alloc, test, one.get()) && every_linear(alloc, test, other.get())
        }
        Formula::AtMost(linear, _) => passes(alloc, test, linear),
        Formula::AtLeast(linear, _) => passes(alloc, test, linear),
        Formula::Equal(linear, _) => passes(alloc, test, linear),
    }
}

#[cycle(every)]
fn every_linear_each(alloc: Global, test: LinearTest, parts: &[Formula]) -> bool
    ensures { result ≡ list_all (every_linear (passes test)) parts.now }
{
    for part in parts {
        if !every_linear(alloc, test, part) {
            return false;
        }
    }
    true
}

fn passes(alloc: Global, test: LinearTest, linear: &Linear) -> bool
    ensures { result ≡ passes test linear.now }
{
    match test {
        LinearTest::Small => has_small_terms(linear.terms.as_slice()),
        LinearTest::Distinct => are_distinct_terms(alloc, linear.terms.as_slice()),
    }
}

fn has_small_terms(terms: &[(i64, Number)]) -> bool
    ensures { result ≡ list_all (λ t. nat_le (unsigned_abs t.0) (limit_number limits.Coefficient))
        terms.now }
{
    for term in terms {
        if term.0.unsigned_abs() > limits::COEFFICIENT {
            return false;
        }
    }
    true
}

/// Says whether no variable or sum stands twice, by a set of those met; where there is no memory
/// for it, each term is compared with those before it.
fn are_distinct_terms(alloc: Global, terms: &[(i64, Number)]) -> bool
    ensures { result ≡ are_distinct_terms terms.now }
{
    match are_distinct_by_set(alloc, terms) {
        None => are_distinct_by_pairs(terms),
        Some(answer) => answer,
    }
}

fn are_distinct_by_set(alloc: Global, terms: &[(i64, Number)]) -> Option<bool>
    ensures { IfSome result (λ answer. answer ≡ are_distinct_terms terms.now) }
{
    let mut met = Met {
        vars: IndexSet::new(alloc),
        sums: IndexSet::new(alloc),
    };
    for term in terms {
        match meet(&mut met, term.1) {
            None => return None,
            Some(is_new) => {
                if !is_new {
                    return Some(false);
                }
            }
        }
    }
    Some(true)
}

/// Takes the number in, and says whether it is new; none for want of memory.
fn meet(met: &mut Met, number: Number) -> Option<bool>
    ensures { IfSome result (Meets met.old met.new number) }
{
    match number {
        Number::Var(k) => met.vars.insert(k).ok(),
        Number::Sum(k) => met.sums.insert(k).ok(),
    }
}

fn are_distinct_by_pairs(terms: &[(i64, Number)]) -> bool
    ensures { result ≡ are_distinct_terms terms.now }
{
    for (place, term) in terms.iter().enumerate() {
        if stands_among(&terms[..place], term.1) {
            return false;
        }
    }
    true
}

fn stands_among(terms: &[(i64, Number)], number: Number) -> bool
    ensures { result ≡ list_any (λ u. is_same_number u.1 number) terms.now }
{
    for term in terms {
        if is_same_number(term.1, number) {
            return true;
        }
    }
    false
}

fn is_same_number(one: Number, other: Number) -> bool
    ensures { result ≡ is_same_number one other }
{
    match one {
        Number::Var(j) => match other {
            Number::Var(k) => j == k,
            Number::Sum(_) => false,
        },
        Number::Sum(j) => match other {
            Number::Var(_) => false,
            Number::Sum(k) => j == k,
        },
    }
}

/// What is left of the room for nodes after the formula's; none where it has more nodes than room.
#[cycle(nodes)]
pub(crate) fn room_after(formula: &Formula, room: usize) -> Option<usize>
    ensures { MatchOption result (room < node_count formula.now)
        (λ left. left + node_count formula.now ≡ room) }
{
    let room = room.checked_sub(1)?;
    match formula {
        Formula::Name(_) => Some(room),
        Formula::Not(part) => room_after(part.get(), room),
        Formula::And(parts) => room_after_each(parts.as_slice(), room),
        Formula::Or(parts) => room_after_each(parts.as_slice(), room),
        Formula::Implies(premise, conclusion) => {
            let room = room_after(premise.get(), room)?;
            room_after(conclusion.get(), room)
        }
        Formula::Iff(one, other) => {
            let room = room_after(one.get(), room)?;
            room_after(other.get(), room)
        }
        Formula::AtMost(linear, _) => room_after_terms(linear, room),
        Formula::AtLeast(linear, _) => room_after_terms(linear, room),
        Formula::Equal(linear, _) => room_after_terms(linear, room),
    }
}

#[cycle(nodes)]
fn room_after_each(parts: &[Formula], room: usize) -> Option<usize>
    ensures { MatchOption result (room < sum (map node_count parts.now))
        (λ left. left + sum (map node_count parts.now) ≡ room) }
{
    let mut left = room;
    for part in parts {
        match room_after(part, left) {
            None => return None,
            Some(rest) => left = rest,
        }
    }
    Some(left)
}

fn room_after_terms(linear: &Linear, room: usize) -> Option<usize>
    ensures { MatchOption result (room < length linear.now.terms)
        (λ left. left + length linear.now.terms ≡ room) }
{
    room.checked_sub(linear.terms.as_slice().len())
}
