//! The values of naming variables.
ghost use Rattle.std.specs.Prelude.{◌≡◌, ◌&&◌, ◌||◌, not, ◌++◌, ◌∷◌, [], map, int_le, All, IfOk, OnOk};
ghost use Rattle.std.specs.List.{list_all, list_any};
ghost use Rattle.cgm_atom.specs.Literals.{bit as bit_of};
ghost use Rattle.cgm_formula.specs.Reading.{name_in, number_in};
ghost use Rattle.cgm_formula.specs.Sizes.{AreSmallIn, IsSmall};
ghost use Rattle.cgm_formula.specs.Truth.{linear_value, same_truth};
ghost use Rattle.cgm_model.specs.Formulas.{formula_of as formula_of_rule};
ghost use Rattle.cgm_enc_formula.specs.NamingValues.{all_truths, rule_truths, told};

use cgm_base::OutOfMemory;
use cgm_formula::{Assignment, Formula, Linear, is_true, value};
use cgm_model::Rule;
use std::alloc::Global;

/// Adds the values of the naming variables of rules: 1 for each node of a formula that holds, 0 for
/// each that doesn't, parts before the whole, from the left.
pub fn push_rules(
    alloc: Global,
    out: &mut Vec<i64>,
    assignment: &Assignment,
    sums: &[i64],
    rules: &[Rule],
) -> Result<(), OutOfMemory>
    requires { All (λ r. AreSmallIn (number_in assignment.now sums.now) (formula_of_rule r))
        rules.now }
    ensures { OnOk result (out.new.items ≡ out.old.items ++ map bit_of
        (rule_truths (name_in assignment.now) (number_in assignment.now sums.now) rules.now)) }
{
    for rule in rules {
        push_formula(alloc, out, assignment, sums, formula_of(rule))?;
    }
    Ok(())
}

/// The formula of a rule.
pub(crate) fn formula_of(rule: &Rule) -> &Formula
    ensures { result.now ≡ formula_of_rule rule.now }
{
    match rule {
        Rule::Positive(_, formula) => formula,
        Rule::Negative(_, formula) => formula,
        Rule::Require(formula) => formula,
    }
}

/// Adds the values of the naming variables of a formula, and answers whether it holds.
#[cycle(telling)]
fn push_formula(
    alloc: Global,
    out: &mut Vec<i64>,
    assignment: &Assignment,
    sums: &[i64],
    formula: &Formula,
) -> Result<bool, OutOfMemory>
    requires { AreSmallIn (number_in assignment.now sums.now) formula.now }
    ensures says { IfOk result (λ t. t ≡ (told (name_in assignment.now)
        (number_in assignment.now sums.now) formula.now).says) }
    ensures added { OnOk result (out.new.items ≡ out.old.items ++ map bit_of
        (told (name_in assignment.now) (number_in assignment.now sums.now) formula.now).truths) }
{
    match formula {
        Formula::Name(name) => Ok(is_true(assignment, *name)),
        Formula::Not(part) => {
            let holds = push_formula(alloc, out, assignment, sums, part.get())?;
            Ok(!holds)
        }
        Formula::And(parts) => {
            let truths = push_each(alloc, out, assignment, sums, parts.as_slice())?;
            push_all(out, truths)
        }
        Formula::Or(parts) => {
            let truths = push_each(alloc, out, assignment, sums, parts.as_slice())?;
            push_any(out, truths)
        }
        Formula::Implies(premise, conclusion) => {
            let first = push_formula(alloc, out, assignment, sums, premise.get())?;
            let second = push_formula(alloc, out, assignment, sums, conclusion.get())?;
            push_implication(out, first, second)
        }
        Formula::Iff(one, other) => {
            let first = push_formula(alloc, out, assignment, sums, one.get())?;
            let second = push_formula(alloc, out, assignment, sums, other.get())?;
            push_equivalence(out, first, second)
        }
        Formula::AtMost(linear, k) => push_bit(out, is_at_most(linear, assignment, sums, *k)),
        Formula::AtLeast(linear, k) => push_bit(out, is_at_least(linear, assignment, sums, *k)),
        Formula::Equal(linear, k) => push_equality(
            out,
            is_at_most(linear, assignment, sums, *k),
            is_at_least(linear, assignment, sums, *k),
        ),
    }
}

/// The same for each of a list of formulas.
#[cycle(telling)]
fn push_each(
    alloc: Global,
    out: &mut Vec<i64>,
    assignment: &Assignment,
    sums: &[i64],
    parts: &[Formula],
) -> Result<Vec<bool>, OutOfMemory>
    requires { All (AreSmallIn (number_in assignment.now sums.now)) parts.now }
    ensures says { IfOk result (λ truths. truths.items ≡ map (λ part. part.says)
        (map (told (name_in assignment.now) (number_in assignment.now sums.now)) parts.now)) }
    ensures added { OnOk result (out.new.items ≡ out.old.items ++ map bit_of
        (all_truths (map (told (name_in assignment.now) (number_in assignment.now sums.now))
        parts.now))) }
{
    let mut truths = Vec::new(alloc);
    for part in parts {
        let holds = push_formula(alloc, out, assignment, sums, part)?;
        truths.push(holds)?;
    }
    Ok(truths)
}

/// Adds and answers whether all are true.
fn push_all(out: &mut Vec<i64>, truths: Vec<bool>) -> Result<bool, OutOfMemory>
    ensures says { IfOk result (λ t. t ≡ list_all (λ t. t) truths.items) }
    ensures added { OnOk result (out.new.items ≡ out.old.items ++ bit_of
        (list_all (λ t. t) truths.items) ∷ []) }
{
    push_bit(out, are_all_true(truths.as_slice()))
}

/// Adds and answers whether one is true.
fn push_any(out: &mut Vec<i64>, truths: Vec<bool>) -> Result<bool, OutOfMemory>
    ensures says { IfOk result (λ t. t ≡ list_any (λ t. t) truths.items) }
    ensures added { OnOk result (out.new.items ≡ out.old.items ++ bit_of
        (list_any (λ t. t) truths.items) ∷ []) }
{
    push_bit(out, is_one_true(truths.as_slice()))
}

/// Adds and answers whether the second is true where the first is.
fn push_implication(out: &mut Vec<i64>, first: bool, second: bool) -> Result<bool, OutOfMemory>
    ensures says { IfOk result (λ t. t ≡ (not first || second)) }
    ensures added { OnOk result (out.new.items ≡ out.old.items ++ bit_of (not first || second)
        ∷ []) }
{
    push_bit(out, implies(first, second))
}

/// Adds and answers whether both are true or neither.
fn push_equivalence(out: &mut Vec<i64>, first: bool, second: bool) -> Result<bool, OutOfMemory>
    ensures says { IfOk result (λ t. t ≡ same_truth first second) }
    ensures added { OnOk result (out.new.items ≡ out.old.items ++ bit_of (same_truth first second)
        ∷ []) }
{
    push_bit(out, is_same(first, second))
}

/// Adds two truths and whether both are true, and answers that.
fn push_equality(out: &mut Vec<i64>, most: bool, least: bool) -> Result<bool, OutOfMemory>
    ensures says { IfOk result (λ t. t ≡ (most && least)) }
    ensures added { OnOk result (out.new.items ≡ ((out.old.items ++ bit_of most ∷ []) ++ bit_of
        least ∷ []) ++ bit_of (most && least) ∷ []) }
{
    push_bit(out, most)?;
    push_bit(out, least)?;
    push_bit(out, are_both(most, least))
}

fn implies(first: bool, second: bool) -> bool
    ensures { result ≡ (not first || second) }
{
    !first || second
}

fn is_same(first: bool, second: bool) -> bool
    ensures { result ≡ same_truth first second }
{
    first == second
}

fn are_both(first: bool, second: bool) -> bool
    ensures { result ≡ (first && second) }
{
    first && second
}

/// Adds 1 for true and 0 for false, and answers the truth.
pub fn push_bit(out: &mut Vec<i64>, truth: bool) -> Result<bool, OutOfMemory>
    ensures says { IfOk result (λ t. t ≡ truth) }
    ensures added { OnOk result (out.new.items ≡ out.old.items ++ bit_of truth ∷ []) }
{
    out.push(bit(truth))?;
    Ok(truth)
}

fn bit(truth: bool) -> i64
    ensures { result ≡ bit_of truth }
{
    if truth { 1 } else { 0 }
}

fn are_all_true(truths: &[bool]) -> bool
    ensures { result ≡ list_all (λ t. t) truths.now }
{
    truths.iter().all(|t| *t)
}

fn is_one_true(truths: &[bool]) -> bool
    ensures { result ≡ list_any (λ t. t) truths.now }
{
    truths.iter().any(|t| *t)
}

fn is_at_most(linear: &Linear, assignment: &Assignment, sums: &[i64], k: i64) -> bool
    requires { IsSmall (number_in assignment.now sums.now) linear.now }
    ensures { result ≡ int_le (linear_value (number_in assignment.now sums.now) linear.now) k }
{
    value(linear, assignment, sums) <= i128::from(k)
}

fn is_at_least(linear: &Linear, assignment: &Assignment, sums: &[i64], k: i64) -> bool
    requires { IsSmall (number_in assignment.now sums.now) linear.now }
    ensures { result ≡ int_le k (linear_value (number_in assignment.now sums.now) linear.now) }
{
    i128::from(k) <= value(linear, assignment, sums)
}
