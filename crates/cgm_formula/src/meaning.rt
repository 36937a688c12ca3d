//! Truth of a formula, and value of a linear expression.
ghost use Rattle.std.specs.Prelude.{◌≡◌, ◌+◌, ◌*◌, ◌^◌, ◌<◌, ◌&&◌, ◌+ℤ◌, ◌*ℤ◌, int_le, unsigned_abs, All};
ghost use Rattle.std.specs.List.{list_all, list_any};
ghost use Rattle.cgm_formula.specs.Reading.{name_in, number_in};
ghost use Rattle.cgm_formula.specs.Truth.{linear_value, total, truth};
ghost use Rattle.cgm_formula.specs.Sizes.{IsSmall, AreSmallIn, size};

use crate::assignment::{Assignment, number_at, truth_at};
use crate::formula::{Formula, Linear, Number, Truth};

/// Says whether the formula holds under the assignment and the values of the sums. A name or
/// number that has no value there reads as false or 0. Condition: in each linear expression the
/// sizes of the terms' values add up to less than 2^127. It takes no memory.
#[cycle(holds)]
pub fn holds(formula: &Formula, assignment: &Assignment, sums: &[i64]) -> bool
    requires { AreSmallIn (number_in assignment.now sums.now) formula.now }
    ensures { result ≡ truth (name_in assignment.now) (number_in assignment.now sums.now)
        formula.now }
{
    match formula {
        Formula::Name(name) => is_true(assignment, *name),
        Formula::Not(part) => !holds(part.get(), assignment, sums),
        Formula::And(parts) => all_hold(parts.as_slice(), assignment, sums),
        Formula::Or(parts) => some_holds(parts.as_slice(), assignment, sums),
        Formula::Implies(premise, conclusion) => {
            let premise = holds(premise.get(), assignment, sums);
            let conclusion = holds(conclusion.get(), assignment, sums);
            !premise || conclusion
        }
        Formula::Iff(one, other) => {
            let one = holds(one.get(), assignment, sums);
            let other = holds(other.get(), assignment, sums);
            one == other
        }
        Formula::AtMost(linear, k) => is_at_most(value(linear, assignment, sums), *k),
        Formula::AtLeast(linear, k) => is_at_least(value(linear, assignment, sums), *k),
        Formula::Equal(linear, k) => is_equal(value(linear, assignment, sums), *k),
    }
}

#[cycle(holds)]
fn all_hold(parts: &[Formula], assignment: &Assignment, sums: &[i64]) -> bool
    requires { All (AreSmallIn (number_in assignment.now sums.now)) parts.now }
    ensures { result ≡ list_all (truth (name_in assignment.now) (number_in assignment.now sums.now))
        parts.now }
{
    for part in parts {
        if !holds(part, assignment, sums) {
            return false;
        }
    }
    true
}

#[cycle(holds)]
fn some_holds(parts: &[Formula], assignment: &Assignment, sums: &[i64]) -> bool
    requires { All (AreSmallIn (number_in assignment.now sums.now)) parts.now }
    ensures { result ≡ list_any (truth (name_in assignment.now) (number_in assignment.now sums.now))
        parts.now }
{
    for part in parts {
        if holds(part, assignment, sums) {
            return true;
        }
    }
    false
}

fn is_at_most(value: i128, k: i64) -> bool
    ensures { result ≡ int_le value k }
{
    value <= i128::from(k)
}

fn is_at_least(value: i128, k: i64) -> bool
    ensures { result ≡ int_le k value }
{
    i128::from(k) <= value
}

fn is_equal(value: i128, k: i64) -> bool
    ensures { result ≡ (int_le value k && int_le k value) }
{
    value == i128::from(k)
}

/// Answers the value of the linear expression under the assignment and the values of the sums.
/// A number that has no value there reads as 0. Condition: the sizes of the terms' values add up
/// to less than 2^127. It takes no memory.
pub fn value(linear: &Linear, assignment: &Assignment, sums: &[i64]) -> i128
    requires { IsSmall (number_in assignment.now sums.now) linear.now }
    ensures { result ≡ linear_value (number_in assignment.now sums.now) linear.now }
{
    terms_value(linear.terms.as_slice(), assignment, sums)
}

fn terms_value(terms: &[(i64, Number)], assignment: &Assignment, sums: &[i64]) -> i128
    requires { size (number_in assignment.now sums.now) terms.now < 2 ^ 127 }
    ensures { result ≡ total (number_in assignment.now sums.now) terms.now }
{
    let mut so_far = 0;
    for term in terms {
        so_far = sum(so_far, term_value(term, assignment, sums));
    }
    so_far
}

fn term_value(term: &(i64, Number), assignment: &Assignment, sums: &[i64]) -> i128
    requires { unsigned_abs term.now.0 * unsigned_abs (number_in assignment.now sums.now term.now.1)
        < 2 ^ 127 }
    ensures value { result ≡ term.now.0 *ℤ number_in assignment.now sums.now term.now.1 }
    ensures size { unsigned_abs result ≡ unsigned_abs term.now.0 * unsigned_abs
        (number_in assignment.now sums.now term.now.1) }
{
    product(
        i128::from(term.0),
        i128::from(number(assignment, sums, term.1)),
    )
}

fn product(x: i128, y: i128) -> i128
    requires { unsigned_abs x * unsigned_abs y < 2 ^ 127 }
    ensures value { result ≡ x *ℤ y }
    ensures size { unsigned_abs result ≡ unsigned_abs x * unsigned_abs y }
{
    x * y
}

fn sum(x: i128, y: i128) -> i128
    requires { unsigned_abs x + unsigned_abs y < 2 ^ 127 }
    ensures { result ≡ x +ℤ y }
{
    x + y
}

/// Says whether the element or refinement is true; one without a value is false.
pub fn is_true(assignment: &Assignment, name: Truth) -> bool
    ensures { result ≡ name_in assignment.now name }
{
    match name {
        Truth::Element(number) => truth_at(assignment.elements.as_slice(), number),
        Truth::Refinement(number) => truth_at(assignment.refinements.as_slice(), number),
    }
}

fn number(assignment: &Assignment, sums: &[i64], of: Number) -> i64
    ensures { result ≡ number_in assignment.now sums.now of }
{
    match of {
        Number::Var(number) => number_at(assignment.vars.as_slice(), number),
        Number::Sum(number) => number_at(sums, number),
    }
}
