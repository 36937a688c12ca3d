//! The least and the greatest values of expressions.
ghost use Rattle.std.specs.Prelude.{◌≡◌, ◌+◌, ◌*◌, ◌<◌, ◌≤◌, ◌^◌, ◌≤ℤ◌, ◌+ℤ◌, ◌*ℤ◌, length, map, unsigned_abs, All, IfOk};
ghost use Rattle.cgm_atom.specs.Bounds.{lower_of, upper_of};
ghost use Rattle.cgm_atom.specs.Instance.{var_count};
ghost use Rattle.cgm_atom.specs.Limits.{AreTermsOf, greatest_size, max_measure, measure};
ghost use Rattle.cgm_atom.specs.Narrowing.{greatest_activity as greatest_in, greatest_term as greatest_term_in};
ghost use Rattle.cgm_encode.specs.Building.{IsMeasured, expression_range};
ghost use Rattle.cgm_encode.specs.Totals.{least_activity as least_in, least_term as least_term_in};

use crate::expressions::Expression;
use cgm_atom::{ProblemBuilder, Var};
use cgm_base::OutOfMemory;
use std::alloc::Global;

/// The range of each expression.
pub(crate) fn ranges_of(
    alloc: Global,
    builder: &ProblemBuilder,
    expressions: &[Expression],
) -> Result<Vec<(i64, i64)>, OutOfMemory>
    requires { All (IsMeasured builder.now) expressions.now }
    ensures ranges { IfOk result (λ ranges. ranges.items ≡ map (expression_range builder.now.bounds)
        expressions.now) }
{
    let mut ranges = Vec::with_capacity(alloc, expressions.len())?;
    for e in expressions {
        ranges.push(range_of(builder, e))?;
    }
    Ok(ranges)
}

fn range_of(builder: &ProblemBuilder, expression: &Expression) -> (i64, i64)
    requires { IsMeasured builder.now expression.now }
    ensures { result ≡ expression_range builder.now.bounds expression.now }
{
    let terms = expression.terms.as_slice();
    let least = plus(least_activity(builder, terms), expression.constant);
    let greatest = plus(greatest_activity(builder, terms), expression.constant);
    (least, greatest)
}

fn least_activity(builder: &ProblemBuilder, terms: &[(i64, Var)]) -> i64
    requires known { AreTermsOf (var_count builder.now) terms.now }
    requires limit { measure builder.now.bounds terms.now ≤ max_measure }
    ensures value { result ≡ least_in builder.now.bounds terms.now }
    ensures size { unsigned_abs result ≤ max_measure }
{
    let mut sum = 0;
    for term in terms {
        sum = plus(sum, least_term(builder, term));
    }
    sum
}

fn greatest_activity(builder: &ProblemBuilder, terms: &[(i64, Var)]) -> i64
    requires known { AreTermsOf (var_count builder.now) terms.now }
    requires limit { measure builder.now.bounds terms.now ≤ max_measure }
    ensures value { result ≡ greatest_in builder.now.bounds terms.now }
    ensures size { unsigned_abs result ≤ max_measure }
{
    let mut sum = 0;
    for term in terms {
        sum = plus(sum, greatest_term(builder, term));
    }
    sum
}

fn least_term(builder: &ProblemBuilder, term: &(i64, Var)) -> i64
    requires known { term.now.1.0 < var_count builder.now }
    requires limit { unsigned_abs term.now.0 * greatest_size builder.now.bounds term.now.1.0
        ≤ max_measure }
    ensures value { result ≡ least_term_in builder.now.bounds term.now.0 term.now.1.0 }
    ensures size { unsigned_abs result ≤ unsigned_abs term.now.0 * greatest_size builder.now.bounds
        term.now.1.0 }
{
    let (lo, hi) = builder.bounds(term.1);
    if term.0 < 0 {
        product(term.0, hi)
    } else {
        product(term.0, lo)
    }
}

fn greatest_term(builder: &ProblemBuilder, term: &(i64, Var)) -> i64
    requires known { term.now.1.0 < var_count builder.now }
    requires limit { unsigned_abs term.now.0 * greatest_size builder.now.bounds term.now.1.0
        ≤ max_measure }
    ensures value { result ≡ greatest_term_in builder.now.bounds term.now.0 term.now.1.0 }
    ensures size { unsigned_abs result ≤ unsigned_abs term.now.0 * greatest_size builder.now.bounds
        term.now.1.0 }
{
    let (lo, hi) = builder.bounds(term.1);
    if term.0 < 0 {
        product(term.0, lo)
    } else {
        product(term.0, hi)
    }
}

fn product(x: i64, y: i64) -> i64
    requires { unsigned_abs x * unsigned_abs y ≤ max_measure }
    ensures value { result ≡ x *ℤ y }
    ensures size { unsigned_abs result ≡ unsigned_abs x * unsigned_abs y }
{
    x * y
}

fn plus(x: i64, y: i64) -> i64
    requires { unsigned_abs x + unsigned_abs y < 2 ^ 63 }
    ensures value { result ≡ x +ℤ y }
    ensures size { unsigned_abs result ≤ unsigned_abs x + unsigned_abs y }
{
    x + y
}
