//! The measures of comparisons.
ghost use Rattle.std.specs.Prelude.{◌≡◌, ◌*◌, ◌≤◌, ◌↔◌, ◌^◌, ◌&&◌, nat_le, length, unsigned_abs, IsTrue, All, MatchOption};
ghost use Rattle.std.specs.List.{list_all};
ghost use Rattle.cgm_atom.specs.Instance.{var_count};
ghost use Rattle.cgm_atom.specs.Limits.{greatest_size, max_measure, measure};
ghost use Rattle.cgm_model.specs.Formulas.{IsKnownNumber, formula_of as formula_of_rule};
ghost use Rattle.cgm_model.specs.Model.{lists_of};
ghost use Rattle.cgm_base.specs.Place.{Each, FirstFails};
ghost use Rattle.cgm_enc_formula.specs.Measures.{HasKnownNumbers, IsWithinMeasure, comparison_measure, has_small_measures as has_small_measures_in};
ghost use Rattle.cgm_enc_formula.specs.Terms.{model_variables, number_variable as variable_in, variable_terms};

use crate::naming_values::formula_of;
use crate::terms::number_variable;
use cgm_atom::{MAX_MEASURE, ProblemBuilder, Var};
use cgm_formula::{Formula, Linear, Number};
use cgm_model::{Model, Rule};

/// The first rule with a comparison whose measure passes the limit, by its number.
pub(crate) fn first_past(model: &Model, builder: &ProblemBuilder, rules: &[Rule]) -> Option<u32>
    requires variables { model_variables (lists_of model.now) ≤ var_count builder.now }
    requires known { All (λ r. HasKnownNumbers (lists_of model.now) (formula_of_rule r)) rules.now }
    requires few { length rules.now ≤ 2 ^ 32 }
    ensures { MatchOption result
        (Each (IsWithinMeasure (lists_of model.now) builder.now.bounds) rules.now)
        (FirstFails (IsWithinMeasure (lists_of model.now) builder.now.bounds) rules.now) }
{
    for (number, rule) in rules.iter().enumerate() {
        if !is_within(model, builder, rule) {
            return Some(number as u32);
        }
    }
    None
}

fn is_within(model: &Model, builder: &ProblemBuilder, rule: &Rule) -> bool
    requires variables { model_variables (lists_of model.now) ≤ var_count builder.now }
    requires known { HasKnownNumbers (lists_of model.now) (formula_of_rule rule.now) }
    ensures { result ≡ has_small_measures_in (lists_of model.now) builder.now.bounds
        (formula_of_rule rule.now) }
{
    has_small_measures(model, builder, formula_of(rule))
}

#[cycle(measures)]
fn has_small_measures(model: &Model, builder: &ProblemBuilder, formula: &Formula) -> bool
    requires variables { model_variables (lists_of model.now) ≤ var_count builder.now }
    requires known { HasKnownNumbers (lists_of model.now) formula.now }
    ensures { result ≡ has_small_measures_in (lists_of model.now) builder.now.bounds formula.now }
{
    match formula {
        Formula::Name(_) => true,
        Formula::Not(part) => has_small_measures(model, builder, part.get()),
        Formula::And(parts) => have_small_measures(model, builder, parts.as_slice()),
        Formula::Or(parts) => have_small_measures(model, builder, parts.as_slice()),
        Formula::Implies(premise, conclusion) => {
            let premise = has_small_measures(model, builder, premise.get());
            let conclusion = has_small_measures(model, builder, conclusion.get());
            both(premise, conclusion)
        }
        Formula::Iff(one, other) => {
            let one = has_small_measures(model, builder, one.get());
            let other = has_small_measures(model, builder, other.get());
            both(one, other)
        }
        Formula::AtMost(linear, k) => is_small(model, builder, linear, *k),
        Formula::AtLeast(linear, k) => is_small(model, builder, linear, *k),
        Formula::Equal(linear, k) => is_small(model, builder, linear, *k),
    }
}

#[cycle(measures)]
fn have_small_measures(model: &Model, builder: &ProblemBuilder, parts: &[Formula]) -> bool
    requires variables { model_variables (lists_of model.now) ≤ var_count builder.now }
    requires known { All (HasKnownNumbers (lists_of model.now)) parts.now }
    ensures { result ≡ list_all (has_small_measures_in (lists_of model.now) builder.now.bounds)
        parts.now }
{
    for part in parts {
        if !has_small_measures(model, builder, part) {
            return false;
        }
    }
    true
}

fn both(one: bool, other: bool) -> bool
    ensures { result ≡ (one && other) }
{
    one && other
}

/// Whether a comparison's measure is within the limit.
fn is_small(model: &Model, builder: &ProblemBuilder, linear: &Linear, k: i64) -> bool
    requires variables { model_variables (lists_of model.now) ≤ var_count builder.now }
    requires known { All (λ t. IsKnownNumber (lists_of model.now) t.1) linear.now.terms }
    ensures { result ≡ nat_le (comparison_measure (lists_of model.now) builder.now.bounds
        (linear.now, k)) max_measure }
{
    let size = k.unsigned_abs();
    if size > MAX_MEASURE {
        return false;
    }
    are_within(model, builder, linear.terms.as_slice(), MAX_MEASURE - size)
}

/// Stops at the first term that passes what is left, since the whole measure may not fit.
fn are_within(model: &Model, builder: &ProblemBuilder, terms: &[(i64, Number)], most: u64) -> bool
    requires variables { model_variables (lists_of model.now) ≤ var_count builder.now }
    requires known { All (λ t. IsKnownNumber (lists_of model.now) t.1) terms.now }
    ensures { IsTrue result ↔ (measure builder.now.bounds
        (variable_terms (lists_of model.now) terms.now) ≤ most) }
{
    let mut room = most;
    for term in terms {
        let share = term_measure(model, builder, term);
        if share > u128::from(room) {
            return false;
        }
        room -= share as u64;
    }
    true
}

fn term_measure(model: &Model, builder: &ProblemBuilder, term: &(i64, Number)) -> u128
    requires variables { model_variables (lists_of model.now) ≤ var_count builder.now }
    requires known { IsKnownNumber (lists_of model.now) term.now.1 }
    ensures { result ≡ unsigned_abs term.now.0 * greatest_size builder.now.bounds
        (variable_in (lists_of model.now) term.now.1) }
{
    let (lo, hi) = builder.bounds(Var(number_variable(model, term.1)));
    product(
        term.0.unsigned_abs(),
        lo.unsigned_abs().max(hi.unsigned_abs()),
    )
}

fn product(x: u64, y: u64) -> u128
    ensures { result ≡ x * y }
{
    u128::from(x) * u128::from(y)
}
