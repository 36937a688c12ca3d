//! The values of sums.
ghost use Rattle.std.specs.Prelude.{◌≡◌, ℕ, pos, ◌+ℤ◌, ◌+◌, ◌^◌, ◌<◌, ◌≤◌, length, unsigned_abs, slice_index_or, All, IfOk};
ghost use Rattle.cgm_base.specs.declared.limit.Which.TheVariants as limits;
ghost use Rattle.cgm_base.specs.Words.{limit_number};
ghost use Rattle.cgm_model.specs.Assignment.{Fits};
ghost use Rattle.cgm_model.specs.Model.{lists_of};
ghost use Rattle.cgm_model.specs.Sums.{sums_of, value_for};

use crate::lists::SumValue;
use crate::model::Model;
use crate::realization;
use cgm_base::OutOfMemory;
use cgm_formula::Assignment;
use std::alloc::Global;

/// The value of each sum, in order: the numbers of its value lines whose element or refinement is
/// true, added up. Condition: the assignment fits.
pub fn sums(alloc: Global, model: &Model, assignment: &Assignment) -> Result<Vec<i64>, OutOfMemory>
    requires { Fits (lists_of model.now) assignment.now }
    ensures { IfOk result (λ sums. sums.items ≡ sums_of (lists_of model.now) assignment.now) }
{
    let mut totals = vec![in alloc; 0; model.sums.as_slice().len()]?;
    for v in values(model) {
        add(&mut totals, assignment, v);
    }
    Ok(totals)
}

/// Adds what the value line adds to its sum.
fn add(totals: &mut Vec<i64>, assignment: &Assignment, value: &SumValue)
    requires there { value.now.sum < length totals.old.items }
    requires small { (k : ℕ) → unsigned_abs (slice_index_or totals.old.items k (pos 0))
        + unsigned_abs value.now.k < 2 ^ 63 }
    ensures long { length totals.new.items ≡ length totals.old.items }
    ensures added { (k : ℕ) → slice_index_or totals.new.items k (pos 0) ≡ slice_index_or
        totals.old.items k (pos 0) +ℤ value_for assignment.now k value.now }
{
    if realization::name_is_true(assignment, value.of) {
        let place = value.sum as usize;
        totals[place] = plus(totals[place], value.k);
    }
}

fn plus(x: i64, y: i64) -> i64
    requires { unsigned_abs x + unsigned_abs y < 2 ^ 63 }
    ensures { result ≡ x +ℤ y }
{
    x + y
}

fn values(model: &Model) -> &[SumValue]
    ensures items { result.now ≡ model.now.values }
    ensures there { All (λ v. v.sum < length model.now.sums) result.now }
    ensures small { All (λ v. unsigned_abs v.k ≤ limit_number limits.Coefficient) result.now }
    ensures few { length result.now ≤ limit_number limits.Statements }
{
    model.values.as_slice()
}
