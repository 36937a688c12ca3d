//! The vector of an assignment.
ghost use Rattle.std.specs.Prelude.{◌≡◌, ◌≤◌, unsigned_abs, neg_ℤ, IfOk};
ghost use Rattle.cgm_model.specs.Assignment.{Fits};
ghost use Rattle.cgm_model.specs.Model.{lists_of};
ghost use Rattle.cgm_model.specs.Sums.{sums_of};
ghost use Rattle.cgm_obj.specs.Vector.{objective_number as number_of_objective, vector_of};

use crate::quantities::quantity;
use cgm_base::OutOfMemory;
use cgm_evolve::Earlier;
use cgm_model::{Assignment, Model, Objective};
use std::alloc::Global;

fn negated(x: i64) -> i64
    requires { unsigned_abs x ≤ 1000000000000 }
    ensures { result ≡ neg_ℤ x }
{
    -x
}

/// The number of an objective in the vector.
fn objective_number(
    model: &Model,
    earlier: &Earlier,
    assignment: &Assignment,
    sums: &[i64],
    objective: Objective,
) -> i64
    requires fits { Fits (lists_of model.now) assignment.now }
    requires sums { sums.now ≡ sums_of (lists_of model.now) assignment.now }
    ensures { result ≡ number_of_objective (lists_of model.now) earlier.now.pairs assignment.now
        objective }
{
    let number = quantity(model, earlier, assignment, sums, objective.of);
    if objective.max {
        return negated(number);
    }
    number
}

/// The vector of an assignment: one number for each objective, in order, the quantity for `min` and
/// with its sign changed for `max`. Condition: the assignment fits, and `sums` are the values of the
/// sums.
pub fn vector(
    alloc: Global,
    model: &Model,
    earlier: &Earlier,
    assignment: &Assignment,
    sums: &[i64],
) -> Result<Vec<i64>, OutOfMemory>
    requires fits { Fits (lists_of model.now) assignment.now }
    requires sums { sums.now ≡ sums_of (lists_of model.now) assignment.now }
    ensures { IfOk result (λ numbers. numbers.items ≡ vector_of (lists_of model.now)
        earlier.now.pairs assignment.now) }
{
    let mut numbers = Vec::new(alloc);
    for o in model.objectives.as_slice() {
        numbers.push(objective_number(model, earlier, assignment, sums, *o))?;
    }
    Ok(numbers)
}
