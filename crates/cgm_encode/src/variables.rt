//! Variables that are added to a problem.
ghost use Rattle.std.specs.Prelude.{◌≡◌, ◌+◌, ◌-◌, ◌^◌, ◌<◌, ◌≤◌, ◌≤ℤ◌, length, map, All, IfOk, OnOk};
ghost use Rattle.std.specs.List.{range_with_len};
ghost use Rattle.cgm_atom.specs.Building.{with_var};
ghost use Rattle.cgm_atom.specs.Instance.{var_count};
ghost use Rattle.cgm_encode.specs.Building.{AreBounds, with_ranges};
ghost use Rattle.cgm_encode.specs.Problem.{bits, own_range};

use cgm_atom::{BuildStop, ProblemBuilder};
use cgm_base::OutOfMemory;
use cgm_model::Variable;
use std::alloc::Global;

/// Adds so many variables of 0 or 1, and answers them.
pub(crate) fn add_bits(
    alloc: Global,
    builder: &mut ProblemBuilder,
    count: usize,
) -> Result<Vec<u32>, OutOfMemory>
    requires { var_count builder.old + count ≤ 2 ^ 32 - 1 }
    ensures added { OnOk result (builder.new ≡ with_ranges builder.old (bits count)) }
    ensures variables { IfOk result (λ variables. variables.items ≡ range_with_len
        (var_count builder.old) count) }
{
    let mut variables = Vec::new(alloc);
    for _ in 0..count {
        variables.push(add_variable(builder, &(0, 1))?)?;
    }
    Ok(variables)
}

/// Adds the variables of a model, each with its bounds.
pub(crate) fn add_own(builder: &mut ProblemBuilder, vars: &[Variable]) -> Result<(), OutOfMemory>
    requires ordered { All (λ v. v.lo ≤ℤ v.hi) vars.now }
    requires bounds { All (λ v. AreBounds (own_range v)) vars.now }
    requires room { var_count builder.old + length vars.now ≤ 2 ^ 32 - 1 }
    ensures { OnOk result (builder.new ≡ with_ranges builder.old (map own_range vars.now)) }
{
    for v in vars {
        add_one_own(builder, v)?;
    }
    Ok(())
}

fn add_one_own(builder: &mut ProblemBuilder, variable: &Variable) -> Result<(), OutOfMemory>
    requires ordered { variable.now.lo ≤ℤ variable.now.hi }
    requires bounds { AreBounds (own_range variable.now) }
    requires room { var_count builder.old < 2 ^ 32 - 1 }
    ensures { OnOk result (builder.new ≡ with_var builder.old variable.now.lo variable.now.hi) }
{
    add_variable(builder, &(variable.lo, variable.hi))?;
    Ok(())
}

/// Adds a variable for each range, and answers the variables.
pub(crate) fn add_variables(
    alloc: Global,
    builder: &mut ProblemBuilder,
    ranges: &[(i64, i64)],
) -> Result<Vec<u32>, OutOfMemory>
    requires ordered { All (λ r. r.0 ≤ℤ r.1) ranges.now }
    requires bounds { All AreBounds ranges.now }
    requires room { var_count builder.old + length ranges.now ≤ 2 ^ 32 - 1 }
    ensures added { OnOk result (builder.new ≡ with_ranges builder.old ranges.now) }
    ensures variables { IfOk result (λ variables. variables.items ≡ range_with_len
        (var_count builder.old) (length ranges.now)) }
{
    let mut variables = Vec::new(alloc);
    for range in ranges {
        variables.push(add_variable(builder, range)?)?;
    }
    Ok(variables)
}

/// Adds a variable with its least and its greatest value, and answers it.
fn add_variable(builder: &mut ProblemBuilder, range: &(i64, i64)) -> Result<u32, OutOfMemory>
    requires ordered { range.now.0 ≤ℤ range.now.1 }
    requires bounds { AreBounds range.now }
    requires room { var_count builder.old < 2 ^ 32 - 1 }
    ensures added { OnOk result (builder.new ≡ with_var builder.old range.now.0 range.now.1) }
    ensures variable { IfOk result (λ x. x ≡ var_count builder.old) }
{
    match builder.var(range.0, range.1) {
        Ok(v) => Ok(v.0),
        Err(BuildStop::Memory) => Err(OutOfMemory),
        // Both bounds are within their limit.
        Err(BuildStop::Bound) => unreachable!(),
        Err(BuildStop::Row) => unreachable!(),
    }
}
