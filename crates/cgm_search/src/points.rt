//! The values of a box that holds one value of each variable.
ghost use Rattle.std.specs.Prelude.{◌≡◌, ◌+◌, ◌<◌, length, IfOk};
ghost use Rattle.cgm_atom.specs.Instance.{var_count};

use cgm_atom::{BoxState, Problem, Var};
use cgm_base::OutOfMemory;
use std::alloc::Global;

/// The least value of each variable.
pub(crate) fn least_values(
    alloc: Global,
    problem: &Problem,
    state: &BoxState,
) -> Result<Vec<i64>, OutOfMemory>
    requires { length state.now.lower ≡ var_count problem.now }
    ensures { IfOk result (λ values. values.items ≡ state.now.lower) }
{
    let mut values = Vec::new(alloc);
    for x in 0..problem.vars() {
        values.push(state.lo(Var(x)))?;
    }
    Ok(values)
}
