//! What a solution decodes to: a realization with its vector.
ghost use Rattle.std.specs.Prelude.{◌≡◌, IfOk};
ghost use Rattle.cgm_atom.specs.Bounds.{value_of};
ghost use Rattle.cgm_atom.specs.Instance.{IsSolution, values_at};
ghost use Rattle.cgm_encode.specs.Decoding.{ForEncoded, IsDecodedFound};

use crate::answer::{Encoded, Found};
use crate::assignments::decode;
use cgm_atom::{Seq, Var};
use cgm_base::OutOfMemory;
use cgm_formula::number_at;
use std::alloc::Global;

/// The realization that a solution stands for, as `decode` gives it, with its vector.
pub fn decoded(alloc: Global, encoded: &Encoded, values: &[i64]) -> Result<Found, OutOfMemory>
    requires { IsSolution encoded.now.problem values.now }
    ensures { IfOk result
        (λ found. ForEncoded encoded.now (λ m pairs. IsDecodedFound m pairs values.now found)) }
{
    let assignment = decode(alloc, encoded, values)?;
    let vector = objective_values(alloc, encoded.problem.objectives(), values)?;
    Ok(Found {
        assignment,
        vector: Seq::of(vector),
    })
}

fn objective_values(
    alloc: Global,
    objectives: &[Var],
    values: &[i64],
) -> Result<Vec<i64>, OutOfMemory>
    ensures { IfOk result (λ vector. vector.items ≡ values_at values.now objectives.now) }
{
    let mut vector = Vec::new(alloc);
    for v in objectives {
        vector.push(value_at(values, *v))?;
    }
    Ok(vector)
}

/// The value of a variable; 0 where it has none.
fn value_at(values: &[i64], variable: Var) -> i64
    ensures { result ≡ value_of values.now variable.0 }
{
    number_at(values, variable.0)
}
