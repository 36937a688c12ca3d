//! Decoding values.
ghost use Rattle.std.specs.Prelude.{◌≡◌, ◌+◌, ◌<◌, ◌^◌, ◌++◌, ◌∷◌, [], map, IfOk, OnOk};
ghost use Rattle.std.specs.List.{range_with_len};
ghost use Rattle.cgm_atom.specs.Bounds.{value_of as value_in};
ghost use Rattle.cgm_atom.specs.Instance.{IsSolution};
ghost use Rattle.cgm_atom.specs.Literals.{truth_at as truth_in};
ghost use Rattle.cgm_encode.specs.Assignments.{assignment_of};
ghost use Rattle.cgm_encode.specs.Decoding.{IsDecoded};

use crate::answer::Encoded;
use cgm_base::OutOfMemory;
use cgm_formula::{Assignment, Parts};
use std::alloc::Global;

/// The assignment that a solution stands for: an element or a refinement is true where its value is at
/// least 1, and the model's variables have their values. For every model and earlier realization whose
/// encoding this is, it is a realization, and the values of the objectives are its vector.
pub fn decode(alloc: Global, enc: &Encoded, values: &[i64]) -> Result<Assignment, OutOfMemory>
    requires { IsSolution enc.now.problem values.now }
    ensures { IfOk result (λ a. IsDecoded enc.now values.now a) }
{
    let a = assignment(alloc, enc, values)?;
    Ok(a)
}

fn assignment(alloc: Global, enc: &Encoded, values: &[i64]) -> Result<Assignment, OutOfMemory>
    ensures { IfOk result (λ a. a ≡ assignment_of enc.now.elements enc.now.refinements enc.now.vars
        values.now) }
{
    let elements = enc.elements as usize;
    let refinements = enc.refinements as usize;
    let vars = enc.vars as usize;
    Ok(Assignment {
        elements: Parts::of(truths(alloc, values, 0, elements)?),
        refinements: Parts::of(truths(alloc, values, elements, refinements)?),
        vars: Parts::of(numbers(alloc, values, elements + refinements, vars)?),
    })
}

/// The truths that so many values from a place on stand for.
fn truths(
    alloc: Global,
    values: &[i64],
    from: usize,
    count: usize,
) -> Result<Vec<bool>, OutOfMemory>
    requires { from + count < 2 ^ 64 }
    ensures { IfOk result (λ truths. truths.items ≡ map (truth_in values.now)
        (range_with_len from count)) }
{
    let mut truths = Vec::with_capacity(alloc, count)?;
    for x in 0..count {
        truths.push(truth_at(values, from + x))?;
    }
    Ok(truths)
}

/// So many values from a place on.
fn numbers(
    alloc: Global,
    values: &[i64],
    from: usize,
    count: usize,
) -> Result<Vec<i64>, OutOfMemory>
    requires { from + count < 2 ^ 64 }
    ensures { IfOk result (λ numbers. numbers.items ≡ map (value_in values.now)
        (range_with_len from count)) }
{
    let mut numbers = Vec::with_capacity(alloc, count)?;
    for x in 0..count {
        push_value(&mut numbers, values, from + x)?;
    }
    Ok(numbers)
}

fn push_value(out: &mut Vec<i64>, values: &[i64], x: usize) -> Result<(), OutOfMemory>
    ensures { OnOk result (out.new.items ≡ out.old.items ++ value_in values.now x ∷ []) }
{
    out.push(value_of(values, x))?;
    Ok(())
}

fn truth_at(values: &[i64], x: usize) -> bool
    ensures { result ≡ truth_in values.now x }
{
    value_of(values, x) >= 1
}

fn value_of(values: &[i64], x: usize) -> i64
    ensures { result ≡ value_in values.now x }
{
    match values.get(x) {
        None => 0,
        Some(value) => *value,
    }
}
