//! The values of a realization.
ghost use Rattle.std.specs.Prelude.{◌≡◌, ◌++◌, [], map, not, All, IfOk, OnOk};
ghost use Rattle.cgm_atom.specs.Literals.{bit as bit_of};
ghost use Rattle.cgm_formula.specs.Reading.{number_in};
ghost use Rattle.cgm_formula.specs.Sizes.{AreSmallIn};
ghost use Rattle.cgm_model.specs.Assignment.{Fits};
ghost use Rattle.cgm_model.specs.Formulas.{formula_of};
ghost use Rattle.cgm_model.specs.Model.{lists_of};
ghost use Rattle.cgm_model.specs.Sums.{sums_of};
ghost use Rattle.cgm_obj.specs.Counts.{is_met as is_met_by};
ghost use Rattle.cgm_obj.specs.Least.{Realizes};
ghost use Rattle.cgm_obj.specs.Vector.{vector_of};
ghost use Rattle.cgm_encode.specs.Assignments.{choice_values, extension as extension_of};
ghost use Rattle.cgm_encode.specs.Decoding.{IsExtended};
ghost use Rattle.cgm_encode.specs.Encoding.{IsEncodingOf};

use crate::answer::Encoded;
use cgm_base::OutOfMemory;
use cgm_enc_formula::naming_values::{push_bit, push_rules};
use cgm_evolve::Earlier;
use cgm_formula::{Assignment, is_true};
use cgm_model::{Model, Preference, Rule, sums};
use cgm_obj::vector;
use std::alloc::Global;

/// The values of a realization: a solution of the problem of the model that decodes to it, in which the
/// values of the objectives are its vector.
pub fn extend(
    alloc: Global,
    model: &Model,
    earlier: &Earlier,
    enc: &Encoded,
    assignment: &Assignment,
) -> Result<Vec<i64>, OutOfMemory>
    requires realizes { Realizes (lists_of model.now) assignment.now }
    requires encoding { IsEncodingOf (lists_of model.now) earlier.now.pairs enc.now }
    ensures { IfOk result (λ values. IsExtended (lists_of model.now) earlier.now.pairs enc.now
        assignment.now values.items) }
{
    let mut values = Vec::with_capacity(alloc, enc.problem.vars() as usize)?;
    push_values(alloc, &mut values, model, earlier, assignment)?;
    Ok(values)
}

fn push_values(
    alloc: Global,
    out: &mut Vec<i64>,
    model: &Model,
    earlier: &Earlier,
    assignment: &Assignment,
) -> Result<(), OutOfMemory>
    requires fits { Fits (lists_of model.now) assignment.now }
    requires empty { out.old.items ≡ [] }
    ensures { OnOk result (out.new.items ≡ extension_of (lists_of model.now) earlier.now.pairs
        assignment.now) }
{
    let sums = sums(alloc, model, assignment)?;
    push_choices(alloc, out, model, assignment, sums.as_slice())?;
    push_vector(alloc, out, model, earlier, assignment, sums.as_slice())?;
    Ok(())
}

/// The values of all variables but those of objectives.
fn push_choices(
    alloc: Global,
    out: &mut Vec<i64>,
    model: &Model,
    assignment: &Assignment,
    sums: &[i64],
) -> Result<(), OutOfMemory>
    requires fits { Fits (lists_of model.now) assignment.now }
    requires sums { sums.now ≡ sums_of (lists_of model.now) assignment.now }
    requires empty { out.old.items ≡ [] }
    ensures { OnOk result (out.new.items ≡ choice_values (lists_of model.now) assignment.now) }
{
    push_numbers(out, assignment, sums)?;
    push_rules(alloc, out, assignment, sums, rules(model, assignment, sums))?;
    push_preferences(out, assignment, model.prefers.as_slice())?;
    Ok(())
}

fn push_vector(
    alloc: Global,
    out: &mut Vec<i64>,
    model: &Model,
    earlier: &Earlier,
    assignment: &Assignment,
    sums: &[i64],
) -> Result<(), OutOfMemory>
    requires fits { Fits (lists_of model.now) assignment.now }
    requires sums { sums.now ≡ sums_of (lists_of model.now) assignment.now }
    ensures { OnOk result (out.new.items ≡ out.old.items ++ vector_of (lists_of model.now)
        earlier.now.pairs assignment.now) }
{
    let numbers = vector(alloc, model, earlier, assignment, sums)?;
    out.extend_from_slice(numbers.as_slice())
}

fn rules<'m>(model: &'m Model, assignment: &Assignment, sums: &[i64]) -> &'m [Rule]
    requires fits { Fits (lists_of model.now) assignment.now }
    requires sums { sums.now ≡ sums_of (lists_of model.now) assignment.now }
    ensures items { result.now ≡ model.now.rules }
    ensures small { All (λ r. AreSmallIn (number_in assignment.now sums.now) (formula_of r))
        result.now }
{
    model.rules.as_slice()
}

/// The values of elements, refinements, variables and sums.
fn push_numbers(
    out: &mut Vec<i64>,
    assignment: &Assignment,
    sums: &[i64],
) -> Result<(), OutOfMemory>
    ensures { OnOk result (out.new.items ≡ out.old.items
        ++ (((map bit_of assignment.now.elements ++ map bit_of assignment.now.refinements)
        ++ assignment.now.vars) ++ sums.now)) }
{
    push_bits(out, assignment.elements.as_slice())?;
    push_bits(out, assignment.refinements.as_slice())?;
    out.extend_from_slice(assignment.vars.as_slice())?;
    out.extend_from_slice(sums)
}

fn push_bits(out: &mut Vec<i64>, truths: &[bool]) -> Result<(), OutOfMemory>
    ensures { OnOk result (out.new.items ≡ out.old.items ++ map bit_of truths.now) }
{
    for truth in truths {
        push_bit(out, *truth)?;
    }
    Ok(())
}

/// For each preference 1 where it isn't met, else 0.
fn push_preferences(
    out: &mut Vec<i64>,
    assignment: &Assignment,
    prefers: &[Preference],
) -> Result<(), OutOfMemory>
    ensures { OnOk result (out.new.items ≡ out.old.items ++ map
        (λ p. bit_of (not (is_met_by assignment.now p))) prefers.now) }
{
    for p in prefers {
        push_bit(out, !is_met(assignment, p))?;
    }
    Ok(())
}

fn is_met(assignment: &Assignment, preference: &Preference) -> bool
    ensures { result ≡ is_met_by assignment.now preference.now }
{
    is_true(assignment, preference.better) || !is_true(assignment, preference.worse)
}
