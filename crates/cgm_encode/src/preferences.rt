//! The clauses of preferences.
ghost use Rattle.std.specs.Prelude.{◌≡◌, ◌+◌, ◌<◌, ◌≤◌, length, flat_map, slice_index_or, All, OnOk};
ghost use Rattle.std.specs.List.{zip};
ghost use Rattle.cgm_atom.specs.Adding.{CanTake, with_written};
ghost use Rattle.cgm_model.specs.Model.{lists_of};
ghost use Rattle.cgm_model.specs.Statement.{IsProperPreference};
ghost use Rattle.cgm_encode.specs.Problem.{preference_clauses};

use crate::names::truth_variable;
use cgm_atom::ProblemBuilder;
use cgm_atom::literals::{add_clause, literal, negated};
use cgm_base::OutOfMemory;
use cgm_model::{Model, Preference};
use std::alloc::Global;

/// Adds the clauses of each preference, of which each has the variable at its place.
pub(crate) fn add_preferences(
    alloc: Global,
    builder: &mut ProblemBuilder,
    model: &Model,
    variables: &[u32],
    prefers: &[Preference],
) -> Result<(), OutOfMemory>
    requires count { length variables.now ≡ length prefers.now }
    requires room { CanTake builder.old (flat_map (preference_clauses (lists_of model.now))
        (zip variables.now prefers.now)) }
    requires known { All (IsProperPreference (lists_of model.now)) prefers.now }
    ensures { OnOk result (builder.new ≡ with_written builder.old
        (flat_map (preference_clauses (lists_of model.now)) (zip variables.now prefers.now))) }
{
    for (place, p) in prefers.iter().enumerate() {
        add_preference(alloc, builder, model, variable_at(variables, place), p)?;
    }
    Ok(())
}

fn variable_at(variables: &[u32], place: usize) -> u32
    requires { place < length variables.now }
    ensures { result ≡ slice_index_or variables.now place 0 }
{
    variables[place]
}

/// Of a preference A B with variable u: `~u ~A`, `~u B`, `u A ~B`.
fn add_preference(
    alloc: Global,
    builder: &mut ProblemBuilder,
    model: &Model,
    u: u32,
    preference: &Preference,
) -> Result<(), OutOfMemory>
    requires room { CanTake builder.old (preference_clauses (lists_of model.now)
        (u, preference.now)) }
    requires known { IsProperPreference (lists_of model.now) preference.now }
    ensures { OnOk result (builder.new ≡ with_written builder.old
        (preference_clauses (lists_of model.now) (u, preference.now))) }
{
    let better = truth_variable(model, preference.better);
    let worse = truth_variable(model, preference.worse);
    add_clause(alloc, builder, &[negated(u), negated(better)])?;
    add_clause(alloc, builder, &[negated(u), literal(worse)])?;
    add_clause(
        alloc,
        builder,
        &[literal(u), literal(better), negated(worse)],
    )
}
