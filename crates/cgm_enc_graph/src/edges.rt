//! The clauses of contributions, conflicts and bindings.
ghost use Rattle.std.specs.Prelude.{◌≡◌, ◌<◌, ◌∷◌, [], length, map, flat_map, All, OnOk};
ghost use Rattle.cgm_atom.specs.Adding.{CanTake, with_written};
ghost use Rattle.cgm_formula.specs.declared.formula.Truth.TheVariants as truth;
ghost use Rattle.cgm_model.specs.Model.{lists_of};
ghost use Rattle.cgm_model.specs.Statement.{IsEdgeOf};
ghost use Rattle.cgm_model.specs.TruthVariables.{variable_of};
ghost use Rattle.cgm_enc_graph.specs.GraphClauses.{bind_clauses, conflict_clause, contrib_clause, target_of as target_in};

use cgm_atom::ProblemBuilder;
use cgm_atom::literals::{add_clause, add_implication, literal, negated};
use cgm_base::OutOfMemory;
use cgm_model::{Edge, Model};
use std::alloc::Global;

/// Where the first element is true, so is the second.
pub(crate) fn add_contribs(
    alloc: Global,
    builder: &mut ProblemBuilder,
    contribs: &[Edge],
) -> Result<(), OutOfMemory>
    requires { CanTake builder.old (map contrib_clause contribs.now) }
    ensures { OnOk result (builder.new ≡ with_written builder.old
        (map contrib_clause contribs.now)) }
{
    for e in contribs {
        add_implication(alloc, builder, e.from, e.to)?;
    }
    Ok(())
}

/// The two elements aren't both true.
pub(crate) fn add_conflicts(
    alloc: Global,
    builder: &mut ProblemBuilder,
    conflicts: &[Edge],
) -> Result<(), OutOfMemory>
    requires { CanTake builder.old (map conflict_clause conflicts.now) }
    ensures { OnOk result (builder.new ≡ with_written builder.old
        (map conflict_clause conflicts.now)) }
{
    for e in conflicts {
        add_conflict(alloc, builder, e)?;
    }
    Ok(())
}

fn add_conflict(alloc: Global, builder: &mut ProblemBuilder, edge: &Edge) -> Result<(), OutOfMemory>
    requires { CanTake builder.old (conflict_clause edge.now ∷ []) }
    ensures { OnOk result (builder.new ≡ with_written builder.old (conflict_clause edge.now ∷ [])) }
{
    add_clause(alloc, builder, &[negated(edge.from), negated(edge.to)])
}

/// Where both targets are true, both refinements are true or neither is.
pub(crate) fn add_binds(
    alloc: Global,
    builder: &mut ProblemBuilder,
    model: &Model,
    binds: &[Edge],
) -> Result<(), OutOfMemory>
    requires room { CanTake builder.old (flat_map (bind_clauses (lists_of model.now)) binds.now) }
    requires known { All (IsEdgeOf (length model.now.refinements)) binds.now }
    ensures { OnOk result (builder.new ≡ with_written builder.old
        (flat_map (bind_clauses (lists_of model.now)) binds.now)) }
{
    for e in binds {
        add_bind(alloc, builder, model, e)?;
    }
    Ok(())
}

fn add_bind(
    alloc: Global,
    builder: &mut ProblemBuilder,
    model: &Model,
    edge: &Edge,
) -> Result<(), OutOfMemory>
    requires room { CanTake builder.old (bind_clauses (lists_of model.now) edge.now) }
    requires known { IsEdgeOf (length model.now.refinements) edge.now }
    ensures { OnOk result (builder.new ≡ with_written builder.old
        (bind_clauses (lists_of model.now) edge.now)) }
{
    let one = target_of(model, edge.from);
    let other = target_of(model, edge.to);
    let from = refinement_variable(model, edge.from);
    let to = refinement_variable(model, edge.to);
    add_clause(
        alloc,
        builder,
        &[negated(one), negated(other), negated(from), literal(to)],
    )?;
    add_clause(
        alloc,
        builder,
        &[negated(one), negated(other), literal(from), negated(to)],
    )
}

fn target_of(model: &Model, number: u32) -> u32
    requires { number < length model.now.refinements }
    ensures { result ≡ target_in (lists_of model.now) number }
{
    model.refinements.as_slice()[number as usize].target
}

fn refinement_variable(model: &Model, number: u32) -> u32
    requires { number < length model.now.refinements }
    ensures { result ≡ variable_of (lists_of model.now) (truth.Refinement number) }
{
    model.elements.as_slice().len() as u32 + number
}
