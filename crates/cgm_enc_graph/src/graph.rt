//! The clauses of a goal graph.
ghost use Rattle.std.specs.Prelude.{◌≡◌, ◌≤◌, ◌^◌, length, OnOk};
ghost use Rattle.cgm_atom.specs.Adding.{CanTake, with_clauses, with_written};
ghost use Rattle.cgm_atom.specs.Instance.{var_count};
ghost use Rattle.cgm_model.specs.Model.{lists_of};
ghost use Rattle.cgm_model.specs.TruthVariables.{truth_variables};
ghost use Rattle.cgm_enc_graph.specs.GraphClauses.{edge_group, fact_group, graph_clauses, refinement_group};

use crate::edges::{add_binds, add_conflicts, add_contribs};
use crate::facts::{add_asserts, add_musts};
use crate::refinements::{add_elements, add_refinements};
use crate::targets::by_target;
use cgm_atom::ProblemBuilder;
use cgm_base::OutOfMemory;
use cgm_model::Model;
use std::alloc::Global;

/// Adds the clauses of a model's goal graph. The variable of an element is its number, that of a
/// refinement its number after all elements. The literal of an element or refinement x is `x >= 1`,
/// its negation, here `~x`, is `x <= 0`. By group, each in the model's order:
/// 1. for each refinement R with sources E1 .. En and target T: for each i `~R Ei`, then
///    `~E1 .. ~En R`, then `~R T`;
/// 2. for each element E with refinements R1 .. Rk: `~E R1 .. Rk`;
/// 3. for each contribution A B: `~A B`;
/// 4. for each conflict A B: `~A ~B`;
/// 5. for each binding of R1 R2 with targets E1 E2: `~E1 ~E2 ~R1 R2`, then `~E1 ~E2 R1 ~R2`;
/// 6. for each goal with `must` its literal, then for each assertion the literal or its negation.
///
/// A later equal atom of a clause is dropped. After want of memory the builder is given up.
/// Condition: the builder has a variable for each element and refinement, and at most 2^31 clauses
/// so far. The graph has less than 2^28 clauses.
pub fn add_graph(
    alloc: Global,
    model: &Model,
    builder: &mut ProblemBuilder,
) -> Result<(), OutOfMemory>
    requires variables { truth_variables (lists_of model.now) ≤ var_count builder.old }
    requires room { length builder.old.clauses ≤ 2 ^ 31 }
    ensures { OnOk result (builder.new ≡ with_clauses builder.old
        (graph_clauses (lists_of model.now))) }
{
    add_refinement_group(alloc, builder, model)?;
    add_edge_group(alloc, builder, model)?;
    add_fact_group(alloc, builder, model)
}

/// The clauses of refinements and of refined elements.
fn add_refinement_group(
    alloc: Global,
    builder: &mut ProblemBuilder,
    model: &Model,
) -> Result<(), OutOfMemory>
    requires { CanTake builder.old (refinement_group (lists_of model.now)) }
    ensures { OnOk result (builder.new ≡ with_written builder.old
        (refinement_group (lists_of model.now))) }
{
    let refinements = model.refinements.as_slice();
    let count = model.elements.as_slice().len();
    let first = count as u32;
    add_refinements(alloc, builder, first, refinements)?;
    let lists = by_target(alloc, count, first, refinements)?;
    add_elements(alloc, builder, lists.as_slice())
}

/// The clauses of contributions, conflicts and bindings.
fn add_edge_group(
    alloc: Global,
    builder: &mut ProblemBuilder,
    model: &Model,
) -> Result<(), OutOfMemory>
    requires { CanTake builder.old (edge_group (lists_of model.now)) }
    ensures { OnOk result (builder.new ≡ with_written builder.old
        (edge_group (lists_of model.now))) }
{
    add_contribs(alloc, builder, model.contribs.as_slice())?;
    add_conflicts(alloc, builder, model.conflicts.as_slice())?;
    add_binds(alloc, builder, model, model.binds.as_slice())
}

/// The clauses of goals with `must` and of assertions.
fn add_fact_group(
    alloc: Global,
    builder: &mut ProblemBuilder,
    model: &Model,
) -> Result<(), OutOfMemory>
    requires { CanTake builder.old (fact_group (lists_of model.now)) }
    ensures { OnOk result (builder.new ≡ with_written builder.old
        (fact_group (lists_of model.now))) }
{
    add_musts(alloc, builder, model.elements.as_slice())?;
    add_asserts(alloc, builder, model.asserts.as_slice())
}
