//! Encoding a model.
ghost use Rattle.std.specs.Prelude.{◌≡◌, ◌+◌, ◌*◌, ◌-◌, ◌<◌, ◌≤◌, ◌^◌, length, All, IfOk, OnOk};
ghost use Rattle.std.specs.List.{range_with_len};
ghost use Rattle.cgm_atom.specs.Building.{empty_instance};
ghost use Rattle.cgm_atom.specs.Instance.{var_count as count_of};
ghost use Rattle.cgm_atom.specs.Limits.{max_objectives};
ghost use Rattle.cgm_model.specs.Model.{lists_of};
ghost use Rattle.cgm_encode.specs.Building.{IsMeasured};
ghost use Rattle.cgm_encode.specs.Encoding.{IsEncodeAnswer};
ghost use Rattle.cgm_encode.specs.Problem.{problem_of};
ghost use Rattle.cgm_encode.specs.Stages.{IsBuildAnswer, choices_instance, graph_instance, numbers_instance, own_instance, rules_instance, with_defined, with_objectives};
ghost use Rattle.cgm_encode.specs.Summands.{AreVariablesOfPreferences};

use crate::answer::Encoded;
use crate::expressions::Expression;
use crate::names::{element_count, refinement_count, truth_count, var_count};
use crate::preferences::add_preferences;
use crate::quantities::objective_expressions;
use crate::ranges::ranges_of;
use crate::rows::add_defining_rows;
use crate::sums::sum_expressions;
use crate::variables::{add_bits, add_own, add_variables};
use cgm_atom::{ProblemBuilder, Var};
use cgm_base::OutOfMemory;
use cgm_enc_formula::{EncodeStop, add_rules};
use cgm_enc_graph::add_graph;
use cgm_evolve::Earlier;
use cgm_model::Model;
use std::alloc::Global;

/// Makes the problem of a model and an earlier realization.
///
/// Its variables, in this order: one for each element and one for each refinement, of 0 or 1; one for
/// each variable with its bounds; one for each sum; the naming variables of the rules, of 0 or 1; one
/// for each preference, of 0 or 1; one for each objective.
///
/// Its clauses: those of the goal graph; those of the rules; and for each preference A B with
/// variable u `~u ~A`, `~u B`, `u A ~B`. Its rows: two for each sum; those of the rules; two for each
/// objective. For the variable v of a sum or objective L + d, the rows are `v - L >= d` and
/// `-v + L >= -d`, where L has the variables by ascending number and no coefficient 0. The bounds of v
/// are the least and the greatest value of L + d. The quantity of an objective has its sign changed
/// for `max`.
///
/// `Row` is the first rule with a comparison whose measure passes 4·10^18.
pub fn encode(alloc: Global, model: &Model, earlier: &Earlier) -> Result<Encoded, EncodeStop>
    ensures { IsEncodeAnswer (lists_of model.now) earlier.now.pairs result }
{
    let mut b = ProblemBuilder::new(alloc);
    build(alloc, &mut b, model, earlier)?;
    Ok(Encoded {
        problem: b.finish(),
        elements: element_count(model),
        refinements: refinement_count(model),
        vars: var_count(model),
    })
}

/// Adds all of the problem.
fn build(
    alloc: Global,
    builder: &mut ProblemBuilder,
    model: &Model,
    earlier: &Earlier,
) -> Result<(), EncodeStop>
    requires { builder.old ≡ empty_instance }
    ensures { IsBuildAnswer (lists_of model.now) earlier.now.pairs builder.new result }
{
    match add_numbers(alloc, builder, model) {
        Err(_) => Err(EncodeStop::Memory),
        Ok(()) => add_rest(alloc, builder, model, earlier),
    }
}

/// Adds what stands behind the sums.
fn add_rest(
    alloc: Global,
    builder: &mut ProblemBuilder,
    model: &Model,
    earlier: &Earlier,
) -> Result<(), EncodeStop>
    requires { builder.old ≡ numbers_instance (lists_of model.now) }
    ensures { IsBuildAnswer (lists_of model.now) earlier.now.pairs builder.new result }
{
    add_rules(alloc, model, builder)?;
    match add_choices(alloc, builder, model, earlier) {
        Err(_) => Err(EncodeStop::Memory),
        Ok(()) => Ok(()),
    }
}

/// The variables of elements, refinements, variables and sums, the clauses of the goal graph and the
/// rows of the sums.
fn add_numbers(
    alloc: Global,
    builder: &mut ProblemBuilder,
    model: &Model,
) -> Result<(), OutOfMemory>
    requires { builder.old ≡ empty_instance }
    ensures { OnOk result (builder.new ≡ numbers_instance (lists_of model.now)) }
{
    add_own_variables(alloc, builder, model)?;
    add_graph(alloc, model, builder)?;
    add_sums(alloc, builder, model)
}

/// The variables of elements, refinements and variables.
fn add_own_variables(
    alloc: Global,
    builder: &mut ProblemBuilder,
    model: &Model,
) -> Result<(), OutOfMemory>
    requires { builder.old ≡ empty_instance }
    ensures { OnOk result (builder.new ≡ own_instance (lists_of model.now)) }
{
    add_bits(alloc, builder, truth_count(model) as usize)?;
    add_own(builder, model.vars.as_slice())?;
    Ok(())
}

/// The variables and rows of the sums.
fn add_sums(alloc: Global, builder: &mut ProblemBuilder, model: &Model) -> Result<(), OutOfMemory>
    requires { builder.old ≡ graph_instance (lists_of model.now) }
    ensures { OnOk result (builder.new ≡ numbers_instance (lists_of model.now)) }
{
    let sums = sum_expressions(alloc, model)?;
    define(alloc, builder, sums.as_slice())?;
    Ok(())
}

/// The variables and clauses of preferences, and the variables, rows and objectives of objectives.
fn add_choices(
    alloc: Global,
    builder: &mut ProblemBuilder,
    model: &Model,
    earlier: &Earlier,
) -> Result<(), OutOfMemory>
    requires { builder.old ≡ rules_instance (lists_of model.now) }
    ensures { OnOk result (builder.new ≡ problem_of (lists_of model.now) earlier.now.pairs) }
{
    let preferences = add_preference_part(alloc, builder, model)?;
    add_objective_part(alloc, builder, model, earlier, preferences.as_slice())
}

/// The variables, rows and objectives of objectives, by the variables of the preferences.
fn add_objective_part(
    alloc: Global,
    builder: &mut ProblemBuilder,
    model: &Model,
    earlier: &Earlier,
    preferences: &[u32],
) -> Result<(), OutOfMemory>
    requires stage { builder.old ≡ choices_instance (lists_of model.now) }
    requires preferences { AreVariablesOfPreferences (lists_of model.now) preferences.now }
    ensures { OnOk result (builder.new ≡ problem_of (lists_of model.now) earlier.now.pairs) }
{
    let objectives = objective_expressions(alloc, model, earlier, preferences)?;
    let variables = define(alloc, builder, objectives.as_slice())?;
    add_objectives(builder, variables.as_slice())?;
    Ok(())
}

/// The variables and clauses of preferences; answers the variables.
fn add_preference_part(
    alloc: Global,
    builder: &mut ProblemBuilder,
    model: &Model,
) -> Result<Vec<u32>, OutOfMemory>
    requires { builder.old ≡ rules_instance (lists_of model.now) }
    ensures added { OnOk result (builder.new ≡ choices_instance (lists_of model.now)) }
    ensures variables { IfOk result (λ variables. AreVariablesOfPreferences (lists_of model.now)
        variables.items) }
{
    let prefers = model.prefers.as_slice();
    let variables = add_bits(alloc, builder, prefers.len())?;
    add_preferences(alloc, builder, model, variables.as_slice(), prefers)?;
    Ok(variables)
}

/// A variable for each expression, behind those that are there, with the rows by which it is the
/// expression's value; answers the variables.
fn define(
    alloc: Global,
    builder: &mut ProblemBuilder,
    expressions: &[Expression],
) -> Result<Vec<u32>, OutOfMemory>
    requires measured { All (IsMeasured builder.old) expressions.now }
    requires room { count_of builder.old + length expressions.now ≤ 2 ^ 32 - 1 }
    requires row_room { length builder.old.rows + 2 * length expressions.now ≤ 2 ^ 32 - 1 }
    ensures added { OnOk result (builder.new ≡ with_defined builder.old expressions.now) }
    ensures variables { IfOk result (λ variables. variables.items ≡ range_with_len
        (count_of builder.old) (length expressions.now)) }
{
    builder.recall_well_formed();
    let ranges = ranges_of(alloc, builder, expressions)?;
    let variables = add_variables(alloc, builder, ranges.as_slice())?;
    add_defining_rows(alloc, builder, variables.as_slice(), expressions)?;
    Ok(variables)
}

fn add_objectives(builder: &mut ProblemBuilder, variables: &[u32]) -> Result<(), OutOfMemory>
    requires known { All (λ v. v < count_of builder.old) variables.now }
    requires room { length builder.old.objectives + length variables.now ≤ max_objectives }
    ensures { OnOk result (builder.new ≡ with_objectives builder.old variables.now) }
{
    for v in variables {
        builder.objective(Var(*v))?;
    }
    Ok(())
}
