//! Literals of formulas, with the naming variables of their nodes.
ghost use Rattle.std.specs.Prelude.{◌≡◌, ◌+◌, ◌≤◌, All, IfOk, OnOk};
ghost use Rattle.cgm_atom.specs.Instance.{var_count};
ghost use Rattle.cgm_model.specs.Formulas.{IsKnownTruth};
ghost use Rattle.cgm_model.specs.Model.{lists_of};
ghost use Rattle.cgm_model.specs.TruthVariables.{variable_of};
ghost use Rattle.cgm_enc_formula.specs.Building.{HasRoomFor, definition_part, definitions_part, with_part};
ghost use Rattle.cgm_enc_formula.specs.Definitions.{at_least, at_most};
ghost use Rattle.cgm_enc_formula.specs.Literals.{positive as positive_of};
ghost use Rattle.cgm_enc_formula.specs.Naming.{equal_definitions, naming, naming_each};
ghost use Rattle.cgm_enc_formula.specs.Terms.{AreRowTerms, IsEncodableFormula, model_variables, row_terms as row_terms_of};

use crate::definitions::{define_all, define_any, define_at_least, define_at_most, define_same};
use crate::literals::{Literal, opposite, positive};
use crate::terms::row_terms;
use cgm_atom::ProblemBuilder;
use cgm_base::OutOfMemory;
use cgm_formula::{Formula, Linear, Truth};
use cgm_model::Model;
use std::alloc::Global;

/// Adds the naming variables of a formula's nodes, each with its clauses and rows, parts before the
/// whole, from the left, and answers the formula's literal.
#[cycle(naming)]
pub(crate) fn name_formula(
    alloc: Global,
    model: &Model,
    builder: &mut ProblemBuilder,
    formula: &Formula,
) -> Result<Literal, OutOfMemory>
    requires formula { IsEncodableFormula (lists_of model.now) builder.old.bounds formula.now }
    requires variables { model_variables (lists_of model.now) ≤ var_count builder.old }
    requires room { HasRoomFor builder.old (definitions_part (var_count builder.old)
        (naming (lists_of model.now) formula.now (var_count builder.old)).definitions) }
    ensures literal { IfOk result (λ l. l ≡ (naming (lists_of model.now) formula.now
        (var_count builder.old)).literal) }
    ensures added { OnOk result (builder.new ≡ with_part builder.old
        (definitions_part (var_count builder.old) (naming (lists_of model.now) formula.now
        (var_count builder.old)).definitions)) }
{
    builder.recall_well_formed();
    match formula {
        Formula::Name(name) => Ok(positive(truth_variable(model, *name))),
        Formula::Not(part) => {
            let l = name_formula(alloc, model, builder, part.get())?;
            Ok(opposite(l))
        }
        Formula::And(parts) => {
            let literals = name_each(alloc, model, builder, parts.as_slice())?;
            define_all(alloc, builder, literals.as_slice())
        }
        Formula::Or(parts) => {
            let literals = name_each(alloc, model, builder, parts.as_slice())?;
            define_any(alloc, builder, literals.as_slice())
        }
        Formula::Implies(premise, conclusion) => {
            let premise = name_formula(alloc, model, builder, premise.get())?;
            let conclusion = name_formula(alloc, model, builder, conclusion.get())?;
            define_any(alloc, builder, &[opposite(premise), conclusion])
        }
        Formula::Iff(one, other) => {
            let one = name_formula(alloc, model, builder, one.get())?;
            let other = name_formula(alloc, model, builder, other.get())?;
            define_same(alloc, builder, one, other)
        }
        Formula::AtMost(linear, k) => name_at_most(alloc, model, builder, linear, *k),
        Formula::AtLeast(linear, k) => name_at_least(alloc, model, builder, linear, *k),
        Formula::Equal(linear, k) => name_equal(alloc, model, builder, linear, *k),
    }
}

/// The same for each of a list of formulas.
#[cycle(naming)]
fn name_each(
    alloc: Global,
    model: &Model,
    builder: &mut ProblemBuilder,
    parts: &[Formula],
) -> Result<Vec<Literal>, OutOfMemory>
    requires formulas { All (IsEncodableFormula (lists_of model.now) builder.old.bounds) parts.now }
    requires variables { model_variables (lists_of model.now) ≤ var_count builder.old }
    requires room { HasRoomFor builder.old (definitions_part (var_count builder.old)
        (naming_each (lists_of model.now) parts.now (var_count builder.old)).definitions) }
    ensures literals { IfOk result (λ ls. ls.items ≡ (naming_each (lists_of model.now) parts.now
        (var_count builder.old)).literals) }
    ensures added { OnOk result (builder.new ≡ with_part builder.old
        (definitions_part (var_count builder.old) (naming_each (lists_of model.now) parts.now
        (var_count builder.old)).definitions)) }
{
    let mut literals = Vec::new(alloc);
    for part in parts {
        builder.recall_well_formed();
        literals.push(name_formula(alloc, model, builder, part)?)?;
    }
    Ok(literals)
}

/// The variable of `<=`.
fn name_at_most(
    alloc: Global,
    model: &Model,
    builder: &mut ProblemBuilder,
    linear: &Linear,
    k: i64,
) -> Result<Literal, OutOfMemory>
    requires comparison { AreRowTerms (lists_of model.now) builder.old.bounds (linear.now, k) }
    requires variables { model_variables (lists_of model.now) ≤ var_count builder.old }
    requires room { HasRoomFor builder.old (definition_part (var_count builder.old)
        (at_most (row_terms_of (lists_of model.now) linear.now) k)) }
    ensures literal { IfOk result (λ l. l ≡ positive_of (var_count builder.old)) }
    ensures added { OnOk result (builder.new ≡ with_part builder.old
        (definition_part (var_count builder.old) (at_most
        (row_terms_of (lists_of model.now) linear.now) k))) }
{
    let terms = row_terms(alloc, model, linear)?;
    define_at_most(alloc, builder, terms.as_slice(), k)
}

/// The variable of `>=`.
fn name_at_least(
    alloc: Global,
    model: &Model,
    builder: &mut ProblemBuilder,
    linear: &Linear,
    k: i64,
) -> Result<Literal, OutOfMemory>
    requires comparison { AreRowTerms (lists_of model.now) builder.old.bounds (linear.now, k) }
    requires variables { model_variables (lists_of model.now) ≤ var_count builder.old }
    requires room { HasRoomFor builder.old (definition_part (var_count builder.old)
        (at_least (row_terms_of (lists_of model.now) linear.now) k)) }
    ensures literal { IfOk result (λ l. l ≡ positive_of (var_count builder.old)) }
    ensures added { OnOk result (builder.new ≡ with_part builder.old
        (definition_part (var_count builder.old) (at_least
        (row_terms_of (lists_of model.now) linear.now) k))) }
{
    let terms = row_terms(alloc, model, linear)?;
    define_at_least(alloc, builder, terms.as_slice(), k)
}

/// The variables of `=`: that of `<=`, that of `>=`, and one that is true where both are.
fn name_equal(
    alloc: Global,
    model: &Model,
    builder: &mut ProblemBuilder,
    linear: &Linear,
    k: i64,
) -> Result<Literal, OutOfMemory>
    requires comparison { AreRowTerms (lists_of model.now) builder.old.bounds (linear.now, k) }
    requires variables { model_variables (lists_of model.now) ≤ var_count builder.old }
    requires room { HasRoomFor builder.old (definitions_part (var_count builder.old)
        (equal_definitions (lists_of model.now) linear.now k (var_count builder.old))) }
    ensures literal { IfOk result (λ l. l ≡ positive_of (var_count builder.old + 2)) }
    ensures added { OnOk result (builder.new ≡ with_part builder.old
        (definitions_part (var_count builder.old) (equal_definitions (lists_of model.now) linear.now
        k (var_count builder.old)))) }
{
    builder.recall_well_formed();
    let most = name_at_most(alloc, model, builder, linear, k)?;
    let least = name_at_least(alloc, model, builder, linear, k)?;
    define_all(alloc, builder, &[most, least])
}

/// The problem's variable of an element or a refinement.
pub(crate) fn truth_variable(model: &Model, name: Truth) -> u32
    requires { IsKnownTruth (lists_of model.now) name }
    ensures { result ≡ variable_of (lists_of model.now) name }
{
    match name {
        Truth::Element(k) => k,
        Truth::Refinement(k) => model.elements.as_slice().len() as u32 + k,
    }
}
