//! The terms of rows.
ghost use Rattle.std.specs.Prelude.{◌≡◌, ◌<◌, ◌^◌, [], ◌∷◌, IfOk, OnOk, neg_ℤ, unsigned_abs, All};
ghost use Rattle.cgm_atom.specs.Limits.{AreTermsOf};
ghost use Rattle.cgm_model.specs.Model.{lists_of};
ghost use Rattle.cgm_enc_formula.specs.Definitions.{negative as negative_of};
ghost use Rattle.cgm_enc_formula.specs.Terms.{AreApart, all_terms_placed, as_terms, model_variables, nonzero, number_variable as variable_in, row_terms as row_terms_of, variable_terms};

use cgm_atom::Var;
use cgm_base::OutOfMemory;
use cgm_formula::{Linear, Number};
use cgm_model::Model;
use std::alloc::Global;
use std::collections::BTreeMap;

/// The terms of a linear expression that have a coefficient other than 0, by ascending variable.
pub(crate) fn row_terms(
    alloc: Global,
    model: &Model,
    linear: &Linear,
) -> Result<Vec<(i64, Var)>, OutOfMemory>
    requires { AreTermsOf (model_variables (lists_of model.now))
        (nonzero (variable_terms (lists_of model.now) linear.now.terms)) }
    ensures { IfOk result (λ terms. terms.items ≡ row_terms_of (lists_of model.now) linear.now) }
{
    let coefficients = by_variable(alloc, model, linear.terms.as_slice())?;
    table_terms(alloc, &coefficients)
}

/// The terms of a table of coefficients, by ascending variable.
fn table_terms(
    alloc: Global,
    coefficients: &BTreeMap<u32, i64>,
) -> Result<Vec<(i64, Var)>, OutOfMemory>
    ensures { IfOk result (λ terms. terms.items ≡ as_terms coefficients.now.entries) }
{
    let mut terms = Vec::new(alloc);
    for (variable, coefficient) in coefficients {
        terms.push((*coefficient, Var(*variable)))?;
    }
    Ok(terms)
}

/// The coefficients other than 0, each at its variable.
fn by_variable(
    alloc: Global,
    model: &Model,
    terms: &[(i64, Number)],
) -> Result<BTreeMap<u32, i64>, OutOfMemory>
    requires { AreTermsOf (model_variables (lists_of model.now))
        (nonzero (variable_terms (lists_of model.now) terms.now)) }
    ensures { IfOk result (λ coefficients. as_terms coefficients.entries ≡ all_terms_placed []
        (nonzero (variable_terms (lists_of model.now) terms.now))) }
{
    let mut coefficients = BTreeMap::new(alloc);
    for term in terms {
        insert_term(model, &mut coefficients, term)?;
    }
    Ok(coefficients)
}

fn insert_term(
    model: &Model,
    coefficients: &mut BTreeMap<u32, i64>,
    term: &(i64, Number),
) -> Result<(), OutOfMemory>
    requires known { AreTermsOf (model_variables (lists_of model.now))
        (nonzero (variable_terms (lists_of model.now) (term.now ∷ []))) }
    requires new { AreApart (as_terms coefficients.old.entries)
        (nonzero (variable_terms (lists_of model.now) (term.now ∷ []))) }
    ensures { OnOk result (as_terms coefficients.new.entries ≡ all_terms_placed
        (as_terms coefficients.old.entries) (nonzero
        (variable_terms (lists_of model.now) (term.now ∷ [])))) }
{
    if term.0 == 0 {
        return Ok(());
    }
    coefficients.insert(number_variable(model, term.1), term.0)?;
    Ok(())
}

/// The problem's variable of a variable or a sum of the model.
pub(crate) fn number_variable(model: &Model, number: Number) -> u32
    requires { variable_in (lists_of model.now) number < model_variables (lists_of model.now) }
    ensures { result ≡ variable_in (lists_of model.now) number }
{
    let truths = model.elements.as_slice().len() as u32 + model.refinements.as_slice().len() as u32;
    match number {
        Number::Var(k) => truths + k,
        Number::Sum(k) => truths + model.vars.as_slice().len() as u32 + k,
    }
}

/// Each coefficient with its sign changed.
pub fn negative(alloc: Global, terms: &[(i64, Var)]) -> Result<Vec<(i64, Var)>, OutOfMemory>
    requires { All (λ t. unsigned_abs t.0 < 2 ^ 63) terms.now }
    ensures { IfOk result (λ negated. negated.items ≡ negative_of terms.now) }
{
    let mut negated = Vec::new(alloc);
    for term in terms {
        negated.push(negated_term(term))?;
    }
    Ok(negated)
}

fn negated_term(term: &(i64, Var)) -> (i64, Var)
    requires { unsigned_abs term.now.0 < 2 ^ 63 }
    ensures { result ≡ (neg_ℤ term.now.0, term.now.1) }
{
    (-term.0, term.1)
}
