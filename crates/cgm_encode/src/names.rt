//! The problem's variables of what a model has names for.
ghost use Rattle.std.specs.Prelude.{◌≡◌, ◌<◌, length};
ghost use Rattle.cgm_formula.specs.declared.formula.Number.TheVariants as number;
ghost use Rattle.cgm_model.specs.Formulas.{IsKnownTruth};
ghost use Rattle.cgm_model.specs.Model.{lists_of};
ghost use Rattle.cgm_model.specs.TruthVariables.{truth_variables, variable_of};
ghost use Rattle.cgm_enc_formula.specs.Terms.{number_variable as variable_of_number};

use cgm_model::{Model, Truth};

/// The variable of an element or a refinement.
pub(crate) fn truth_variable(model: &Model, name: Truth) -> u32
    requires { IsKnownTruth (lists_of model.now) name }
    ensures known { result < truth_variables (lists_of model.now) }
    ensures variable { result ≡ variable_of (lists_of model.now) name }
{
    match name {
        Truth::Element(k) => k,
        Truth::Refinement(k) => model.elements.as_slice().len() as u32 + k,
    }
}

/// How many variables elements and refinements have.
pub(crate) fn truth_count(model: &Model) -> u32
    ensures { result ≡ truth_variables (lists_of model.now) }
{
    model.elements.as_slice().len() as u32 + model.refinements.as_slice().len() as u32
}

/// The variable of a variable of the model.
pub(crate) fn own_variable(model: &Model, k: u32) -> u32
    requires { k < length model.now.vars }
    ensures { result ≡ variable_of_number (lists_of model.now) (number.Var k) }
{
    truth_count(model) + k
}

/// The variable of a sum.
pub(crate) fn sum_variable(model: &Model, k: u32) -> u32
    requires { k < length model.now.sums }
    ensures { result ≡ variable_of_number (lists_of model.now) (number.Sum k) }
{
    truth_count(model) + model.vars.as_slice().len() as u32 + k
}

pub(crate) fn element_count(model: &Model) -> u32
    ensures { result ≡ length model.now.elements }
{
    model.elements.as_slice().len() as u32
}

pub(crate) fn refinement_count(model: &Model) -> u32
    ensures { result ≡ length model.now.refinements }
{
    model.refinements.as_slice().len() as u32
}

pub(crate) fn var_count(model: &Model) -> u32
    ensures { result ≡ length model.now.vars }
{
    model.vars.as_slice().len() as u32
}
