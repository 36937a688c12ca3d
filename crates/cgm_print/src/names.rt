//! The names of what lines point to; what isn't there has an empty one.
ghost use Rattle.std.specs.Prelude.{◌≡◌};
ghost use Rattle.cgm_model.specs.Model.{lists_of};
ghost use Rattle.cgm_print.specs.Canonical.{element_name as name_of_element, number_name as name_of_number, quantity_name as name_of_quantity, refinement_name as name_of_refinement, sum_name as name_of_sum, truth_name as name_of_truth, variable_name as name_of_variable};

use cgm_model::{Model, Number, Quantity, Truth};
use sqlite_items::at;

/// The name of an element.
pub fn element_name(model: &Model, k: u32) -> &[u8]
    ensures { result.now ≡ name_of_element (lists_of model.now) k }
{
    match at(model.elements.as_slice(), k as usize) {
        None => b"",
        Some(element) => element.name.as_slice(),
    }
}

/// The name of a refinement.
pub fn refinement_name(model: &Model, k: u32) -> &[u8]
    ensures { result.now ≡ name_of_refinement (lists_of model.now) k }
{
    match at(model.refinements.as_slice(), k as usize) {
        None => b"",
        Some(refinement) => refinement.name.as_slice(),
    }
}

/// The name of an element or a refinement.
pub fn truth_name(model: &Model, truth: Truth) -> &[u8]
    ensures { result.now ≡ name_of_truth (lists_of model.now) truth }
{
    match truth {
        Truth::Element(k) => element_name(model, k),
        Truth::Refinement(k) => refinement_name(model, k),
    }
}

/// The name of a variable.
pub fn variable_name(model: &Model, k: u32) -> &[u8]
    ensures { result.now ≡ name_of_variable (lists_of model.now) k }
{
    match at(model.vars.as_slice(), k as usize) {
        None => b"",
        Some(variable) => variable.name.as_slice(),
    }
}

/// The name of a sum.
pub fn sum_name(model: &Model, k: u32) -> &[u8]
    ensures { result.now ≡ name_of_sum (lists_of model.now) k }
{
    match at(model.sums.as_slice(), k as usize) {
        None => b"",
        Some(sum) => sum.name.as_slice(),
    }
}

/// The name of a variable or a sum.
pub fn number_name(model: &Model, x: Number) -> &[u8]
    ensures { result.now ≡ name_of_number (lists_of model.now) x }
{
    match x {
        Number::Var(k) => variable_name(model, k),
        Number::Sum(k) => sum_name(model, k),
    }
}

/// The name of a variable or a sum, or the word of a built-in quantity.
pub fn quantity_name(model: &Model, quantity: Quantity) -> &[u8]
    ensures { result.now ≡ name_of_quantity (lists_of model.now) quantity }
{
    match quantity {
        Quantity::Var(k) => variable_name(model, k),
        Quantity::Sum(k) => sum_name(model, k),
        _ => quantity.word(),
    }
}
