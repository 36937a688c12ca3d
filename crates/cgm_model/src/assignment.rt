//! Whether an assignment fits a model.
ghost use Rattle.std.specs.Prelude.{◌↔◌, ◌≡◌, ◌<◌, length, IsTrue};
ghost use Rattle.cgm_model.specs.Assignment.{Fits, IsWithinBounds};
ghost use Rattle.cgm_model.specs.Model.{lists_of};
ghost use Rattle.cgm_base.specs.Place.{Each};

use crate::lists::Variable;
use crate::model::Model;
use cgm_formula::Assignment;

/// Says whether the assignment has one truth value for each element and each refinement, and for
/// each variable a number within its bounds. It takes no memory.
pub fn fits(model: &Model, assignment: &Assignment) -> bool
    ensures { IsTrue result ↔ Fits (lists_of model.now) assignment.now }
{
    assignment.elements.as_slice().len() == model.elements.as_slice().len()
        && assignment.refinements.as_slice().len() == model.refinements.as_slice().len()
        && assignment.vars.as_slice().len() == model.vars.as_slice().len()
        && are_within(model.vars.as_slice(), assignment.vars.as_slice())
}

fn are_within(vars: &[Variable], values: &[i64]) -> bool
    requires { length values.now ≡ length vars.now }
    ensures { IsTrue result ↔ Each (IsWithinBounds values.now) vars.now }
{
    for (place, v) in vars.iter().enumerate() {
        if !is_within(values, place, v) {
            return false;
        }
    }
    true
}

fn is_within(values: &[i64], place: usize, variable: &Variable) -> bool
    requires { place < length values.now }
    ensures { IsTrue result ↔ IsWithinBounds values.now place variable.now }
{
    variable.lo <= values[place] && values[place] <= variable.hi
}
