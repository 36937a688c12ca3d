//! The value of a quantity.
ghost use Rattle.std.specs.Prelude.{◌≡◌};
ghost use Rattle.cgm_model.specs.Assignment.{Fits};
ghost use Rattle.cgm_model.specs.Model.{lists_of};
ghost use Rattle.cgm_model.specs.Sums.{sums_of};
ghost use Rattle.cgm_obj.specs.Vector as vectors;

use crate::counts::{sat_tasks, unsat_prefs, unsat_reqs};
use crate::weights::weight;
use cgm_evolve::{Earlier, effort, familiarity};
use cgm_formula::number_at;
use cgm_model::{Assignment, Model, Quantity};

/// The value of a quantity.
pub(crate) fn quantity(
    model: &Model,
    earlier: &Earlier,
    assignment: &Assignment,
    sums: &[i64],
    asked: Quantity,
) -> i64
    requires fits { Fits (lists_of model.now) assignment.now }
    requires sums { sums.now ≡ sums_of (lists_of model.now) assignment.now }
    ensures { result ≡ vectors.quantity (lists_of model.now) earlier.now.pairs assignment.now
        asked }
{
    match asked {
        Quantity::Var(k) => number_at(assignment.vars.as_slice(), k),
        Quantity::Sum(k) => number_at(sums, k),
        Quantity::Weight => weight(model, assignment),
        Quantity::UnsatPrefs => unsat_prefs(model, assignment),
        Quantity::UnsatReqs => unsat_reqs(model, assignment),
        Quantity::SatTasks => sat_tasks(model, assignment),
        Quantity::Familiarity => familiarity(model, earlier, assignment),
        Quantity::Effort => effort(model, earlier, assignment),
    }
}
