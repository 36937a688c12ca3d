//! Constrained goal models as lists, the builder that keeps them well formed, and realizations.
#![tactic(auto)]

mod admission;
mod aids;
mod assignment;
mod builder;
mod facts;
mod formulas;
mod graph;
mod limits;
mod lists;
mod model;
mod names;
mod realization;
mod spelling;
mod stop;
mod totals;

pub use assignment::fits;
pub use builder::ModelBuilder;
pub use cgm_formula::{Assignment, Formula, Linear, Name, Number, Parts, Truth, holds, value};
pub use lists::{
    Assertion, Edge, Element, ElementKind, Lists, Objective, Preference, Quantity, Refinement,
    Rule, Statement, Sum, SumValue, Thing, Variable, Weighing,
};
pub use model::Model;
pub use realization::{Broken, is_realization};
pub use stop::{AddStop, Fault};
pub use totals::sums;
