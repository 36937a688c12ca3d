//! A well-formed model.
ghost use Rattle.cgm_model.specs.Facts.{AreFacts};
ghost use Rattle.cgm_model.specs.Lists.{lists};
ghost use Rattle.cgm_model.specs.WellFormed.{IsWellFormedModel};

use crate::facts::Facts;
use crate::lists::{
    Assertion, Edge, Element, Objective, Preference, Refinement, Rule, Sum, SumValue, Variable,
    Weighing,
};
use cgm_formula::Parts;

/// A well-formed model: its statements by group, each group in order.
#[derive(Drop)]
pub struct Model {
    pub elements: Parts<Element>,
    pub refinements: Parts<Refinement>,
    pub vars: Parts<Variable>,
    pub sums: Parts<Sum>,
    pub contribs: Parts<Edge>,
    pub conflicts: Parts<Edge>,
    pub binds: Parts<Edge>,
    pub asserts: Parts<Assertion>,
    pub values: Parts<SumValue>,
    pub rewards: Parts<Weighing>,
    pub penalties: Parts<Weighing>,
    pub prefers: Parts<Preference>,
    pub rules: Parts<Rule>,
    pub interests: Parts<u32>,
    pub objectives: Parts<Objective>,
    /// What its goal graph's elements are, each found in one look.
    pub(crate) facts: Facts,
    pub ghost well_formed: { ∥ IsWellFormedModel (lists elements refinements vars sums contribs conflicts binds asserts values rewards penalties prefers rules interests objectives) ∥₁ },
    pub ghost known: { ∥ AreFacts refinements facts ∥₁ },
}
