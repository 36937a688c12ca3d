//! Whether an assignment is a realization, or the first rule that it breaks.
ghost use Rattle.std.specs.Prelude.{◌≡◌, ◌↔◌, ℕ, false, IsTrue, All, MatchOption, slice_index_or};
ghost use Rattle.cgm_base.specs.Place.{Each, FirstFails};
ghost use Rattle.cgm_formula.specs.declared.assignment.Assignment.{Assignment};
ghost use Rattle.cgm_formula.specs.Reading.{name_in, number_in};
ghost use Rattle.cgm_formula.specs.Sizes.{AreSmallIn};
ghost use Rattle.cgm_model.specs.Assignment.{Fits, ElementIsTrue, RefinementIsTrue};
ghost use Rattle.cgm_model.specs.Formulas.{formula_of};
ghost use Rattle.cgm_model.specs.Model.{lists_of};
ghost use Rattle.cgm_model.specs.Sums.{sums_of};
ghost use Rattle.cgm_model.specs.Realization.{IsRealization, IsFirstBroken, KeepsRefinement, KeepsElement, KeepsContrib, KeepsConflict, KeepsBind, KeepsMust, KeepsAssertion, KeepsRule, Refines, TargetIsTrue};
ghost use Rattle.cgm_model.specs.WellFormed.{AreWithinLimits};

use crate::facts::by_target;
use crate::lists::{Assertion, Edge, Element, Refinement, Rule};
use crate::model::Model;
use cgm_formula::{Assignment, Truth, holds, truth_at};
use sqlite_items::at;

/// A rule that an assignment breaks, by the number of what it is about.
#[derive(Clone, Copy, Debug, PartialEq, Eq)]
pub enum Broken {
    /// The refinement isn't true exactly where its sources all are, or its target is false.
    Refinement(u32),
    /// The element is true, and none of its refinements is.
    Element(u32),
    /// The first element is true, and the second isn't.
    Contrib(u32),
    /// Both elements are true.
    Conflict(u32),
    /// Both targets are true, and one of the refinements is.
    Bind(u32),
    /// The goal has `must` and is false.
    Must(u32),
    /// The assertion's element has the other truth value.
    Assert(u32),
    /// The rule's formula doesn't hold, and its condition does.
    Rule(u32),
}

/// Answers the first broken rule: refinements first, then elements, contributions, conflicts,
/// bindings, goals with `must`, assertions and rules, each by number; none where the assignment is
/// a realization. Condition: the assignment fits, and `sums` are the values of the sums. It takes
/// no memory.
pub fn is_realization(model: &Model, assignment: &Assignment, sums: &[i64]) -> Option<Broken>
    requires fits { Fits (lists_of model.now) assignment.now }
    requires sums { sums.now ≡ sums_of (lists_of model.now) assignment.now }
    ensures { MatchOption result (IsRealization (lists_of model.now) assignment.now sums.now)
        (IsFirstBroken (lists_of model.now) assignment.now sums.now) }
{
    if let Some(number) = first_broken_refinement(model, assignment) {
        return Some(Broken::Refinement(number));
    }
    if let Some(number) = first_broken_element(model, assignment) {
        return Some(Broken::Element(number));
    }
    if let Some(number) = first_broken_contrib(model, assignment) {
        return Some(Broken::Contrib(number));
    }
    if let Some(number) = first_broken_conflict(model, assignment) {
        return Some(Broken::Conflict(number));
    }
    if let Some(number) = first_broken_bind(model, assignment) {
        return Some(Broken::Bind(number));
    }
    if let Some(number) = first_broken_must(model, assignment) {
        return Some(Broken::Must(number));
    }
    if let Some(number) = first_broken_assertion(model, assignment) {
        return Some(Broken::Assert(number));
    }
    first_broken_rule(model, assignment, sums).map(Broken::Rule)
}

fn first_broken_refinement(model: &Model, assignment: &Assignment) -> Option<u32>
    ensures { MatchOption result
        (Each (KeepsRefinement assignment.now) model.now.refinements)
        (FirstFails (KeepsRefinement assignment.now) model.now.refinements) }
{
    recall_limits(model);
    for (number, r) in model.refinements.as_slice().iter().enumerate() {
        if !keeps_refinement(assignment, number as u32, r) {
            return Some(number as u32);
        }
    }
    None
}

fn first_broken_element(model: &Model, assignment: &Assignment) -> Option<u32>
    ensures { MatchOption result
        (Each (KeepsElement (lists_of model.now) assignment.now) model.now.elements)
        (FirstFails (KeepsElement (lists_of model.now) assignment.now) model.now.elements) }
{
    recall_limits(model);
    for (number, e) in model.elements.as_slice().iter().enumerate() {
        if !keeps_element(model, assignment, number as u32, e) {
            return Some(number as u32);
        }
    }
    None
}

fn first_broken_contrib(model: &Model, assignment: &Assignment) -> Option<u32>
    ensures { MatchOption result (Each (KeepsContrib assignment.now) model.now.contribs)
        (FirstFails (KeepsContrib assignment.now) model.now.contribs) }
{
    recall_limits(model);
    for (number, e) in model.contribs.as_slice().iter().enumerate() {
        if !keeps_contrib(assignment, e) {
            return Some(number as u32);
        }
    }
    None
}

fn first_broken_conflict(model: &Model, assignment: &Assignment) -> Option<u32>
    ensures { MatchOption result (Each (KeepsConflict assignment.now) model.now.conflicts)
        (FirstFails (KeepsConflict assignment.now) model.now.conflicts) }
{
    recall_limits(model);
    for (number, e) in model.conflicts.as_slice().iter().enumerate() {
        if !keeps_conflict(assignment, e) {
            return Some(number as u32);
        }
    }
    None
}

fn first_broken_bind(model: &Model, assignment: &Assignment) -> Option<u32>
    ensures { MatchOption result (Each (KeepsBind (lists_of model.now) assignment.now)
        model.now.binds) (FirstFails (KeepsBind (lists_of model.now) assignment.now)
        model.now.binds) }
{
    recall_limits(model);
    for (number, e) in model.binds.as_slice().iter().enumerate() {
        if !keeps_bind(model, assignment, e) {
            return Some(number as u32);
        }
    }
    None
}

fn first_broken_must(model: &Model, assignment: &Assignment) -> Option<u32>
    ensures { MatchOption result
        (Each (KeepsMust assignment.now) model.now.elements)
        (FirstFails (KeepsMust assignment.now) model.now.elements) }
{
    recall_limits(model);
    for (number, e) in model.elements.as_slice().iter().enumerate() {
        if !keeps_must(assignment, number as u32, e) {
            return Some(number as u32);
        }
    }
    None
}

fn first_broken_assertion(model: &Model, assignment: &Assignment) -> Option<u32>
    ensures { MatchOption result
        (Each (KeepsAssertion assignment.now) model.now.asserts)
        (FirstFails (KeepsAssertion assignment.now) model.now.asserts) }
{
    recall_limits(model);
    for (number, assertion) in model.asserts.as_slice().iter().enumerate() {
        if !keeps_assertion(assignment, assertion) {
            return Some(number as u32);
        }
    }
    None
}

fn first_broken_rule(model: &Model, assignment: &Assignment, sums: &[i64]) -> Option<u32>
    requires fits { Fits (lists_of model.now) assignment.now }
    requires sums { sums.now ≡ sums_of (lists_of model.now) assignment.now }
    ensures { MatchOption result (Each (KeepsRule assignment.now sums.now) model.now.rules)
        (FirstFails (KeepsRule assignment.now sums.now) model.now.rules) }
{
    recall_limits(model);
    for (number, rule) in model.rules.as_slice().iter().enumerate() {
        if !keeps_rule(assignment, sums, rule) {
            return Some(number as u32);
        }
    }
    None
}

fn keeps_refinement(assignment: &Assignment, number: u32, refinement: &Refinement) -> bool
    ensures { IsTrue result ↔ KeepsRefinement assignment.now number refinement.now }
{
    let all = are_true(assignment, refinement.sources.as_slice());
    if refinement_is_true(assignment, number) {
        all && element_is_true(assignment, refinement.target)
    } else {
        !all
    }
}

fn keeps_element(model: &Model, assignment: &Assignment, number: u32, element: &Element) -> bool
    ensures { IsTrue result ↔ KeepsElement (lists_of model.now) assignment.now number element.now }
{
    if element_is_true(assignment, number) && is_refined(model, number) {
        return has_true_refinement(model, assignment, number);
    }
    true
}

fn keeps_contrib(assignment: &Assignment, edge: &Edge) -> bool
    ensures { IsTrue result ↔ KeepsContrib assignment.now 0 edge.now }
{
    !element_is_true(assignment, edge.from) || element_is_true(assignment, edge.to)
}

fn keeps_conflict(assignment: &Assignment, edge: &Edge) -> bool
    ensures { IsTrue result ↔ KeepsConflict assignment.now 0 edge.now }
{
    !element_is_true(assignment, edge.from) || !element_is_true(assignment, edge.to)
}

fn keeps_bind(model: &Model, assignment: &Assignment, edge: &Edge) -> bool
    ensures { IsTrue result ↔ KeepsBind (lists_of model.now) assignment.now 0 edge.now }
{
    if target_is_true(model, assignment, edge.from) && target_is_true(model, assignment, edge.to) {
        return refinement_is_true(assignment, edge.from) == refinement_is_true(assignment, edge.to);
    }
    true
}

fn target_is_true(model: &Model, assignment: &Assignment, number: u32) -> bool
    ensures { IsTrue result ↔ TargetIsTrue (lists_of model.now) assignment.now number }
{
    match at(model.refinements.as_slice(), number as usize) {
        None => false,
        Some(r) => element_is_true(assignment, r.target),
    }
}

fn keeps_rule(assignment: &Assignment, sums: &[i64], rule: &Rule) -> bool
    requires { AreSmallIn (number_in assignment.now sums.now) (formula_of rule.now) }
    ensures { IsTrue result ↔ KeepsRule assignment.now sums.now 0 rule.now }
{
    match rule {
        Rule::Positive(name, formula) => !name_is_true(assignment, *name)
            || holds(formula, assignment, sums),
        Rule::Negative(name, formula) => name_is_true(assignment, *name)
            || holds(formula, assignment, sums),
        Rule::Require(formula) => holds(formula, assignment, sums),
    }
}

pub(crate) fn name_is_true(assignment: &Assignment, name: Truth) -> bool
    ensures { result ≡ name_in assignment.now name }
{
    match name {
        Truth::Element(number) => element_is_true(assignment, number),
        Truth::Refinement(number) => refinement_is_true(assignment, number),
    }
}

fn keeps_must(assignment: &Assignment, number: u32, element: &Element) -> bool
    ensures { IsTrue result ↔ KeepsMust assignment.now number element.now }
{
    !element.must || element_is_true(assignment, number)
}

fn keeps_assertion(assignment: &Assignment, assertion: &Assertion) -> bool
    ensures { IsTrue result ↔ (ElementIsTrue assignment.now assertion.now.element ↔ IsTrue
        assertion.now.truth) }
{
    element_is_true(assignment, assertion.element) == assertion.truth
}

fn is_refined(model: &Model, element: u32) -> bool
    ensures { IsTrue result ↔ ((k : ℕ) × Refines (lists_of model.now) k element) }
{
    !model.is_leaf(element)
}

fn has_true_refinement(model: &Model, assignment: &Assignment, element: u32) -> bool
    ensures { IsTrue result ↔ ((k : ℕ) × (Refines (lists_of model.now) k element
        × RefinementIsTrue assignment.now k)) }
{
    for number in by_target(&model.facts, element) {
        if is_true_refinement(model, assignment, *number, element) {
            return true;
        }
    }
    false
}

fn is_true_refinement(model: &Model, assignment: &Assignment, number: u32, element: u32) -> bool
    ensures { IsTrue result ↔ (Refines (lists_of model.now) number element
        × RefinementIsTrue assignment.now number) }
{
    match at(model.refinements.as_slice(), number as usize) {
        None => false,
        Some(r) => r.target == element && refinement_is_true(assignment, number),
    }
}

fn are_true(assignment: &Assignment, elements: &[u32]) -> bool
    ensures { IsTrue result ↔ All (ElementIsTrue assignment.now) elements.now }
{
    elements
        .iter()
        .all(|element| element_is_true(assignment, *element))
}

fn element_is_true(assignment: &Assignment, number: u32) -> bool
    ensures { result ≡ slice_index_or assignment.now.elements number false }
{
    truth_at(assignment.elements.as_slice(), number)
}

fn refinement_is_true(assignment: &Assignment, number: u32) -> bool
    ensures { result ≡ slice_index_or assignment.now.refinements number false }
{
    truth_at(assignment.refinements.as_slice(), number)
}

/// Recalls that a model is within its limits.
fn recall_limits(model: &Model)
    ensures { AreWithinLimits (lists_of model.now) }
{}
