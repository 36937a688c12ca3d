//! Counts of preferences, requirements and tasks.
ghost use Rattle.std.specs.Prelude.{◌≡◌, ◌&&◌, ◌≤◌, not, pos, count_by, length, slice_get};
ghost use Rattle.cgm_base.specs.declared.limit.Which.TheVariants as limits;
ghost use Rattle.cgm_base.specs.Words.{limit_number};
ghost use Rattle.cgm_formula.specs.Reading.{name_in};
ghost use Rattle.cgm_model.specs.Model.{lists_of};
ghost use Rattle.cgm_evolve.specs.Costs as costs;
ghost use Rattle.cgm_obj.specs.Counts as counts;

use cgm_formula::truth_at;
use cgm_model::{Assignment, ElementKind, Model, Preference, Truth};

/// Says whether the element is true; what isn't there is false, here and below.
pub(crate) fn is_true(assignment: &Assignment, element: u32) -> bool
    ensures { result ≡ costs.is_true assignment.now element }
{
    truth_at(assignment.elements.as_slice(), element)
}

fn name_is_true(assignment: &Assignment, name: Truth) -> bool
    ensures { result ≡ name_in assignment.now name }
{
    match name {
        Truth::Element(element) => is_true(assignment, element),
        Truth::Refinement(refinement) => truth_at(assignment.refinements.as_slice(), refinement),
    }
}

fn is_met(assignment: &Assignment, preference: &Preference) -> bool
    ensures { result ≡ counts.is_met assignment.now preference.now }
{
    name_is_true(assignment, preference.better) || !name_is_true(assignment, preference.worse)
}

fn number(count: usize) -> i64
    requires { count ≤ limit_number limits.Statements }
    ensures { result ≡ pos count }
{
    count as i64
}

fn prefers(model: &Model) -> &[Preference]
    ensures items { result.now ≡ model.now.prefers }
    ensures few { length result.now ≤ limit_number limits.Statements }
{
    model.prefers.as_slice()
}

fn unmet_among(assignment: &Assignment, prefers: &[Preference]) -> usize
    ensures { result ≡ count_by (λ p. not (counts.is_met assignment.now p)) prefers.now }
{
    prefers.iter().filter(|p| !is_met(assignment, *p)).count()
}

/// How many preferences aren't met.
pub(crate) fn unsat_prefs(model: &Model, assignment: &Assignment) -> i64
    ensures { result ≡ pos (counts.unsat_prefs (lists_of model.now) assignment.now) }
{
    number(unmet_among(assignment, prefers(model)))
}

fn is_goal(kind: ElementKind) -> bool
    ensures { result ≡ counts.is_goal kind }
{
    match kind {
        ElementKind::Goal => true,
        ElementKind::Task => false,
        ElementKind::Assume => false,
    }
}

fn is_free_goal(model: &Model, element: u32) -> bool
    ensures { result ≡ counts.is_free_goal (slice_get model.now.elements element) }
{
    match model.elements.as_slice().get(element as usize) {
        None => false,
        Some(e) => is_goal(e.kind) && !e.must,
    }
}

/// Says whether the element is a requirement without `must`: a goal without it that is a source of no
/// refinement. It takes no memory.
pub fn is_free_requirement(model: &Model, element: u32) -> bool
    ensures { result ≡ counts.is_free_requirement (lists_of model.now) element }
{
    is_free_goal(model, element) && !model.is_source(element)
}

/// Says whether the element is a false requirement without `must`.
fn is_unmet_requirement(model: &Model, assignment: &Assignment, element: u32) -> bool
    ensures { result ≡ (counts.is_free_requirement (lists_of model.now) element && not
        (costs.is_true assignment.now element)) }
{
    is_free_requirement(model, element) && !is_true(assignment, element)
}

fn element_count(model: &Model) -> u32
    ensures { result ≡ length model.now.elements }
{
    model.elements.as_slice().len() as u32
}

fn unmet_requirements(model: &Model, assignment: &Assignment) -> usize
    ensures count { result ≡ counts.unsat_reqs (lists_of model.now) assignment.now }
    ensures few { result ≤ limit_number limits.Statements }
{
    (0..element_count(model))
        .filter(|element| is_unmet_requirement(model, assignment, *element))
        .count()
}

/// How many requirements without `must` are false.
pub(crate) fn unsat_reqs(model: &Model, assignment: &Assignment) -> i64
    ensures { result ≡ pos (counts.unsat_reqs (lists_of model.now) assignment.now) }
{
    number(unmet_requirements(model, assignment))
}

fn true_leaf_tasks(model: &Model, assignment: &Assignment) -> usize
    ensures count { result ≡ counts.sat_tasks (lists_of model.now) assignment.now }
    ensures few { result ≤ limit_number limits.Statements }
{
    (0..element_count(model))
        .filter(|element| model.is_leaf_task(*element))
        .filter(|element| is_true(assignment, *element))
        .count()
}

/// How many leaf tasks are true.
pub(crate) fn sat_tasks(model: &Model, assignment: &Assignment) -> i64
    ensures { result ≡ pos (counts.sat_tasks (lists_of model.now) assignment.now) }
{
    number(true_leaf_tasks(model, assignment))
}
