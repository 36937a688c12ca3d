//! Familiarity and effort: what a realization changes of an earlier one, and what is new work.
ghost use Rattle.std.specs.Prelude.{◌≡◌, ◌≤◌, [], pos, length, count_by};
ghost use Rattle.std.specs.List.{slice_index_or};
ghost use Rattle.cgm_base.specs.declared.limit.Which.TheVariants as limits;
ghost use Rattle.cgm_base.specs.Words.{limit_number};
ghost use Rattle.cgm_model.specs.Assignment.{Fits};
ghost use Rattle.cgm_model.specs.Model.{lists_of};
ghost use Rattle.cgm_model.specs.Named.{element_names};
ghost use Rattle.cgm_evolve.specs.Costs as costs;
ghost use Rattle.cgm_model.specs.Leaves.{leaf_tasks};

use crate::earlier::Earlier;
use cgm_formula::truth_at;
use cgm_model::{Assignment, Model};

/// What is counted of the elements of interest.
#[derive(Clone, Copy)]
pub(crate) enum Cost {
    Familiarity,
    Effort,
}

/// The number of elements.
fn element_count(model: &Model) -> u32
    ensures count { result ≡ length model.now.elements }
    ensures few { result ≤ limit_number limits.Elements }
{
    model.elements.as_slice().len() as u32
}

/// The name of an element, or an empty one where there is no such element.
fn element_name(model: &Model, element: u32) -> &[u8]
    ensures { result.now ≡ slice_index_or (element_names (lists_of model.now)) element [] }
{
    match model.elements.as_slice().get(element as usize) {
        None => b"",
        Some(e) => e.name.as_slice(),
    }
}

fn is_true(assignment: &Assignment, element: u32) -> bool
    ensures { result ≡ costs.is_true assignment.now element }
{
    truth_at(assignment.elements.as_slice(), element)
}

fn earlier_truth(model: &Model, earlier: &Earlier, element: u32) -> Option<bool>
    ensures { result ≡ costs.earlier_truth (lists_of model.now) earlier.now.pairs element }
{
    earlier.truth_of(element_name(model, element))
}

fn differs(earlier: Option<bool>, truth: bool) -> bool
    ensures { result ≡ costs.differs earlier truth }
{
    match earlier {
        None => truth,
        Some(before) => { if before { !truth } else { truth } }
    }
}

fn is_changed(model: &Model, earlier: &Earlier, assignment: &Assignment, element: u32) -> bool
    ensures { result ≡ costs.is_changed (lists_of model.now) earlier.now.pairs assignment.now
        element }
{
    differs(
        earlier_truth(model, earlier, element),
        is_true(assignment, element),
    )
}

fn was_true(earlier: Option<bool>) -> bool
    ensures { result ≡ costs.was_true earlier }
{
    match earlier {
        None => false,
        Some(truth) => truth,
    }
}

fn is_new_work(model: &Model, earlier: &Earlier, assignment: &Assignment, element: u32) -> bool
    ensures { result ≡ costs.is_new_work (lists_of model.now) earlier.now.pairs assignment.now
        element }
{
    model.is_leaf_task(element)
        && is_true(assignment, element)
        && !was_true(earlier_truth(model, earlier, element))
}

/// The elements on interest lines.
fn interests(model: &Model) -> &[u32]
    ensures items { result.now ≡ model.now.interests }
    ensures few { length result.now ≤ limit_number limits.Statements }
{
    model.interests.as_slice()
}

/// Whether the element counts for this cost.
fn is_counted(
    cost: Cost,
    model: &Model,
    earlier: &Earlier,
    assignment: &Assignment,
    element: u32,
) -> bool
    ensures { result ≡ costs.is_counted cost (lists_of model.now) earlier.now.pairs assignment.now
        element }
{
    match cost {
        Cost::Familiarity => is_changed(model, earlier, assignment, element),
        Cost::Effort => is_new_work(model, earlier, assignment, element),
    }
}

/// How many of these elements count.
fn counted_among(
    cost: Cost,
    model: &Model,
    earlier: &Earlier,
    assignment: &Assignment,
    elements: &[u32],
) -> usize
    ensures { result ≡ count_by (costs.is_counted cost (lists_of model.now) earlier.now.pairs
        assignment.now) elements.now }
{
    elements
        .iter()
        .filter(|element| is_counted(cost, model, earlier, assignment, **element))
        .count()
}

/// How many leaf tasks count.
fn counted_leaf_tasks(
    cost: Cost,
    model: &Model,
    earlier: &Earlier,
    assignment: &Assignment,
) -> usize
    ensures { result ≡ count_by (costs.is_counted cost (lists_of model.now) earlier.now.pairs
        assignment.now) (leaf_tasks (lists_of model.now)) }
{
    (0..element_count(model))
        .filter(|element| model.is_leaf_task(*element))
        .filter(|element| is_counted(cost, model, earlier, assignment, *element))
        .count()
}

/// How many elements of interest count.
fn counted(cost: Cost, model: &Model, earlier: &Earlier, assignment: &Assignment) -> usize
    ensures count { result ≡ count_by (costs.is_counted cost (lists_of model.now) earlier.now.pairs
        assignment.now) (costs.elements_of_interest (lists_of model.now)) }
    ensures few { result ≤ limit_number limits.Statements }
{
    let interests = interests(model);
    if interests.is_empty() {
        return counted_leaf_tasks(cost, model, earlier, assignment);
    }
    counted_among(cost, model, earlier, assignment, interests)
}

fn number(count: usize) -> i64
    requires { count ≤ limit_number limits.Statements }
    ensures { result ≡ pos count }
{
    count as i64
}

/// The familiarity of an assignment that fits: how many elements of interest have another truth than
/// the earlier one, or aren't known there and are true. It takes no memory.
pub fn familiarity(model: &Model, earlier: &Earlier, assignment: &Assignment) -> i64
    requires { Fits (lists_of model.now) assignment.now }
    ensures { result ≡ pos (costs.familiarity (lists_of model.now) earlier.now.pairs
        assignment.now) }
{
    number(counted(Cost::Familiarity, model, earlier, assignment))
}

/// The effort of an assignment that fits: how many elements of interest are leaf tasks that are true,
/// and were false or aren't known in the earlier realization. It takes no memory.
pub fn effort(model: &Model, earlier: &Earlier, assignment: &Assignment) -> i64
    requires { Fits (lists_of model.now) assignment.now }
    ensures { result ≡ pos (costs.effort (lists_of model.now) earlier.now.pairs assignment.now) }
{
    number(counted(Cost::Effort, model, earlier, assignment))
}
