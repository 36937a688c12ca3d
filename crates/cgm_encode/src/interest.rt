//! Elements that quantities count.
ghost use Rattle.std.specs.Prelude.{◌≡◌, ◌++◌, ◌∷◌, [], filter, IfOk, OnOk};
ghost use Rattle.cgm_model.specs.Leaves as leaves;
ghost use Rattle.cgm_model.specs.Model.{lists_of};
ghost use Rattle.cgm_evolve.specs.Costs as costs;
ghost use Rattle.cgm_obj.specs.Counts as counts;
ghost use Rattle.cgm_encode.specs.Quantities as quantities;

use crate::names::element_count;
use cgm_base::OutOfMemory;
use cgm_evolve::Earlier;
use cgm_model::Model;
use cgm_obj::is_free_requirement;
use std::alloc::Global;

/// The leaf tasks, by number.
pub(crate) fn leaf_tasks(alloc: Global, model: &Model) -> Result<Vec<u32>, OutOfMemory>
    ensures { IfOk result (λ tasks. tasks.items ≡ leaves.leaf_tasks (lists_of model.now)) }
{
    let mut tasks = Vec::new(alloc);
    for element in 0..element_count(model) {
        push_leaf_task(&mut tasks, model, element)?;
    }
    Ok(tasks)
}

fn push_leaf_task(tasks: &mut Vec<u32>, model: &Model, element: u32) -> Result<(), OutOfMemory>
    ensures { OnOk result (tasks.new.items ≡ tasks.old.items ++ filter
        (leaves.is_leaf_task (lists_of model.now)) (element ∷ [])) }
{
    if model.is_leaf_task(element) {
        tasks.push(element)?;
    }
    Ok(())
}

/// The elements on interest lines, or the leaf tasks where there is no such line.
pub(crate) fn elements_of_interest(alloc: Global, model: &Model) -> Result<Vec<u32>, OutOfMemory>
    ensures { IfOk result (λ elements. elements.items ≡ costs.elements_of_interest
        (lists_of model.now)) }
{
    let interests = model.interests.as_slice();
    if interests.is_empty() {
        return leaf_tasks(alloc, model);
    }
    Vec::from_slice(alloc, interests)
}

/// Whether the element was true in the earlier realization.
pub(crate) fn was_true_before(model: &Model, earlier: &Earlier, element: u32) -> bool
    ensures { result ≡ quantities.was_true_before (lists_of model.now) earlier.now.pairs element }
{
    match model.elements.as_slice().get(element as usize) {
        None => was_true(earlier.truth_of(b"")),
        Some(own) => was_true(earlier.truth_of(own.name.as_slice())),
    }
}

fn was_true(earlier: Option<bool>) -> bool
    ensures { result ≡ costs.was_true earlier }
{
    match earlier {
        None => false,
        Some(truth) => truth,
    }
}

/// The leaf tasks of interest that weren't true.
pub(crate) fn possible_work(
    alloc: Global,
    model: &Model,
    earlier: &Earlier,
) -> Result<Vec<u32>, OutOfMemory>
    ensures { IfOk result (λ tasks. tasks.items ≡ quantities.possible_work (lists_of model.now)
        earlier.now.pairs) }
{
    let interest = elements_of_interest(alloc, model)?;
    let tasks = work_among(alloc, model, earlier, interest.as_slice())?;
    Ok(tasks)
}

/// The leaf tasks among these elements that weren't true.
fn work_among(
    alloc: Global,
    model: &Model,
    earlier: &Earlier,
    elements: &[u32],
) -> Result<Vec<u32>, OutOfMemory>
    ensures { IfOk result (λ tasks. tasks.items ≡ filter
        (quantities.is_possible_work (lists_of model.now) earlier.now.pairs) elements.now) }
{
    let mut tasks = Vec::new(alloc);
    for element in elements {
        push_possible_work(&mut tasks, model, earlier, *element)?;
    }
    Ok(tasks)
}

fn push_possible_work(
    tasks: &mut Vec<u32>,
    model: &Model,
    earlier: &Earlier,
    element: u32,
) -> Result<(), OutOfMemory>
    ensures { OnOk result (tasks.new.items ≡ tasks.old.items ++ filter
        (quantities.is_possible_work (lists_of model.now) earlier.now.pairs) (element ∷ [])) }
{
    if is_possible_work(model, earlier, element) {
        tasks.push(element)?;
    }
    Ok(())
}

fn is_possible_work(model: &Model, earlier: &Earlier, element: u32) -> bool
    ensures { result ≡ quantities.is_possible_work (lists_of model.now) earlier.now.pairs element }
{
    model.is_leaf_task(element) && !was_true_before(model, earlier, element)
}

/// The requirements without `must`, by number.
pub(crate) fn free_requirements(alloc: Global, model: &Model) -> Result<Vec<u32>, OutOfMemory>
    ensures { IfOk result (λ elements. elements.items ≡ quantities.free_requirements
        (lists_of model.now)) }
{
    let mut requirements = Vec::new(alloc);
    for element in 0..element_count(model) {
        push_free_requirement(&mut requirements, model, element)?;
    }
    Ok(requirements)
}

fn push_free_requirement(
    requirements: &mut Vec<u32>,
    model: &Model,
    element: u32,
) -> Result<(), OutOfMemory>
    ensures { OnOk result (requirements.new.items ≡ requirements.old.items ++ filter
        (counts.is_free_requirement (lists_of model.now)) (element ∷ [])) }
{
    if is_free_requirement(model, element) {
        requirements.push(element)?;
    }
    Ok(())
}
