//! The sums of a model as expressions.
ghost use Rattle.std.specs.Prelude.{◌≡◌, ◌<◌, ◌^◌, ℕ, [], length, map, All, IfOk, OnOk, slice_index_or};
ghost use Rattle.std.specs.List.{range_with_len};
ghost use Rattle.cgm_model.specs.Model.{lists_of};
ghost use Rattle.cgm_model.specs.TruthVariables.{truth_variables};
ghost use Rattle.cgm_encode.specs.Building.{expression_of, share_size};
ghost use Rattle.cgm_encode.specs.Quantities.{plain, sum_total};

use crate::expressions::{Expression, combined_terms};
use crate::names::truth_variable;
use cgm_atom::Seq;
use cgm_base::OutOfMemory;
use cgm_formula::Parts;
use cgm_model::Model;
use std::alloc::Global;

/// What each sum is over the elements and refinements.
pub(crate) fn sum_expressions(alloc: Global, model: &Model) -> Result<Vec<Expression>, OutOfMemory>
    ensures { IfOk result (λ es. es.items ≡ map (λ sum. expression_of
        (truth_variables (lists_of model.now)) (sum_total (lists_of model.now) sum))
        (range_with_len 0 (length model.now.sums))) }
{
    let lists = shares_by_sum(alloc, model)?;
    let expressions = expressions_of(alloc, model, lists.as_slice())?;
    Ok(expressions)
}

/// The numbers of each sum for elements and refinements, in one pass over all value lines.
fn shares_by_sum(alloc: Global, model: &Model) -> Result<Vec<Parts<(i64, u32)>>, OutOfMemory>
    ensures { IfOk result (λ lists. lists.items ≡ map
        (λ sum. (sum_total (lists_of model.now) sum).shares)
        (range_with_len 0 (length model.now.sums))) }
{
    let mut lists = empty_lists(alloc, model.sums.as_slice().len())?;
    for v in model.values.as_slice() {
        lists[v.sum as usize].push((v.k, truth_variable(model, v.of)))?;
    }
    Ok(lists)
}

fn empty_lists(alloc: Global, count: usize) -> Result<Vec<Parts<(i64, u32)>>, OutOfMemory>
    ensures count { IfOk result (λ lists. length lists.items ≡ count) }
    ensures empty { IfOk result (λ lists. (k : ℕ) → slice_index_or lists.items k [] ≡ []) }
{
    let mut lists = Vec::with_capacity(alloc, count)?;
    for _ in 0..count {
        lists.push(Parts::of(Vec::new(alloc)))?;
    }
    Ok(lists)
}

fn expressions_of(
    alloc: Global,
    model: &Model,
    lists: &[Parts<(i64, u32)>],
) -> Result<Vec<Expression>, OutOfMemory>
    requires known { All (λ shares. All (λ s. s.1 < truth_variables (lists_of model.now)) shares)
        lists.now }
    requires small { All (λ shares. share_size shares < 2 ^ 63) lists.now }
    ensures { IfOk result (λ es. es.items ≡ map (λ shares. expression_of
        (truth_variables (lists_of model.now)) (plain shares)) lists.now) }
{
    let mut expressions = Vec::with_capacity(alloc, lists.len())?;
    for shares in lists {
        expressions.push(expression(alloc, model, shares.as_slice())?)?;
    }
    Ok(expressions)
}

fn expression(
    alloc: Global,
    model: &Model,
    shares: &[(i64, u32)],
) -> Result<Expression, OutOfMemory>
    requires known { All (λ s. s.1 < truth_variables (lists_of model.now)) shares.now }
    requires small { share_size shares.now < 2 ^ 63 }
    ensures { IfOk result (λ e. e ≡ expression_of (truth_variables (lists_of model.now))
        (plain shares.now)) }
{
    let terms = combined_terms(alloc, shares)?;
    Ok(Expression {
        terms: Seq::of(terms),
        constant: 0,
    })
}
