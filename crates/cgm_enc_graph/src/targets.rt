//! Refinements by their targets.
ghost use Rattle.std.specs.Prelude.{◌≡◌, ℕ, ◌+◌, ◌<◌, ◌≤◌, ◌^◌, [], length, All, IfOk, slice_index_or};
ghost use Rattle.std.specs.List.{enumerate_from};
ghost use Rattle.cgm_enc_graph.specs.GraphClauses.{variables_for};

use cgm_base::OutOfMemory;
use cgm_formula::Parts;
use cgm_model::Refinement;
use std::alloc::Global;

/// For each of so many elements the variables of the refinements that have it as target, in one pass.
pub(crate) fn by_target(
    alloc: Global,
    count: usize,
    first: u32,
    refinements: &[Refinement],
) -> Result<Vec<Parts<u32>>, OutOfMemory>
    requires known { All (λ r. r.target < count) refinements.now }
    requires few { first + length refinements.now ≤ 2 ^ 32 }
    ensures count { IfOk result (λ lists. length lists.items ≡ count) }
    ensures lists { IfOk result (λ lists. (e : ℕ) → e < count → slice_index_or lists.items e []
        ≡ variables_for (enumerate_from first refinements.now) e) }
{
    let mut lists = empty_lists(alloc, count)?;
    for (number, r) in refinements.iter().enumerate() {
        lists[r.target as usize].push(first + number as u32)?;
    }
    Ok(lists)
}

fn empty_lists(alloc: Global, count: usize) -> Result<Vec<Parts<u32>>, OutOfMemory>
    ensures count { IfOk result (λ lists. length lists.items ≡ count) }
    ensures empty { IfOk result (λ lists. (e : ℕ) → slice_index_or lists.items e [] ≡ []) }
{
    let mut lists = Vec::with_capacity(alloc, count)?;
    for _ in 0..count {
        lists.push(Parts::of(Vec::new(alloc)))?;
    }
    Ok(lists)
}
