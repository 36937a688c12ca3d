//! The generator of model texts.
ghost use Rattle.std.specs.Prelude.{◌≡◌, ◌≤◌, length, IfOk, MatchResult};
ghost use Rattle.cgm_base.specs.Words.{most_bytes};
ghost use Rattle.cgm_gen.specs.Draws.{most_goals};
ghost use Rattle.cgm_gen.specs.GeneratedText.{IsNotGenerated, generated_text, text_of_costs};

use crate::costs::{Costs, draw_costs};
use crate::lines::{write_chain, write_goals, write_values};
use cgm_base::OutOfMemory;
use cgm_base::limits::TRIAL;
use std::alloc::Global;
use thiserror::Error;

/// Why no text was generated.
#[derive(Clone, Copy, Debug, PartialEq, Eq, Error)]
pub enum GenStop {
    /// More goals are asked for than the limit on them.
    #[error("too many goals")]
    Limit,
    /// The memory for the text was refused.
    #[error("out of memory")]
    Memory,
}

/// The text of the generated model of `n` goals, of at most 2,000: `read` takes it, its model has a
/// realization, and its least cost is known (the laws of this crate).
pub fn generate(alloc: Global, n: u32) -> Result<Vec<u8>, GenStop>
    ensures outcome { MatchResult result
        (λ text. (n ≤ most_goals) × (text.items ≡ generated_text n)) (IsNotGenerated n) }
    ensures short { IfOk result (λ text. length text.items ≤ most_bytes) }
{
    if u64::from(n) > TRIAL {
        return Err(GenStop::Limit);
    }
    match text_of_goals(alloc, n) {
        Ok(text) => Ok(text),
        Err(_) => Err(GenStop::Memory),
    }
}

fn text_of_goals(alloc: Global, goals: u32) -> Result<Vec<u8>, OutOfMemory>
    requires { goals ≤ most_goals }
    ensures text { IfOk result (λ text. text.items ≡ generated_text goals) }
    ensures short { IfOk result (λ text. length text.items ≤ most_bytes) }
{
    let costs = draw_costs(alloc, goals)?;
    match text_of_costs(alloc, costs.as_slice(), goals) {
        Ok(text) => Ok(text),
        Err(_) => Err(OutOfMemory),
    }
}

/// The text of a model whose tasks have these costs.
fn text_of_costs(alloc: Global, costs: &[Costs], goals: u32) -> Result<Vec<u8>, OutOfMemory>
    requires within { goals ≤ most_goals }
    requires count { length costs.now ≡ goals }
    ensures { IfOk result (λ text. text.items ≡ text_of_costs costs.now) }
{
    let mut text = Vec::new(alloc);
    text.extend_from_slice(b"cgm 1\n")?;
    write_goals(alloc, &mut text, costs)?;
    text.extend_from_slice(b"sum cost\n")?;
    write_values(alloc, &mut text, costs)?;
    write_chain(alloc, &mut text, goals)?;
    text.extend_from_slice(b"require (<= cost 800)\nobjective min cost\n")?;
    Ok(text)
}
