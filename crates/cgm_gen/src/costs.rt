//! What the tasks of a generated model cost.
ghost use Rattle.std.specs.Prelude.{◌≡◌, ◌≤◌, length, nat_lt, IfOk};
ghost use Rattle.cgm_gen.specs.Draws.{both_drawn, costs_of, draw, drawn_costs, most_goals};

use cgm_base::OutOfMemory;
use rand_core::utils::NextWord;
use rand_pcg::Pcg32;
use std::alloc::Global;

/// Both tasks of so many goals have a drawn cost. Of each later goal the first task costs nothing.
const DRAWN_GOALS: u32 = 8;

/// The greatest draw.
const GREATEST_DRAW: u32 = 100;

/// What the two tasks of a goal cost, either of which reaches it.
#[derive(Clone, Copy)]
pub struct Costs {
    /// The cost of the task A.
    pub of_a: u32,
    /// The cost of the task B.
    pub of_b: u32,
}

/// A draw from 1 to 100.
fn draw(words: &mut Pcg32) -> u32
    ensures { (result, words.new) ≡ draw words.old }
{
    let word = words.next_word();
    1 + word % GREATEST_DRAW
}

/// The costs of a goal where both are drawn, that of A first.
fn both_drawn(words: &mut Pcg32) -> Costs
    ensures { (result, words.new) ≡ both_drawn words.old }
{
    let of_a = draw(words);
    let of_b = draw(words);
    Costs { of_a, of_b }
}

/// Whether both costs of the goal at this place, from 0, are drawn.
fn are_both_drawn(place: u32) -> bool
    ensures { result ≡ nat_lt place 8 }
{
    place < DRAWN_GOALS
}

/// The costs of the goal at this place, from 0.
fn costs_at(place: u32, words: &mut Pcg32) -> Costs
    ensures { (result, words.new) ≡ drawn_costs place words.old }
{
    if are_both_drawn(place) {
        return both_drawn(words);
    }
    let of_b = draw(words);
    Costs { of_a: 0, of_b }
}

/// The costs of so many goals, in order.
pub(crate) fn draw_costs(alloc: Global, goals: u32) -> Result<Vec<Costs>, OutOfMemory>
    requires { goals ≤ most_goals }
    ensures costs { IfOk result (λ costs. costs.items ≡ costs_of goals) }
    ensures count { IfOk result (λ costs. length costs.items ≡ goals) }
{
    let state = u64::from(goals);
    let mut words = Pcg32::new(state, 1);
    let mut costs = Vec::new(alloc);
    let mut place = 0;
    while place < goals {
        let next = costs_at(place, &mut words);
        costs.push(next)?;
        place += 1;
    }
    Ok(costs)
}
