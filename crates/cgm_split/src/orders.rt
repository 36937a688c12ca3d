//! The order of decisions that a seed gives.
ghost use Rattle.std.specs.Prelude.{◌≡◌, ℕ, ◌<◌, ◌↔◌, ◌++◌, find, length, IsNone, IsTrue, IfOk, IfSome};
ghost use Rattle.std.specs.List.{All};
ghost use Rattle.std.specs.Option.{option_map};
ghost use Rattle.cgm_atom.specs.Instance.{var_count};
ghost use Rattle.cgm_split.specs.Drawing.{IsEachOnce, order_of};
ghost use Rattle.cgm_split.specs.Halving.{IsFixed, IsLowerHalf, IsPoint, is_unfixed};
ghost use Rattle.cgm_split.specs.Preferring.{IsByNumber, IsPreference, preferred};

use crate::drawing::variable_order;
use crate::halves::{first_unfixed, is_proper, lower_half};
use cgm_atom::{Atom, BoxState, Problem, Var};
use cgm_base::OutOfMemory;
use std::alloc::Global;
use std::marker::Model;

/// An order of decisions: the problem's objectives first, then its variables, for worker 0 by
/// number, and for the others in an order that the seed and the worker draw.
#[derive(Drop)]
pub struct Order {
    objectives: Vec<Var>,
    variables: Vec<Var>,
}

impl Model for Order {
    ghost use Rattle.cgm_split.specs.Preferring.{IsPreference, Preference};

    ghost Value = { Preference };

    ghost view = { λ o. record { objectives = o.objectives.items; variables = o.variables.items } };

    ghost invariant = { λ o. IsPreference (record { objectives = o.objectives.items; variables = o.variables.items }) };
}

impl Order {
    /// The order for a problem, a seed and a worker. `OutOfMemory` where memory ran out.
    pub fn new(
        alloc: Global,
        problem: &Problem,
        seed: u64,
        worker: u32,
    ) -> Result<Order, OutOfMemory>
        ensures objectives { IfOk result (λ o. o.objectives ≡ problem.now.objectives) }
        ensures variables { IfOk result (λ o. o.variables ≡ order_of (var_count problem.now) seed
            worker) }
        ensures each_once { IfOk result (λ o. IsEachOnce (var_count problem.now) o.variables) }
        ensures count { IfOk result (λ o. length o.variables ≡ var_count problem.now) }
        ensures by_number { worker ≡ 0 → IfOk result (λ o. IsByNumber o) }
    {
        let objectives = Vec::from_slice(alloc, problem.objectives())?;
        let variables = variable_order(alloc, problem.vars(), seed, worker)?;
        Ok(Order {
            objectives,
            variables,
        })
    }

    fn objectives(&self) -> &[Var]
        ensures objectives { result.now ≡ self.now.objectives }
        ensures known { All (λ v. v.0 < length self.now.variables) result.now }
        ensures valid { IsPreference self.now }
    {
        self.objectives.as_slice()
    }

    fn variables(&self) -> &[Var]
        ensures variables { result.now ≡ self.now.variables }
        ensures known { All (λ v. v.0 < length self.now.variables) result.now }
    {
        self.variables.as_slice()
    }
}

/// The lower half of the first variable in the order that isn't fixed in the box, and None where
/// all are fixed. Takes no memory. Condition: box and order are of the same problem.
pub fn next(bounds: &BoxState, order: &mut Order) -> Option<Atom>
    requires { length bounds.now.lower ≡ length order.old.variables }
    ensures none { IsNone result ↔ IsPoint bounds.now }
    ensures variable { option_map (λ a. a.var) result ≡ preferred bounds.now order.old }
    ensures half { IfSome result (λ a. IsLowerHalf bounds.now a.var a) }
    ensures lowest { IsByNumber order.old → All (λ v. IsFixed bounds.now v.0) order.old.objectives
        → IfSome result (λ a. (x : ℕ) → x < a.var.0 → IsFixed bounds.now x) }
    ensures unchanged { order.new ≡ order.old }
{
    let v = first_choice(bounds, order)?;
    Some(lower_half(bounds, v))
}

fn first_choice(bounds: &BoxState, order: &Order) -> Option<Var>
    requires { length bounds.now.lower ≡ length order.now.variables }
    ensures first { result ≡ preferred bounds.now order.now }
    ensures none { IsNone result ↔ IsPoint bounds.now }
    ensures known { IfSome result (λ v. v.0 < length bounds.now.lower) }
    ensures unfixed { IfSome result (λ v. IsTrue (is_unfixed bounds.now v)) }
    ensures lowest { IsByNumber order.now → All (λ v. IsFixed bounds.now v.0) order.now.objectives
        → IfSome result (λ v. (x : ℕ) → x < v.0 → IsFixed bounds.now x) }
{
    let variables = order.variables();
    is_proper(bounds, variables);
    first_of_both(bounds, order.objectives(), variables)
}

#[tactic(auto, using(crate::proofs::Finding::found_before, crate::proofs::Finding::found_after))]
fn first_of_both(bounds: &BoxState, objectives: &[Var], variables: &[Var]) -> Option<Var>
    requires objectives { All (λ v. v.0 < length bounds.now.lower) objectives.now }
    requires variables { All (λ v. v.0 < length bounds.now.lower) variables.now }
    ensures { result ≡ find (is_unfixed bounds.now) (objectives.now ++ variables.now) }
{
    match first_unfixed(bounds, objectives) {
        Some(v) => Some(v),
        None => first_unfixed(bounds, variables),
    }
}
