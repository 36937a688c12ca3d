//! The order of decisions that conflicts give.
ghost use Rattle.std.specs.Prelude.{◌≡◌, ◌≢◌, ℕ, ◌+◌, ◌/◌, ◌^◌, ◌<◌, ◌≤◌, ◌↔◌, false, length, map, if◌then◌else◌, IsNone, IfOk, IfSome, MatchOption};
ghost use Rattle.std.specs.List.{All};
ghost use Rattle.cgm_atom.specs.Instance.{var_count};
ghost use Rattle.cgm_split.specs.Drawing.{IsEachOnce, order_of};
ghost use Rattle.cgm_split.specs.Halving.{IsLowerHalf, IsPoint, is_unfixed as unfixed};
ghost use Rattle.cgm_split.specs.Weighing.{IsHeaviest, comes_before, increment_grown, weight_raised, unweighed, weight_limit, weight_of};

use crate::drawing::variable_order;
use crate::halves::{is_proper, is_unfixed, lower_half};
use cgm_atom::{Atom, BoxState, Problem, Var};
use cgm_base::OutOfMemory;
use std::alloc::Global;
use std::marker::Model;

const FIRST_INCREMENT: u64 = 1 << 16;

const GROWTH: u64 = 256;

const WEIGHT_LIMIT: u64 = 1 << 62;

const RESCALING: u64 = 1 << 32;

/// An order of decisions by weight. A raise makes a variable heavier, and a later raise adds more.
/// Equal weights go by number for worker 0, and for the others in an order that the seed and the
/// worker draw.
#[derive(Drop)]
pub struct Activity {
    variables: Vec<Var>,
    weights: Vec<u64>,
    increment: u64,
}

impl Model for Activity {
    ghost use Rattle.cgm_split.specs.Weighing.{IsWeighing, Weighing};

    ghost Value = { Weighing };

    ghost view = { λ a. record { variables = a.variables.items; weights = a.weights.items; increment = a.increment } };

    ghost invariant = { λ a. IsWeighing (record { variables = a.variables.items; weights = a.weights.items; increment = a.increment }) };
}

impl Activity {
    /// The order for a problem, a seed and a worker, with all weights 0. `OutOfMemory` where memory
    /// ran out.
    pub fn new(
        alloc: Global,
        problem: &Problem,
        seed: u64,
        worker: u32,
    ) -> Result<Activity, OutOfMemory>
        ensures unweighed { IfOk result (λ a. a ≡ unweighed
            (order_of (var_count problem.now) seed worker)) }
        ensures each_once { IfOk result (λ a. IsEachOnce (var_count problem.now) a.variables) }
        ensures count { IfOk result (λ a. length a.weights ≡ var_count problem.now) }
    {
        let variables = variable_order(alloc, problem.vars(), seed, worker)?;
        let weights = vec![in alloc; 0; variables.len()]?;
        Ok(Activity {
            variables,
            weights,
            increment: FIRST_INCREMENT,
        })
    }

    /// Makes a variable heavier. No other that wasn't heavier than some variable becomes so: the
    /// others keep their order, save that weights may become equal where all are divided to keep
    /// them small. Takes no memory.
    pub fn raise(&mut self, variable: Var)
        requires { variable.0 < length self.old.weights }
        ensures weight_raised { self.new ≡ weight_raised self.old variable.0 }
        ensures order { (x y : ℕ) → x ≢ variable.0 → weight_of self.old.weights x ≤ weight_of
            self.old.weights y
            → weight_of self.new.weights x ≤ weight_of self.new.weights y }
        ensures count { length self.new.weights ≡ length self.old.weights }
        ensures variables { self.new.variables ≡ self.old.variables }
    {
        self.lift(variable);
    }

    fn lift(&mut self, variable: Var)
        requires { variable.0 < length self.old.weights }
        ensures { self.new ≡ weight_raised self.old variable.0 }
    {
        let place = variable.0 as usize;
        let weight = self.weights[place] + self.increment;
        let increment = grown_increment(self.increment);
        self.weights[place] = weight;
        self.increment = increment;
        if weight.max(increment) > WEIGHT_LIMIT {
            rescale_all(&mut self.weights);
            self.increment = increment / RESCALING + 1;
        }
    }

    /// The lower half of a variable that isn't fixed in the box and than which no other that isn't
    /// fixed is heavier, and None where all are fixed. Takes no memory.
    /// Condition: box and order are of the same problem.
    pub fn next(&self, bounds: &BoxState) -> Option<Atom>
        requires { length bounds.now.lower ≡ length self.now.weights }
        ensures none { IsNone result ↔ IsPoint bounds.now }
        ensures heaviest { IfSome result
            (λ a. IsHeaviest bounds.now self.now.weights self.now.variables a.var) }
        ensures half { IfSome result (λ a. IsLowerHalf bounds.now a.var a) }
    {
        let v = heaviest_choice(bounds, self.weights(), self.variables())?;
        Some(lower_half(bounds, v))
    }

    fn weights(&self) -> &[u64]
        ensures weights { result.now ≡ self.now.weights }
    {
        self.weights.as_slice()
    }

    fn variables(&self) -> &[Var]
        ensures variables { result.now ≡ self.now.variables }
        ensures each_once { IsEachOnce (length self.now.weights) result.now }
    {
        self.variables.as_slice()
    }
}

fn grown_increment(increment: u64) -> u64
    requires { increment ≤ weight_limit }
    ensures value { result ≡ increment_grown increment }
{
    increment + increment / GROWTH + 1
}

fn rescale_all(weights: &mut Vec<u64>)
    ensures { weights.new.items ≡ map (λ weight. weight / 2 ^ 32) weights.old.items }
{
    rescale(weights.as_mut_slice());
}

fn rescale(weights: &mut [u64])
    ensures { weights.new ≡ map (λ weight. weight / 2 ^ 32) weights.old }
{
    for weight in weights.iter_mut() {
        *weight /= RESCALING;
    }
}

/// The first of the heaviest variables that aren't fixed, of a list with each variable once.
fn heaviest_choice(bounds: &BoxState, weights: &[u64], variables: &[Var]) -> Option<Var>
    requires count { length bounds.now.lower ≡ length weights.now }
    requires each_once { IsEachOnce (length weights.now) variables.now }
    ensures none { IsNone result ↔ IsPoint bounds.now }
    ensures known { IfSome result (λ v. v.0 < length bounds.now.lower) }
    ensures heaviest { IfSome result (λ v. IsHeaviest bounds.now weights.now variables.now v) }
{
    is_proper(bounds, variables);
    heaviest_of(bounds, weights, variables)
}

/// The first of the heaviest variables that aren't fixed.
fn heaviest_of(bounds: &BoxState, weights: &[u64], variables: &[Var]) -> Option<Var>
    requires count { length bounds.now.lower ≡ length weights.now }
    requires known { All (λ v. v.0 < length weights.now) variables.now }
    ensures { MatchOption result (All (λ v. unfixed bounds.now v ≡ false) variables.now)
        (λ v. (v.0 < length weights.now) × IsHeaviest bounds.now weights.now variables.now v) }
{
    let mut best = None;
    for v in variables {
        best = heavier_of(bounds, weights, *v, best);
    }
    best
}

/// The best so far, or the next variable where that is heavier.
fn heavier_of(bounds: &BoxState, weights: &[u64], variable: Var, best: Option<Var>) -> Option<Var>
    requires count { length bounds.now.lower ≡ length weights.now }
    requires known { variable.0 < length weights.now }
    requires best_known { IfSome best (λ u. u.0 < length weights.now) }
    ensures { result ≡ (if comes_before bounds.now weights.now variable best then Some variable else
        best) }
{
    if is_before(bounds, weights, variable, best) {
        Some(variable)
    } else {
        best
    }
}

/// Whether a variable isn't fixed and is heavier than the best so far.
fn is_before(bounds: &BoxState, weights: &[u64], variable: Var, best: Option<Var>) -> bool
    requires count { length bounds.now.lower ≡ length weights.now }
    requires known { variable.0 < length weights.now }
    requires best_known { IfSome best (λ u. u.0 < length weights.now) }
    ensures { result ≡ comes_before bounds.now weights.now variable best }
{
    if !is_unfixed(bounds, variable) {
        return false;
    }
    match best {
        None => true,
        Some(u) => weights[u.0 as usize] < weights[variable.0 as usize],
    }
}
