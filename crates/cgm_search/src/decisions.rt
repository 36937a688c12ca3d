//! What to decide next.
ghost use Rattle.std.specs.Prelude.{◌≡◌, ◌+◌, ◌<◌, ◌≤◌, ◌↔◌, length, IsNone, IfOk, IfSome};
ghost use Rattle.cgm_atom.specs.Instance.{var_count};
ghost use Rattle.cgm_search.specs.Choosing.{IsChoiceOf, IsOwnHalf, IsOwnOrder};
ghost use Rattle.cgm_split.specs.Halving.{IsLowerHalf, IsPoint};
ghost use Rattle.cgm_trail.specs.TrailState.{IsOpenIn, box_of};

use crate::plans::Plan;
use cgm_atom::{Atom, BoxState, Hint, Problem};
use cgm_base::OutOfMemory;
use cgm_split::{Activity, Order, next};
use cgm_trail::{Change, Reason, Trail};
use std::alloc::Global;

/// The order of decisions before the first restart, and the one after it.
#[derive(Drop)]
pub(crate) struct Choice {
    pub(crate) order: Order,
    pub(crate) activity: Activity,
}

impl Choice {
    pub(crate) fn new(
        alloc: Global,
        problem: &Problem,
        plan: Plan,
        worker: u32,
    ) -> Result<Choice, OutOfMemory>
        ensures choice { IfOk result (IsChoiceOf (var_count problem.now)) }
        ensures own_order { IfOk result (IsOwnOrder (var_count problem.now) plan.seed worker) }
    {
        let order = Order::new(alloc, problem, plan.seed, worker)?;
        let activity = Activity::new(alloc, problem, plan.seed, worker)?;
        Ok(Choice { order, activity })
    }

    /// The lower half of a variable that isn't fixed, or None where all are: by the first order
    /// until the first restart, by the second after it.
    pub(crate) fn choose(&mut self, trail: &Trail) -> Option<Atom>
        requires { IsChoiceOf (length (box_of trail.now).lower) self.old }
        ensures none { IsNone result ↔ IsPoint (box_of trail.now) }
        ensures undecided { IfSome result (IsOpenIn (box_of trail.now)) }
        ensures own { IfSome result (IsOwnHalf trail.now.restarts (box_of trail.now) self.old) }
        ensures same { self.new ≡ self.old }
    {
        let half = self.half_of(trail.restarts(), trail.state());
        trail.recall_trail();
        half
    }

    fn half_of(&mut self, restarts: u32, state: &BoxState) -> Option<Atom>
        requires { IsChoiceOf (length state.now.lower) self.old }
        ensures none { IsNone result ↔ IsPoint state.now }
        ensures half { IfSome result (λ a. IsLowerHalf state.now a.var a) }
        ensures own { IfSome result (IsOwnHalf restarts state.now self.old) }
        ensures same { self.new ≡ self.old }
    {
        if restarts == 0 {
            return next(state, &mut self.order);
        }
        self.activity.next(state)
    }

    /// Makes the variable of each change that was resolved on heavier in the order after the first
    /// restart. The hints are those of what was learned from a conflict, in the order of the trail:
    /// those of the changes, and then that of the conflict.
    pub(crate) fn raise_resolved(&mut self, trail: &Trail, hints: &[Hint])
        requires { length self.old.activity.weights ≡ var_count trail.now.problem }
        ensures order { self.new.order ≡ self.old.order }
        ensures count { length self.new.activity.weights ≡ length self.old.activity.weights }
        ensures variables { self.new.activity.variables ≡ self.old.activity.variables }
    {
        let mut left = all_but_last(hints);
        let mut place = trail.changes();
        while place > 0 {
            place -= 1;
            if is_made_by_last(trail.change(place), left) {
                self.raise_changed(trail, place);
                left = all_but_last(left);
            }
        }
    }

    /// Makes the variable of a change heavier.
    fn raise_changed(&mut self, trail: &Trail, place: u64)
        requires place { place < length trail.now.changes }
        requires count { length self.old.activity.weights ≡ var_count trail.now.problem }
        ensures order { self.new.order ≡ self.old.order }
        ensures count { length self.new.activity.weights ≡ length self.old.activity.weights }
        ensures variables { self.new.activity.variables ≡ self.old.activity.variables }
    {
        let change = trail.change(place);
        self.activity.raise(change.atom.var);
    }
}

/// Whether the last of the hints is the reason of the change.
fn is_made_by_last(change: &Change, hints: &[Hint]) -> bool {
    match (change.reason, hints) {
        (Reason::By(reason), [.., last]) => reason == *last,
        _ => false,
    }
}

fn all_but_last(hints: &[Hint]) -> &[Hint] {
    match hints {
        [] => hints,
        [rest @ .., _] => rest,
    }
}
