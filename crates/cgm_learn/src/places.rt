//! Places of a trail, from the last back to the first.
ghost use Rattle.std.specs.Prelude.{◌≡◌, ◌+◌, ◌<◌, ◌≤◌, length, slice_get, Some, IfOk, IsTrue};
ghost use Rattle.cgm_atom.specs.Bounds.{AreProperBounds};
ghost use Rattle.cgm_atom.specs.Laws.{IsSmaller};
ghost use Rattle.cgm_trail.specs.TrailState.{is_decision as is_decision_change};
ghost use Rattle.cgm_learn.specs.Walking.{IsDecisionAt, IsInsideAt, IsPlaceOf, is_met_before as is_met_before_change};

use cgm_atom::{BoxState, Var};
use cgm_base::OutOfMemory;
use cgm_trail::{Change, Reason, Trail};
use std::alloc::Global;

/// The first `at` changes of a trail, the level that they lead to, and the box after them.
#[derive(Drop)]
pub(crate) struct Place {
    pub(crate) at: u64,
    pub(crate) level: u64,
    pub(crate) state: BoxState,
}

impl Place {
    /// The place after all changes.
    pub(crate) fn last(alloc: Global, trail: &Trail) -> Result<Place, OutOfMemory>
        ensures place { IfOk result (λ w. IsPlaceOf trail.now w) }
        ensures at { IfOk result (λ w. w.at ≡ length trail.now.changes) }
    {
        Ok(Place {
            at: trail.changes(),
            level: trail.level(),
            state: trail.state().copy(alloc)?,
        })
    }

    pub(crate) fn copy(&self, alloc: Global) -> Result<Place, OutOfMemory>
        ensures { IfOk result (λ w. w ≡ self.now) }
    {
        Ok(Place {
            at: self.at,
            level: self.level,
            state: self.state.copy(alloc)?,
        })
    }

    /// Takes the last change back.
    pub(crate) fn back(&mut self, trail: &Trail) -> Change
        requires place { IsPlaceOf trail.now self.old }
        requires left { 0 < self.old.at }
        ensures place { IsPlaceOf trail.now self.new }
        ensures at { self.new.at + 1 ≡ self.old.at }
        ensures change { slice_get trail.now.changes self.new.at ≡ Some result }
    {
        trail.recall_trail();
        self.at -= 1;
        let change = *trail.change(self.at);
        self.state.relax(change.earlier());
        if is_decision(change) {
            self.level -= 1;
        }
        change
    }
}

pub(crate) fn is_decision(change: Change) -> bool
    ensures { result ≡ is_decision_change change }
{
    match change.reason {
        Reason::Decision => true,
        Reason::By(_) => false,
    }
}

/// Whether what the bound was before a change is enough for a box that needs some bounds.
pub(crate) fn is_met_before(need: &BoxState, change: Change) -> bool
    requires { change.atom.var.0 < length need.now.lower }
    ensures { result ≡ is_met_before_change need.now change }
{
    if change.atom.at_least {
        need.lo(change.atom.var) <= change.was
    } else {
        change.was <= need.hi(change.atom.var)
    }
}

/// The place before the last decision, or the first place where there is none.
pub(crate) fn before_level(alloc: Global, trail: &Trail, from: &Place) -> Result<Place, OutOfMemory>
    requires { IsPlaceOf trail.now from.now }
    ensures { IfOk result (λ w. IsPlaceOf trail.now w) }
{
    let mut place = from.copy(alloc)?;
    while place.at > 0 {
        let change = place.back(trail);
        if is_decision(change) {
            return Ok(place);
        }
    }
    Ok(place)
}

/// Whether the change after a place is a decision.
pub(crate) fn is_before_decision(trail: &Trail, at: u64) -> bool
    ensures { IsTrue result → IsDecisionAt trail.now at }
{
    if at >= trail.changes() {
        return false;
    }
    is_decision(*trail.change(at))
}

/// Goes back as long as the box lies in the rest.
pub(crate) fn go_back_within(trail: &Trail, place: &mut Place, rest: &BoxState)
    requires place { IsPlaceOf trail.now place.old }
    requires inside { IsSmaller place.old.state rest.now }
    ensures place { IsPlaceOf trail.now place.new }
    ensures earlier { place.new.at ≤ place.old.at }
    ensures inside { IsSmaller place.new.state rest.now }
{
    trail.recall_trail();
    while place.at > 0 {
        let change = *trail.change(place.at - 1);
        if !is_met_before(rest, change) {
            return;
        }
        place.back(trail);
    }
}

/// Whether each value of a box is one of another.
pub(crate) fn is_inside(inner: &BoxState, outer: &BoxState, vars: u32) -> bool
    requires inner { length inner.now.lower ≡ vars }
    requires outer { length outer.now.lower ≡ vars }
    requires inner_upper { length inner.now.upper ≡ vars }
    requires outer_upper { length outer.now.upper ≡ vars }
    ensures { IsTrue result → IsSmaller inner.now outer.now }
{
    for v in 0..vars {
        if !is_inside_at(inner, outer, Var(v)) {
            return false;
        }
    }
    true
}

fn is_inside_at(inner: &BoxState, outer: &BoxState, variable: Var) -> bool
    requires inner { variable.0 < length inner.now.lower }
    requires outer { variable.0 < length outer.now.lower }
    ensures inside { IsTrue result → IsInsideAt inner.now outer.now variable.0 }
    ensures inner_proper { AreProperBounds inner.now }
    ensures outer_proper { AreProperBounds outer.now }
{
    if inner.lo(variable) < outer.lo(variable) {
        return false;
    }
    inner.hi(variable) <= outer.hi(variable)
}
