//! The walk back over a trail to the first place where one atom of its level is enough.
ghost use Rattle.std.specs.Prelude.{◌≡◌, ◌+◌, ◌<◌, ◌≤◌, length, IfOk, IsTrue, OnOk};
ghost use Rattle.cgm_atom.specs.Bounds.{IsBoxOf};
ghost use Rattle.cgm_atom.specs.Instance.{var_count};
ghost use Rattle.cgm_atom.specs.Laws.{IsSmaller};
ghost use Rattle.cgm_atom.specs.Relaxing.{at_bound_of, relaxed};
ghost use Rattle.cgm_learn.specs.Walking.{IsCause, IsConflictOn, IsDecisionAt, IsFirst, IsNeeded, IsPlaceOf, IsReasoned, IsRest, IsStepped, IsWalk, IsWalkedTo};
ghost use Rattle.cgm_trail.specs.TrailState.{box_of};

use crate::explaining::{explain_atom, explain_conflict};
use crate::grounds::Ground;
use crate::hints::{Used, recall_range};
use crate::places::{Place, before_level, is_before_decision, is_inside, is_met_before};
use cgm_atom::{Atom, BoxState, Hint, Problem};
use cgm_base::OutOfMemory;
use cgm_trail::{Reason, Trail};
use std::alloc::Global;

/// A place of a trail, the bounds of its box that are needed for conflict, and the hints that lead from them to it.
#[derive(Drop)]
pub(crate) struct Walk {
    pub(crate) place: Place,
    pub(crate) need: BoxState,
    pub(crate) used: Used,
}

/// Where a walk turns: the atom from which the rest leads to conflict, and an earlier place in whose box the rest holds.
#[derive(Drop)]
pub(crate) struct Turn {
    pub(crate) atom: Atom,
    pub(crate) base: Place,
}

impl<'g> Ground<'g> {
    /// The walk at the trail's last place, with what the conflict needs of its box.
    pub(crate) fn begin(
        &self,
        alloc: Global,
        trail: &Trail,
        conflict: &Hint,
    ) -> Result<Walk, OutOfMemory>
        requires problem { trail.now.problem ≡ self.now.problem }
        requires conflict { IsConflictOn self.now (box_of trail.now) conflict.now }
        ensures { IfOk result (IsWalk self.now trail.now) }
    {
        trail.recall_trail();
        let mut walk = Walk {
            place: Place::last(alloc, trail)?,
            need: BoxState::of(alloc, self.problem())?,
            used: Used::new(alloc),
        };
        self.take_conflict(conflict, &mut walk)?;
        Ok(walk)
    }

    /// Adds what the conflict needs of the place's box.
    fn take_conflict(&self, conflict: &Hint, walk: &mut Walk) -> Result<(), OutOfMemory>
        requires limits { IsBoxOf self.now.problem.bounds walk.old.place.state }
        requires conflict { IsConflictOn self.now walk.old.place.state conflict.now }
        requires first { IsFirst self.now walk.old }
        ensures place { walk.new.place ≡ walk.old.place }
        ensures needed { OnOk result (IsNeeded self.now walk.new) }
    {
        let problem = self.problem();
        problem.recall_well_formed();
        match self.find(conflict) {
            None => Ok(()),
            Some(found) => {
                explain_conflict(problem, found.named, &walk.place.state, &mut walk.need);
                recall_range(*conflict);
                walk.used.add(*conflict, found.carried)?;
                Ok(())
            }
        }
    }

    /// Takes an atom back to what the hint, by which narrowing gave it, needs.
    fn resolve(
        &self,
        alloc: Global,
        hint: &Hint,
        atom: Atom,
        walk: &mut Walk,
    ) -> Result<(), OutOfMemory>
        requires limits { IsBoxOf self.now.problem.bounds walk.old.place.state }
        requires rest { IsRest self.now walk.old.place.state walk.old atom }
        requires cause { IsCause self.now walk.old.place.state hint.now atom }
        ensures place { walk.new.place ≡ walk.old.place }
        ensures needed { OnOk result (IsNeeded self.now walk.new) }
    {
        match self.find(hint) {
            None => Ok(()),
            Some(found) => {
                let problem = self.problem();
                explain_atom(
                    alloc,
                    problem,
                    found.named,
                    atom,
                    &walk.place.state,
                    &mut walk.need,
                )?;
                recall_range(*hint);
                walk.used.add(*hint, found.carried)?;
                Ok(())
            }
        }
    }

    /// One change back.
    #[tactic(none)]
    fn go_back(
        &self,
        alloc: Global,
        trail: &Trail,
        base: &Place,
        walk: &mut Walk,
    ) -> Result<Option<Turn>, OutOfMemory>
        requires reasoned { IsReasoned self.now trail.now }
        requires walk { IsWalk self.now trail.now walk.old }
        requires left { 0 < walk.old.place.at }
        requires base { IsPlaceOf trail.now base.now }
        ensures stepped { IsStepped self.now trail.now walk.new result }
        ensures at { OnOk result (walk.new.place.at + 1 ≡ walk.old.place.at) }
    {
        trail.recall_trail();
        let problem = self.problem();
        let change = walk.place.back(trail);
        if is_met_before(&walk.need, change) {
            return Ok(None);
        }
        let atom = at_bound(&walk.need, change.atom);
        free(problem, &mut walk.need, atom);
        match change.reason {
            Reason::Decision => Ok(Some(Turn {
                atom,
                base: walk.place.copy(alloc)?,
            })),
            Reason::By(hint) => {
                if is_enough(problem, trail, base, walk) {
                    return Ok(Some(Turn {
                        atom,
                        base: base.copy(alloc)?,
                    }));
                }
                self.resolve(alloc, &hint, atom, walk)?;
                Ok(None)
            }
        }
    }

    /// The walk from what the conflict needs to where it turns. Without a turn the hints lead from the problem's own
    /// bounds to conflict.
    pub(crate) fn walk(
        &self,
        alloc: Global,
        trail: &Trail,
        walk: &mut Walk,
    ) -> Result<Option<Turn>, OutOfMemory>
        requires reasoned { IsReasoned self.now trail.now }
        requires walk { IsWalk self.now trail.now walk.old }
        ensures { IfOk result (IsWalkedTo self.now trail.now walk.new) }
    {
        let mut base = before_level(alloc, trail, &walk.place)?;
        while walk.place.at > 0 {
            renew(alloc, trail, &mut base, &walk.place)?;
            match self.go_back(alloc, trail, &base, walk)? {
                Some(turn) => return Ok(Some(turn)),
                None => {}
            }
        }
        Ok(None)
    }
}

/// The atom of the same variable and direction at the number that a box has there.
fn at_bound(state: &BoxState, atom: Atom) -> Atom
    requires { atom.var.0 < length state.now.lower }
    ensures { result ≡ at_bound_of state.now atom }
{
    Atom {
        var: atom.var,
        at_least: atom.at_least,
        k: if atom.at_least {
            state.lo(atom.var)
        } else {
            state.hi(atom.var)
        },
    }
}

/// The atom of the same variable and direction at the number that the problem's bounds have there.
fn at_limit(problem: &Problem, atom: Atom) -> Atom
    requires { atom.var.0 < var_count problem.now }
    ensures { result ≡ at_bound_of problem.now.bounds atom }
{
    let (lo, hi) = problem.bounds(atom.var);
    Atom {
        var: atom.var,
        at_least: atom.at_least,
        k: if atom.at_least { lo } else { hi },
    }
}

/// Gives the bound that an atom speaks of the number that it has in the problem.
fn free(problem: &Problem, need: &mut BoxState, atom: Atom)
    requires known { atom.var.0 < var_count problem.now }
    requires limits { IsBoxOf problem.now.bounds need.old }
    ensures freed { need.new ≡ relaxed need.old (at_bound_of problem.now.bounds atom) }
    ensures limits { IsBoxOf problem.now.bounds need.new }
{
    need.relax(at_limit(problem, atom));
}

/// Whether the walk turns with an earlier place: its box lies in the rest, and a decision follows it.
fn is_enough(problem: &Problem, trail: &Trail, base: &Place, walk: &Walk) -> bool
    requires base { IsPlaceOf trail.now base.now }
    requires problem { trail.now.problem ≡ problem.now }
    requires limits { IsBoxOf problem.now.bounds walk.now.need }
    ensures earlier { IsTrue result → base.now.at ≤ walk.now.place.at }
    ensures decision { IsTrue result → IsDecisionAt trail.now base.now.at }
    ensures inside { IsTrue result → IsSmaller base.now.state walk.now.need }
{
    trail.recall_trail();
    if base.at > walk.place.at {
        return false;
    }
    if !is_before_decision(trail, base.at) {
        return false;
    }
    is_inside(&base.state, &walk.need, problem.vars())
}

/// Moves the base before the level of the present place, where it is no longer before it.
fn renew(alloc: Global, trail: &Trail, base: &mut Place, place: &Place) -> Result<(), OutOfMemory>
    requires base { IsPlaceOf trail.now base.old }
    requires place { IsPlaceOf trail.now place.now }
    ensures { IsPlaceOf trail.now base.new }
{
    if base.at >= place.at {
        *base = before_level(alloc, trail, place)?;
    }
    Ok(())
}
