//! The analysis of a conflict.
ghost use Rattle.std.specs.Prelude.{◌≡◌, [], false, length, reverse, IfOk};
ghost use Rattle.std.specs.List.{All};
ghost use Rattle.cgm_atom.specs.Acceptance.{IsAcceptedAfter, IsAcceptedState};
ghost use Rattle.cgm_atom.specs.Placing.{all_placed};
ghost use Rattle.cgm_learn.specs.Learning.{IsAcceptedLemma, IsConflictIn, IsKnownHint, IsLemmaInRange, IsNameAfter, IsOpenLemma, IsUnitAfterCut};
ghost use Rattle.cgm_learn.specs.Walking.{IsConflictOn, IsWalkEnd, IsLesson, IsReasoned, IsTurn};
ghost use Rattle.cgm_trail.specs.Steps.{AreReasoned};
ghost use Rattle.cgm_trail.specs.TrailState.{TrailState, box_of, level_of};

use crate::grounds::Ground;
use crate::learned::Learned;
use crate::negations::{negations, opposite};
use crate::places::go_back_within;
use crate::walks::{Turn, Walk};
use cgm_atom::{Clause, Entry, Hint, Problem, Seq};
use cgm_base::OutOfMemory;
use cgm_step::IndexedLog;
use cgm_trail::Trail;
use std::alloc::Global;

/// Learns a lemma from a conflict, by the first unique implication point: of the level in which the conflict arose one
/// atom is left.
///
/// The lemma is accepted after the log and the pending lemmas, with its bound, and its numbers are in the ranges of a
/// certificate. It has no atoms where the trail's level is 0. Where it has some, it is unit after a cut to its level,
/// which is less than the trail's: its last atom is then open, and all before it are false.
///
/// Conditions: the trail is one of the problem. The log is accepted and not closed. The pending lemmas, which `Own(i)`
/// names by i from 1, have atoms and are accepted after the log. What the conflict names is in conflict with the trail's
/// box. Each change of the trail that isn't a decision is one that narrowing by its hint makes. Each hint to an entry is
/// to one of the log, each `Own` to a pending lemma, and so are those of what is learned.
pub fn analyse(
    alloc: Global,
    problem: &Problem,
    trail: &Trail,
    log: &IndexedLog<'_>,
    pending: &[Entry],
    conflict: &Hint,
) -> Result<Learned, OutOfMemory>
    requires problem { trail.now.problem ≡ problem.now }
    requires accepted { IsAcceptedState problem.now log.now }
    requires still_open { log.now.closed ≡ false }
    requires pending_lemmas { All IsOpenLemma pending.now }
    requires pending_accepted { IsAcceptedAfter problem.now log.now
        (all_placed (length log.now.entries) pending.now) }
    requires conflict { IsConflictIn problem.now log.now pending.now (box_of trail.now)
        conflict.now }
    requires reasons { AreReasoned (IsNameAfter problem.now log.now pending.now) problem.now.bounds
        trail.now.changes }
    ensures accepted { IfOk result (IsAcceptedLemma problem.now log.now pending.now) }
    ensures known { IfOk result
        (λ l. All (IsKnownHint (length log.now.entries) (length pending.now)) l.hints) }
    ensures range { IfOk result IsLemmaInRange }
    ensures last { IfOk result (λ l. level_of trail.now.changes ≡ 0 → l.clause.atoms ≡ []) }
    ensures unit { IfOk result (IsUnitAfterCut trail.now) }
{
    Ground::of(problem, log, pending).learn(alloc, trail, conflict)
}

impl<'g> Ground<'g> {
    fn learn(&self, alloc: Global, trail: &Trail, conflict: &Hint) -> Result<Learned, OutOfMemory>
        requires reasoned { IsReasoned self.now trail.now }
        requires conflict { IsConflictOn self.now (box_of trail.now) conflict.now }
        ensures { IfOk result (IsLesson self.now trail.now) }
    {
        let mut walk = self.begin(alloc, trail, conflict)?;
        match self.walk(alloc, trail, &mut walk)? {
            None => Ok(self.learn_end(alloc, walk)),
            Some(turn) => self.learn_turn(alloc, trail, turn, walk),
        }
    }

    /// The lemma without atoms.
    #[tactic(none)]
    fn learn_end(&self, alloc: Global, walk: Walk) -> Learned
        requires { IsWalkEnd self.now walk }
        ensures { (trail : TrailState) → IsLesson self.now trail result }
    {
        self.problem().recall_well_formed();
        let Walk { used, .. } = walk;
        let none = Vec::new(alloc);
        let atoms = Seq::of(none);
        let hints = Seq::of(reversed(used.hints));
        Learned {
            clause: Clause { atoms },
            hints,
            bound: used.bound,
            level: 0,
        }
    }

    /// The lemma whose last atom is the negation of the one from which the rest leads to conflict.
    #[tactic(none)]
    fn learn_turn(
        &self,
        alloc: Global,
        trail: &Trail,
        turn: Turn,
        walk: Walk,
    ) -> Result<Learned, OutOfMemory>
        requires { IsTurn self.now trail.now walk turn }
        ensures { IfOk result (IsLesson self.now trail.now) }
    {
        let problem = self.problem();
        problem.recall_well_formed();
        let Walk {
            need: rest,
            used,
            ..
        } = walk;
        let Turn { atom, base } = turn;
        let mut base = base;
        let mut atoms = negations(alloc, problem, &rest)?;
        let last = opposite(atom);
        atoms.push(last)?;
        go_back_within(trail, &mut base, &rest);
        let atoms = Seq::of(atoms);
        let hints = Seq::of(reversed(used.hints));
        Ok(Learned {
            clause: Clause { atoms },
            hints,
            bound: used.bound,
            level: base.level,
        })
    }
}

fn reversed(hints: Vec<Hint>) -> Vec<Hint>
    ensures { result.items ≡ reverse hints.items }
{
    let mut hints = hints;
    hints.reverse();
    hints
}
