//! Conflicts: what is learned from one is traded, and the trail jumps back by it.
ghost use Rattle.std.specs.Prelude.{◌≡◌, ◌+◌, ◌++◌, ◌∷◌, [], ◌<◌, ◌≤◌, List, None, IfOk, IfSome, OnOk};
ghost use Rattle.cgm_atom.specs.declared.constraints.Atom.{Atom};
ghost use Rattle.cgm_atom.specs.ClauseAtoms.{AreKnown};
ghost use Rattle.cgm_atom.specs.Instance.{var_count};
ghost use Rattle.cgm_learn.specs.Learning.{IsUnitAfterCut};
ghost use Rattle.cgm_log.specs.Seats.{KeepsOwn, KeepsSeat};
ghost use Rattle.cgm_search.specs.Knowing.{IsKnowledge, seen};
ghost use Rattle.cgm_search.specs.Resolving.{IsGivenByLast, IsTaken, IsTradable};
ghost use Rattle.cgm_search.specs.Searching.{IsConflictOf, IsKeptSearch, IsReady, IsTradedIn, IsUnit, Sits, before_trade, need};
ghost use Rattle.cgm_search.specs.Trading.{IsLongerLog};
ghost use Rattle.cgm_trail.specs.TrailState.{IsOpenIn, box_of, cut_trail, level_of};

use crate::batches::lemma_batch;
use crate::gates::Gate;
use crate::plans::Stopped;
use crate::searches::Search;
use cgm_atom::{Atom, Hint};
use cgm_base::OutOfMemory;
use cgm_learn::{Learned, analyse};
use cgm_log::Trader;

impl Search {
    /// Goes on from a conflict, which the hint names, if a move is left.
    pub(crate) fn meet_conflict<T: Trader, G: Gate>(
        &mut self,
        trader: &mut T,
        gate: &G,
        conflict: Hint,
    ) -> Result<Option<Stopped>, OutOfMemory>
        requires ready { IsReady self.old }
        requires seat { Sits self.old (T.seat trader.old) }
        requires conflict { IsConflictOf self.old conflict }
        requires left { self.old.trail.moves < self.old.plan.budget
            → 1 ≤ (T.seat trader.old).trades }
        ensures unit { IfOk result
            (IsUnit self.old self.new (before_trade (T.seat trader.old)) (T.seat trader.new)) }
        ensures kept { IsKeptSearch self.old self.new }
        ensures seat { KeepsSeat 1 (T.seat trader.old) (T.seat trader.new) }
        ensures own { KeepsOwn self.old.worker (T.seat trader.old) (T.seat trader.new) }
        ensures home { T.home trader.new ≡ T.home trader.old }
        ensures unspent { self.old.trail.moves ≡ self.old.plan.budget
            → (T.seat trader.new).trades ≡ (T.seat trader.old).trades }
    {
        if self.moves_left() == 0 {
            return Ok(Some(Stopped::Spent));
        }
        self.resolve(trader, gate, conflict)
    }

    /// Learns from a conflict, trades the lemma and jumps back by it.
    fn resolve<T: Trader, G: Gate>(
        &mut self,
        trader: &mut T,
        gate: &G,
        conflict: Hint,
    ) -> Result<Option<Stopped>, OutOfMemory>
        requires ready { IsReady self.old }
        requires seat { Sits self.old (T.seat trader.old) }
        requires conflict { IsConflictOf self.old conflict }
        requires room { self.old.trail.moves < self.old.plan.budget }
        requires left { 1 ≤ (T.seat trader.old).trades }
        ensures unit { IfOk result
            (IsUnit self.old self.new (before_trade (T.seat trader.old)) (T.seat trader.new)) }
        ensures kept { IsKeptSearch self.old self.new }
        ensures seat { KeepsSeat 1 (T.seat trader.old) (T.seat trader.new) }
        ensures own { KeepsOwn self.old.worker (T.seat trader.old) (T.seat trader.new) }
        ensures home { T.home trader.new ≡ T.home trader.old }
    {
        let lemma = self.learn(conflict)?;
        let level = lemma.level;
        let last = last_atom(lemma.clause.atoms.as_slice());
        self.choice
            .raise_resolved(&self.trail, lemma.hints.as_slice());
        self.trade_lemma(trader, gate, lemma)?;
        if self.known.is_closed() {
            return Ok(Some(Stopped::Final));
        }
        match last {
            None => unreachable!(),
            Some(atom) => {
                self.jump(level, atom)?;
                Ok(None)
            }
        }
    }

    /// What is learned from a conflict.
    fn learn(&self, conflict: Hint) -> Result<Learned, OutOfMemory>
        requires ready { IsReady self.now }
        requires conflict { IsConflictOf self.now conflict }
        ensures lemma { IfOk result (IsTradable self.now.known) }
        ensures atoms { IfOk result
            (λ l. AreKnown (var_count self.now.known.problem) l.clause.atoms) }
        ensures unit { IfOk result (IsUnitAfterCut self.now.trail) }
    {
        let none = Vec::new(self.alloc);
        let log = self.known.indexed();
        analyse(
            self.alloc,
            &self.known.problem,
            &self.trail,
            &log,
            none.as_slice(),
            &conflict,
        )
    }

    /// Trades a lemma.
    fn trade_lemma<T: Trader, G: Gate>(
        &mut self,
        trader: &mut T,
        gate: &G,
        lemma: Learned,
    ) -> Result<(), OutOfMemory>
        requires ready { IsReady self.old }
        requires seat { Sits self.old (T.seat trader.old) }
        requires lemma { IsTradable self.old.known lemma }
        requires left { 1 ≤ (T.seat trader.old).trades }
        ensures known { OnOk result (IsKnowledge self.new.known) }
        ensures told { OnOk result (Sits self.new (T.seat trader.new)) }
        ensures taken { OnOk result (IsTaken self.new.known lemma.clause) }
        ensures longer { OnOk result (IsLongerLog (seen self.old.known) (seen self.new.known)) }
        ensures once { OnOk result ((T.seat trader.new).trades + 1 ≡ (T.seat trader.old).trades) }
        ensures traded { IsTradedIn self.old self.new }
        ensures seat { KeepsSeat 1 (T.seat trader.old) (T.seat trader.new) }
        ensures own { KeepsOwn self.old.worker (T.seat trader.old) (T.seat trader.new) }
        ensures home { T.home trader.new ≡ T.home trader.old }
    {
        let batch = lemma_batch(self.alloc, self.worker, lemma)?;
        self.exchange(trader, gate, batch)
    }

    /// Jumps back by the lemma that is the last entry that was seen, and that gives an open atom there.
    fn jump(&mut self, level: u64, atom: Atom) -> Result<(), OutOfMemory>
        requires ready { IsReady self.old }
        requires earlier { level < level_of self.old.trail.changes }
        requires undecided { IsOpenIn (box_of (cut_trail level self.old.trail)) atom }
        requires given { IsGivenByLast self.old.known
            (box_of (cut_trail level self.old.trail)) atom }
        requires room { self.old.trail.moves < self.old.plan.budget }
        ensures ready { OnOk result (IsReady self.new) }
        ensures known { self.new.known ≡ self.old.known }
        ensures kept { IsKeptSearch self.old self.new }
        ensures moves { OnOk result (self.new.trail.moves ≡ self.old.trail.moves + 1) }
        ensures need { OnOk result (need self.new + 2 ≤ need self.old) }
    {
        let place = self.known.count();
        self.trail.jump(level, atom, Hint::Entry(place))?;
        self.conflicts = self.conflicts.saturating_add(1);
        Ok(())
    }
}

/// The last atom, if there is one.
fn last_atom(atoms: &[Atom]) -> Option<Atom>
    ensures none { result ≡ None → atoms.now ≡ [] }
    ensures last { IfSome result (λ a. (others : List Atom) × (atoms.now ≡ others ++ a ∷ [])) }
{
    match atoms {
        [] => None,
        [.., last] => Some(*last),
    }
}
