//! One unit of a search.
ghost use Rattle.std.specs.Prelude.{◌≡◌, ◌+◌, ◌<◌, ◌≤◌, true, IfOk, OnOk};
ghost use Rattle.cgm_log.specs.Seats.{KeepsOwn, KeepsSeat};
ghost use Rattle.cgm_search.specs.Knowing.{IsKnowledge};
ghost use Rattle.cgm_search.specs.Searching.{IsKeptSearch, IsReady, IsTradedIn, IsUnit, Sits, need};
ghost use Rattle.cgm_search.specs.Stepping.{HasFalseClause, IsCutOutcome, IsOneMoveMore, IsLooked, IsOffered};
ghost use Rattle.cgm_split.specs.Halving.{IsPoint};
ghost use Rattle.cgm_trail.specs.TrailState.{IsAtRest, IsOpenIn, box_of, level_of};

use crate::batches::{candidate_batch, empty_batch};
use crate::gates::Gate;
use crate::plans::Stopped;
use crate::points::least_values;
use crate::searches::Search;
use cgm_atom::Atom;
use cgm_base::OutOfMemory;
use cgm_log::Trader;
use cgm_trail::Swept;

const LONGEST_LIMIT: u64 = 1 << 40;

impl Search {
    /// A restart where one is due; else propagation, and then by its end a decision, a candidate, or a
    /// jump back from a conflict.
    pub(crate) fn step<T: Trader, G: Gate>(
        &mut self,
        trader: &mut T,
        gate: &G,
    ) -> Result<Option<Stopped>, OutOfMemory>
        requires ready { IsReady self.old }
        requires seat { Sits self.old (T.seat trader.old) }
        requires enough { need self.old ≤ (T.seat trader.old).trades }
        ensures unit { IfOk result
            (IsUnit self.old self.new (T.seat trader.old) (T.seat trader.new)) }
        ensures kept { IsKeptSearch self.old self.new }
        ensures seat { KeepsSeat (need self.old) (T.seat trader.old) (T.seat trader.new) }
        ensures own { KeepsOwn self.old.worker (T.seat trader.old) (T.seat trader.new) }
        ensures home { T.home trader.new ≡ T.home trader.old }
    {
        if self.is_restart_due() {
            self.restart();
            return Ok(None);
        }
        match self.propagate()? {
            Swept::Conflict(hint) => self.meet_conflict(trader, gate, hint),
            Swept::Spent => Ok(Some(Stopped::Spent)),
            Swept::Quiet => self.advance(trader, gate),
        }
    }

    /// Whether the plan allows a restart, a move is left, and there were enough conflicts.
    fn is_restart_due(&self) -> bool
        requires { IsReady self.now }
        ensures moves { result ≡ true → self.now.trail.moves < self.now.plan.budget }
        ensures restarts { result ≡ true → self.now.trail.restarts < self.now.plan.restarts }
    {
        if self.conflicts < self.limit {
            return false;
        }
        if self.trail.restarts() >= self.plan.restarts {
            return false;
        }
        self.moves_left() > 0
    }

    /// Cuts the trail to level 0. The next restart comes after more conflicts.
    fn restart(&mut self)
        requires ready { IsReady self.old }
        requires moves { self.old.trail.moves < self.old.plan.budget }
        requires restarts { self.old.trail.restarts < self.old.plan.restarts }
        ensures ready { IsReady self.new }
        ensures known { self.new.known ≡ self.old.known }
        ensures kept { IsKeptSearch self.old self.new }
        ensures more { self.old.trail.moves < self.new.trail.moves }
        ensures need { need self.new ≤ need self.old }
    {
        self.trail.restart();
        self.conflicts = 0;
        self.limit = longer(self.limit);
    }

    /// Goes on from a box that no clause and no row of the problem narrows.
    fn advance<T: Trader, G: Gate>(
        &mut self,
        trader: &mut T,
        gate: &G,
    ) -> Result<Option<Stopped>, OutOfMemory>
        requires ready { IsReady self.old }
        requires seat { Sits self.old (T.seat trader.old) }
        requires rest { IsAtRest self.old.known.problem (box_of self.old.trail) }
        requires enough { need self.old ≤ (T.seat trader.old).trades }
        ensures unit { IfOk result
            (IsUnit self.old self.new (T.seat trader.old) (T.seat trader.new)) }
        ensures kept { IsKeptSearch self.old self.new }
        ensures seat { KeepsSeat (need self.old) (T.seat trader.old) (T.seat trader.new) }
        ensures own { KeepsOwn self.old.worker (T.seat trader.old) (T.seat trader.new) }
        ensures home { T.home trader.new ≡ T.home trader.old }
    {
        self.trail.recall_trail();
        match self.choice.choose(&self.trail) {
            Some(atom) => self.decide(atom),
            None => self.complete(trader, gate),
        }
    }

    /// Opens a level, if a move is left.
    fn decide(&mut self, atom: Atom) -> Result<Option<Stopped>, OutOfMemory>
        requires ready { IsReady self.old }
        requires undecided { IsOpenIn (box_of self.old.trail) atom }
        requires rest { IsAtRest self.old.known.problem (box_of self.old.trail) }
        ensures ready { IsReady self.new }
        ensures known { self.new.known ≡ self.old.known }
        ensures kept { IsKeptSearch self.old self.new }
        ensures answer { IfOk result (IsOneMoveMore self.old self.new) }
    {
        if self.moves_left() == 0 {
            return Ok(Some(Stopped::Spent));
        }
        self.trail.open_level(atom)?;
        Ok(None)
    }

    /// Hands on the solution that is found, and goes on from its conflict with the cut.
    fn complete<T: Trader, G: Gate>(
        &mut self,
        trader: &mut T,
        gate: &G,
    ) -> Result<Option<Stopped>, OutOfMemory>
        requires ready { IsReady self.old }
        requires seat { Sits self.old (T.seat trader.old) }
        requires rest { IsAtRest self.old.known.problem (box_of self.old.trail) }
        requires point { IsPoint (box_of self.old.trail) }
        requires enough { need self.old ≤ (T.seat trader.old).trades }
        ensures unit { IfOk result
            (IsUnit self.old self.new (T.seat trader.old) (T.seat trader.new)) }
        ensures kept { IsKeptSearch self.old self.new }
        ensures seat { KeepsSeat (need self.old) (T.seat trader.old) (T.seat trader.new) }
        ensures own { KeepsOwn self.old.worker (T.seat trader.old) (T.seat trader.new) }
        ensures home { T.home trader.new ≡ T.home trader.old }
    {
        self.offer(trader, gate)?;
        if self.known.is_closed() {
            return Ok(Some(Stopped::Final));
        }
        match self.propagate_cut()? {
            Swept::Conflict(hint) => self.meet_conflict(trader, gate, hint),
            Swept::Spent => Ok(Some(Stopped::Spent)),
            Swept::Quiet => unreachable!(),
        }
    }

    /// Propagates by the store of clauses, one of which is false.
    fn propagate_cut(&mut self) -> Result<Swept, OutOfMemory>
        requires ready { IsReady self.old }
        requires behind { HasFalseClause self.old }
        ensures ready { IsReady self.new }
        ensures answer { IfOk result (IsCutOutcome self.new) }
        ensures known { self.new.known ≡ self.old.known }
        ensures kept { IsKeptSearch self.old self.new }
        ensures moves { self.old.trail.moves ≤ self.new.trail.moves }
        ensures level { level_of self.new.trail.changes ≡ level_of self.old.trail.changes }
    {
        let mut left = self.moves_left();
        self.known.store.propagate(&mut self.trail, &mut left)
    }

    /// Trades the values of the trail's box, which are a solution.
    fn offer<T: Trader, G: Gate>(&mut self, trader: &mut T, gate: &G) -> Result<(), OutOfMemory>
        requires ready { IsReady self.old }
        requires seat { Sits self.old (T.seat trader.old) }
        requires rest { IsAtRest self.old.known.problem (box_of self.old.trail) }
        requires point { IsPoint (box_of self.old.trail) }
        requires left { 1 ≤ (T.seat trader.old).trades }
        ensures known { OnOk result (IsKnowledge self.new.known) }
        ensures told { OnOk result (Sits self.new (T.seat trader.new)) }
        ensures offered { OnOk result (IsOffered self.old self.new) }
        ensures once { OnOk result ((T.seat trader.new).trades + 1 ≡ (T.seat trader.old).trades) }
        ensures traded { IsTradedIn self.old self.new }
        ensures seat { KeepsSeat 1 (T.seat trader.old) (T.seat trader.new) }
        ensures own { KeepsOwn self.old.worker (T.seat trader.old) (T.seat trader.new) }
        ensures home { T.home trader.new ≡ T.home trader.old }
    {
        self.trail.recall_trail();
        let values = least_values(self.alloc, &self.known.problem, self.trail.state())?;
        let batch = candidate_batch(self.alloc, self.worker, values);
        self.exchange(trader, gate, batch)
    }

    /// The first trade, which adds nothing.
    pub(crate) fn look<T: Trader, G: Gate>(
        &mut self,
        trader: &mut T,
        gate: &G,
    ) -> Result<Option<Stopped>, OutOfMemory>
        requires ready { IsReady self.old }
        requires seat { Sits self.old (T.seat trader.old) }
        requires left { 1 ≤ (T.seat trader.old).trades }
        ensures answer { IfOk result (IsLooked self.new (T.seat trader.new)) }
        ensures once { OnOk result ((T.seat trader.new).trades + 1 ≡ (T.seat trader.old).trades) }
        ensures traded { IsTradedIn self.old self.new }
        ensures seat { KeepsSeat 1 (T.seat trader.old) (T.seat trader.new) }
        ensures own { KeepsOwn self.old.worker (T.seat trader.old) (T.seat trader.new) }
        ensures home { T.home trader.new ≡ T.home trader.old }
    {
        let batch = empty_batch(self.alloc, self.worker);
        self.exchange(trader, gate, batch)?;
        if self.known.is_closed() {
            return Ok(Some(Stopped::Final));
        }
        Ok(None)
    }
}

/// 1.15 times as many, up to a greatest number.
fn longer(limit: u64) -> u64 {
    if limit > LONGEST_LIMIT {
        return limit;
    }
    limit + limit / 20 * 3
}
