//! Stores of clauses.
ghost use Rattle.std.specs.Prelude.{◌≡◌, ◌+◌, ◌^◌, ◌<◌, ◌≤◌, IfOk, OnOk, OnErr};
ghost use Rattle.cgm_atom.specs.ClauseAtoms.{AreKnown};
ghost use Rattle.cgm_trail.specs.Steps.{IsPropagated};
ghost use Rattle.cgm_trail.specs.TrailState.{box_of};
ghost use Rattle.cgm_clauses.specs.StoreState.{CanNamesLand, IsForgotten, IsPairIn, IsStoreOf, all_clauses, landed_store, store_started, store_with_clause};
ghost use Rattle.cgm_clauses.specs.Sweeping.{IsSwept};

use crate::named::{Named, clauses_of, forget_first, land_all};
use crate::sweeping::propagate_by;
use cgm_atom::{Clause, Hint, Problem};
use cgm_base::OutOfMemory;
use cgm_trail::{Swept, Trail};
use std::alloc::Global;
use std::marker::Model;

/// The clauses of a problem, and others that were added, each with the hint that names it.
#[derive(Drop)]
pub struct ClauseStore {
    vars: u32,
    clauses: Vec<Named>,
    added: Vec<Named>,
}

impl Model for ClauseStore {
    ghost use Rattle.cgm_clauses.specs.StoreState.{StoreState};

    ghost Value = { StoreState };

    ghost use Rattle.cgm_clauses.specs.StoreParts.{IsStore, store_state};

    ghost view = { store_state };

    ghost invariant = { λ s. IsStore (store_state s) };
}

impl ClauseStore {
    /// The problem's clauses, each named by its number.
    pub fn new(alloc: Global, problem: &Problem) -> Result<ClauseStore, OutOfMemory>
        ensures store { IfOk result (λ s. s ≡ store_started problem.now) }
        ensures of_problem { IfOk result (λ s. IsStoreOf problem.now s) }
    {
        problem.recall_well_formed();
        let clauses = clauses_of(alloc, problem)?;
        Ok(ClauseStore {
            vars: problem.vars(),
            clauses,
            added: Vec::new(alloc),
        })
    }

    /// Adds a clause at the end, with the hint that names it. Each atom has a variable of the problem.
    /// For want of memory the store stays as it is.
    pub fn add(&mut self, clause: Clause, name: Hint) -> Result<(), OutOfMemory>
        requires known { AreKnown self.old.vars clause.atoms }
        ensures ok { OnOk result (self.new ≡ store_with_clause self.old clause name) }
        ensures err { OnErr result (self.new ≡ self.old) }
    {
        self.added.push(Named { clause, name })?;
        Ok(())
    }

    /// Drops the first added clause of this name. Where no added clause has it, nothing changes,
    /// and the problem's clauses stay in any case. Takes no memory.
    pub fn forget(&mut self, name: &Hint)
        ensures added { IsForgotten name.now self.old.added self.new.added }
        ensures clauses { self.new.clauses ≡ self.old.clauses }
        ensures vars { self.new.vars ≡ self.old.vars }
    {
        forget_first(&mut self.added, *name);
    }

    /// Lemmas that had no place yet landed on the log, the first of them at the place `first`: the
    /// name `Own(i)` of an added clause becomes the entry at `first + i - 1`, and nothing else
    /// changes. Each such i is at least 1, and the place fits 64 bits. Takes no memory.
    pub fn land(&mut self, first: u64)
        requires { CanNamesLand first self.old.added }
        ensures { self.new ≡ landed_store first self.old }
    {
        land_all(&mut self.added, first);
    }

    /// Makes the open atom of each unit clause true, until no clause is unit, one is false, or one is
    /// unit and `left` is 0. Each tightening takes one from `left` and names the clause.
    ///
    /// `Quiet` comes where no clause is false or unit, `Conflict` names a clause that is false, and
    /// at `Spent` a clause is unit and `left` is 0. Memory is wanted only where a clause is unit and
    /// `left` isn't 0; then the tightenings so far stay, and `left` is less by their number.
    /// Store and trail are of the same problem, and the trail's moves with `left` are at most 2^62.
    pub fn propagate(&mut self, trail: &mut Trail, left: &mut u64) -> Result<Swept, OutOfMemory>
        requires problem { IsStoreOf trail.old.problem self.old }
        requires room { trail.old.moves + left.old ≤ 2 ^ 62 }
        ensures made { IsPropagated (IsPairIn (all_clauses self.old)) trail.old trail.new left.old
            left.new }
        ensures answer { IsSwept (box_of trail.new) (all_clauses self.old) left.new result }
        ensures store { self.new ≡ self.old }
    {
        propagate_by(self.clauses.as_slice(), self.added.as_slice(), trail, left)
    }
}
