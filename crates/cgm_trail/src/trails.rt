//! Trails.
ghost use Rattle.std.specs.Prelude.{◌≡◌, ◌+◌, ◌^◌, ◌<◌, ◌≤◌, length, slice_get, slice_index, IfOk, IsOk, OnOk, OnErr};
ghost use Rattle.cgm_trail.specs.Landing.{CanChangesLand, landed_trail};
ghost use Rattle.cgm_trail.specs.Rank.{IsTrail};
ghost use Rattle.cgm_trail.specs.TrailState.{IsAtRest, IsOpenIn, box_of, cut_trail, decided, jumped, level_of, level_start, restarted, trail_started, tightened};

use crate::changes::Change;
use crate::paths::Path;
use cgm_atom::{Atom, BoxState, Hint, Problem};
use cgm_base::OutOfMemory;
use std::alloc::Global;
use std::marker::Model;

/// The changes of a search over a problem, level by level, and the box that they lead to.
/// A trail keeps a copy of its problem, begins with that problem's bounds, and counts its moves.
#[derive(Drop)]
pub struct Trail {
    path: Path,
    moves: u64,
    restarts: u32,
}

impl Model for Trail {
    ghost use Rattle.cgm_trail.specs.TrailState.{TrailState};

    ghost Value = { TrailState };

    ghost use Rattle.cgm_trail.specs.TrailParts.{IsCounted, trail_state};

    ghost view = { trail_state };

    ghost invariant = { λ t. IsCounted (trail_state t) };
}

impl Trail {
    /// A trail without changes, over a copy of the problem.
    pub fn new(alloc: Global, problem: &Problem) -> Result<Trail, OutOfMemory>
        ensures { IfOk result (λ t. t ≡ trail_started problem.now) }
    {
        let path = Path::new(alloc, problem)?;
        Ok(Trail {
            path,
            moves: 0,
            restarts: 0,
        })
    }

    /// What holds of every trail, for the proof of a caller.
    pub fn recall_trail(&self)
        ensures { IsTrail self.now }
    {
        let _moves = self.moves;
        self.path.recall_path();
    }

    /// The problem's bounds after all changes.
    pub fn state(&self) -> &BoxState
        ensures state { result.now ≡ box_of self.now }
        ensures valid { IsTrail self.now }
    {
        self.recall_trail();
        self.path.state()
    }

    /// The present level, which is the number of decisions.
    pub fn level(&self) -> u64
        ensures level { result ≡ level_of self.now.changes }
        ensures valid { IsTrail self.now }
    {
        self.recall_trail();
        self.path.starts().len() as u64
    }

    /// The number of changes of all levels together.
    pub fn changes(&self) -> u64
        ensures count { result ≡ length self.now.changes }
        ensures valid { IsTrail self.now }
    {
        self.recall_trail();
        self.path.changes().len() as u64
    }

    /// The change with a number from 0, in order.
    pub fn change(&self, n: u64) -> &Change
        requires { n < length self.now.changes }
        ensures found { slice_get self.now.changes n ≡ Some result.now }
        ensures valid { IsTrail self.now }
    {
        self.recall_trail();
        let changes = self.path.changes();
        &changes[n as usize]
    }

    /// The number of the level's first change, or the number of all changes where it has none.
    /// The first change of each level after level 0 is its decision.
    pub fn level_start(&self, level: u64) -> u64
        requires { level ≤ level_of self.now.changes }
        ensures start { result ≡ level_start level self.now.changes }
        ensures valid { IsTrail self.now }
    {
        self.recall_trail();
        let starts = self.path.starts();
        if level > 0 {
            return place_at(starts, level - 1);
        }
        if starts.is_empty() {
            return 0;
        }
        if starts[0] > 0 {
            return 0;
        }
        self.changes()
    }

    /// Makes an atom true that is neither true nor false, as narrowing by the hint does.
    /// There were fewer than 2^62 moves.
    pub fn tighten(&mut self, atom: Atom, by: Hint) -> Result<(), OutOfMemory>
        requires undecided { IsOpenIn (box_of self.old) atom }
        requires room { self.old.moves < 2 ^ 62 }
        ensures ok { OnOk result (self.new ≡ tightened self.old atom by) }
        ensures err { OnErr result (self.new ≡ self.old) }
    {
        self.path.tighten(atom, by)?;
        self.moves += 1;
        Ok(())
    }

    /// Opens a level by making an atom true that is neither true nor false. Every clause and every
    /// row of the problem leaves the trail's box as it is. There were fewer than 2^62 moves.
    pub fn open_level(&mut self, atom: Atom) -> Result<(), OutOfMemory>
        requires undecided { IsOpenIn (box_of self.old) atom }
        requires rest { IsAtRest self.old.problem (box_of self.old) }
        requires room { self.old.moves < 2 ^ 62 }
        ensures ok { OnOk result (self.new ≡ decided self.old atom) }
        ensures err { OnErr result (self.new ≡ self.old) }
    {
        self.path.decide(atom)?;
        self.moves += 1;
        Ok(())
    }

    /// Cuts to an earlier level and makes an atom true there that is then neither true nor false.
    /// There were fewer than 2^62 moves. It takes no memory, so it is never refused.
    pub fn jump(&mut self, level: u64, atom: Atom, by: Hint) -> Result<(), OutOfMemory>
        requires earlier { level < level_of self.old.changes }
        requires undecided { IsOpenIn (box_of (cut_trail level self.old)) atom }
        requires room { self.old.moves < 2 ^ 62 }
        ensures never_refused { IsOk result }
        ensures after { self.new ≡ jumped self.old level atom by }
    {
        self.path.recall_path();
        self.path.jump(level as usize, atom, by);
        self.moves += 1;
        Ok(())
    }

    /// Cuts to level 0. There were fewer than 2^62 moves and fewer than 2^31 restarts.
    /// Takes no memory.
    pub fn restart(&mut self)
        requires moves { self.old.moves < 2 ^ 62 }
        requires restarts { self.old.restarts < 2 ^ 31 }
        ensures { self.new ≡ restarted self.old }
    {
        self.path.recall_path();
        self.path.cut(0);
        self.moves += 1;
        self.restarts += 1;
    }

    /// How many times `tighten`, `open_level`, `jump` and `restart` were called and not refused.
    pub fn moves(&self) -> u64
        ensures moves { result ≡ self.now.moves }
        ensures valid { IsTrail self.now }
    {
        self.recall_trail();
        self.moves
    }

    /// How many times `restart` was called.
    pub fn restarts(&self) -> u32
        ensures restarts { result ≡ self.now.restarts }
        ensures valid { IsTrail self.now }
    {
        self.recall_trail();
        self.restarts
    }

    /// Lemmas that had no place yet landed on the log, the first of them at the place `first`: the
    /// reason `Own(i)` becomes the entry at `first + i - 1`, and nothing else changes. Each such i is
    /// at least 1, and the place fits 64 bits. Takes no memory.
    pub fn land(&mut self, first: u64)
        requires { CanChangesLand first self.old.changes }
        ensures { self.new ≡ landed_trail first self.old }
    {
        self.path.land(first);
    }
}

fn place_at(places: &[usize], n: u64) -> u64
    requires { n < length places.now }
    ensures { result ≡ slice_index places.now n }
{
    places[n as usize] as u64
}
