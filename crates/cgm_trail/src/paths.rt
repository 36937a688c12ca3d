//! The changes of a trail, with the box that they lead to.
ghost use Rattle.std.specs.Prelude.{◌≡◌, ◌++◌, [], ◌∷◌, ◌<◌, ◌≤◌, length, take, map, IfOk, OnOk, OnErr};
ghost use Rattle.cgm_atom.specs.Bounds.{IsBoxOf};
ghost use Rattle.cgm_atom.specs.Limits.{IsWellFormedProblem};
ghost use Rattle.cgm_trail.specs.Landing.{CanChangesLand, landed_change};
ghost use Rattle.cgm_trail.specs.TrailState.{AreChanges, IsOpenIn, box_after, change_of, cut_path, decision_places, level_of, path_with};

use crate::changes::{Change, Reason};
use crate::landing::change_landed;
use cgm_atom::{Atom, BoxState, Hint, Problem};
use cgm_base::OutOfMemory;
use std::alloc::Global;
use std::marker::Model;

#[derive(Drop)]
pub(crate) struct Path {
    problem: Problem,
    state: BoxState,
    changes: Vec<Change>,
    // the places of the decisions
    starts: Vec<usize>,
}

impl Model for Path {
    ghost use Rattle.cgm_trail.specs.TrailState.{PathState};

    ghost Value = { PathState };

    ghost use Rattle.cgm_trail.specs.PathParts.{IsPath, path_state};

    ghost view = { path_state };

    ghost invariant = { IsPath };
}

impl Path {
    pub(crate) fn new(alloc: Global, original: &Problem) -> Result<Path, OutOfMemory>
        ensures { IfOk result (λ t. t ≡ record { problem = original.now; changes = [] }) }
    {
        original.recall_well_formed();
        let problem = original.copy(alloc)?;
        let state = BoxState::of(alloc, original)?;
        Ok(Path {
            problem,
            state,
            changes: Vec::new(alloc),
            starts: Vec::new(alloc),
        })
    }

    /// What holds of every path, for the proof of a caller.
    pub(crate) fn recall_path(&self)
        ensures changes { AreChanges self.now.problem.bounds self.now.changes }
        ensures valid { IsWellFormedProblem self.now.problem }
        ensures place { IsBoxOf self.now.problem.bounds
            (box_after self.now.problem.bounds self.now.changes) }
    {
        let _changes = self.changes.len();
    }

    pub(crate) fn state(&self) -> &BoxState
        ensures { result.now ≡ box_after self.now.problem.bounds self.now.changes }
    {
        &self.state
    }

    pub(crate) fn changes(&self) -> &[Change]
        ensures { result.now ≡ self.now.changes }
    {
        self.changes.as_slice()
    }

    pub(crate) fn starts(&self) -> &[usize]
        ensures { result.now ≡ decision_places 0 self.now.changes }
    {
        self.starts.as_slice()
    }

    /// Makes an open atom true, as narrowing by the hint does.
    pub(crate) fn tighten(&mut self, atom: Atom, by: Hint) -> Result<(), OutOfMemory>
        requires { IsOpenIn (box_after self.old.problem.bounds self.old.changes) atom }
        ensures ok { OnOk result (self.new ≡ path_with self.old atom (Reason.By by)) }
        ensures err { OnErr result (self.new ≡ self.old) }
    {
        let change = change_from(&self.state, atom, Reason::By(by));
        self.changes.push(change)?;
        self.state.assume(atom);
        Ok(())
    }

    /// Makes an open atom true, as the decision that opens a level.
    pub(crate) fn decide(&mut self, atom: Atom) -> Result<(), OutOfMemory>
        requires { IsOpenIn (box_after self.old.problem.bounds self.old.changes) atom }
        ensures ok { OnOk result (self.new ≡ path_with self.old atom Reason.Decision) }
        ensures err { OnErr result (self.new ≡ self.old) }
    {
        let change = change_from(&self.state, atom, Reason::Decision);
        let level = self.starts.len();
        self.starts.push(self.changes.len())?;
        if let Err(error) = self.changes.push(change) {
            self.starts.truncate(level);
            return Err(error.into());
        }
        self.state.assume(atom);
        Ok(())
    }

    /// Takes back the changes of all levels after this one.
    pub(crate) fn cut(&mut self, level: usize)
        ensures { self.new ≡ cut_path level self.old }
    {
        if level >= self.starts.len() {
            return;
        }
        let from = self.starts[level];
        take_back(
            &self.problem,
            &mut self.state,
            self.changes.as_slice(),
            from,
        );
        self.changes.truncate(from);
        self.starts.truncate(level);
    }

    /// Takes back the changes of all levels after this one, and makes an atom true that is then
    /// open. The new change stands where the next level's decision stood, so this takes no memory.
    pub(crate) fn jump(&mut self, level: usize, atom: Atom, by: Hint)
        requires earlier { level < level_of self.old.changes }
        requires undecided { IsOpenIn (box_after self.old.problem.bounds
            (cut_path level self.old).changes) atom }
        ensures { self.new ≡ path_with (cut_path level self.old) atom (Reason.By by) }
    {
        let from = self.starts[level];
        take_back(
            &self.problem,
            &mut self.state,
            self.changes.as_slice(),
            from,
        );
        let change = change_from(&self.state, atom, Reason::By(by));
        replace_rest(&mut self.changes, from, change);
        self.starts.truncate(level);
        self.state.assume(atom);
    }

    /// Renames the reasons that name lemmas without a place to the places where these landed.
    pub(crate) fn land(&mut self, first: u64)
        requires { CanChangesLand first self.old.changes }
        ensures { self.new ≡ record self.old {
          changes = map (landed_change first) self.old.changes;
        } }
    {
        land_all(&mut self.changes, first);
    }
}

/// The change of a box by which an atom is made true.
fn change_from(bounds: &BoxState, atom: Atom, reason: Reason) -> Change
    requires { atom.var.0 < length bounds.now.lower }
    ensures { result ≡ change_of bounds.now atom reason }
{
    Change {
        atom,
        was: if atom.at_least {
            bounds.lo(atom.var)
        } else {
            bounds.hi(atom.var)
        },
        reason,
    }
}

/// Puts one change in the place of those from a place on.
fn replace_rest(changes: &mut Vec<Change>, from: usize, change: Change)
    requires { from < length changes.old.items }
    ensures { changes.new.items ≡ take from changes.old.items ++ change ∷ [] }
{
    changes.truncate(from + 1);
    changes[from] = change;
}

/// Takes back the changes from a place on.
fn take_back(problem: &Problem, state: &mut BoxState, changes: &[Change], from: usize)
    requires changes { AreChanges problem.now.bounds changes.now }
    requires state { state.old ≡ box_after problem.now.bounds changes.now }
    requires known { from ≤ length changes.now }
    ensures { state.new ≡ box_after problem.now.bounds (take from changes.now) }
{
    let mut at = changes.len();
    while at > from {
        at -= 1;
        let change = changes[at];
        state.relax(change.earlier());
    }
}

fn land_all(changes: &mut Vec<Change>, first: u64)
    requires { CanChangesLand first changes.old.items }
    ensures { changes.new.items ≡ map (landed_change first) changes.old.items }
{
    for change in changes.iter_mut() {
        *change = change_landed(*change, first);
    }
}
