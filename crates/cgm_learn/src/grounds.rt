//! What an analysis stands on: a problem, its log, and the lemmas that are pending after it.
ghost use Rattle.std.specs.Prelude.{◌≡◌, ◌≤◌, length, MatchOption};
ghost use Rattle.cgm_atom.specs.Ranges.{IsPlaced};
ghost use Rattle.cgm_atom.specs.declared.entries.Hint.TheVariants.{Own};
ghost use Rattle.cgm_learn.specs.Grounds.{IsFoundOn, IsGround, IsKnownOn, ground_state};

use cgm_atom::{ClauseAtoms, Entry, Hint, Problem};
use cgm_step::{Found, IndexedLog, Named};
use std::marker::Model;

/// A problem, its log, which is accepted and not closed, and lemmas that are accepted after it.
#[derive(Drop)]
pub(crate) struct Ground<'g> {
    problem: &'g Problem,
    log: &'g IndexedLog<'g>,
    pending: &'g [Entry],
}

impl<'g> Model for Ground<'g> {
    ghost use Rattle.cgm_learn.specs.Grounds.{GroundState, IsGround, ground_state};

    ghost Value = { GroundState };

    ghost view = { λ g. ground_state g.problem.now g.log.now g.pending.now };

    ghost invariant = { λ g. IsGround (ground_state g.problem.now g.log.now g.pending.now) };
}

impl<'g> Ground<'g> {
    pub(crate) fn of(
        problem: &'g Problem,
        log: &'g IndexedLog<'g>,
        pending: &'g [Entry],
    ) -> Ground<'g>
        requires { IsGround (ground_state problem.now log.now pending.now) }
        ensures { result ≡ ground_state problem.now log.now pending.now }
    {
        Ground {
            problem,
            log,
            pending,
        }
    }

    pub(crate) fn problem(&self) -> &'g Problem
        ensures problem { result.now ≡ self.now.problem }
        ensures valid { IsGround self.now }
    {
        self.problem
    }

    /// The clause or row that a hint names, if it is there, and what the hint carries.
    pub(crate) fn find(&self, hint: &Hint) -> Option<Found<'g>>
        requires { IsKnownOn self.now hint.now }
        ensures { IsFoundOn self.now hint.now result }
    {
        match own_number(hint) {
            Some(number) => self.find_pending(number),
            None => self.log.find(self.problem, hint),
        }
    }

    /// The clause of a pending lemma, by its number from 1.
    fn find_pending(&self, number: u32) -> Option<Found<'g>>
        requires { (1 ≤ number) × (number ≤ length self.now.pending) }
        ensures { IsFoundOn self.now (Own number) result }
    {
        let pending = self.pending;
        match &pending[number as usize - 1] {
            Entry::Best { .. } => None,
            Entry::Lemma { clause, bound, .. } => Some(Found {
                named: Named::Clause(ClauseAtoms::Listed(clause.atoms.as_slice())),
                carried: *bound,
            }),
        }
    }
}

/// The number of the pending lemma that a hint names, if it names one.
fn own_number(hint: &Hint) -> Option<u32>
    ensures { MatchOption result (IsPlaced hint.now) (λ i. hint.now ≡ Own i) }
{
    match *hint {
        Hint::Own(number) => Some(number),
        Hint::Clause(_) => None,
        Hint::Row(_) => None,
        Hint::Entry(_) => None,
        Hint::Cut { .. } => None,
    }
}
