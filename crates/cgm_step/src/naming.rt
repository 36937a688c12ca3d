//! What a hint names.
ghost use Rattle.std.specs.Prelude.{◌≡◌, slice_get};
ghost use Rattle.std.specs.Option.{option_copied, option_map};
ghost use Rattle.cgm_atom.specs.declared.entries.Hint.TheVariants as hint;
ghost use Rattle.cgm_atom.specs.Acceptance.{IsAcceptedState};
ghost use Rattle.cgm_atom.specs.Cut.{cut};
ghost use Rattle.cgm_atom.specs.Instance.{vector};
ghost use Rattle.cgm_atom.specs.Constraints.{of_clause, of_row};
ghost use Rattle.cgm_atom.specs.Limits.{AreValuesOf};
ghost use Rattle.cgm_step.specs.Naming.{IsFound, IsNamedConstraint};

use crate::indexed::IndexedLog;
use cgm_atom::{ClauseAtoms, Entry, Hint, Problem, Row};

/// A clause or a row.
#[derive(Clone, Copy)]
pub enum Named<'a> {
    Clause(ClauseAtoms<'a>),
    Row(&'a Row),
}

/// What a hint leads to.
#[derive(Clone, Copy)]
pub struct Found<'a> {
    /// The clause or row that it names.
    pub named: Named<'a>,
    /// The ordinal of its cut, or the bound of its lemma, or 0.
    pub carried: u64,
}

impl<'l> IndexedLog<'l> {
    /// The clause or row that a hint names, if it is there, and what the hint carries.
    /// Condition: the log is accepted.
    pub fn find(&self, problem: &'l Problem, hint: &Hint) -> Option<Found<'l>>
        requires { IsAcceptedState problem.now self.now }
        ensures { IsFound problem.now self.now hint.now result }
    {
        problem.recall_well_formed();
        match *hint {
            Hint::Clause(n) => with_carried(find_clause(problem, n), 0),
            Hint::Row(n) => with_carried(find_row(problem, n), 0),
            Hint::Entry(place) => self.find_lemma(problem, place),
            Hint::Own(_) => None,
            Hint::Cut { best, part } => match self.best(best) {
                Some(values) => with_carried(find_part(problem, values, part), best),
                None => None,
            },
        }
    }

    fn find_lemma(&self, problem: &Problem, place: u64) -> Option<Found<'l>>
        requires { IsAcceptedState problem.now self.now }
        ensures { IsFound problem.now self.now (hint.Entry place) result }
    {
        match self.live(place) {
            None => None,
            Some(Entry::Best { .. }) => None,
            Some(Entry::Lemma { clause, bound, .. }) => Some(Found {
                named: Named::Clause(ClauseAtoms::Listed(clause.atoms.as_slice())),
                carried: *bound,
            }),
        }
    }
}

fn with_carried(named: Option<Named<'_>>, carried: u64) -> Option<Found<'_>>
    ensures { result ≡ option_map (λ n. record { named = n; carried = carried }) named.entry }
{
    match named {
        Some(named) => Some(Found { named, carried }),
        None => None,
    }
}

fn find_clause(problem: &Problem, n: u32) -> Option<Named<'_>>
    ensures { IsNamedConstraint problem.now (option_map of_clause (slice_get problem.now.clauses n))
        result }
{
    if n >= problem.clauses() {
        return None;
    }
    Some(Named::Clause(ClauseAtoms::Listed(problem.clause(n).atoms.as_slice())))
}

fn find_row(problem: &Problem, n: u32) -> Option<Named<'_>>
    ensures { IsNamedConstraint problem.now (option_map of_row (slice_get problem.now.rows n))
        result }
{
    if n >= problem.rows() {
        return None;
    }
    Some(Named::Row(problem.row(n)))
}

fn find_part<'a>(problem: &'a Problem, values: &'a [i64], part: u32) -> Option<Named<'a>>
    requires { AreValuesOf problem.now values.now }
    ensures { IsNamedConstraint problem.now (option_map of_clause
        (slice_get (cut problem.now.objectives (vector problem.now
        values.now)) part)) result }
{
    let objectives = problem.objectives();
    let part = part as usize;
    if part >= objectives.len().max(1) {
        return None;
    }
    Some(Named::Clause(ClauseAtoms::OfCut {
        objectives,
        values,
        part,
    }))
}
