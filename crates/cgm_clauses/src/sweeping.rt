//! Propagation by named clauses.
ghost use Rattle.std.specs.Prelude.{◌≡◌, ◌+◌, ◌++◌, ◌∷◌, [], ◌^◌, ◌≤◌};
ghost use Rattle.std.specs.List.{All};
ghost use Rattle.cgm_atom.specs.Constraints.{of_clause};
ghost use Rattle.cgm_atom.specs.Instance.{var_count};
ghost use Rattle.cgm_trail.specs.Steps.{IsOnly, IsPropagated};
ghost use Rattle.cgm_trail.specs.TrailState.{box_of};
ghost use Rattle.cgm_clauses.specs.StoreState.{HasKnownVariables, IsPairIn};
ghost use Rattle.cgm_clauses.specs.Sweeping.{IsOneSweep, IsSwept};

use crate::named::Named;
use crate::standing::{Standing, standing_in};
use cgm_base::OutOfMemory;
use cgm_trail::{Swept, Trail, step};

/// Sweeps over both lists until nothing is made.
pub(crate) fn propagate_by(
    clauses: &[Named],
    added: &[Named],
    trail: &mut Trail,
    left: &mut u64,
) -> Result<Swept, OutOfMemory>
    requires clauses { All (HasKnownVariables (var_count trail.old.problem)) clauses.now }
    requires added { All (HasKnownVariables (var_count trail.old.problem)) added.now }
    requires room { trail.old.moves + left.old ≤ 2 ^ 62 }
    ensures made { IsPropagated (IsPairIn (clauses.now ++ added.now)) trail.old trail.new left.old
        left.new }
    ensures answer { IsSwept (box_of trail.new) (clauses.now ++ added.now) left.new result }
{
    loop {
        let before = *left;
        match sweep_both(clauses, added, trail, left)? {
            Swept::Quiet => {
                if *left == before {
                    return Ok(Swept::Quiet);
                }
            }
            Swept::Conflict(h) => return Ok(Swept::Conflict(h)),
            Swept::Spent => return Ok(Swept::Spent),
        }
    }
}

fn sweep_both(
    clauses: &[Named],
    added: &[Named],
    trail: &mut Trail,
    left: &mut u64,
) -> Result<Swept, OutOfMemory>
    requires clauses { All (HasKnownVariables (var_count trail.old.problem)) clauses.now }
    requires added { All (HasKnownVariables (var_count trail.old.problem)) added.now }
    requires room { trail.old.moves + left.old ≤ 2 ^ 62 }
    ensures made { IsPropagated (IsPairIn (clauses.now ++ added.now)) trail.old trail.new left.old
        left.new }
    ensures answer { IsOneSweep (box_of trail.new) (clauses.now ++ added.now) left.old left.new
        result }
{
    match sweep(clauses, trail, left)? {
        Swept::Quiet => sweep(added, trail, left),
        Swept::Conflict(h) => Ok(Swept::Conflict(h)),
        Swept::Spent => Ok(Swept::Spent),
    }
}

/// Looks at each clause once, up to one that stops it.
fn sweep(clauses: &[Named], trail: &mut Trail, left: &mut u64) -> Result<Swept, OutOfMemory>
    requires known { All (HasKnownVariables (var_count trail.old.problem)) clauses.now }
    requires room { trail.old.moves + left.old ≤ 2 ^ 62 }
    ensures made { IsPropagated (IsPairIn clauses.now) trail.old trail.new left.old left.new }
    ensures answer { IsOneSweep (box_of trail.new) clauses.now left.old left.new result }
{
    for named in clauses {
        match look_at(named, trail, left)? {
            Swept::Quiet => {}
            Swept::Conflict(h) => return Ok(Swept::Conflict(h)),
            Swept::Spent => return Ok(Swept::Spent),
        }
    }
    Ok(Swept::Quiet)
}

/// Makes the open atom of the clause true, if the clause is unit.
fn look_at(named: &Named, trail: &mut Trail, left: &mut u64) -> Result<Swept, OutOfMemory>
    requires known { HasKnownVariables (var_count trail.old.problem) named.now }
    requires room { trail.old.moves + left.old ≤ 2 ^ 62 }
    ensures made { IsPropagated (IsOnly named.now.name (of_clause named.now.clause)) trail.old
        trail.new
        left.old left.new }
    ensures answer { IsOneSweep (box_of trail.new) (named.now ∷ []) left.old left.new result }
{
    match standing_in(trail.state(), &named.clause) {
        Standing::Quiet => Ok(Swept::Quiet),
        Standing::False => Ok(Swept::Conflict(named.name)),
        Standing::Unit(only) => {
            if *left == 0 {
                return Ok(Swept::Spent);
            }
            step(trail, only, named.name, left)?;
            Ok(Swept::Quiet)
        }
    }
}
