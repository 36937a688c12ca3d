//! Propagation by a store and all rows, until a whole round changes nothing.
ghost use Rattle.std.specs.Prelude.{◌≡◌, ◌+◌, ◌^◌, ◌≤◌};
ghost use Rattle.cgm_clauses.specs.StoreState.{IsStoreOf, all_clauses};
ghost use Rattle.cgm_search.specs.Settling.{IsOneRound, IsRoundName, IsRowName, IsRowRound, IsSettled};
ghost use Rattle.cgm_trail.specs.Steps.{IsPropagated};
ghost use Rattle.cgm_trail.specs.TrailState.{box_of};

use cgm_atom::Problem;
use cgm_base::OutOfMemory;
use cgm_clauses::ClauseStore;
use cgm_linear::propagate_row;
use cgm_trail::{Swept, Trail};

/// Propagates until a whole round changes nothing, something is in conflict, or `left` is spent.
/// Each tightening takes one from `left`.
pub(crate) fn settle(
    problem: &Problem,
    store: &mut ClauseStore,
    trail: &mut Trail,
    left: &mut u64,
) -> Result<Swept, OutOfMemory>
    requires problem { trail.old.problem ≡ problem.now }
    requires of_problem { IsStoreOf problem.now store.old }
    requires room { trail.old.moves + left.old ≤ 2 ^ 62 }
    ensures made { IsPropagated (IsRoundName problem.now (all_clauses store.old))
        trail.old trail.new left.old left.new }
    ensures answer { IsSettled problem.now (all_clauses store.old)
        (box_of trail.new) left.new result }
    ensures store { store.new ≡ store.old }
{
    loop {
        let before = *left;
        match settle_once(problem, store, trail, left)? {
            Swept::Quiet => {
                if *left == before {
                    return Ok(Swept::Quiet);
                }
            }
            Swept::Conflict(hint) => return Ok(Swept::Conflict(hint)),
            Swept::Spent => return Ok(Swept::Spent),
        }
    }
}

fn settle_once(
    problem: &Problem,
    store: &mut ClauseStore,
    trail: &mut Trail,
    left: &mut u64,
) -> Result<Swept, OutOfMemory>
    requires problem { trail.old.problem ≡ problem.now }
    requires of_problem { IsStoreOf problem.now store.old }
    requires room { trail.old.moves + left.old ≤ 2 ^ 62 }
    ensures made { IsPropagated (IsRoundName problem.now (all_clauses store.old))
        trail.old trail.new left.old left.new }
    ensures answer { IsOneRound problem.now (all_clauses store.old)
        (box_of trail.new) left.old left.new result }
    ensures store { store.new ≡ store.old }
{
    match store.propagate(trail, left)? {
        Swept::Quiet => sweep_rows(problem, trail, left),
        Swept::Conflict(hint) => Ok(Swept::Conflict(hint)),
        Swept::Spent => Ok(Swept::Spent),
    }
}

/// Looks at each row once, up to one that stops it.
fn sweep_rows(problem: &Problem, trail: &mut Trail, left: &mut u64) -> Result<Swept, OutOfMemory>
    requires problem { trail.old.problem ≡ problem.now }
    requires room { trail.old.moves + left.old ≤ 2 ^ 62 }
    ensures made { IsPropagated (IsRowName problem.now) trail.old trail.new left.old left.new }
    ensures answer { IsRowRound problem.now (box_of trail.new) left.old left.new result }
{
    for n in 0..problem.rows() {
        match propagate_row(problem, n, trail, left)? {
            Swept::Quiet => {}
            Swept::Conflict(hint) => return Ok(Swept::Conflict(hint)),
            Swept::Spent => return Ok(Swept::Spent),
        }
    }
    Ok(Swept::Quiet)
}
