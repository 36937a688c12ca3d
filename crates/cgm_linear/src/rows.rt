//! Propagation by a row.
ghost use Rattle.std.specs.Prelude.{◌≡◌, ◌+◌, ◌^◌, ◌<◌, ◌≤◌, ◌<ℤ◌, ◌≤ℤ◌, ◌-ℤ◌, length, slice_get, unsigned_abs, IfSome, IsSomeAnd};
ghost use Rattle.cgm_atom.specs.Constraints.{of_row};
ghost use Rattle.cgm_atom.specs.Limits.{IsRowOf, max_least, max_measure, max_room};
ghost use Rattle.cgm_atom.specs.Narrowing.{greatest_activity as greatest_activity_in, is_claimed_in};
ghost use Rattle.cgm_linear.specs.Making.{HasRoom};
ghost use Rattle.cgm_linear.specs.Sweeping.{IsRowNumbered, IsRowSwept};
ghost use Rattle.cgm_trail.specs.Steps.{IsOnly, IsPropagated};
ghost use Rattle.cgm_trail.specs.TrailState.{box_of};

use crate::steps::make;
use cgm_atom::{
    Atom, BoxState, Hint, Problem, Row, greatest_activity, is_true, kept_by_term, negated,
};
use cgm_base::OutOfMemory;
use cgm_trail::{Swept, Trail};

/// Does to the box of a trail what narrowing by the row with a number does, as single tightenings
/// that name the row. Each of them takes one from `left`.
///
/// `Quiet`: the box is what narrowing by the row leaves of the old one, and narrowing by the row
/// leaves it as it is. `Conflict`: narrowing by the row, which the hint names, is conflict, and
/// nothing has changed. `Spent`: `left` is 0, and a tightening is left to make. Memory is wanted
/// only where a tightening is left to make and `left` isn't 0; then the tightenings made so far
/// stay, and `left` is less by their number.
/// Condition: the problem is the trail's, the row is one of it, and the trail's moves with `left`
/// are at most 2^62.
pub fn propagate_row(
    problem: &Problem,
    n: u32,
    trail: &mut Trail,
    left: &mut u64,
) -> Result<Swept, OutOfMemory>
    requires problem { trail.old.problem ≡ problem.now }
    requires known { n < length problem.now.rows }
    requires room { trail.old.moves + left.old ≤ 2 ^ 62 }
    ensures made { IsPropagated (IsRowNumbered problem.now n) trail.old trail.new left.old
        left.new }
    ensures answer { IsSomeAnd (slice_get problem.now.rows n)
        (λ r. IsRowSwept (Hint.Row n) r trail.old trail.new left.new result) }
{
    trail.recall_trail();
    sweep(problem.row(n), trail, Hint::Row(n), left)
}

/// Propagation by a row that the hint names.
fn sweep(row: &Row, trail: &mut Trail, by: Hint, left: &mut u64) -> Result<Swept, OutOfMemory>
    requires row { IsRowOf (box_of trail.old) row.now }
    requires budget { trail.old.moves + left.old ≤ 2 ^ 62 }
    ensures made { IsPropagated (IsOnly by (of_row row.now)) trail.old trail.new left.old left.new }
    ensures answer { IsRowSwept by row.now trail.old trail.new left.new result }
{
    let most = greatest_activity(trail.state(), row.terms.as_slice());
    if most < row.least {
        return refuse_guard(row, trail, by, left);
    }
    if is_claimed(trail.state(), row.guard) {
        return tighten_by_terms(row, room_of(most, row.least), trail, by, left);
    }
    Ok(Swept::Quiet)
}

/// By how much the greatest sum passes the least that is claimed.
fn room_of(most: i64, least: i64) -> u64
    requires order { least ≤ℤ most }
    requires most_limit { unsigned_abs most ≤ max_measure }
    requires least_limit { unsigned_abs least ≤ max_least }
    ensures value { result ≡ unsigned_abs (most -ℤ least) }
    ensures limit { result ≤ max_room }
{
    (most - least) as u64
}

/// Whether the row is claimed in the whole box.
fn is_claimed(bounds: &BoxState, guard: Option<Atom>) -> bool
    requires { IfSome guard (λ g. g.var.0 < length bounds.now.lower) }
    ensures { result ≡ is_claimed_in bounds.now guard }
{
    match guard {
        None => true,
        Some(g) => is_true(bounds, g),
    }
}

/// Makes the guard of a row false that no values of the box meet.
fn refuse_guard(
    row: &Row,
    trail: &mut Trail,
    by: Hint,
    left: &mut u64,
) -> Result<Swept, OutOfMemory>
    requires row { IsRowOf (box_of trail.old) row.now }
    requires unmet { greatest_activity_in (box_of trail.old) row.now.terms <ℤ row.now.least }
    requires budget { trail.old.moves + left.old ≤ 2 ^ 62 }
    ensures made { IsPropagated (IsOnly by (of_row row.now)) trail.old trail.new left.old left.new }
    ensures answer { IsRowSwept by row.now trail.old trail.new left.new result }
{
    match row.guard {
        None => Ok(Swept::Conflict(by)),
        Some(guard) => match negated(trail.state(), guard) {
            None => Ok(Swept::Conflict(by)),
            Some(opposite) => {
                if make(trail, opposite, by, left)? {
                    Ok(Swept::Quiet)
                } else {
                    Ok(Swept::Spent)
                }
            }
        },
    }
}

/// Tightens each term's variable. No tightening moves a bound that a term's greatest value reads,
/// so that the room is the same for all.
fn tighten_by_terms(
    row: &Row,
    room: u64,
    trail: &mut Trail,
    by: Hint,
    left: &mut u64,
) -> Result<Swept, OutOfMemory>
    requires claimed { HasRoom (box_of trail.old) row.now room }
    requires limit { room ≤ max_room }
    requires budget { trail.old.moves + left.old ≤ 2 ^ 62 }
    ensures made { IsPropagated (IsOnly by (of_row row.now)) trail.old trail.new left.old left.new }
    ensures answer { IsRowSwept by row.now trail.old trail.new left.new result }
{
    trail.recall_trail();
    for term in row.terms.as_slice() {
        let kept = kept_by_term(trail.state(), room, term);
        if !make(trail, kept, by, left)? {
            return Ok(Swept::Spent);
        }
    }
    Ok(Swept::Quiet)
}
