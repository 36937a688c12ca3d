//! Narrowing by a row.
ghost use Rattle.std.specs.Prelude.{◌≡◌, ◌≢◌, ◌+◌, ◌*◌, ◌^◌, ◌<◌, ◌≤◌, length, pos, ◌+ℤ◌, ◌-ℤ◌, ◌*ℤ◌, ◌≤ℤ◌, unsigned_abs, IfSome};
ghost use Rattle.cgm_atom.specs.Bounds.{Bounds, IsBoxOf, AreProperBounds, lower_of, upper_of};
ghost use Rattle.cgm_atom.specs.Limits.{AreTermsOf, IsBound, IsRowOf, greatest_size, max_least, max_measure, max_room, measure};
ghost use Rattle.cgm_atom.specs.Narrowing.{greatest_activity as greatest_activity_in, greatest_term as greatest_term_in, is_claimed_in, kept_atom, left_by_row, left_by_unmet, tightened_by_terms};
ghost use Rattle.cgm_atom.specs.Outcome.{IsNarrowing, IsTightening};
ghost use Rattle.cgm_atom.specs.Steps.{AreBounds, IsKeptAtom};

use crate::arithmetic::{product, sum_of};
use crate::atoms::{is_true, make_true, negated};
use crate::boxes::BoxState;
use crate::constraints::{Atom, Row, Var};
use crate::outcome::Narrowed;

/// The greatest value of a coefficient times a variable.
#[tactic(auto, using(crate::proofs::RowSums::low_product_size, crate::proofs::RowSums::high_product_size))]
fn greatest_term(bounds: &BoxState, term: &(i64, Var)) -> i64
    requires known { term.now.1.0 < length bounds.now.lower }
    requires limit { unsigned_abs term.now.0 * greatest_size bounds.now term.now.1.0 ≤ max_measure }
    ensures value { result ≡ greatest_term_in bounds.now term.now.0 term.now.1.0 }
    ensures size { unsigned_abs result ≤ unsigned_abs term.now.0 * greatest_size bounds.now
        term.now.1.0 }
{
    if term.0 < 0 {
        product(term.0, bounds.lo(term.1))
    } else {
        product(term.0, bounds.hi(term.1))
    }
}

/// The greatest value in the box of the sum of coefficient times variable. Takes no memory.
/// Condition: the variables are those of the box and distinct, no coefficient is 0, and the measure is within its limit.
pub fn greatest_activity(bounds: &BoxState, terms: &[(i64, Var)]) -> i64
    requires known { AreTermsOf (length bounds.now.lower) terms.now }
    requires limit { measure bounds.now terms.now ≤ max_measure }
    ensures value { result ≡ greatest_activity_in bounds.now terms.now }
    ensures size { unsigned_abs result ≤ max_measure }
{
    let mut sum = 0;
    for term in terms {
        sum = sum_of(sum, greatest_term(bounds, term));
    }
    sum
}

/// By how much the greatest sum passes the least that is claimed.
fn room_of(most: i64, least: i64) -> u64
    requires order { least ≤ℤ most }
    requires most_limit { unsigned_abs most ≤ max_measure }
    requires least_limit { unsigned_abs least ≤ max_least }
    ensures value { result ≡ unsigned_abs (most -ℤ least) }
    ensures limit { result ≤ max_room }
{
    (most - least) as u64
}

fn value_below(value: i64, by: u64) -> i64
    requires bound { IsBound value }
    requires limit { by ≤ max_room }
    ensures { result ≡ value -ℤ pos by }
{
    value - by as i64
}

fn value_above(value: i64, by: u64) -> i64
    requires bound { IsBound value }
    requires limit { by ≤ max_room }
    ensures { result ≡ value +ℤ pos by }
{
    value + by as i64
}

/// What a term's variable keeps where the row leaves the term so much room below its greatest value:
/// a least value for a positive coefficient, a greatest value for a negative one.
/// Condition: the variable is one of the box, its bounds and the room are within their limits, and the coefficient isn't 0.
pub fn kept_by_term(bounds: &BoxState, room: u64, term: &(i64, Var)) -> Atom
    requires known { term.now.1.0 < length bounds.now.lower }
    requires coefficient { term.now.0 ≢ pos 0 }
    requires limit { room ≤ max_room }
    requires low { IsBound (lower_of bounds.now term.now.1.0) }
    requires high { IsBound (upper_of bounds.now term.now.1.0) }
    ensures atom { result ≡ kept_atom bounds.now room term.now.0 term.now.1 }
    ensures kept { IsKeptAtom bounds.now room term.now.0 term.now.1 result }
    ensures proper { AreProperBounds bounds.now }
{
    let by = room / term.0.unsigned_abs();
    if term.0 < 0 {
        Atom {
            var: term.1,
            at_least: false,
            k: value_above(bounds.lo(term.1), by),
        }
    } else {
        Atom {
            var: term.1,
            at_least: true,
            k: value_below(bounds.hi(term.1), by),
        }
    }
}

/// Tightens each term's variable, all from the same old box, which works since they are distinct.
fn tighten_by_terms(bounds: &mut BoxState, room: u64, terms: &[(i64, Var)]) -> Narrowed
    requires known { AreTermsOf (length bounds.old.lower) terms.now }
    requires limit { room ≤ max_room }
    requires sizes { AreBounds bounds.old }
    ensures after { bounds.new ≡ tightened_by_terms bounds.old room terms.now bounds.old }
    ensures answer { IsTightening bounds.old bounds.new result }
    ensures within { (limits : Bounds) → IsBoxOf limits bounds.old → IsBoxOf limits bounds.new }
{
    let mut outcome = Narrowed::Same;
    for term in terms {
        let kept = kept_by_term(bounds, room, term);
        outcome = outcome.then(make_true(bounds, kept));
    }
    outcome
}

/// Whether the row is claimed in the whole box.
fn is_claimed(bounds: &BoxState, guard: Option<Atom>) -> bool
    requires { IfSome guard (λ g. g.var.0 < length bounds.now.lower) }
    ensures { result ≡ is_claimed_in bounds.now guard }
{
    match guard {
        None => true,
        Some(g) => is_true(bounds, g),
    }
}

/// Makes the guard of a row false that no values of the box meet.
fn refuse_guard(bounds: &mut BoxState, guard: Option<Atom>) -> Narrowed
    requires { IfSome guard (λ g. g.var.0 < length bounds.old.lower) }
    ensures exact { IsNarrowing (left_by_unmet bounds.old guard) bounds.old bounds.new result }
    ensures within { (limits : Bounds) → IsBoxOf limits bounds.old → IsBoxOf limits bounds.new }
{
    match guard {
        None => Narrowed::Conflict,
        Some(g) => match negated(bounds, g) {
            None => Narrowed::Conflict,
            Some(opposite) => make_true(bounds, opposite),
        },
    }
}

/// Narrows a box by a row.
///
/// Where no values of the box meet the row, it is `Conflict` without a guard or where the guard is true, and then the box
/// is as it was; else the guard is made false. Where some do and the row is claimed, each term's variable keeps what
/// the others leave it, all from the same box. `Tighter` comes where a bound has changed. Takes no memory.
/// Condition: the row is within its limits in this box, and so are the box's bounds.
pub fn narrow_by_row(bounds: &mut BoxState, row: &Row) -> Narrowed
    requires row { IsRowOf bounds.old row.now }
    requires sizes { AreBounds bounds.old }
    ensures exact { IsNarrowing (left_by_row bounds.old row.now) bounds.old bounds.new result }
    ensures within { (limits : Bounds) → IsBoxOf limits bounds.old → IsBoxOf limits bounds.new }
{
    let terms = row.terms.as_slice();
    let most = greatest_activity(bounds, terms);
    if most < row.least {
        return refuse_guard(bounds, row.guard);
    }
    if is_claimed(bounds, row.guard) {
        return tighten_by_terms(bounds, room_of(most, row.least), terms);
    }
    Narrowed::Same
}
