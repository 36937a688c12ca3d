//! What a row needs to be in conflict, or to give an atom: each bound as far out as the row's slack allows.
ghost use Rattle.std.specs.Prelude.{◌≡◌, ◌≢◌, ◌+◌, ◌*◌, ◌<◌, ◌≤◌, ◌+ℤ◌, ◌-ℤ◌, ◌≤ℤ◌, ◌<ℤ◌, cond, false, int_lt, length, not, pos, true, unsigned_abs, None, IfOk, IfSome, OnOk};
ghost use Rattle.cgm_atom.specs.Bounds.{Bounds, IsBoxOf, AreProperBounds};
ghost use Rattle.cgm_atom.specs.Laws.{IsSmaller};
ghost use Rattle.cgm_atom.specs.Limits.{AreTermsOf, IsBound, IsRowOf, max_bound, max_least, max_measure};
ghost use Rattle.cgm_atom.specs.Narrowing.{greatest_activity as greatest_activity_in, greatest_term, is_claimed_in, left_by_row, made_true};
ghost use Rattle.cgm_atom.specs.Narrowing.{is_true_in};
ghost use Rattle.cgm_atom.specs.Steps.{AreBounds};
ghost use Rattle.cgm_learn.specs.Terms.{HasSlack, HoldsIn, box_with, far_atom, far_bound as far_bound_in, is_far_of as is_far_atom, is_left_out as is_left_out_bound};
ghost use Rattle.cgm_learn.specs.Walking.{HasGiven, HasLed, IsExplainedIn, IsExplainedInBoth, IsNeedOf};
ghost use Rattle.cgm_trail.specs.TrailState.{IsOpenIn};

use crate::explaining::need_atom;
use crate::negations::opposite;
use cgm_atom::{Atom, BoxState, Row, Var, greatest_activity};
use cgm_base::OutOfMemory;
use std::alloc::Global;

/// The bound of a variable that the greatest value of its term reads.
fn far_bound(bounds: &BoxState, term: &(i64, Var)) -> i64
    requires known { term.now.1.0 < length bounds.now.lower }
    ensures value { result ≡ far_bound_in bounds.now term.now }
    ensures size { AreBounds bounds.now → IsBound result }
{
    if term.0 < 0 {
        bounds.lo(term.1)
    } else {
        bounds.hi(term.1)
    }
}

fn distance(k: i64, from: i64) -> u64
    requires first { IsBound k }
    requires second { IsBound from }
    ensures { result ≤ 2 * max_bound }
{
    k.abs_diff(from)
}

fn size_of(term: &(i64, Var)) -> u64
    ensures size { result ≡ unsigned_abs term.now.0 }
    ensures some { term.now.0 ≢ pos 0 → 0 < result }
{
    term.0.unsigned_abs()
}

/// By how much a bound with a coefficient of this size can be moved for a slack, and at most so much.
fn affordable(slack: u64, size: u64, most: u64) -> u64
    requires { 0 < size }
    ensures most { result ≤ most }
    ensures cost { result * size ≤ slack }
{
    (slack / size).min(most)
}

fn at_least_moved(variable: Var, bound: i64, by: u64) -> Atom
    requires bound { IsBound bound }
    requires by { by ≤ 2 * max_bound }
    ensures { result ≡ record { var = variable; at_least = true; k = bound -ℤ pos by } }
{
    Atom {
        var: variable,
        at_least: true,
        k: bound - by as i64,
    }
}

fn at_most_moved(variable: Var, bound: i64, by: u64) -> Atom
    requires bound { IsBound bound }
    requires by { by ≤ 2 * max_bound }
    ensures { result ≡ record { var = variable; at_least = false; k = bound +ℤ pos by } }
{
    Atom {
        var: variable,
        at_least: false,
        k: bound + by as i64,
    }
}

/// The atom that the bound which a term reads is at most so much further out than a number.
fn moved(term: &(i64, Var), bound: i64, by: u64) -> Atom
    requires bound { IsBound bound }
    requires by { by ≤ 2 * max_bound }
    ensures { result ≡ far_atom term.now bound by }
{
    if term.0 < 0 {
        at_least_moved(term.1, bound, by)
    } else {
        at_most_moved(term.1, bound, by)
    }
}

/// The atom that the bound of a box which a term reads is moved out by so much.
fn far_moved(work: &BoxState, term: &(i64, Var), by: u64) -> Atom
    requires known { term.now.1.0 < length work.now.lower }
    requires sizes { AreBounds work.now }
    requires by { by ≤ 2 * max_bound }
    ensures { result ≡ far_atom term.now (far_bound_in work.now term.now) by }
{
    moved(term, far_bound(work, term), by)
}

/// How far the needed bound that a term reads is out of that of the box.
fn gap(work: &BoxState, need: &BoxState, term: &(i64, Var)) -> u64
    requires known { term.now.1.0 < length work.now.lower }
    requires need_known { term.now.1.0 < length need.now.lower }
    requires work_sizes { AreBounds work.now }
    requires need_sizes { AreBounds need.now }
    ensures { result ≤ 2 * max_bound }
{
    distance(far_bound(need, term), far_bound(work, term))
}

/// Adds a term's bound, moved as far out as the slack allows, but no further than what is needed already.
/// Answers what is left of the slack.
fn explain_term(work: &BoxState, need: &mut BoxState, term: &(i64, Var), slack: u64) -> u64
    requires known { term.now.1.0 < length work.now.lower }
    requires coefficient { term.now.0 ≢ pos 0 }
    requires needed { IsNeedOf work.now need.old }
    ensures sum { (greatest_term need.new term.now.0 term.now.1.0 +ℤ pos result)
        ≤ℤ (greatest_term work.now term.now.0 term.now.1.0 +ℤ pos slack) }
    ensures explained { IsExplainedIn work.now need.old need.new }
{
    let size = size_of(term);
    let by = affordable(slack, size, gap(work, need, term));
    need_atom(far_moved(work, term, by), work, need);
    slack - by * size
}

fn is_same_side(term: &(i64, Var), atom: Atom) -> bool
    ensures { result ≡ cond (int_lt term.now.0 (pos 0)) atom.at_least (not atom.at_least) }
{
    if term.0 < 0 {
        atom.at_least
    } else {
        !atom.at_least
    }
}

/// Whether an atom speaks of the bound that the greatest value of a term reads.
fn is_far_of(term: &(i64, Var), atom: Atom) -> bool
    ensures { result ≡ is_far_atom term.now atom }
{
    if is_same_side(term, atom) {
        return atom.var.0 == term.1.0;
    }
    false
}

fn is_left_out(own: Option<Atom>, term: &(i64, Var)) -> bool
    ensures { result ≡ is_left_out_bound own term.now }
{
    match own {
        None => false,
        Some(a) => is_far_of(term, a),
    }
}

/// The same, unless the term reads the bound that is left out.
fn explain_unless(
    own: Option<Atom>,
    work: &BoxState,
    need: &mut BoxState,
    term: &(i64, Var),
    slack: u64,
) -> u64
    requires known { term.now.1.0 < length work.now.lower }
    requires coefficient { term.now.0 ≢ pos 0 }
    requires needed { IsNeedOf work.now need.old }
    requires undecided { IfSome own (IsOpenIn work.now) }
    ensures sum { (b : Bounds) → IsSmaller b need.new → HoldsIn own b
        → (greatest_term b term.now.0 term.now.1.0 +ℤ pos result)
        ≤ℤ (greatest_term (box_with work.now own) term.now.0 term.now.1.0 +ℤ pos slack) }
    ensures explained { IsExplainedIn work.now need.old need.new }
{
    if is_left_out(own, term) {
        return slack;
    }
    explain_term(work, need, term, slack)
}

/// Adds the bounds of all terms but the one that is left out, as far out as the slack allows.
fn explain_terms(
    terms: &[(i64, Var)],
    own: Option<Atom>,
    work: &BoxState,
    need: &mut BoxState,
    slack: u64,
)
    requires known { AreTermsOf (length work.now.lower) terms.now }
    requires needed { IsNeedOf work.now need.old }
    requires undecided { IfSome own (IsOpenIn work.now) }
    ensures sum { (b : Bounds) → IsSmaller b need.new → HoldsIn own b
        → greatest_activity_in b terms.now
        ≤ℤ (greatest_activity_in (box_with work.now own) terms.now +ℤ pos slack) }
    ensures explained { IsExplainedIn work.now need.old need.new }
{
    let mut left = slack;
    for term in terms {
        left = explain_unless(own, work, need, term, left);
    }
}

/// Adds the guard, which is true in the box.
fn explain_guard(guard: Option<Atom>, work: &BoxState, need: &mut BoxState)
    requires known { IfSome guard (λ g. g.var.0 < length work.now.lower) }
    requires proper { AreProperBounds work.now }
    requires inside { IsSmaller work.now need.old }
    requires claimed { is_claimed_in work.now guard ≡ true }
    ensures claimed { is_claimed_in need.new guard ≡ true }
    ensures explained { IsExplainedIn work.now need.old need.new }
{
    match guard {
        None => {}
        Some(g) => need_atom(g, work, need),
    }
}

/// By how much the greatest sum could be greater and still miss the least that is claimed.
fn slack_of(most: i64, least: i64) -> u64
    requires order { most <ℤ least }
    requires most_limit { unsigned_abs most ≤ max_measure }
    requires least_limit { unsigned_abs least ≤ max_least }
    ensures { ((pos result +ℤ most) +ℤ pos 1) ≡ least }
{
    (least - most - 1) as u64
}

/// The slack of a row that no values of the box meet: by how much its greatest sum could be greater.
fn row_slack(row: &Row, work: &BoxState) -> Option<u64>
    requires { IsRowOf work.now row.now }
    ensures { HasSlack row.now work.now result }
{
    let most = greatest_activity(work, row.terms.as_slice());
    if most < row.least {
        return Some(slack_of(most, row.least));
    }
    None
}

/// Adds to the needed bounds what a row needs to be in conflict.
pub(crate) fn explain_row_conflict(row: &Row, work: &BoxState, need: &mut BoxState)
    requires row { IsRowOf work.now row.now }
    requires needed { IsNeedOf work.now need.old }
    requires conflict { left_by_row work.now row.now ≡ None }
    ensures conflict { left_by_row need.new row.now ≡ None }
    ensures explained { IsExplainedIn work.now need.old need.new }
{
    match row_slack(row, work) {
        None => {}
        Some(slack) => {
            explain_guard(row.guard, work, need);
            explain_terms(row.terms.as_slice(), None, work, need, slack);
        }
    }
}

/// The box with an open atom made true.
fn copy_with(alloc: Global, work: &BoxState, atom: Atom) -> Result<BoxState, OutOfMemory>
    requires undecided { IsOpenIn work.now atom }
    requires proper { AreProperBounds work.now }
    ensures made { IfOk result (λ b. b ≡ made_true work.now atom) }
    ensures within { IfOk result (IsBoxOf work.now) }
{
    let mut under = work.copy(alloc)?;
    under.assume(atom);
    Ok(under)
}

/// The slack of a row in the box with an open atom made true.
fn slack_with(
    alloc: Global,
    row: &Row,
    work: &BoxState,
    atom: Atom,
) -> Result<Option<u64>, OutOfMemory>
    requires row { IsRowOf work.now row.now }
    requires undecided { IsOpenIn work.now atom }
    requires proper { AreProperBounds work.now }
    ensures { IfOk result (HasSlack row.now (made_true work.now atom)) }
{
    let under = copy_with(alloc, work, atom)?;
    Ok(row_slack(row, &under))
}

/// Adds to the needed bounds what a claimed row needs to give an atom: with the negation of the atom no values meet the row.
fn explain_claimed(
    alloc: Global,
    row: &Row,
    atom: Atom,
    work: &BoxState,
    need: &mut BoxState,
) -> Result<(), OutOfMemory>
    requires row { IsRowOf work.now row.now }
    requires needed { IsNeedOf work.now need.old }
    requires undecided { IsOpenIn work.now atom }
    requires size { IsBound atom.k }
    requires claimed { is_claimed_in work.now row.now.guard ≡ true }
    requires given { HasGiven atom (left_by_row work.now row.now) }
    ensures led { OnOk result (HasLed atom (left_by_row need.new row.now)) }
    ensures explained { OnOk result (IsExplainedInBoth work.now need.old need.new) }
{
    let negated = opposite(atom);
    match slack_with(alloc, row, work, negated)? {
        None => {
            *need = work.copy(alloc)?;
            Ok(())
        }
        Some(slack) => {
            explain_guard(row.guard, work, need);
            explain_terms(row.terms.as_slice(), Some(negated), work, need, slack);
            Ok(())
        }
    }
}

/// Adds to the needed bounds what a row needs to give an atom.
pub(crate) fn explain_row_atom(
    alloc: Global,
    row: &Row,
    atom: Atom,
    work: &BoxState,
    need: &mut BoxState,
) -> Result<(), OutOfMemory>
    requires row { IsRowOf work.now row.now }
    requires needed { IsNeedOf work.now need.old }
    requires undecided { IsOpenIn work.now atom }
    requires size { IsBound atom.k }
    requires given { HasGiven atom (left_by_row work.now row.now) }
    ensures led { OnOk result (HasLed atom (left_by_row need.new row.now)) }
    ensures explained { OnOk result (IsExplainedInBoth work.now need.old need.new) }
{
    match row_slack(row, work) {
        None => explain_claimed(alloc, row, atom, work, need),
        Some(slack) => {
            explain_terms(row.terms.as_slice(), None, work, need, slack);
            Ok(())
        }
    }
}
