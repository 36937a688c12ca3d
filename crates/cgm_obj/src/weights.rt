//! Penalties minus rewards.
ghost use Rattle.std.specs.Prelude.{◌≡◌, ◌+◌, ◌*◌, ◌^◌, ◌<◌, ◌≤◌, ◌+ℤ◌, ◌-ℤ◌, All, length, unsigned_abs};
ghost use Rattle.cgm_base.specs.declared.limit.Which.TheVariants as limits;
ghost use Rattle.cgm_base.specs.Words.{limit_number};
ghost use Rattle.cgm_model.specs.Model.{lists_of};
ghost use Rattle.cgm_model.specs.Sums as sums;

use crate::counts::is_true;
use cgm_model::{Assignment, Model, Weighing};

fn plus(x: i64, y: i64) -> i64
    requires { unsigned_abs x + unsigned_abs y < 2 ^ 63 }
    ensures { result ≡ x +ℤ y }
{
    x + y
}

fn minus(x: i64, y: i64) -> i64
    requires { unsigned_abs x + unsigned_abs y < 2 ^ 63 }
    ensures { result ≡ x -ℤ y }
{
    x - y
}

/// The number of the line, where its element is true; else 0.
fn number_for(assignment: &Assignment, weighing: &Weighing) -> i64
    requires { unsigned_abs weighing.now.k ≤ limit_number limits.Coefficient }
    ensures number { result ≡ sums.weight_for assignment.now weighing.now }
    ensures small { unsigned_abs result ≤ limit_number limits.Coefficient }
{
    if is_true(assignment, weighing.element) {
        return weighing.k;
    }
    0
}

/// The numbers of these lines whose elements are true, added up.
fn total(assignment: &Assignment, lines: &[Weighing]) -> i64
    requires small { All (λ w. unsigned_abs w.k ≤ limit_number limits.Coefficient) lines.now }
    requires few { length lines.now ≤ limit_number limits.Statements }
    ensures total { result ≡ sums.total_by (sums.weight_for assignment.now) lines.now }
    ensures small { unsigned_abs result ≤ 1000000000000 }
{
    let mut total = 0;
    for line in lines {
        total = plus(total, number_for(assignment, line));
    }
    total
}

fn penalties(model: &Model) -> &[Weighing]
    ensures items { result.now ≡ model.now.penalties }
    ensures small { All (λ w. unsigned_abs w.k ≤ limit_number limits.Coefficient) result.now }
    ensures few { length result.now ≤ limit_number limits.Statements }
{
    model.penalties.as_slice()
}

fn rewards(model: &Model) -> &[Weighing]
    ensures items { result.now ≡ model.now.rewards }
    ensures small { All (λ w. unsigned_abs w.k ≤ limit_number limits.Coefficient) result.now }
    ensures few { length result.now ≤ limit_number limits.Statements }
{
    model.rewards.as_slice()
}

/// The penalties of true elements minus the rewards of true elements.
pub(crate) fn weight(model: &Model, assignment: &Assignment) -> i64
    ensures { result ≡ sums.weight (lists_of model.now) assignment.now }
{
    let penalty = total(assignment, penalties(model));
    let reward = total(assignment, rewards(model));
    minus(penalty, reward)
}
