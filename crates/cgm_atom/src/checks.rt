//! Whether values are a solution.
ghost use Rattle.std.specs.Prelude.{◌≡◌, ℕ, ◌+◌, ◌*◌, ◌^◌, ◌<◌, ◌≤◌, ◌↔◌, ◌&&◌, ◌+ℤ◌, ◌*ℤ◌, not, length, int_le, unsigned_abs, IsTrue, IsNone, IfSome};
ghost use Rattle.std.specs.List.{position_from};
ghost use Rattle.cgm_atom.specs.Atoms.{activity, atom_true, clause_true, guard_true, row_true};
ghost use Rattle.cgm_atom.specs.Bounds.{IsWithin, value_of};
ghost use Rattle.cgm_atom.specs.Instance.{IsSolution, first_violation, outside_from, var_count};
ghost use Rattle.cgm_atom.specs.Limits.{AreTermsOf, IsClauseOf, IsRowOf, greatest_size, max_measure, measure};

use crate::arithmetic::{product, sum_of};
use crate::constraints::{Atom, Clause, Row, Var};
use crate::problems::Problem;

/// The first thing that keeps values from being a solution.
#[derive(Clone, Copy, Debug, PartialEq, Eq)]
pub enum Violated {
    /// There are not as many values as variables.
    Count,
    /// The value of the variable with this number is outside its bounds.
    Bound(u32),
    /// No atom of the clause with this number is true.
    Clause(u32),
    /// The row with this number isn't met.
    Row(u32),
}

/// Whether the values, one for each variable by its number, are a solution.
pub fn satisfied(problem: &Problem, values: &[i64]) -> bool
    ensures { IsTrue result ↔ IsSolution problem.now values.now }
{
    first_violated(problem, values).is_none()
}

/// What keeps the values from being a solution: the count, then the first bound, clause or row by its number.
pub fn first_violated(problem: &Problem, values: &[i64]) -> Option<Violated>
    ensures first { result ≡ first_violation problem.now values.now }
    ensures none { IsNone result ↔ IsSolution problem.now values.now }
{
    if values.len() != problem.vars() as usize {
        return Some(Violated::Count);
    }
    if let Some(x) = first_outside(problem, values) {
        return Some(Violated::Bound(x));
    }
    if let Some(n) = first_false_clause(problem, values) {
        return Some(Violated::Clause(n));
    }
    first_unmet_row(problem, values).map(Violated::Row)
}

fn first_outside(problem: &Problem, values: &[i64]) -> Option<u32>
    requires { length values.now ≡ var_count problem.now }
    ensures first { result ≡ outside_from problem.now.bounds 0 values.now }
    ensures none { IsNone result ↔ IsWithin problem.now.bounds values.now }
{
    problem.recall_well_formed();
    for (x, value) in values.iter().enumerate() {
        let (lo, hi) = problem.bounds(Var(x as u32));
        if !is_between(lo, *value, hi) {
            return Some(x as u32);
        }
    }
    None
}

fn is_between(lo: i64, value: i64, hi: i64) -> bool
    ensures { result ≡ (int_le lo value && int_le value hi) }
{
    lo <= value && value <= hi
}

fn first_false_clause(problem: &Problem, values: &[i64]) -> Option<u32>
    requires { length values.now ≡ var_count problem.now }
    ensures { result ≡ position_from (λ c. not (clause_true values.now c)) 0 problem.now.clauses }
{
    problem.recall_well_formed();
    for (n, clause) in problem.clause_list().iter().enumerate() {
        if !is_clause_true(clause, values) {
            return Some(n as u32);
        }
    }
    None
}

fn first_unmet_row(problem: &Problem, values: &[i64]) -> Option<u32>
    requires count { length values.now ≡ var_count problem.now }
    requires within { IsWithin problem.now.bounds values.now }
    ensures { result ≡ position_from (λ r. not (row_true values.now r)) 0 problem.now.rows }
{
    problem.recall_well_formed();
    for (n, row) in problem.row_list().iter().enumerate() {
        if !is_row_true(problem, row, values) {
            return Some(n as u32);
        }
    }
    None
}

fn is_atom_true(atom: Atom, values: &[i64]) -> bool
    requires { atom.var.0 < length values.now }
    ensures { result ≡ atom_true values.now atom }
{
    let value = value_at(values, atom.var);
    if atom.at_least {
        atom.k <= value
    } else {
        value <= atom.k
    }
}

fn is_clause_true(clause: &Clause, values: &[i64]) -> bool
    requires { IsClauseOf (length values.now) clause.now }
    ensures { result ≡ clause_true values.now clause.now }
{
    for atom in clause.atoms.as_slice() {
        if is_atom_true(*atom, values) {
            return true;
        }
    }
    false
}

fn is_row_true(problem: &Problem, row: &Row, values: &[i64]) -> bool
    requires known { IsRowOf problem.now.bounds row.now }
    requires count { length values.now ≡ var_count problem.now }
    requires within { IsWithin problem.now.bounds values.now }
    ensures { result ≡ row_true values.now row.now }
{
    if !is_guard_true(row.guard, values) {
        return true;
    }
    row.least <= activity_of(problem, row.terms.as_slice(), values)
}

fn is_guard_true(guard: Option<Atom>, values: &[i64]) -> bool
    requires { IfSome guard (λ g. g.var.0 < length values.now) }
    ensures { result ≡ guard_true values.now guard }
{
    match guard {
        None => true,
        Some(atom) => is_atom_true(atom, values),
    }
}

// By the row's measure each sum on the way fits.
fn activity_of(problem: &Problem, terms: &[(i64, Var)], values: &[i64]) -> i64
    requires known { AreTermsOf (var_count problem.now) terms.now }
    requires limit { measure problem.now.bounds terms.now ≤ max_measure }
    requires count { length values.now ≡ var_count problem.now }
    requires within { IsWithin problem.now.bounds values.now }
    ensures { result ≡ activity values.now terms.now }
{
    let mut sum = 0;
    for (coefficient, v) in terms {
        sum = sum_of(sum, term_value(problem, *coefficient, *v, values));
    }
    sum
}

fn term_value(problem: &Problem, coefficient: i64, variable: Var, values: &[i64]) -> i64
    requires known { variable.0 < var_count problem.now }
    requires limit { unsigned_abs coefficient * greatest_size problem.now.bounds variable.0
        ≤ max_measure }
    requires count { length values.now ≡ var_count problem.now }
    requires within { IsWithin problem.now.bounds values.now }
    ensures value { result ≡ coefficient *ℤ value_of values.now variable.0 }
    ensures size { unsigned_abs result ≤ unsigned_abs coefficient * greatest_size problem.now.bounds
        variable.0 }
{
    product(coefficient, value_at(values, variable))
}

fn value_at(values: &[i64], variable: Var) -> i64
    requires { variable.0 < length values.now }
    ensures { result ≡ value_of values.now variable.0 }
{
    values[variable.0 as usize]
}
