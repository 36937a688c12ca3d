//! Problems.
ghost use Rattle.std.specs.Prelude.{◌≡◌, ℕ, ◌+◌, ◌-◌, ◌^◌, ◌<◌, ◌≤◌, ◌≤ℤ◌, length, slice_get, IfOk, OnOk, OnErr};
ghost use Rattle.cgm_atom.specs.Bounds.{lower_of, upper_of};
ghost use Rattle.cgm_atom.specs.Building.{IsRowSize, empty_instance, with_clause, with_objective, with_row, with_var};
ghost use Rattle.cgm_atom.specs.Instance.{var_count};
ghost use Rattle.cgm_atom.specs.Limits.{AreTermsOf, IsBound, IsClauseOf, IsRowOf, IsWellFormedProblem, max_objectives};

use crate::constraints::{Clause, Row, Var};
use cgm_base::OutOfMemory;
use std::alloc::Global;
use std::marker::Model;

/// Variables with bounds, clauses, rows and up to eight objectives, each of which is a variable.
/// It keeps the limits under which every sum of a row fits 64 bits.
#[derive(Debug, Drop)]
pub struct Problem {
    lower: Vec<i64>,
    upper: Vec<i64>,
    clauses: Vec<Clause>,
    rows: Vec<Row>,
    objectives: Vec<Var>,
}

impl Model for Problem {
    ghost use Rattle.cgm_atom.specs.Instance.{Instance};
    ghost use Rattle.cgm_atom.specs.Limits.{IsWellFormedProblem};

    ghost Value = { Instance };

    ghost use Rattle.cgm_atom.specs.Fields.{instance};

    ghost view = { instance };

    ghost invariant = { λ p. IsWellFormedProblem (instance p) };
}

impl Problem {
    /// How many variables there are.
    pub fn vars(&self) -> u32
        ensures count { result ≡ var_count self.now }
        ensures valid { IsWellFormedProblem self.now }
    {
        self.lower.len() as u32
    }

    /// The least and the greatest value of a variable.
    pub fn bounds(&self, variable: Var) -> (i64, i64)
        requires { variable.0 < var_count self.now }
        ensures bounds { result ≡ (
          lower_of self.now.bounds variable.0,
          upper_of self.now.bounds
              variable.0,
        ) }
        ensures valid { IsWellFormedProblem self.now }
    {
        let at = variable.0 as usize;
        (self.lower[at], self.upper[at])
    }

    /// The clause with a number.
    pub fn clause(&self, n: u32) -> &Clause
        requires { n < length self.now.clauses }
        ensures found { slice_get self.now.clauses n ≡ Some result.now }
        ensures known { IsClauseOf (var_count self.now) result.now }
    {
        &self.clauses[n as usize]
    }

    /// How many clauses there are.
    pub fn clauses(&self) -> u32
        ensures count { result ≡ length self.now.clauses }
        ensures valid { IsWellFormedProblem self.now }
    {
        self.clauses.len() as u32
    }

    /// The row with a number.
    pub fn row(&self, n: u32) -> &Row
        requires { n < length self.now.rows }
        ensures found { slice_get self.now.rows n ≡ Some result.now }
        ensures known { IsRowOf self.now.bounds result.now }
    {
        &self.rows[n as usize]
    }

    /// How many rows there are.
    pub fn rows(&self) -> u32
        ensures count { result ≡ length self.now.rows }
        ensures valid { IsWellFormedProblem self.now }
    {
        self.rows.len() as u32
    }

    /// The objective variables, in their order.
    pub fn objectives(&self) -> &[Var]
        ensures objectives { result.now ≡ self.now.objectives }
        ensures valid { IsWellFormedProblem self.now }
    {
        self.objectives.as_slice()
    }

    /// Does nothing: a proof learns here that the problem is well formed.
    pub fn recall_well_formed(&self)
        ensures { IsWellFormedProblem self.now }
    {
        let _ = &self.lower;
    }

    /// An equal problem.
    pub fn copy(&self, alloc: Global) -> Result<Problem, OutOfMemory>
        ensures { IfOk result (λ p. p ≡ self.now) }
    {
        let lower = Vec::from_slice(alloc, self.lower.as_slice())?;
        let upper = Vec::from_slice(alloc, self.upper.as_slice())?;
        let clauses = copy_clauses(alloc, self.clauses.as_slice())?;
        let rows = copy_rows(alloc, self.rows.as_slice())?;
        let objectives = Vec::from_slice(alloc, self.objectives.as_slice())?;
        Ok(Problem {
            lower,
            upper,
            clauses,
            rows,
            objectives,
        })
    }

    pub(crate) fn lower(&self) -> &[i64]
        ensures { result.now ≡ self.now.bounds.lower }
    {
        self.lower.as_slice()
    }

    pub(crate) fn upper(&self) -> &[i64]
        ensures { result.now ≡ self.now.bounds.upper }
    {
        self.upper.as_slice()
    }

    pub(crate) fn clause_list(&self) -> &[Clause]
        ensures { result.now ≡ self.now.clauses }
    {
        self.clauses.as_slice()
    }

    pub(crate) fn row_list(&self) -> &[Row]
        ensures { result.now ≡ self.now.rows }
    {
        self.rows.as_slice()
    }

    pub(crate) fn empty(alloc: Global) -> Problem
        ensures { result ≡ empty_instance }
    {
        Problem {
            lower: Vec::new(alloc),
            upper: Vec::new(alloc),
            clauses: Vec::new(alloc),
            rows: Vec::new(alloc),
            objectives: Vec::new(alloc),
        }
    }

    pub(crate) fn push_var(&mut self, lo: i64, hi: i64) -> Result<(), OutOfMemory>
        requires ordered { lo ≤ℤ hi }
        requires low { IsBound lo }
        requires high { IsBound hi }
        requires room { var_count self.old < 2 ^ 32 - 1 }
        ensures ok { OnOk result (self.new ≡ with_var self.old lo hi) }
        ensures err { OnErr result (self.new ≡ self.old) }
    {
        let count = self.lower.len();
        self.lower.push(lo)?;
        if let Err(error) = self.upper.push(hi) {
            self.lower.truncate(count);
            return Err(error.into());
        }
        Ok(())
    }

    pub(crate) fn push_clause(&mut self, clause: Clause) -> Result<(), OutOfMemory>
        requires known { IsClauseOf (var_count self.old) clause }
        requires room { length self.old.clauses < 2 ^ 32 - 1 }
        ensures ok { OnOk result (self.new ≡ with_clause self.old clause) }
        ensures err { OnErr result (self.new ≡ self.old) }
    {
        self.clauses.push(clause)?;
        Ok(())
    }

    pub(crate) fn push_row(&mut self, row: Row) -> Result<(), OutOfMemory>
        requires known { IsRowOf self.old.bounds row }
        requires room { length self.old.rows < 2 ^ 32 - 1 }
        ensures ok { OnOk result (self.new ≡ with_row self.old row) }
        ensures err { OnErr result (self.new ≡ self.old) }
    {
        self.rows.push(row)?;
        Ok(())
    }

    pub(crate) fn push_objective(&mut self, variable: Var) -> Result<(), OutOfMemory>
        requires known { variable.0 < var_count self.old }
        requires room { length self.old.objectives < max_objectives }
        ensures ok { OnOk result (self.new ≡ with_objective self.old variable) }
        ensures err { OnErr result (self.new ≡ self.old) }
    {
        self.objectives.push(variable)?;
        Ok(())
    }
}

fn copy_clauses(alloc: Global, clauses: &[Clause]) -> Result<Vec<Clause>, OutOfMemory>
    ensures { IfOk result (λ v. v.items ≡ clauses.now) }
{
    let mut copies = Vec::new(alloc);
    for clause in clauses {
        copies.push(clause.copy(alloc)?)?;
    }
    Ok(copies)
}

fn copy_rows(alloc: Global, rows: &[Row]) -> Result<Vec<Row>, OutOfMemory>
    ensures { IfOk result (λ v. v.items ≡ rows.now) }
{
    let mut copies = Vec::new(alloc);
    for row in rows {
        copies.push(row.copy(alloc)?)?;
    }
    Ok(copies)
}
