//! Building a problem.
ghost use Rattle.std.specs.Prelude.{◌≡◌, not, ℕ, ◌+◌, ◌-◌, ◌*◌, ◌^◌, ◌<◌, ◌≤◌, ◌≤ℤ◌, ◌↔◌, [], length, unsigned_abs, IsTrue, IfOk, IfSome, OnOk, OnErr};
ghost use Rattle.std.specs.BTreeSet.{contains};
ghost use Rattle.cgm_atom.specs.Bounds.{lower_of, upper_of};
ghost use Rattle.cgm_atom.specs.Building.{HasOneMore, IsRowAnswer, IsRowSize, IsVarAnswer, empty_instance, atom_order, first_atoms as first_atoms_after, with_clause, with_objective, without_repeats};
ghost use Rattle.cgm_atom.specs.Instance.{var_count};
ghost use Rattle.cgm_atom.specs.Limits.{AreTermsOf, IsBound, IsClauseOf, IsWellFormedProblem, greatest_size, max_bound, max_measure, max_objectives, measure};

use crate::constraints::{Atom, Clause, Row, Var};
use crate::limits::{MAX_BOUND, MAX_LEAST, MAX_MEASURE};
use crate::lists::Seq;
use crate::problems::Problem;
use cgm_base::OutOfMemory;
use std::alloc::Global;
use std::collections::BTreeSet;
use std::marker::Model;

/// Why a builder refuses a variable or a row.
#[derive(Clone, Copy, Debug, PartialEq, Eq)]
pub enum BuildStop {
    /// A bound of the variable passes 10^15 in size.
    Bound,
    /// The sum of coefficient size times greatest bound size passes 4·10^18,
    /// or the row's least value passes 4·10^18 + 1 in size.
    Row,
    /// Memory ran out.
    Memory,
}

/// A problem that is being built. After a refusal it is unchanged.
#[derive(Debug, Drop)]
pub struct ProblemBuilder {
    alloc: Global,
    problem: Problem,
}

impl Model for ProblemBuilder {
    ghost use Rattle.cgm_atom.specs.Instance.{Instance};

    ghost Value = { Instance };

    ghost view = { λ b. b.problem };
}

impl ProblemBuilder {
    /// A problem without variables. Takes no memory.
    pub fn new(alloc: Global) -> ProblemBuilder
        ensures { result ≡ empty_instance }
    {
        ProblemBuilder {
            alloc,
            problem: Problem::empty(alloc),
        }
    }

    /// What holds of the problem so far, for the proof of a caller.
    pub fn recall_well_formed(&self)
        ensures { IsWellFormedProblem self.now }
    {
        self.problem.recall_well_formed();
    }

    /// Adds a variable with a least and a greatest value, and answers it.
    pub fn var(&mut self, lo: i64, hi: i64) -> Result<Var, BuildStop>
        requires ordered { lo ≤ℤ hi }
        requires room { var_count self.old < 2 ^ 32 - 1 }
        ensures { IsVarAnswer self.old self.new lo hi result }
    {
        if lo.unsigned_abs() > MAX_BOUND {
            return Err(BuildStop::Bound);
        }
        if hi.unsigned_abs() > MAX_BOUND {
            return Err(BuildStop::Bound);
        }
        let number = self.problem.vars();
        match self.problem.push_var(lo, hi) {
            Ok(()) => Ok(Var(number)),
            Err(_) => Err(BuildStop::Memory),
        }
    }

    /// The least and the greatest value of a variable.
    pub fn bounds(&self, variable: Var) -> (i64, i64)
        requires { variable.0 < var_count self.now }
        ensures { result ≡ (
          lower_of self.now.bounds variable.0,
          upper_of self.now.bounds
              variable.0,
        ) }
    {
        self.problem.bounds(variable)
    }

    /// Whether the measure of the terms, the sum of coefficient size times greatest bound size, is at most `most`.
    pub fn is_within(&self, terms: &[(i64, Var)], most: u64) -> bool
        requires { AreTermsOf (var_count self.now) terms.now }
        ensures { IsTrue result ↔ (measure self.now.bounds terms.now ≤ most) }
    {
        is_measure_within(&self.problem, terms, most)
    }

    /// Adds a clause without its later equal atoms, and answers its number.
    pub fn clause(&mut self, added: Clause) -> Result<u32, OutOfMemory>
        requires known { IsClauseOf (var_count self.old) added }
        requires room { length self.old.clauses < 2 ^ 32 - 1 }
        ensures number { IfOk result (λ n. n ≡ length self.old.clauses) }
        ensures added { OnOk result (self.new ≡ with_clause self.old (without_repeats added)) }
        ensures unchanged { OnErr result (self.new ≡ self.old) }
    {
        let number = self.problem.clauses();
        let atoms = first_atoms(self.alloc, added.atoms.as_slice())?;
        self.problem.push_clause(Clause {
            atoms: Seq::of(atoms),
        })?;
        Ok(number)
    }

    /// Adds a row, and answers its number.
    pub fn row(&mut self, added: Row) -> Result<u32, BuildStop>
        requires guard { IfSome added.guard (λ g. g.var.0 < var_count self.old) }
        requires terms { AreTermsOf (var_count self.old) added.terms }
        requires room { length self.old.rows < 2 ^ 32 - 1 }
        ensures { IsRowAnswer self.old self.new added result }
    {
        if !is_row_size(&self.problem, &added) {
            return Err(BuildStop::Row);
        }
        let number = self.problem.rows();
        match self.problem.push_row(added) {
            Ok(()) => Ok(number),
            Err(_) => Err(BuildStop::Memory),
        }
    }

    /// Adds a variable to the objectives, at their end.
    pub fn objective(&mut self, variable: Var) -> Result<(), OutOfMemory>
        requires known { variable.0 < var_count self.old }
        requires room { length self.old.objectives < max_objectives }
        ensures added { OnOk result (self.new ≡ with_objective self.old variable) }
        ensures unchanged { OnErr result (self.new ≡ self.old) }
    {
        self.problem.push_objective(variable)
    }

    /// The problem as it was built.
    pub fn finish(self) -> Problem
        ensures { result ≡ self }
    {
        let ProblemBuilder { alloc: _, problem } = self;
        problem
    }
}

// The atoms that equal none before them, in n log n comparisons.
fn first_atoms(alloc: Global, atoms: &[Atom]) -> Result<Vec<Atom>, OutOfMemory>
    ensures { IfOk result (λ kept. kept.items ≡ first_atoms_after [] atoms.now) }
{
    let mut seen = BTreeSet::new(alloc);
    let mut kept = Vec::new(alloc);
    for atom in atoms {
        if !insert_new(&mut seen, *atom)? {
            continue;
        }
        kept.push(*atom)?;
    }
    Ok(kept)
}

// Adds an atom to those that were seen, and tells whether it equals none of them.
fn insert_new(seen: &mut BTreeSet<Atom>, atom: Atom) -> Result<bool, OutOfMemory>
    ensures is_new { IfOk result (λ is_new. is_new ≡ not (contains atom_order seen.old atom)) }
    ensures seen { OnOk result (HasOneMore seen.old seen.new atom) }
{
    let is_new = seen.insert(atom)?;
    Ok(is_new)
}

fn is_row_size(problem: &Problem, row: &Row) -> bool
    requires { AreTermsOf (var_count problem.now) row.now.terms }
    ensures { IsTrue result ↔ IsRowSize problem.now.bounds row.now }
{
    if row.least.unsigned_abs() > MAX_LEAST {
        return false;
    }
    is_measure_within(problem, row.terms.as_slice(), MAX_MEASURE)
}

// Stops at the first term that passes the limit, since the whole measure may not fit.
fn is_measure_within(problem: &Problem, terms: &[(i64, Var)], most: u64) -> bool
    requires { AreTermsOf (var_count problem.now) terms.now }
    ensures { IsTrue result ↔ (measure problem.now.bounds terms.now ≤ most) }
{
    let mut room = most;
    for (coefficient, v) in terms {
        let share = term_measure(*coefficient, bound_size(problem, *v));
        if share > u128::from(room) {
            return false;
        }
        room -= share as u64;
    }
    true
}

fn bound_size(problem: &Problem, variable: Var) -> u64
    requires { variable.0 < var_count problem.now }
    ensures size { result ≡ greatest_size problem.now.bounds variable.0 }
    ensures limit { result ≤ max_bound }
{
    let (lo, hi) = problem.bounds(variable);
    lo.unsigned_abs().max(hi.unsigned_abs())
}

fn term_measure(coefficient: i64, size: u64) -> u128
    requires { size ≤ max_bound }
    ensures { result ≡ unsigned_abs coefficient * size }
{
    u128::from(coefficient.unsigned_abs()) * u128::from(size)
}
