//! Boxes.
ghost use Rattle.std.specs.Prelude.{◌≡◌, ℕ, ◌<◌, ◌≤ℤ◌, cond, length, not, if◌then◌else◌, int_lt, IsTrue, IfOk};
ghost use Rattle.cgm_atom.specs.Bounds.{Bounds, IsBoxOf, AreProperBounds, lower_of, upper_of};
ghost use Rattle.cgm_atom.specs.Narrowing.{is_false_in, is_true_in, made_true};
ghost use Rattle.cgm_atom.specs.Relaxing.{IsNumberWithin, relaxed};

use crate::constraints::{Atom, Var};
use crate::problems::Problem;
use cgm_base::OutOfMemory;
use std::alloc::Global;
use std::marker::Model;

/// A least and a greatest value for each variable of a problem.
#[derive(Debug, Drop)]
pub struct BoxState {
    lower: Vec<i64>,
    upper: Vec<i64>,
}

impl Model for BoxState {
    ghost use Rattle.cgm_atom.specs.Bounds.{Bounds};

    ghost Value = { Bounds };

    ghost use Rattle.cgm_atom.specs.Fields.{box_bounds};
    ghost use Rattle.cgm_atom.specs.Bounds.{AreProperBounds};

    ghost view = { box_bounds };

    ghost invariant = { λ b. AreProperBounds (box_bounds b) };
}

impl BoxState {
    /// The problem's bounds.
    pub fn of(alloc: Global, problem: &Problem) -> Result<BoxState, OutOfMemory>
        ensures bounds { IfOk result (λ b. b ≡ problem.now.bounds) }
        ensures box_of { IfOk result (λ b. IsBoxOf problem.now.bounds b) }
    {
        problem.recall_well_formed();
        let lower = Vec::from_slice(alloc, problem.lower())?;
        let upper = Vec::from_slice(alloc, problem.upper())?;
        Ok(BoxState { lower, upper })
    }

    /// Takes the problem's bounds again. Takes no memory.
    pub fn reset(&mut self, problem: &Problem)
        requires { IsBoxOf problem.now.bounds self.old }
        ensures bounds { self.new ≡ problem.now.bounds }
        ensures box_of { IsBoxOf problem.now.bounds self.new }
    {
        problem.recall_well_formed();
        self.lower.copy_from_slice(problem.lower());
        self.upper.copy_from_slice(problem.upper());
    }

    /// An equal box.
    pub fn copy(&self, alloc: Global) -> Result<BoxState, OutOfMemory>
        ensures { IfOk result (λ b. b ≡ self.now) }
    {
        let lower = Vec::from_slice(alloc, self.lower.as_slice())?;
        let upper = Vec::from_slice(alloc, self.upper.as_slice())?;
        Ok(BoxState { lower, upper })
    }

    /// The least value of a variable.
    pub fn lo(&self, variable: Var) -> i64
        requires { variable.0 < length self.now.lower }
        ensures value { result ≡ lower_of self.now variable.0 }
        ensures proper { AreProperBounds self.now }
    {
        self.lower[variable.0 as usize]
    }

    /// The greatest value of a variable.
    pub fn hi(&self, variable: Var) -> i64
        requires { variable.0 < length self.now.lower }
        ensures value { result ≡ upper_of self.now variable.0 }
        ensures proper { AreProperBounds self.now }
    {
        self.upper[variable.0 as usize]
    }

    /// Makes an atom true. Answers false where it is false in the box, and then changes nothing.
    pub fn assume(&mut self, atom: Atom) -> bool
        requires { atom.var.0 < length self.old.lower }
        ensures answer { result ≡ not (is_false_in self.old atom) }
        ensures after { self.new ≡ (if result then made_true self.old atom else self.old) }
        ensures within { (limits : Bounds) → IsBoxOf limits self.old → IsBoxOf limits self.new }
    {
        let lo = self.lo(atom.var);
        let hi = self.hi(atom.var);
        if is_false_between(atom, lo, hi) {
            return false;
        }
        if atom.at_least {
            self.lower[atom.var.0 as usize] = lo.max(atom.k);
        } else {
            self.upper[atom.var.0 as usize] = hi.min(atom.k);
        }
        true
    }

    /// Sets the bound that an atom speaks of back to the atom's number. The atom's variable exists,
    /// and the atom is true in the box. Takes no memory.
    pub fn relax(&mut self, atom: Atom)
        requires known { atom.var.0 < length self.old.lower }
        requires met { IsTrue (is_true_in self.old atom) }
        ensures after { self.new ≡ relaxed self.old atom }
        ensures within { (limits : Bounds) → IsBoxOf limits self.old → IsNumberWithin limits atom
            → IsBoxOf limits self.new }
    {
        if atom.at_least {
            self.lower[atom.var.0 as usize] = atom.k;
        } else {
            self.upper[atom.var.0 as usize] = atom.k;
        }
    }
}

/// Whether no value from `lo` to `hi` makes the atom true.
pub(crate) fn is_false_between(atom: Atom, lo: i64, hi: i64) -> bool
    ensures { result ≡ cond atom.at_least (int_lt hi atom.k) (int_lt atom.k lo) }
{
    if atom.at_least {
        hi < atom.k
    } else {
        atom.k < lo
    }
}
