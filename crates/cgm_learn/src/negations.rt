//! The negations of what a box says beyond the problem's bounds.
ghost use Rattle.std.specs.Prelude.{◌≡◌, ◌++◌, ◌<◌, ◌+ℤ◌, ◌-ℤ◌, false, int_lt, length, pos, true, IfOk, OnOk};
ghost use Rattle.cgm_atom.specs.Atoms.{negation};
ghost use Rattle.cgm_atom.specs.Bounds.{IsBoxOf, lower_of, upper_of};
ghost use Rattle.cgm_atom.specs.Instance.{var_count};
ghost use Rattle.cgm_atom.specs.Limits.{IsBound};
ghost use Rattle.cgm_atom.specs.Ranges.{IsAtomInRange};
ghost use Rattle.cgm_atom.specs.Steps.{AreBounds};
ghost use Rattle.cgm_learn.specs.Walking.{AreNegations, lower_negation, upper_negation};

use cgm_atom::{Atom, BoxState, Problem, Var};
use cgm_base::OutOfMemory;
use std::alloc::Global;

/// The negation of an atom whose number is within the limit of a bound.
pub(crate) fn opposite(atom: Atom) -> Atom
    requires { IsBound atom.k }
    ensures negation { result ≡ negation atom }
    ensures range { IsAtomInRange result }
{
    Atom {
        var: atom.var,
        at_least: !atom.at_least,
        k: if atom.at_least {
            atom.k - 1
        } else {
            atom.k + 1
        },
    }
}

/// Whether a box has a greater least value of a variable than the problem.
fn is_raised(problem: &Problem, rest: &BoxState, variable: Var) -> bool
    requires known { variable.0 < var_count problem.now }
    requires limits { IsBoxOf problem.now.bounds rest.now }
    ensures { result ≡ int_lt (lower_of problem.now.bounds variable.0)
        (lower_of rest.now variable.0) }
{
    let (lo, _) = problem.bounds(variable);
    lo < rest.lo(variable)
}

/// Whether a box has a lesser greatest value of a variable than the problem.
fn is_reduced(problem: &Problem, rest: &BoxState, variable: Var) -> bool
    requires known { variable.0 < var_count problem.now }
    requires limits { IsBoxOf problem.now.bounds rest.now }
    ensures { result ≡ int_lt (upper_of rest.now variable.0)
        (upper_of problem.now.bounds variable.0) }
{
    let (_, hi) = problem.bounds(variable);
    rest.hi(variable) < hi
}

/// The atom that a variable is below its least value.
fn below(rest: &BoxState, variable: Var) -> Atom
    requires known { variable.0 < length rest.now.lower }
    requires size { IsBound (lower_of rest.now variable.0) }
    ensures { result ≡ record {
      var = variable;
      at_least = false;
      k = lower_of rest.now variable.0
          -ℤ pos 1;
    } }
{
    Atom {
        var: variable,
        at_least: false,
        k: rest.lo(variable) - 1,
    }
}

/// The atom that a variable is above its greatest value.
fn above(rest: &BoxState, variable: Var) -> Atom
    requires known { variable.0 < length rest.now.lower }
    requires size { IsBound (upper_of rest.now variable.0) }
    ensures { result ≡ record {
      var = variable;
      at_least = true;
      k = upper_of rest.now variable.0
          +ℤ pos 1;
    } }
{
    Atom {
        var: variable,
        at_least: true,
        k: rest.hi(variable) + 1,
    }
}

fn add_lower(
    problem: &Problem,
    rest: &BoxState,
    variable: Var,
    atoms: &mut Vec<Atom>,
) -> Result<(), OutOfMemory>
    requires known { variable.0 < var_count problem.now }
    requires limits { IsBoxOf problem.now.bounds rest.now }
    requires sizes { AreBounds rest.now }
    ensures { OnOk result
        (atoms.new.items ≡ atoms.old.items ++ lower_negation problem.now.bounds rest.now
        variable.0) }
{
    if is_raised(problem, rest, variable) {
        atoms.push(below(rest, variable))?;
    }
    Ok(())
}

fn add_upper(
    problem: &Problem,
    rest: &BoxState,
    variable: Var,
    atoms: &mut Vec<Atom>,
) -> Result<(), OutOfMemory>
    requires known { variable.0 < var_count problem.now }
    requires limits { IsBoxOf problem.now.bounds rest.now }
    requires sizes { AreBounds rest.now }
    ensures { OnOk result
        (atoms.new.items ≡ atoms.old.items ++ upper_negation problem.now.bounds rest.now
        variable.0) }
{
    if is_reduced(problem, rest, variable) {
        atoms.push(above(rest, variable))?;
    }
    Ok(())
}

/// Atoms that are all false exactly in the boxes of the problem that lie in the rest.
pub(crate) fn negations(
    alloc: Global,
    problem: &Problem,
    rest: &BoxState,
) -> Result<Vec<Atom>, OutOfMemory>
    requires { IsBoxOf problem.now.bounds rest.now }
    ensures { IfOk result
        (λ atoms. AreNegations problem.now.bounds rest.now (var_count problem.now) atoms.items) }
{
    problem.recall_well_formed();
    let mut atoms = Vec::new(alloc);
    for v in 0..problem.vars() {
        add_lower(problem, rest, Var(v), &mut atoms)?;
        add_upper(problem, rest, Var(v), &mut atoms)?;
    }
    Ok(atoms)
}
