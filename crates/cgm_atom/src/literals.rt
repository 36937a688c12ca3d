//! Atoms of variables of 0 or 1, and clauses of them.
ghost use Rattle.std.specs.Prelude.{◌≡◌, ◌++◌, ◌∷◌, [], map, OnOk};
ghost use Rattle.cgm_atom.specs.Adding.{CanTake, with_written};
ghost use Rattle.cgm_atom.specs.Literals.{clause, implication, literal as literal_of, negated as negated_of};

use crate::builders::ProblemBuilder;
use crate::constraints::{Atom, Clause, Var};
use crate::lists::Seq;
use cgm_base::OutOfMemory;
use std::alloc::Global;

/// That a variable of 0 or 1 is 1: `x >= 1`.
pub fn literal(x: u32) -> Atom
    ensures { result ≡ literal_of x }
{
    Atom {
        var: Var(x),
        at_least: true,
        k: 1,
    }
}

/// That a variable of 0 or 1 is 0: `x <= 0`.
pub fn negated(x: u32) -> Atom
    ensures { result ≡ negated_of x }
{
    Atom {
        var: Var(x),
        at_least: false,
        k: 0,
    }
}

/// Adds a clause of these atoms, a later equal one dropped.
/// Condition: their variables are known, their numbers are at most 2·10^15 in size, and the builder
/// has fewer than 2^32 - 1 clauses so far. After want of memory the builder is given up.
pub fn add_clause(
    alloc: Global,
    builder: &mut ProblemBuilder,
    atoms: &[Atom],
) -> Result<(), OutOfMemory>
    requires { CanTake builder.old (clause atoms.now ∷ []) }
    ensures { OnOk result (builder.new ≡ with_written builder.old (clause atoms.now ∷ [])) }
{
    let atoms = Vec::from_slice(alloc, atoms)?;
    builder.clause(Clause {
        atoms: Seq::of(atoms),
    })?;
    Ok(())
}

/// Adds the clause that the second variable is 1 where the first is, as `add_clause` does.
pub fn add_implication(
    alloc: Global,
    builder: &mut ProblemBuilder,
    first: u32,
    second: u32,
) -> Result<(), OutOfMemory>
    requires { CanTake builder.old (implication first second ∷ []) }
    ensures { OnOk result (builder.new ≡ with_written builder.old (implication first second ∷ [])) }
{
    add_clause(alloc, builder, &[negated(first), literal(second)])
}

/// Pushes the literal of each variable.
pub fn push_literals(atoms: &mut Vec<Atom>, variables: &[u32]) -> Result<(), OutOfMemory>
    ensures { OnOk result (atoms.new.items ≡ atoms.old.items ++ map literal_of variables.now) }
{
    for x in variables {
        atoms.push(literal(*x))?;
    }
    Ok(())
}

/// Pushes for each variable that it is 0.
pub fn push_negated(atoms: &mut Vec<Atom>, variables: &[u32]) -> Result<(), OutOfMemory>
    ensures { OnOk result (atoms.new.items ≡ atoms.old.items ++ map negated_of variables.now) }
{
    for x in variables {
        atoms.push(negated(*x))?;
    }
    Ok(())
}
