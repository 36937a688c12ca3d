//! The clauses of refinements, and of the elements that they refine.
ghost use Rattle.std.specs.Prelude.{◌≡◌, ◌+◌, ◌<◌, ◌≤◌, ◌^◌, ◌++◌, ◌∷◌, [], length, map, flat_map, OnOk};
ghost use Rattle.std.specs.List.{enumerate_from};
ghost use Rattle.cgm_atom.specs.Adding.{CanTake, with_written};
ghost use Rattle.cgm_atom.specs.Literals.{clause, implication, literal as literal_of, negated as negated_of};
ghost use Rattle.cgm_enc_graph.specs.GraphClauses.{element_clauses, refinement_clauses};

use cgm_atom::ProblemBuilder;
use cgm_atom::literals::{
    add_clause, add_implication, literal, negated, push_literals, push_negated,
};
use cgm_base::OutOfMemory;
use cgm_formula::Parts;
use cgm_model::Refinement;
use std::alloc::Global;

/// Adds the clauses of each refinement. The first refinement has this variable.
pub(crate) fn add_refinements(
    alloc: Global,
    builder: &mut ProblemBuilder,
    first: u32,
    refinements: &[Refinement],
) -> Result<(), OutOfMemory>
    requires room { CanTake builder.old (flat_map refinement_clauses
        (enumerate_from first refinements.now)) }
    requires few { first + length refinements.now ≤ 2 ^ 32 }
    ensures { OnOk result (builder.new ≡ with_written builder.old
        (flat_map refinement_clauses (enumerate_from first refinements.now))) }
{
    for (number, r) in refinements.iter().enumerate() {
        add_refinement(alloc, builder, first + number as u32, r)?;
    }
    Ok(())
}

fn add_refinement(
    alloc: Global,
    builder: &mut ProblemBuilder,
    x: u32,
    refinement: &Refinement,
) -> Result<(), OutOfMemory>
    requires { CanTake builder.old (refinement_clauses (x, refinement.now)) }
    ensures { OnOk result (builder.new ≡ with_written builder.old
        (refinement_clauses (x, refinement.now))) }
{
    let sources = refinement.sources.as_slice();
    add_sources(alloc, builder, x, sources)?;
    add_converse(alloc, builder, x, sources)?;
    add_implication(alloc, builder, x, refinement.target)
}

/// Where the refinement is true, so is each source.
fn add_sources(
    alloc: Global,
    builder: &mut ProblemBuilder,
    x: u32,
    sources: &[u32],
) -> Result<(), OutOfMemory>
    requires { CanTake builder.old (map (implication x) sources.now) }
    ensures { OnOk result (builder.new ≡ with_written builder.old
        (map (implication x) sources.now)) }
{
    for source in sources {
        add_implication(alloc, builder, x, *source)?;
    }
    Ok(())
}

/// Where all sources are true, so is the refinement.
fn add_converse(
    alloc: Global,
    builder: &mut ProblemBuilder,
    x: u32,
    sources: &[u32],
) -> Result<(), OutOfMemory>
    requires { CanTake builder.old (clause (map negated_of sources.now ++ literal_of x ∷ []) ∷ []) }
    ensures { OnOk result (builder.new ≡ with_written builder.old
        (clause (map negated_of sources.now ++ literal_of x ∷ []) ∷ [])) }
{
    let mut atoms = Vec::new(alloc);
    push_negated(&mut atoms, sources)?;
    atoms.push(literal(x))?;
    add_clause(alloc, builder, atoms.as_slice())
}

/// Adds the clause of each element that has refinements. The list has the variables of the
/// refinements of each element.
pub(crate) fn add_elements(
    alloc: Global,
    builder: &mut ProblemBuilder,
    refinements: &[Parts<u32>],
) -> Result<(), OutOfMemory>
    requires room { CanTake builder.old (flat_map (λ e. element_clauses e.0 e.1)
        (enumerate_from 0 refinements.now)) }
    requires few { length refinements.now ≤ 2 ^ 32 }
    ensures { OnOk result (builder.new ≡ with_written builder.old
        (flat_map (λ e. element_clauses e.0 e.1) (enumerate_from 0 refinements.now))) }
{
    for (element, own) in refinements.iter().enumerate() {
        add_element(alloc, builder, element as u32, own.as_slice())?;
    }
    Ok(())
}

/// Where the element is true and has refinements, so is one of them.
fn add_element(
    alloc: Global,
    builder: &mut ProblemBuilder,
    element: u32,
    refinements: &[u32],
) -> Result<(), OutOfMemory>
    requires { CanTake builder.old (element_clauses element refinements.now) }
    ensures { OnOk result (builder.new ≡ with_written builder.old
        (element_clauses element refinements.now)) }
{
    if refinements.is_empty() {
        return Ok(());
    }
    let mut atoms = Vec::new(alloc);
    atoms.push(negated(element))?;
    push_literals(&mut atoms, refinements)?;
    add_clause(alloc, builder, atoms.as_slice())
}
