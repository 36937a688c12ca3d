//! The clauses of goals with `must` and of assertions.
ghost use Rattle.std.specs.Prelude.{◌≡◌, ◌≤◌, ◌^◌, ◌∷◌, [], length, map, flat_map, OnOk};
ghost use Rattle.std.specs.List.{enumerate_from};
ghost use Rattle.cgm_atom.specs.Adding.{CanTake, with_written};
ghost use Rattle.cgm_enc_graph.specs.GraphClauses.{assertion_clause, must_clauses};

use cgm_atom::ProblemBuilder;
use cgm_atom::literals::{add_clause, literal, negated};
use cgm_base::OutOfMemory;
use cgm_model::{Assertion, Element};
use std::alloc::Global;

/// Each goal with `must` is true.
pub(crate) fn add_musts(
    alloc: Global,
    builder: &mut ProblemBuilder,
    elements: &[Element],
) -> Result<(), OutOfMemory>
    requires room { CanTake builder.old (flat_map must_clauses (enumerate_from 0 elements.now)) }
    requires few { length elements.now ≤ 2 ^ 32 }
    ensures { OnOk result (builder.new ≡ with_written builder.old
        (flat_map must_clauses (enumerate_from 0 elements.now))) }
{
    for (number, e) in elements.iter().enumerate() {
        add_must(alloc, builder, number as u32, e)?;
    }
    Ok(())
}

fn add_must(
    alloc: Global,
    builder: &mut ProblemBuilder,
    number: u32,
    element: &Element,
) -> Result<(), OutOfMemory>
    requires { CanTake builder.old (must_clauses (number, element.now)) }
    ensures { OnOk result (builder.new ≡ with_written builder.old
        (must_clauses (number, element.now))) }
{
    if !element.must {
        return Ok(());
    }
    add_clause(alloc, builder, &[literal(number)])
}

/// An element has the truth that is asserted.
pub(crate) fn add_asserts(
    alloc: Global,
    builder: &mut ProblemBuilder,
    asserts: &[Assertion],
) -> Result<(), OutOfMemory>
    requires { CanTake builder.old (map assertion_clause asserts.now) }
    ensures { OnOk result (builder.new ≡ with_written builder.old
        (map assertion_clause asserts.now)) }
{
    for a in asserts {
        add_assertion(alloc, builder, a)?;
    }
    Ok(())
}

fn add_assertion(
    alloc: Global,
    builder: &mut ProblemBuilder,
    assertion: &Assertion,
) -> Result<(), OutOfMemory>
    requires { CanTake builder.old (assertion_clause assertion.now ∷ []) }
    ensures { OnOk result (builder.new ≡ with_written builder.old
        (assertion_clause assertion.now ∷ [])) }
{
    if assertion.truth {
        add_clause(alloc, builder, &[literal(assertion.element)])
    } else {
        add_clause(alloc, builder, &[negated(assertion.element)])
    }
}
