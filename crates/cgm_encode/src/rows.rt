//! The rows by which variables are the values of expressions.
ghost use Rattle.std.specs.Prelude.{◌≡◌, ◌≢◌, ◌+◌, ◌-◌, ◌*◌, ◌<◌, ◌≤◌, ◌^◌, ◌∷◌, length, flat_map, pos, negsuc, neg_ℤ, unsigned_abs, All, IfOk, OnOk};
ghost use Rattle.std.specs.List.{zip};
ghost use Rattle.cgm_atom.specs.Building.{IsRowSize, with_row};
ghost use Rattle.cgm_atom.specs.Instance.{var_count};
ghost use Rattle.cgm_atom.specs.Limits.{AreTermsOf};
ghost use Rattle.cgm_encode.specs.Building.{HasBoundSize, IsDefining, defining_rows, with_rows};
ghost use Rattle.cgm_encode.specs.Totals.{row_of};

use crate::expressions::Expression;
use cgm_atom::{BuildStop, ProblemBuilder, Row, Seq, Var};
use cgm_base::OutOfMemory;
use cgm_enc_formula::negative;
use std::alloc::Global;

/// Adds the rows by which each variable is the value of the expression at its place.
pub(crate) fn add_defining_rows(
    alloc: Global,
    builder: &mut ProblemBuilder,
    variables: &[u32],
    expressions: &[Expression],
) -> Result<(), OutOfMemory>
    requires count { length variables.now ≡ length expressions.now }
    requires known { All (λ v. v < var_count builder.old) variables.now }
    requires expressions { All (λ v. All (IsDefining v) expressions.now) variables.now }
    requires sizes { All (HasBoundSize builder.old.bounds) expressions.now }
    requires room { length builder.old.rows + 2 * length expressions.now ≤ 2 ^ 32 - 1 }
    ensures { OnOk result (builder.new ≡ with_rows builder.old
        (flat_map defining_rows (zip variables.now expressions.now))) }
{
    for (place, e) in expressions.iter().enumerate() {
        add_two_rows(alloc, builder, variables[place], e)?;
    }
    Ok(())
}

/// Of the variable v and the expression L + d: `v - L >= d`, then `-v + L >= -d`.
fn add_two_rows(
    alloc: Global,
    builder: &mut ProblemBuilder,
    v: u32,
    expression: &Expression,
) -> Result<(), OutOfMemory>
    requires expression { IsDefining v expression.now }
    requires size { HasBoundSize builder.old.bounds expression.now }
    requires known { v < var_count builder.old }
    requires room { length builder.old.rows + 2 ≤ 2 ^ 32 - 1 }
    ensures { OnOk result (builder.new ≡ with_rows builder.old
        (defining_rows (v, expression.now))) }
{
    builder.recall_well_formed();
    let negative_terms = negative(alloc, expression.terms.as_slice())?;
    let terms = with_first(alloc, 1, v, negative_terms.as_slice())?;
    add_row(builder, terms, expression.constant)?;
    let terms = with_first(alloc, -1, v, expression.terms.as_slice())?;
    add_row(builder, terms, -expression.constant)
}

/// The term of the variable before the others.
fn with_first(
    alloc: Global,
    coefficient: i64,
    v: u32,
    others: &[(i64, Var)],
) -> Result<Vec<(i64, Var)>, OutOfMemory>
    ensures { IfOk result (λ terms. terms.items ≡ (coefficient, record { 0 = v }) ∷ others.now) }
{
    let mut terms = Vec::new(alloc);
    terms.push((coefficient, Var(v)))?;
    terms.extend_from_slice(others)?;
    Ok(terms)
}

/// Adds a row without a guard.
fn add_row(
    builder: &mut ProblemBuilder,
    terms: Vec<(i64, Var)>,
    least: i64,
) -> Result<(), OutOfMemory>
    requires terms { AreTermsOf (var_count builder.old) terms.items }
    requires size { IsRowSize builder.old.bounds (row_of terms.items least) }
    requires room { length builder.old.rows < 2 ^ 32 - 1 }
    ensures { OnOk result (builder.new ≡ with_row builder.old (row_of terms.items least)) }
{
    let row = Row {
        guard: None,
        terms: Seq::of(terms),
        least,
    };
    match builder.row(row) {
        Ok(_) => Ok(()),
        Err(BuildStop::Memory) => Err(OutOfMemory),
        // The row's measure and its least value are within their limits.
        Err(BuildStop::Row) => unreachable!(),
        Err(BuildStop::Bound) => unreachable!(),
    }
}
