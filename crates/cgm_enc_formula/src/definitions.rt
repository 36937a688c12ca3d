//! Naming variables, each with the clauses or rows that define it.
ghost use Rattle.std.specs.Prelude.{◌≡◌, ◌+◌, ◌-◌, ◌^◌, ◌<◌, ◌≤◌, ◌∷◌, [], length, map, pos, neg_ℤ, ◌+ℤ◌, ◌-ℤ◌, unsigned_abs, All, IfOk, OnOk};
ghost use Rattle.cgm_atom.specs.Adding.{CanTake, with_written};
ghost use Rattle.cgm_atom.specs.Building.{IsRowSize, with_row, with_var};
ghost use Rattle.cgm_atom.specs.Instance.{var_count};
ghost use Rattle.cgm_atom.specs.Limits.{AreTermsOf, max_least, max_measure, measure};
ghost use Rattle.cgm_enc_formula.specs.Building.{HasRoomFor, definition_part, with_part};
ghost use Rattle.cgm_enc_formula.specs.Definitions.{all_of, any_of, at_least, at_most, one_of as one_of_clause, pairs, row_where, same_as};
ghost use Rattle.cgm_enc_formula.specs.Literals.{opposite as opposite_of, positive as positive_of};

use crate::literals::{Literal, atom, opposite, positive};
use crate::terms::negative;
use cgm_atom::literals::{add_clause, literal, negated};
use cgm_atom::{Atom, BuildStop, ProblemBuilder, Row, Seq, Var};
use cgm_base::OutOfMemory;
use std::alloc::Global;

/// A variable that is true exactly where all literals are.
pub(crate) fn define_all(
    alloc: Global,
    builder: &mut ProblemBuilder,
    literals: &[Literal],
) -> Result<Literal, OutOfMemory>
    requires known { All (λ l. l.variable < var_count builder.old) literals.now }
    requires room { HasRoomFor builder.old (definition_part (var_count builder.old)
        (all_of literals.now)) }
    ensures literal { IfOk result (λ l. l ≡ positive_of (var_count builder.old)) }
    ensures added { OnOk result (builder.new ≡ with_part builder.old
        (definition_part (var_count builder.old) (all_of literals.now))) }
{
    let p = new_name(builder)?;
    let opposites = opposites(alloc, literals)?;
    add_pairs(alloc, builder, negated(p), literals)?;
    add_one_of(alloc, builder, literal(p), opposites.as_slice())?;
    Ok(positive(p))
}

/// A variable that is true exactly where one of the literals is.
pub(crate) fn define_any(
    alloc: Global,
    builder: &mut ProblemBuilder,
    literals: &[Literal],
) -> Result<Literal, OutOfMemory>
    requires known { All (λ l. l.variable < var_count builder.old) literals.now }
    requires room { HasRoomFor builder.old (definition_part (var_count builder.old)
        (any_of literals.now)) }
    ensures literal { IfOk result (λ l. l ≡ positive_of (var_count builder.old)) }
    ensures added { OnOk result (builder.new ≡ with_part builder.old
        (definition_part (var_count builder.old) (any_of literals.now))) }
{
    let p = new_name(builder)?;
    let opposites = opposites(alloc, literals)?;
    add_pairs(alloc, builder, literal(p), opposites.as_slice())?;
    add_one_of(alloc, builder, negated(p), literals)?;
    Ok(positive(p))
}

/// A variable that is true exactly where both literals are true or both are false.
pub(crate) fn define_same(
    alloc: Global,
    builder: &mut ProblemBuilder,
    one: Literal,
    other: Literal,
) -> Result<Literal, OutOfMemory>
    requires one { one.variable < var_count builder.old }
    requires other { other.variable < var_count builder.old }
    requires room { HasRoomFor builder.old (definition_part (var_count builder.old)
        (same_as one other)) }
    ensures literal { IfOk result (λ l. l ≡ positive_of (var_count builder.old)) }
    ensures added { OnOk result (builder.new ≡ with_part builder.old
        (definition_part (var_count builder.old) (same_as one other))) }
{
    let p = new_name(builder)?;
    let not_one = opposite(one);
    let not_other = opposite(other);
    add_clause(alloc, builder, &[negated(p), atom(not_one), atom(other)])?;
    add_clause(alloc, builder, &[negated(p), atom(one), atom(not_other)])?;
    add_clause(alloc, builder, &[literal(p), atom(one), atom(other)])?;
    add_clause(
        alloc,
        builder,
        &[literal(p), atom(not_one), atom(not_other)],
    )?;
    Ok(positive(p))
}

/// A variable that is true exactly where the sum of the terms is at most the number.
pub(crate) fn define_at_most(
    alloc: Global,
    builder: &mut ProblemBuilder,
    terms: &[(i64, Var)],
    k: i64,
) -> Result<Literal, OutOfMemory>
    requires known { AreTermsOf (var_count builder.old) terms.now }
    requires coefficients { All (λ t. unsigned_abs t.0 < 2 ^ 63) terms.now }
    requires size { unsigned_abs k + measure builder.old.bounds terms.now ≤ max_measure }
    requires room { HasRoomFor builder.old (definition_part (var_count builder.old)
        (at_most terms.now k)) }
    ensures literal { IfOk result (λ l. l ≡ positive_of (var_count builder.old)) }
    ensures added { OnOk result (builder.new ≡ with_part builder.old
        (definition_part (var_count builder.old) (at_most terms.now k))) }
{
    builder.recall_well_formed();
    let p = new_name(builder)?;
    let negative_terms = negative(alloc, terms)?;
    add_row(builder, literal(p), negative_terms, negated_number(k))?;
    let same_terms = Vec::from_slice(alloc, terms)?;
    add_row(builder, negated(p), same_terms, next_number(k))?;
    Ok(positive(p))
}

/// A variable that is true exactly where the sum of the terms is at least the number.
pub(crate) fn define_at_least(
    alloc: Global,
    builder: &mut ProblemBuilder,
    terms: &[(i64, Var)],
    k: i64,
) -> Result<Literal, OutOfMemory>
    requires known { AreTermsOf (var_count builder.old) terms.now }
    requires coefficients { All (λ t. unsigned_abs t.0 < 2 ^ 63) terms.now }
    requires size { unsigned_abs k + measure builder.old.bounds terms.now ≤ max_measure }
    requires room { HasRoomFor builder.old (definition_part (var_count builder.old)
        (at_least terms.now k)) }
    ensures literal { IfOk result (λ l. l ≡ positive_of (var_count builder.old)) }
    ensures added { OnOk result (builder.new ≡ with_part builder.old
        (definition_part (var_count builder.old) (at_least terms.now k))) }
{
    builder.recall_well_formed();
    let p = new_name(builder)?;
    let same_terms = Vec::from_slice(alloc, terms)?;
    add_row(builder, literal(p), same_terms, k)?;
    let negative_terms = negative(alloc, terms)?;
    add_row(builder, negated(p), negative_terms, denied_number(k))?;
    Ok(positive(p))
}

fn negated_number(k: i64) -> i64
    requires { unsigned_abs k ≤ max_least }
    ensures { result ≡ neg_ℤ k }
{
    -k
}

fn next_number(k: i64) -> i64
    requires { unsigned_abs k ≤ max_least }
    ensures { result ≡ k +ℤ pos 1 }
{
    k + 1
}

fn denied_number(k: i64) -> i64
    requires { unsigned_abs k ≤ max_least }
    ensures { result ≡ pos 1 -ℤ k }
{
    1 - k
}

/// A new variable of 0 or 1.
fn new_name(builder: &mut ProblemBuilder) -> Result<u32, OutOfMemory>
    requires { var_count builder.old < 2 ^ 32 - 1 }
    ensures number { IfOk result (λ p. p ≡ var_count builder.old) }
    ensures added { OnOk result (builder.new ≡ with_var builder.old (pos 0) (pos 1)) }
{
    match builder.var(0, 1) {
        Ok(v) => Ok(v.0),
        Err(BuildStop::Memory) => Err(OutOfMemory),
        // Both bounds are within their limit.
        Err(BuildStop::Bound) => unreachable!(),
        Err(BuildStop::Row) => unreachable!(),
    }
}

fn opposites(alloc: Global, literals: &[Literal]) -> Result<Vec<Literal>, OutOfMemory>
    ensures { IfOk result (λ opposites. opposites.items ≡ map opposite_of literals.now) }
{
    let mut opposites = Vec::new(alloc);
    for l in literals {
        opposites.push(opposite(*l))?;
    }
    Ok(opposites)
}

/// For each literal a clause of the atom and the literal.
fn add_pairs(
    alloc: Global,
    builder: &mut ProblemBuilder,
    first: Atom,
    literals: &[Literal],
) -> Result<(), OutOfMemory>
    requires { CanTake builder.old (pairs first literals.now) }
    ensures { OnOk result (builder.new ≡ with_written builder.old (pairs first literals.now)) }
{
    for l in literals {
        add_clause(alloc, builder, &[first, atom(*l)])?;
    }
    Ok(())
}

/// A clause of the atom and the literals.
fn add_one_of(
    alloc: Global,
    builder: &mut ProblemBuilder,
    first: Atom,
    literals: &[Literal],
) -> Result<(), OutOfMemory>
    requires { CanTake builder.old (one_of_clause first literals.now ∷ []) }
    ensures { OnOk result (builder.new ≡ with_written builder.old
        (one_of_clause first literals.now ∷ [])) }
{
    let mut atoms = Vec::new(alloc);
    atoms.push(first)?;
    for l in literals {
        atoms.push(atom(*l))?;
    }
    add_clause(alloc, builder, atoms.as_slice())
}

/// Adds a row with a guard.
fn add_row(
    builder: &mut ProblemBuilder,
    guard: Atom,
    terms: Vec<(i64, Var)>,
    least: i64,
) -> Result<(), OutOfMemory>
    requires guard { guard.var.0 < var_count builder.old }
    requires terms { AreTermsOf (var_count builder.old) terms.items }
    requires size { IsRowSize builder.old.bounds (row_where guard terms.items least) }
    requires room { length builder.old.rows < 2 ^ 32 - 1 }
    ensures { OnOk result (builder.new ≡ with_row builder.old (row_where guard terms.items least)) }
{
    let row = Row {
        guard: Some(guard),
        terms: Seq::of(terms),
        least,
    };
    match builder.row(row) {
        Ok(_) => Ok(()),
        Err(BuildStop::Memory) => Err(OutOfMemory),
        // The row's measure and its least value are within their limits.
        Err(BuildStop::Row) => unreachable!(),
        Err(BuildStop::Bound) => unreachable!(),
    }
}
