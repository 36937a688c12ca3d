// Problems as text, and how they are made. The statement `vars` has the least and the greatest value
// of each variable, `clause` the atoms of a clause, `row` the terms, the least sum and the guard of a
// row, and `objectives` the objectives.
ghost use Rattle.std.specs.Prelude.{◌≡◌, ◌≢◌, ◌+◌, ◌<◌, ◌≤ℤ◌, pos, IsTrue, IfOk, IfSome, OnOk};
ghost use Rattle.std.specs.List.{All};
ghost use Rattle.cgm_atom.specs.Limits.{AreTermsOf, IsAbsent, IsAtomOf};
ghost use Rattle.cgm_rows_problems.specs.Sizes.{HasSizes};

use crate::words::{after, atom, atoms, number, parted, place, range};
use cgm_atom::{Atom, Clause, MAX_ATOM_NUMBER, Problem, ProblemBuilder, Row, Seq, Var};
use std::alloc::Global;
use std::test::Fail;

/// The problem of a text. Statements of other words are passed over.
pub(crate) fn problem_of(alloc: Global, text: &str) -> Result<Problem, Fail> {
    let mut builder = ProblemBuilder::new(alloc);
    build(alloc, &mut builder, text)?;
    Ok(builder.finish())
}

/// Gives the memory of a problem back.
pub(crate) fn discard(_problem: Problem) {}

fn build(alloc: Global, builder: &mut ProblemBuilder, text: &str) -> Result<(), Fail>
    requires { HasSizes builder.old 0 0 0 }
{
    let count = add_variables(builder, after(text, "vars"))?;
    add_constraints(alloc, builder, count, text)?;
    add_objectives(builder, count, after(text, "objectives"))
}

/// Adds all variables, and answers their number.
fn add_variables(builder: &mut ProblemBuilder, ranges: &str) -> Result<u32, Fail>
    requires { HasSizes builder.old 0 0 0 }
    ensures { IfOk result (λ count. HasSizes builder.new count 0 0) }
{
    let mut count: u32 = 0;
    for word in ranges.split_whitespace() {
        let (lo, hi) = bounds(word)?;
        if count >= 1_000 {
            return Err(Fail::new("too many variables"));
        }
        builder.var(lo, hi)?;
        count += 1;
    }
    Ok(count)
}

/// The least and the greatest value of a variable.
pub(crate) fn bounds(word: &str) -> Result<(i64, i64), Fail>
    ensures { IfOk result (λ bounds. bounds.0 ≤ℤ bounds.1) }
{
    let (lo, hi) = range(word);
    if lo > hi {
        return Err(Fail::new("no values"));
    }
    Ok((lo, hi))
}

/// Adds the clauses and rows in the order of their statements.
fn add_constraints(
    alloc: Global,
    builder: &mut ProblemBuilder,
    count: u32,
    text: &str,
) -> Result<(), Fail>
    requires { HasSizes builder.old count 0 0 }
    ensures { OnOk result (HasSizes builder.new count 2000 0) }
{
    let mut seen: u32 = 0;
    for statement in text.split(';') {
        if seen >= 2_000 {
            return Err(Fail::new("too many statements"));
        }
        add_constraint(alloc, builder, count, seen, statement)?;
        seen += 1;
    }
    Ok(())
}

/// Adds the clause or row of a statement, if it has one, behind so many statements.
fn add_constraint(
    alloc: Global,
    builder: &mut ProblemBuilder,
    count: u32,
    seen: u32,
    statement: &str,
) -> Result<(), Fail>
    requires sizes { HasSizes builder.old count seen 0 }
    requires room { seen < 2000 }
    ensures { OnOk result (HasSizes builder.new count (seen + 1) 0) }
{
    let (head, words) = parted(statement);
    match head {
        "clause" => add_clause(alloc, builder, count, seen, words),
        "row" => add_row(alloc, builder, count, seen, words),
        _ => Ok(()),
    }
}

fn add_clause(
    alloc: Global,
    builder: &mut ProblemBuilder,
    count: u32,
    seen: u32,
    words: &str,
) -> Result<(), Fail>
    requires sizes { HasSizes builder.old count seen 0 }
    requires room { seen < 2000 }
    ensures { OnOk result (HasSizes builder.new count (seen + 1) 0) }
{
    let clause = clause_of(alloc, count, words)?;
    builder.clause(clause)?;
    Ok(())
}

fn add_row(
    alloc: Global,
    builder: &mut ProblemBuilder,
    count: u32,
    seen: u32,
    words: &str,
) -> Result<(), Fail>
    requires sizes { HasSizes builder.old count seen 0 }
    requires room { seen < 2000 }
    ensures { OnOk result (HasSizes builder.new count (seen + 1) 0) }
{
    let row = row_of(alloc, count, words)?;
    builder.row(row)?;
    Ok(())
}

/// The clause of these atoms over so many variables.
pub(crate) fn clause_of(alloc: Global, count: u32, words: &str) -> Result<Clause, Fail>
    ensures { IfOk result (λ c. All (IsAtomOf count) c.atoms) }
{
    let atoms = atoms(alloc, words)?;
    if !are_atoms(count, atoms.as_slice()) {
        return Err(Fail::new("no clause of the problem"));
    }
    Ok(Clause {
        atoms: Seq::of(atoms),
    })
}

/// Whether each atom has one of so many variables and a number within its limit.
fn are_atoms(count: u32, atoms: &[Atom]) -> bool
    ensures { IsTrue result → All (IsAtomOf count) atoms.now }
{
    for i in 0..atoms.len() {
        if !is_atom(count, atoms[i]) {
            return false;
        }
    }
    true
}

fn is_atom(count: u32, atom: Atom) -> bool
    ensures { IsTrue result → IsAtomOf count atom }
{
    if atom.var.0 >= count {
        return false;
    }
    atom.k.unsigned_abs() <= MAX_ATOM_NUMBER
}

/// The row of these words over so many variables, as in `2*0 -3*1 >= 4 if 2>=1`.
pub(crate) fn row_of(alloc: Global, count: u32, words: &str) -> Result<Row, Fail>
    ensures guard { IfOk result (λ r. IfSome r.guard (λ g. g.var.0 < count)) }
    ensures terms { IfOk result (λ r. AreTermsOf count r.terms) }
{
    match words.split_once(">= ") {
        None => Err(Fail::new("no row")),
        Some((sum, rest)) => {
            let (least, guard) = guarded(rest);
            if !is_guard(count, guard) {
                return Err(Fail::new("no guard of the problem"));
            }
            let terms = terms(alloc, sum)?;
            if !are_terms(count, terms.as_slice()) {
                return Err(Fail::new("no terms of the problem"));
            }
            Ok(Row {
                guard,
                terms: Seq::of(terms),
                least,
            })
        }
    }
}

/// The least sum and the guard, if there is one.
fn guarded(words: &str) -> (i64, Option<Atom>) {
    match words.split_once(" if ") {
        None => (number(words.trim()), None),
        Some((least, guard)) => (number(least), Some(atom(guard))),
    }
}

fn terms(alloc: Global, words: &str) -> Result<Vec<(i64, Var)>, Fail> {
    let mut all = Vec::new(alloc);
    for word in words.split_whitespace() {
        match word.split_once('*') {
            None => return Err(Fail::new("no term")),
            Some((coefficient, x)) => all.push((number(coefficient), Var(place(x))))?,
        }
    }
    Ok(all)
}

/// Whether the guard, if there is one, has one of so many variables.
fn is_guard(count: u32, guard: Option<Atom>) -> bool
    ensures { IsTrue result → IfSome guard (λ g. g.var.0 < count) }
{
    match guard {
        None => true,
        Some(g) => g.var.0 < count,
    }
}

/// Whether the terms have distinct variables of so many, and no coefficient is 0.
fn are_terms(count: u32, terms: &[(i64, Var)]) -> bool
    ensures { IsTrue result → AreTermsOf count terms.now }
{
    match terms.split_first() {
        None => true,
        Some((first, rest)) => {
            if !is_term(count, *first) {
                return false;
            }
            if !is_absent(first.1, rest) {
                return false;
            }
            are_terms(count, rest)
        }
    }
}

fn is_term(count: u32, term: (i64, Var)) -> bool
    ensures known { IsTrue result → term.1.0 < count }
    ensures counts { IsTrue result → term.0 ≢ pos 0 }
{
    if term.1.0 >= count {
        return false;
    }
    term.0 != 0
}

/// Whether no term has this variable.
fn is_absent(variable: Var, terms: &[(i64, Var)]) -> bool
    ensures { IsTrue result → IsAbsent variable.0 terms.now }
{
    match terms.split_first() {
        None => true,
        Some((first, rest)) => {
            if first.1.0 == variable.0 {
                return false;
            }
            is_absent(variable, rest)
        }
    }
}

fn add_objectives(builder: &mut ProblemBuilder, count: u32, words: &str) -> Result<(), Fail>
    requires { HasSizes builder.old count 2000 0 }
{
    let mut made: u32 = 0;
    for word in words.split_whitespace() {
        let x = place(word);
        if made >= 8 {
            return Err(Fail::new("too many objectives"));
        }
        if x >= count {
            return Err(Fail::new("no objective of the problem"));
        }
        builder.objective(Var(x))?;
        made += 1;
    }
    Ok(())
}
