//! Printing a problem.
ghost use Rattle.std.specs.Prelude.{◌≡◌, ◌<◌, ◌++◌, ◌∷◌, length, map, flat_map, IfOk, OnOk};
ghost use Rattle.std.specs.List.{enumerate_from, range_with_len};
ghost use Rattle.cgm_atom.specs.Instance.{var_count};
ghost use Rattle.cgm_atom.specs.AtomWords.{atom_word, spaced};
ghost use Rattle.cgm_encode.specs.ProblemText.{clause_line, clause_lines as lines_of_clauses, objective_line, problem_text, range_line, row_line, row_lines as lines_of_rows, term_word, var_line, var_lines as lines_of_variables};

use crate::words::{push_atom, push_guard, push_number, push_term, push_value};
use cgm_atom::{Atom, Clause, Problem, Row, Var};
use cgm_base::OutOfMemory;
use std::alloc::Global;

/// Prints a problem: `cgm-problem 1`, then `var V LO HI` for each variable, `clause C` and its atoms
/// for each clause, `row R GUARD LEAST` and its terms for each row, and `objective V` for each
/// objective, each by number. An atom is `V>=k` or `V<=k`, a guard is an atom or `-`, and a term is
/// `c*V`. There is one space between two words, and one line feed behind each line.
pub fn print_problem(alloc: Global, problem: &Problem) -> Result<Vec<u8>, OutOfMemory>
    ensures { IfOk result (λ out. out.items ≡ problem_text problem.now) }
{
    let mut out = Vec::from_slice(alloc, b"cgm-problem 1\n")?;
    push_vars(&mut out, problem)?;
    push_clauses(&mut out, problem)?;
    push_rows(&mut out, problem)?;
    push_objectives(&mut out, problem.objectives())?;
    Ok(out)
}

fn push_vars(out: &mut Vec<u8>, problem: &Problem) -> Result<(), OutOfMemory>
    ensures { OnOk result (out.new.items ≡ out.old.items ++ lines_of_variables problem.now) }
{
    for v in 0..problem.vars() {
        push_var(out, problem, v)?;
    }
    Ok(())
}

fn push_var(out: &mut Vec<u8>, problem: &Problem, v: u32) -> Result<(), OutOfMemory>
    requires { v < var_count problem.now }
    ensures { OnOk result (out.new.items ≡ out.old.items ++ var_line problem.now.bounds v) }
{
    let (lo, hi) = problem.bounds(Var(v));
    push_range(out, v, lo, hi)
}

fn push_range(out: &mut Vec<u8>, v: u32, lo: i64, hi: i64) -> Result<(), OutOfMemory>
    ensures { OnOk result (out.new.items ≡ out.old.items ++ range_line v lo hi) }
{
    out.extend_from_slice(b"var")?;
    push_number(out, v)?;
    push_value(out, lo)?;
    push_value(out, hi)?;
    out.extend_from_slice(b"\n")
}

fn push_clauses(out: &mut Vec<u8>, problem: &Problem) -> Result<(), OutOfMemory>
    ensures { OnOk result (out.new.items ≡ out.old.items ++ lines_of_clauses problem.now) }
{
    for n in 0..problem.clauses() {
        push_clause(out, n, problem.clause(n))?;
    }
    Ok(())
}

fn push_clause(out: &mut Vec<u8>, n: u32, clause: &Clause) -> Result<(), OutOfMemory>
    ensures { OnOk result (out.new.items ≡ out.old.items ++ clause_line (n, clause.now)) }
{
    out.extend_from_slice(b"clause")?;
    push_number(out, n)?;
    push_atoms(out, clause.atoms.as_slice())?;
    out.extend_from_slice(b"\n")
}

fn push_atoms(out: &mut Vec<u8>, atoms: &[Atom]) -> Result<(), OutOfMemory>
    ensures { OnOk result (out.new.items ≡ out.old.items ++ spaced (map atom_word atoms.now)) }
{
    for a in atoms {
        push_atom(out, a)?;
    }
    Ok(())
}

fn push_rows(out: &mut Vec<u8>, problem: &Problem) -> Result<(), OutOfMemory>
    ensures { OnOk result (out.new.items ≡ out.old.items ++ lines_of_rows problem.now) }
{
    for n in 0..problem.rows() {
        push_row(out, n, problem.row(n))?;
    }
    Ok(())
}

fn push_row(out: &mut Vec<u8>, n: u32, row: &Row) -> Result<(), OutOfMemory>
    ensures { OnOk result (out.new.items ≡ out.old.items ++ row_line (n, row.now)) }
{
    out.extend_from_slice(b"row")?;
    push_number(out, n)?;
    push_guard(out, &row.guard)?;
    push_value(out, row.least)?;
    push_terms(out, row.terms.as_slice())?;
    out.extend_from_slice(b"\n")
}

fn push_terms(out: &mut Vec<u8>, terms: &[(i64, Var)]) -> Result<(), OutOfMemory>
    ensures { OnOk result (out.new.items ≡ out.old.items ++ spaced (map term_word terms.now)) }
{
    for term in terms {
        push_term(out, term)?;
    }
    Ok(())
}

fn push_objectives(out: &mut Vec<u8>, objectives: &[Var]) -> Result<(), OutOfMemory>
    ensures { OnOk result (out.new.items ≡ out.old.items ++ flat_map objective_line
        objectives.now) }
{
    for v in objectives {
        push_objective(out, *v)?;
    }
    Ok(())
}

fn push_objective(out: &mut Vec<u8>, variable: Var) -> Result<(), OutOfMemory>
    ensures { OnOk result (out.new.items ≡ out.old.items ++ objective_line variable) }
{
    out.extend_from_slice(b"objective")?;
    push_number(out, variable.0)?;
    out.extend_from_slice(b"\n")
}
