//! The cut of a best in a store.
ghost use Rattle.std.specs.Prelude.{◌≡◌, ◌+◌, ◌++◌, ◌^◌, ◌<◌, ◌≤◌, [], drop, length, max, slice_get, if◌then◌else◌, ◌==◌, Some, IfOk, OnOk};
ghost use Rattle.std.specs.List.{All};
ghost use Rattle.cgm_atom.specs.ClauseAtoms.{AreKnown, part_atoms};
ghost use Rattle.cgm_atom.specs.Cut.{cut};
ghost use Rattle.cgm_atom.specs.Instance.{values_at, var_count, vector};
ghost use Rattle.cgm_atom.specs.Limits.{AreValuesOf, IsBound};
ghost use Rattle.cgm_clauses.specs.StoreState.{IsStoreOf};
ghost use Rattle.cgm_search.specs.Cutting.{IsOfParts, parts_of};
ghost use Rattle.cgm_search.specs.Storing.{cut_named, without_cut};

use cgm_atom::{Atom, Clause, ClauseAtoms, Hint, Problem, Seq, Var};
use cgm_base::OutOfMemory;
use cgm_clauses::ClauseStore;
use std::alloc::Global;

/// How many parts the cut of each best has.
fn count_of_parts(problem: &Problem) -> u32
    ensures { result ≡ parts_of problem.now }
{
    let objectives = problem.objectives().len() as u32;
    objectives.max(1)
}

/// Puts the cut of a best in the place of the cut of the best before it, where there is one.
/// `before` is the ordinal of that one, or 0.
pub(crate) fn renew_cut(
    alloc: Global,
    problem: &Problem,
    store: &mut ClauseStore,
    before: u64,
    values: &[i64],
) -> Result<(), OutOfMemory>
    requires of_problem { IsStoreOf problem.now store.old }
    requires values { AreValuesOf problem.now values.now }
    requires before { IsOfParts before (if before == 0 then 0 else parts_of problem.now)
        store.old.added }
    requires room { before < 2 ^ 63 }
    ensures { OnOk result (store.new ≡ record store.old {
      added =
          without_cut store.old.added ++ cut_named (before + 1) 0
          (cut problem.now.objectives (vector problem.now values.now));
    }) }
{
    let parts = count_of_parts(problem);
    drop_cut(store, before, if before == 0 { 0 } else { parts });
    add_cut(alloc, problem, store, before + 1, values, parts)
}

/// Drops the parts of a best's cut.
fn drop_cut(store: &mut ClauseStore, ordinal: u64, parts: u32)
    requires { IsOfParts ordinal parts store.old.added }
    ensures { store.new ≡ record store.old { added = without_cut store.old.added } }
{
    for part in 0..parts {
        store.forget(&Hint::Cut {
            best: ordinal,
            part,
        });
    }
}

/// Adds the parts of a best's cut.
fn add_cut(
    alloc: Global,
    problem: &Problem,
    store: &mut ClauseStore,
    ordinal: u64,
    values: &[i64],
    parts: u32,
) -> Result<(), OutOfMemory>
    requires of_problem { IsStoreOf problem.now store.old }
    requires values { AreValuesOf problem.now values.now }
    requires parts { parts ≡ parts_of problem.now }
    ensures { OnOk result (store.new ≡ record store.old {
      added =
          store.old.added ++ cut_named ordinal 0
          (cut problem.now.objectives (vector problem.now values.now));
    }) }
{
    for part in 0..parts {
        let clause = part_clause(alloc, problem, values, part as usize)?;
        store.add(
            clause,
            Hint::Cut {
                best: ordinal,
                part,
            },
        )?;
    }
    Ok(())
}

/// One part of the cut of a best with these values.
fn part_clause(
    alloc: Global,
    problem: &Problem,
    values: &[i64],
    part: usize,
) -> Result<Clause, OutOfMemory>
    requires values { AreValuesOf problem.now values.now }
    requires part { part < parts_of problem.now }
    ensures part { IfOk result
        (λ c. slice_get (cut problem.now.objectives (vector problem.now values.now)) part
        ≡ Some c) }
    ensures known { IfOk result (λ c. AreKnown (var_count problem.now) c.atoms) }
{
    let atoms = part_atoms_of(alloc, problem.objectives(), values, part)?;
    Ok(Clause {
        atoms: Seq::of(atoms),
    })
}

fn part_atoms_of(
    alloc: Global,
    objectives: &[Var],
    values: &[i64],
    part: usize,
) -> Result<Vec<Atom>, OutOfMemory>
    requires known { All (λ v. v.0 < length values.now) objectives.now }
    requires sizes { All IsBound values.now }
    requires part { part < max 1 (length objectives.now) }
    ensures { IfOk result
        (λ atoms. atoms.items
        ≡ part_atoms objectives.now (values_at values.now objectives.now) part) }
{
    let cut = ClauseAtoms::OfCut {
        objectives,
        values,
        part,
    };
    let mut atoms = Vec::new(alloc);
    for i in 0..cut.count() {
        atoms.push(cut.atom(i))?;
    }
    Ok(atoms)
}
