//! Narrowing by a clause.
ghost use Rattle.std.specs.Prelude.{◌≡◌, ◌+◌, ◌^◌, ◌<◌, List, ℤ, length, max, IfSome, slice_get};
ghost use Rattle.std.specs.List.{All};
ghost use Rattle.cgm_atom.specs.Bounds.{Bounds, IsBoxOf, value_of};
ghost use Rattle.cgm_atom.specs.Cut.{at_most_atom};
ghost use Rattle.cgm_atom.specs.Instance.{values_at};
ghost use Rattle.cgm_atom.specs.Limits.{IsBound};
ghost use Rattle.cgm_atom.specs.Narrowing.{left_by_clause};
ghost use Rattle.cgm_atom.specs.ClauseAtoms.{AreKnown, IsFirstLeft, IsReadable, atoms_of, cut_limit, part_atoms};
ghost use Rattle.cgm_atom.specs.Outcome.{IsNarrowing};

use crate::atoms::{is_false, make_true};
use crate::boxes::BoxState;
use crate::constraints::{Atom, Var};
use crate::outcome::Narrowed;

/// The atoms of a clause, which aren't copied.
#[derive(Clone, Copy)]
pub enum ClauseAtoms<'a> {
    /// Those of a clause that is kept.
    Listed(&'a [Atom]),
    /// Those of a part of the cut of a best with these values.
    OfCut {
        objectives: &'a [Var],
        values: &'a [i64],
        part: usize,
    },
}

impl<'a> ClauseAtoms<'a> {
    ghost use Rattle.std.specs.Prelude.{◌<◌, length, slice_get};
    ghost use Rattle.cgm_atom.specs.ClauseAtoms.{IsReadable, atoms_of};

    /// How many atoms there are.
    pub fn count(self) -> usize
        requires { IsReadable self }
        ensures { result ≡ length (atoms_of self.entry) }
    {
        match self {
            ClauseAtoms::Listed(atoms) => atoms.len(),
            ClauseAtoms::OfCut {
                objectives,
                part,
                ..
            } => count_of_part(objectives, part),
        }
    }

    /// The atom at a place, from 0.
    pub fn atom(self, i: usize) -> Atom
        requires readable { IsReadable self }
        requires within { i < length (atoms_of self) }
        ensures { slice_get (atoms_of self.entry) i ≡ Some result }
    {
        match self {
            ClauseAtoms::Listed(atoms) => atoms[i],
            ClauseAtoms::OfCut {
                objectives,
                values,
                part,
            } => part_atom(objectives, values, part, i),
        }
    }
}

fn count_of_part(objectives: &[Var], part: usize) -> usize
    requires { part < max 1 (length objectives.now) }
    ensures { (values : List ℤ) → result
        ≡ length (part_atoms objectives.now (values_at values objectives.now) part) }
{
    if objectives.is_empty() {
        return 0;
    }
    part + 1
}

/// The atom with a number, from 0, of a part of the cut.
fn part_atom(objectives: &[Var], values: &[i64], part: usize, i: usize) -> Atom
    requires known { All (λ v. v.0 < length values.now) objectives.now }
    requires sizes { All IsBound values.now }
    requires part_within { part < max 1 (length objectives.now) }
    requires within { i < length (part_atoms objectives.now (values_at values.now objectives.now)
        part) }
    ensures { slice_get (part_atoms objectives.now (values_at values.now objectives.now) part) i
        ≡ Some result }
{
    objective_atom(values, objectives[i], i, part, objectives.len())
}

/// What a part with a number asks of the objective at place `i`: to be lesser than its value
/// before the part's own number, and in the last of `parts` everywhere; else to be at most its value.
fn objective_atom(values: &[i64], objective: Var, i: usize, part: usize, parts: usize) -> Atom
    requires known { objective.0 < length values.now }
    requires sizes { All IsBound values.now }
    requires part_within { part < parts }
    ensures { result ≡ at_most_atom objective (cut_limit (value_of values.now objective.0) i part
        parts) }
{
    let value = values[objective.0 as usize];
    let is_strict = i < part || part + 1 == parts;
    Atom {
        var: objective,
        at_least: false,
        k: if is_strict { value - 1 } else { value },
    }
}

/// The first atom, from a place on, that isn't false in the box.
fn first_left(atoms: ClauseAtoms<'_>, bounds: &BoxState, from: usize) -> Option<usize>
    requires readable { IsReadable atoms }
    requires known { AreKnown (length bounds.now.lower) (atoms_of atoms) }
    ensures first { IsFirstLeft bounds.now (atoms_of atoms.entry) from result }
    ensures next_fits { IfSome result (λ i. i + 1 < 2 ^ 64) }
{
    for i in from..atoms.count() {
        if !is_false(bounds, atoms.atom(i)) {
            return Some(i);
        }
    }
    None
}

/// Narrows a box by the clause with these atoms.
///
/// `Conflict` comes where each atom is false in the box, which then is as it was. Where all but one are false,
/// that one is made true. `Tighter` comes where a bound has changed. Takes no memory.
/// Condition: the atoms are readable, and each has a variable of the box.
pub fn narrow_by_atoms(bounds: &mut BoxState, atoms: ClauseAtoms<'_>) -> Narrowed
    requires readable { IsReadable atoms }
    requires known { AreKnown (length bounds.old.lower) (atoms_of atoms) }
    ensures exact { IsNarrowing (left_by_clause bounds.old
        (record { atoms = atoms_of atoms.entry }))
        bounds.old bounds.new result }
    ensures within { (limits : Bounds) → IsBoxOf limits bounds.old → IsBoxOf limits bounds.new }
{
    match first_left(atoms, bounds, 0) {
        None => Narrowed::Conflict,
        Some(only) => match first_left(atoms, bounds, only + 1) {
            None => make_true(bounds, atoms.atom(only)),
            Some(_) => Narrowed::Same,
        },
    }
}
