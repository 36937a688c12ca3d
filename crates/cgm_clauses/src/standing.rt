//! How a clause stands in a box.
ghost use Rattle.std.specs.Prelude.{◌≡◌, ◌<◌, length, Some};
ghost use Rattle.cgm_atom.specs.ClauseAtoms.{AreKnown, IsFirstLeft};
ghost use Rattle.cgm_clauses.specs.Standing.{IsStanding};

use cgm_atom::{Atom, BoxState, Clause, is_false, is_true};

#[derive(Clone, Copy, PartialEq, Eq)]
pub(crate) enum Standing {
    /// It leaves the box as it is.
    Quiet,
    /// Each atom is false.
    False,
    /// Each atom but this one is false, and this one is open.
    Unit(Atom),
}

pub(crate) fn standing_in(bounds: &BoxState, clause: &Clause) -> Standing
    requires { AreKnown (length bounds.now.lower) clause.now.atoms }
    ensures { IsStanding bounds.now clause.now result }
{
    standing_of_atoms(bounds, clause.atoms.as_slice())
}

fn standing_of_atoms(bounds: &BoxState, atoms: &[Atom]) -> Standing
    requires { AreKnown (length bounds.now.lower) atoms.now }
    ensures { IsStanding bounds.now (record { atoms = atoms.now }) result }
{
    match first_left(bounds, atoms, 0) {
        None => Standing::False,
        Some(place) => standing_from(bounds, atoms, place),
    }
}

/// How the clause stands where this is the place of the first atom that isn't false.
fn standing_from(bounds: &BoxState, atoms: &[Atom], place: usize) -> Standing
    requires known { AreKnown (length bounds.now.lower) atoms.now }
    requires first { IsFirstLeft bounds.now atoms.now 0 (Some place) }
    ensures { IsStanding bounds.now (record { atoms = atoms.now }) result }
{
    let first = atoms[place];
    if is_true(bounds, first) {
        return Standing::Quiet;
    }
    match first_left(bounds, atoms, place + 1) {
        None => Standing::Unit(first),
        Some(_) => Standing::Quiet,
    }
}

/// The first atom, from a place on, that isn't false in the box.
fn first_left(bounds: &BoxState, atoms: &[Atom], from: usize) -> Option<usize>
    requires { AreKnown (length bounds.now.lower) atoms.now }
    ensures { IsFirstLeft bounds.now atoms.now from result }
{
    for i in from..atoms.len() {
        if !is_false(bounds, atoms[i]) {
            return Some(i);
        }
    }
    None
}
