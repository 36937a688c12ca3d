//! Atoms in a box.
ghost use Rattle.std.specs.Prelude.{◌≡◌, ◌<◌, length, true, false, MatchOption};
ghost use Rattle.cgm_atom.specs.Atoms.{negation};
ghost use Rattle.cgm_atom.specs.Bounds.{Bounds, IsBoxOf, AreProperBounds};
ghost use Rattle.cgm_atom.specs.Narrowing.{is_false_in, is_true_in, made_true};
ghost use Rattle.cgm_atom.specs.Outcome.{IsTightening};

use crate::boxes::{BoxState, is_false_between};
use crate::constraints::Atom;
use crate::outcome::Narrowed;

/// Whether all values of the box make the atom true.
pub fn is_true(bounds: &BoxState, atom: Atom) -> bool
    requires { atom.var.0 < length bounds.now.lower }
    ensures value { result ≡ is_true_in bounds.now atom }
    ensures proper { AreProperBounds bounds.now }
{
    if atom.at_least {
        atom.k <= bounds.lo(atom.var)
    } else {
        bounds.hi(atom.var) <= atom.k
    }
}

/// Whether no value of the box makes the atom true.
pub fn is_false(bounds: &BoxState, atom: Atom) -> bool
    requires { atom.var.0 < length bounds.now.lower }
    ensures { result ≡ is_false_in bounds.now atom }
{
    is_false_between(atom, bounds.lo(atom.var), bounds.hi(atom.var))
}

/// The atom's negation, or None where the atom is true in the box.
pub fn negated(bounds: &BoxState, atom: Atom) -> Option<Atom>
    requires { atom.var.0 < length bounds.now.lower }
    ensures { MatchOption result (is_true_in bounds.now atom ≡ true)
        (λ n. (is_true_in bounds.now atom ≡ false) × (n ≡ negation atom)) }
{
    if atom.at_least {
        let least = bounds.lo(atom.var);
        if atom.k <= least {
            return None;
        }
        Some(Atom {
            var: atom.var,
            at_least: false,
            k: atom.k - 1,
        })
    } else {
        let greatest = bounds.hi(atom.var);
        if greatest <= atom.k {
            return None;
        }
        Some(Atom {
            var: atom.var,
            at_least: true,
            k: atom.k + 1,
        })
    }
}

/// Makes an atom true in the box, and tells whether a bound is tighter now.
/// Condition: the atom isn't false in the box.
pub fn make_true(bounds: &mut BoxState, atom: Atom) -> Narrowed
    requires known { atom.var.0 < length bounds.old.lower }
    requires not_false { is_false_in bounds.old atom ≡ false }
    ensures after { bounds.new ≡ made_true bounds.old atom }
    ensures answer { IsTightening bounds.old bounds.new result }
    ensures within { (limits : Bounds) → IsBoxOf limits bounds.old → IsBoxOf limits bounds.new }
{
    if is_true(bounds, atom) {
        return Narrowed::Same;
    }
    bounds.assume(atom);
    Narrowed::Tighter
}
