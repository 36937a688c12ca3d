//! Literals and their atoms.
ghost use Rattle.std.specs.Prelude.{◌≡◌};
ghost use Rattle.cgm_enc_formula.specs.Literals.{atom_of, opposite as opposite_of, positive as positive_of};

use cgm_atom::{Atom, Var};

/// A variable of 0 or 1, or its negation.
#[derive(Clone, Copy)]
pub(crate) struct Literal {
    pub(crate) variable: u32,
    pub(crate) is_positive: bool,
}

pub(crate) fn positive(variable: u32) -> Literal
    ensures { result ≡ positive_of variable }
{
    Literal {
        variable,
        is_positive: true,
    }
}

pub(crate) fn opposite(literal: Literal) -> Literal
    ensures { result ≡ opposite_of literal }
{
    Literal {
        variable: literal.variable,
        is_positive: !literal.is_positive,
    }
}

/// `x >= 1`, or `x <= 0`.
pub(crate) fn atom(literal: Literal) -> Atom
    ensures { result ≡ atom_of literal }
{
    if literal.is_positive {
        Atom {
            var: Var(literal.variable),
            at_least: true,
            k: 1,
        }
    } else {
        Atom {
            var: Var(literal.variable),
            at_least: false,
            k: 0,
        }
    }
}
