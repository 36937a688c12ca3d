//! The lower half of a variable.
ghost use Rattle.std.specs.Prelude.{◌≡◌, ◌<◌, ◌<ℤ◌, ◌≤ℤ◌, IsTrue, find, length};
ghost use Rattle.std.specs.List.{All};
ghost use Rattle.cgm_atom.specs.Bounds.{AreProperBounds, lower_of, upper_of};
ghost use Rattle.cgm_split.specs.Halving.{IsLowerHalf, IsMiddle, is_unfixed as unfixed};

use cgm_atom::{Atom, BoxState, Var};

/// Whether a variable has more than one value.
pub(crate) fn is_unfixed(bounds: &BoxState, variable: Var) -> bool
    requires { variable.0 < length bounds.now.lower }
    ensures value { result ≡ unfixed bounds.now variable }
    ensures proper { AreProperBounds bounds.now }
{
    bounds.lo(variable) < bounds.hi(variable)
}

/// Brings in that the least values of a box that has a variable are at most its greatest.
pub(crate) fn is_proper(bounds: &BoxState, variables: &[Var])
    requires { All (λ v. v.0 < length bounds.now.lower) variables.now }
    ensures { 0 < length variables.now → AreProperBounds bounds.now }
{
    match variables {
        [] => {}
        [v, ..] => {
            let _least = bounds.lo(*v);
        }
    }
}

/// The first variable of a list that isn't fixed.
pub(crate) fn first_unfixed(bounds: &BoxState, variables: &[Var]) -> Option<Var>
    requires { All (λ v. v.0 < length bounds.now.lower) variables.now }
    ensures { result ≡ find (unfixed bounds.now) variables.now }
{
    for v in variables {
        if is_unfixed(bounds, *v) {
            return Some(*v);
        }
    }
    None
}

/// The atom that asks for the lower half of a variable that isn't fixed.
pub(crate) fn lower_half(bounds: &BoxState, variable: Var) -> Atom
    requires known { variable.0 < length bounds.now.lower }
    requires unfixed { IsTrue (unfixed bounds.now variable) }
    ensures { IsLowerHalf bounds.now variable result }
{
    Atom {
        var: variable,
        at_least: false,
        k: middle(bounds.lo(variable), bounds.hi(variable)),
    }
}

// The floor of half the sum.
fn middle(lo: i64, hi: i64) -> i64
    requires { lo <ℤ hi }
    ensures floor { IsMiddle lo hi result }
    ensures low { lo ≤ℤ result }
    ensures high { result <ℤ hi }
{
    let half = hi.abs_diff(lo) / 2;
    lo + half as i64
}
