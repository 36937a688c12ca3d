//! An assignment: truth values and numbers.
ghost use Rattle.std.specs.Prelude.{◌≡◌, pos, false, slice_index_or};

use crate::parts::Parts;

/// A truth value for each element and each refinement, and a number for each variable, by number.
#[derive(Drop)]
pub struct Assignment {
    pub elements: Parts<bool>,
    pub refinements: Parts<bool>,
    pub vars: Parts<i64>,
}

/// The truth at this place; false past the end.
pub fn truth_at(truths: &[bool], place: u32) -> bool
    ensures { result ≡ slice_index_or truths.now place false }
{
    truths.get(place as usize).copied().unwrap_or(false)
}

/// The number at this place; 0 past the end.
pub fn number_at(numbers: &[i64], place: u32) -> i64
    ensures { result ≡ slice_index_or numbers.now place (pos 0) }
{
    numbers.get(place as usize).copied().unwrap_or(0)
}
