//! Numbers in decimal, each in its one spelling.
ghost use Rattle.std.specs.Prelude.{◌≡◌, ◌≢◌, ◌<◌, ◌≤◌, ◌^◌, ◌++◌, ℕ, ℤ, decimal, unsigned_abs, IfSome, IfNone, OnOk};
ghost use Rattle.std.specs.Fmt.{signed_decimal};

use crate::cuts::is;
use cgm_base::OutOfMemory;
use fast_float::{parse_i64, parse_u64};
use itoa::Buffer;

/// The number that the word spells.
pub(crate) fn number_of(word: &[u8]) -> Option<u64>
    ensures found { IfSome result (λ n. word.now ≡ decimal n) }
    ensures none { IfNone result ((n : ℕ) → n < 2 ^ 64 → word.now ≢ decimal n) }
{
    match parse_u64(word) {
        Ok(n) => {
            if is(word, Buffer::new().format(n)) {
                Some(n)
            } else {
                None
            }
        }
        Err(_) => None,
    }
}

/// The number that the word spells, where it is at most `most`.
pub(crate) fn number_within(word: &[u8], most: u32) -> Option<u32>
    ensures found { IfSome result (λ n. (word.now ≡ decimal n) × (n ≤ most)) }
    ensures none { IfNone result ((n : ℕ) → n ≤ most → word.now ≢ decimal n) }
{
    match number_of(word) {
        None => None,
        Some(n) => {
            if n <= most as u64 {
                Some(n as u32)
            } else {
                None
            }
        }
    }
}

/// The whole number that the word spells, where it is at most `most` in size.
pub(crate) fn value_within(word: &[u8], most: u64) -> Option<i64>
    requires { most < 2 ^ 63 }
    ensures found { IfSome result (λ z. (word.now ≡ signed_decimal z) × (unsigned_abs z ≤ most)) }
    ensures none { IfNone result ((z : ℤ) → unsigned_abs z ≤ most → word.now ≢ signed_decimal z) }
{
    match parse_i64(word) {
        Ok(z) => {
            if z.unsigned_abs() > most {
                None
            } else if is(word, Buffer::new().format(z)) {
                Some(z)
            } else {
                None
            }
        }
        Err(_) => None,
    }
}

pub(crate) fn push_number(out: &mut Vec<u8>, n: u64) -> Result<(), OutOfMemory>
    ensures { OnOk result (out.new.items ≡ out.old.items ++ decimal n) }
{
    out.extend_from_slice(Buffer::new().format(n).as_bytes())
}

pub(crate) fn push_value(out: &mut Vec<u8>, z: i64) -> Result<(), OutOfMemory>
    ensures { OnOk result (out.new.items ≡ out.old.items ++ signed_decimal z) }
{
    out.extend_from_slice(Buffer::new().format(z).as_bytes())
}
