//! The bytes that a line spells by escapes, and the spelling of bytes.
ghost use Rattle.std.specs.Prelude.{◌≡◌, ◌<◌, ◌≤◌, [], ◌∷◌, ◌++◌, length, IfOk, IfSome, MatchOption, None, Some, option_map};
ghost use Rattle.cgm_transcripts.specs.Content.{after_backslash, after_byte, after_x, digit_value, digits_byte, is_plain as may_stand, letter_byte, unescaped};

use cgm_base::OutOfMemory;
use std::alloc::Global;
use std::fmt::Write;

/// The bytes that the line spells, or none where it has an escape that isn't one or a byte that wants
/// an escape.
pub(crate) fn unescape(alloc: Global, line: &[u8]) -> Result<Option<Vec<u8>>, OutOfMemory>
    ensures { IfOk result (λ found. option_map (λ bytes. bytes.items) found ≡ unescaped line.now) }
{
    let mut bytes = Vec::new(alloc);
    let mut left = line;
    while !left.is_empty() {
        match next_byte(left) {
            None => return Ok(None),
            Some((byte, after)) => {
                bytes.push(byte)?;
                left = after;
            }
        }
    }
    Ok(Some(bytes))
}

/// The byte that the front of the line spells, and what follows.
fn next_byte(line: &[u8]) -> Option<(u8, &[u8])>
    requires { 0 < length line.now }
    ensures { MatchOption result (unescaped line.now ≡ None) (λ parts. (unescaped line.now
        ≡ after_byte (Some parts.0) (unescaped parts.1.now))
        × (length parts.1.now < length line.now)) }
{
    match split_off(line) {
        None => None,
        Some((byte, rest)) => {
            if byte == b'\\' {
                escaped(rest)
            } else if is_plain(byte) {
                Some((byte, rest))
            } else {
                None
            }
        }
    }
}

/// The first byte, and what follows.
fn split_off(bytes: &[u8]) -> Option<(u8, &[u8])>
    ensures { MatchOption result (bytes.now ≡ []) (λ parts. bytes.now ≡ parts.0 ∷ parts.1.now) }
{
    match bytes.split_first() {
        None => None,
        Some((byte, rest)) => Some((*byte, rest)),
    }
}

/// Whether the byte may stand for itself; the backslash comes before.
fn is_plain(byte: u8) -> bool
    ensures { result ≡ may_stand byte }
{
    byte >= 32 && byte <= 126
}

/// The byte that is spelled after a backslash, and what follows.
fn escaped(rest: &[u8]) -> Option<(u8, &[u8])>
    ensures { MatchOption result (after_backslash rest.now ≡ None)
        (λ parts. (after_backslash rest.now
        ≡ after_byte (Some parts.0) (unescaped parts.1.now))
        × (length parts.1.now ≤ length rest.now)) }
{
    match split_off(rest) {
        None => None,
        Some((letter, after)) => {
            if letter == b'x' {
                hexadecimal(after)
            } else {
                match byte_of_letter(letter) {
                    None => None,
                    Some(byte) => Some((byte, after)),
                }
            }
        }
    }
}

/// The byte that a letter after a backslash stands for.
fn byte_of_letter(letter: u8) -> Option<u8>
    ensures { result ≡ letter_byte letter }
{
    match letter {
        b'\\' => Some(b'\\'),
        b't' => Some(b'\t'),
        b'r' => Some(b'\r'),
        _ => None,
    }
}

/// The byte of two digits, and what follows.
fn hexadecimal(rest: &[u8]) -> Option<(u8, &[u8])>
    ensures { MatchOption result (after_x rest.now ≡ None) (λ parts. (after_x rest.now
        ≡ after_byte (Some parts.0) (unescaped parts.1.now))
        × (length parts.1.now ≤ length rest.now)) }
{
    match split_off(rest) {
        None => None,
        Some((high, after)) => match split_off(after) {
            None => None,
            Some((low, after)) => match byte_of_digits(high, low) {
                None => None,
                Some(byte) => Some((byte, after)),
            },
        },
    }
}

/// The byte of two digits.
fn byte_of_digits(high: u8, low: u8) -> Option<u8>
    ensures { result ≡ digits_byte high low }
{
    match digit(high) {
        None => None,
        Some(upper) => match digit(low) {
            None => None,
            Some(lower) => Some(upper * 16 + lower),
        },
    }
}

/// The value of a hexadecimal digit.
fn digit(byte: u8) -> Option<u8>
    ensures value { result ≡ digit_value byte }
    ensures small { IfSome result (λ value. value < 16) }
{
    if byte >= b'0' && byte <= b'9' {
        Some(byte - b'0')
    } else if byte >= b'a' && byte <= b'f' {
        Some(byte - 87)
    } else {
        None
    }
}

/// Adds the spelling of bytes to a text, as content lines have it.
pub(crate) fn spell(text: &mut String, bytes: &[u8]) -> Result<(), OutOfMemory> {
    for byte in bytes {
        spell_byte(text, *byte)?;
    }
    Ok(())
}

fn spell_byte(text: &mut String, byte: u8) -> Result<(), OutOfMemory> {
    match byte {
        b'\\' => text.push_str("\\\\"),
        b'\t' => text.push_str("\\t"),
        b'\r' => text.push_str("\\r"),
        32..=126 => text.push(byte as char),
        _ => spell_number(text, byte),
    }
}

fn spell_number(text: &mut String, byte: u8) -> Result<(), OutOfMemory> {
    write!(text, "\\x{byte:02x}")
}
