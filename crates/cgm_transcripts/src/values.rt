//! What stands after a directive's word: a name, a number, nothing.
ghost use Rattle.std.specs.Prelude.{IfOk, ◌≤◌};

use crate::directive::Directive;
use crate::flaw::{Fault, Flaw};
use std::str::from_utf8;

/// The text that these bytes of a line are.
pub(crate) fn text_of(line: u64, bytes: &[u8]) -> Result<&str, Flaw> {
    match from_utf8(bytes) {
        Ok(text) => Ok(text),
        Err(_) => Err(Flaw::Form {
            line,
            fault: Fault::NotText,
        }),
    }
}

/// The name that stands after a directive's word.
pub(crate) fn name_of<'a>(directive: &Directive<'a>) -> Result<&'a str, Flaw> {
    if directive.rest.is_empty() {
        return Err(Flaw::Form {
            line: directive.line,
            fault: Fault::NoName,
        });
    }
    text_of(directive.line, directive.rest)
}

/// The number that stands after the word of a directive without content.
pub(crate) fn number_of(directive: &Directive<'_>) -> Result<u64, Flaw> {
    no_content(directive)?;
    match decimal(directive.rest) {
        Some(number) => Ok(number),
        None => Err(Flaw::Form {
            line: directive.line,
            fault: Fault::Number,
        }),
    }
}

/// The number from 1 on that stands after the word of a directive without content.
pub(crate) fn positive_of(directive: &Directive<'_>) -> Result<u64, Flaw>
    ensures { IfOk result (λ number. 1 ≤ number) }
{
    let number = number_of(directive)?;
    if number == 0 {
        return Err(Flaw::Form {
            line: directive.line,
            fault: Fault::Number,
        });
    }
    Ok(number)
}

/// The number that digits alone spell.
fn decimal(digits: &[u8]) -> Option<u64> {
    if !digits.iter().all(|byte| byte.is_ascii_digit()) {
        return None;
    }
    match from_utf8(digits) {
        Ok(text) => text.parse::<u64>().ok(),
        Err(_) => None,
    }
}

/// Refuses content lines where a directive has none.
pub(crate) fn no_content(directive: &Directive<'_>) -> Result<(), Flaw> {
    match directive.content.first() {
        Some(line) => Err(Flaw::Form {
            line: line.number,
            fault: Fault::NoContentHere,
        }),
        None => Ok(()),
    }
}

/// Refuses text after a directive's word where a directive has none.
pub(crate) fn no_text(directive: &Directive<'_>) -> Result<(), Flaw> {
    if directive.rest.is_empty() {
        return Ok(());
    }
    Err(Flaw::Form {
        line: directive.line,
        fault: Fault::NoTextHere,
    })
}
