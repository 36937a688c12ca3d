//! The directives of a transcript, each with its content lines.
use crate::flaw::{Fault, Flaw};
use std::alloc::Global;

/// A line of a text without its line feed, and its number from 1 on.
#[derive(Clone, Copy)]
pub(crate) struct Line<'a> {
    pub(crate) number: u64,
    pub(crate) bytes: &'a [u8],
}

/// The word that a directive begins with.
#[derive(Clone, Copy, PartialEq, Eq)]
pub(crate) enum Keyword {
    Case,
    File,
    Run,
    Word,
    Status,
    Prints,
    Begins,
    Leaves,
    Missing,
    Alone,
    Together,
    Piece,
    FailRead,
    FailStart,
    FailWrite,
    FailPrint,
}

const KEYWORDS: &[(&str, Keyword)] = &[
    ("case", Keyword::Case),
    ("file", Keyword::File),
    ("run", Keyword::Run),
    ("word", Keyword::Word),
    ("status", Keyword::Status),
    ("prints", Keyword::Prints),
    ("begins", Keyword::Begins),
    ("leaves", Keyword::Leaves),
    ("missing", Keyword::Missing),
    ("alone", Keyword::Alone),
    ("together", Keyword::Together),
    ("piece", Keyword::Piece),
    ("fail-read", Keyword::FailRead),
    ("fail-start", Keyword::FailStart),
    ("fail-write", Keyword::FailWrite),
    ("fail-print", Keyword::FailPrint),
];

/// A directive: what stands after its word and a space, and its content lines.
#[derive(Drop)]
pub(crate) struct Directive<'a> {
    pub(crate) line: u64,
    pub(crate) keyword: Keyword,
    pub(crate) rest: &'a [u8],
    pub(crate) content: Vec<Line<'a>>,
}

/// The directives of a text.
pub(crate) fn directives_of<'a>(alloc: Global, text: &'a [u8]) -> Result<Vec<Directive<'a>>, Flaw> {
    let mut directives = Vec::new(alloc);
    let mut number: u64 = 0;
    for bytes in text.split(|byte| *byte == b'\n') {
        number = number.saturating_add(1);
        add_line(alloc, &mut directives, Line { number, bytes })?;
    }
    Ok(directives)
}

/// Adds a line: a directive, a content line of the last directive, or nothing.
fn add_line<'a>(
    alloc: Global,
    directives: &mut Vec<Directive<'a>>,
    line: Line<'a>,
) -> Result<(), Flaw> {
    match line.bytes {
        [b' ', b' ', spelled @ ..] => add_content(
            directives,
            Line {
                number: line.number,
                bytes: spelled,
            },
        ),
        [] | [b'#', ..] => Ok(()),
        _ => {
            directives.push(directive_of(alloc, line)?)?;
            Ok(())
        }
    }
}

/// Adds a content line to the last directive.
fn add_content<'a>(directives: &mut Vec<Directive<'a>>, line: Line<'a>) -> Result<(), Flaw> {
    match directives.last_mut() {
        Some(directive) => {
            directive.content.push(line)?;
            Ok(())
        }
        None => Err(Flaw::Form {
            line: line.number,
            fault: Fault::ContentAlone,
        }),
    }
}

/// The directive of a line.
fn directive_of<'a>(alloc: Global, line: Line<'a>) -> Result<Directive<'a>, Flaw> {
    let (word, rest) = first_word(line.bytes);
    match keyword_of(word) {
        Some(keyword) => Ok(Directive {
            line: line.number,
            keyword,
            rest,
            content: Vec::new(alloc),
        }),
        None => Err(Flaw::Form {
            line: line.number,
            fault: Fault::NoDirective,
        }),
    }
}

/// What stands before and after the first space; all and nothing where there is none.
pub(crate) fn first_word(bytes: &[u8]) -> (&[u8], &[u8]) {
    match bytes.iter().position(|byte| *byte == b' ') {
        Some(at) => (&bytes[..at], &bytes[at + 1..]),
        None => (bytes, &[]),
    }
}

fn keyword_of(word: &[u8]) -> Option<Keyword> {
    for (name, keyword) in KEYWORDS {
        if word == name.as_bytes() {
            return Some(*keyword);
        }
    }
    None
}
