//! A run of a transcript, and what it must give.
ghost use Rattle.std.specs.Prelude.{◌<◌, ◌≤◌, length, IfOk, OnOk};

use crate::case::{Extent, Output, Run, WantedFile, WantedStatus};
use crate::content::content_of;
use crate::directive::{Directive, Keyword};
use crate::escapes::unescape;
use crate::flaw::{Fault, Flaw};
use crate::folder::add_name;
use crate::values::{name_of, no_content, no_text, number_of, text_of};
use std::alloc::Global;
use std::mem::drop;

/// The run of a directive `run` at this place and of those that belong to it, and the place after them.
pub(crate) fn run_of(
    alloc: Global,
    directives: &[Directive<'_>],
    first: usize,
) -> Result<(Run, usize), Flaw>
    requires { first < length directives.now }
    ensures { IfOk result (λ read. (first < read.1) × (read.1 ≤ length directives.now)) }
{
    let line = directives[first].line;
    no_content(&directives[first])?;
    let mut words = Vec::new(alloc);
    let at = add_words(alloc, directives, first, &mut words)?;
    let status = status_of(directives, at, line)?;
    let output = output_of(alloc, directives, at + 1, line)?;
    let mut files = Vec::new(alloc);
    let after = add_files(alloc, directives, at + 2, &mut files)?;
    let run = Run {
        line,
        words,
        status,
        output,
        files,
    };
    Ok((run, after))
}

/// Adds the words of a run, those of its own line or else those of the lines `word` that follow. The
/// place after them is answered.
fn add_words(
    alloc: Global,
    directives: &[Directive<'_>],
    first: usize,
    words: &mut Vec<String>,
) -> Result<usize, Flaw>
    requires { first < length directives.now }
    ensures { IfOk result (λ after. (first < after) × (after ≤ length directives.now)) }
{
    let directive = &directives[first];
    if directive.rest.is_empty() {
        return add_word_lines(alloc, directives, first + 1, words);
    }
    add_parted(alloc, directive.line, directive.rest, words)?;
    Ok(first + 1)
}

/// Adds the words of a line, which single spaces part.
fn add_parted(alloc: Global, line: u64, bytes: &[u8], words: &mut Vec<String>) -> Result<(), Flaw> {
    for word in bytes.split(|byte| *byte == b' ') {
        add_word(alloc, line, word, words)?;
    }
    Ok(())
}

fn add_word(alloc: Global, line: u64, bytes: &[u8], words: &mut Vec<String>) -> Result<(), Flaw> {
    match text_of(line, bytes) {
        Ok(word) => Ok(add_name(alloc, words, word)?),
        Err(flaw) => Err(flaw),
    }
}

/// Adds the words of the lines `word` from a place on. The place after them is answered.
fn add_word_lines(
    alloc: Global,
    directives: &[Directive<'_>],
    from: usize,
    words: &mut Vec<String>,
) -> Result<usize, Flaw>
    requires { from ≤ length directives.now }
    ensures { IfOk result (λ after. (from ≤ after) × (after ≤ length directives.now)) }
{
    for at in from..directives.len() {
        let directive = &directives[at];
        if directive.keyword != Keyword::Word {
            return Ok(at);
        }
        add_word_line(alloc, directive, words)?;
    }
    Ok(directives.len())
}

/// Adds the word of a line `word`.
fn add_word_line(
    alloc: Global,
    directive: &Directive<'_>,
    words: &mut Vec<String>,
) -> Result<(), Flaw> {
    no_content(directive)?;
    match unescape(alloc, directive.rest)? {
        Some(bytes) => add_word(alloc, directive.line, bytes.as_slice(), words),
        None => Err(Flaw::Form {
            line: directive.line,
            fault: Fault::Escape,
        }),
    }
}

/// The status at this place, which the run of the line must end with.
fn status_of(directives: &[Directive<'_>], at: usize, run_line: u64) -> Result<WantedStatus, Flaw>
    ensures { OnOk result (at < length directives.now) }
{
    let fault = Flaw::Form {
        line: run_line,
        fault: Fault::NoStatus,
    };
    if at >= directives.len() {
        return Err(fault);
    }
    let directive = &directives[at];
    if directive.keyword != Keyword::Status {
        return Err(fault);
    }
    Ok(WantedStatus {
        line: directive.line,
        code: number_of(directive)?,
    })
}

/// The output at this place, which the run of the line must give.
fn output_of(
    alloc: Global,
    directives: &[Directive<'_>],
    at: usize,
    run_line: u64,
) -> Result<Output, Flaw>
    ensures { OnOk result (at < length directives.now) }
{
    let fault = Flaw::Form {
        line: run_line,
        fault: Fault::NoOutput,
    };
    if at >= directives.len() {
        return Err(fault);
    }
    let directive = &directives[at];
    match extent_of(directive.keyword) {
        Some(extent) => {
            no_text(directive)?;
            match content_of(alloc, directive.content.as_slice()) {
                Ok(bytes) => Ok(Output {
                    line: directive.line,
                    extent,
                    bytes,
                }),
                Err(flaw) => Err(flaw),
            }
        }
        None => Err(fault),
    }
}

fn extent_of(keyword: Keyword) -> Option<Extent> {
    match keyword {
        Keyword::Prints => Some(Extent::Whole),
        Keyword::Begins => Some(Extent::Front),
        _ => None,
    }
}

/// Adds the files that the run must leave, and those that must be missing then, from a place on. The
/// place after them is answered.
fn add_files(
    alloc: Global,
    directives: &[Directive<'_>],
    from: usize,
    files: &mut Vec<WantedFile>,
) -> Result<usize, Flaw>
    requires { from ≤ length directives.now }
    ensures { IfOk result (λ after. (from ≤ after) × (after ≤ length directives.now)) }
{
    for at in from..directives.len() {
        match file_of(alloc, &directives[at])? {
            Some(file) => files.push(file)?,
            None => return Ok(at),
        }
    }
    Ok(directives.len())
}

/// The file that a directive wants to be left or to be missing, or none of another directive.
fn file_of(alloc: Global, directive: &Directive<'_>) -> Result<Option<WantedFile>, Flaw> {
    match directive.keyword {
        Keyword::Leaves => left_file(alloc, directive),
        Keyword::Missing => missing_file(alloc, directive),
        _ => Ok(None),
    }
}

fn left_file(alloc: Global, directive: &Directive<'_>) -> Result<Option<WantedFile>, Flaw> {
    let name = name_of(directive)?;
    match content_of(alloc, directive.content.as_slice()) {
        Ok(bytes) => wanted_file(alloc, directive.line, name, Some(bytes)),
        Err(flaw) => Err(flaw),
    }
}

fn missing_file(alloc: Global, directive: &Directive<'_>) -> Result<Option<WantedFile>, Flaw> {
    no_content(directive)?;
    let name = name_of(directive)?;
    wanted_file(alloc, directive.line, name, None)
}

fn wanted_file(
    alloc: Global,
    line: u64,
    name: &str,
    bytes: Option<Vec<u8>>,
) -> Result<Option<WantedFile>, Flaw> {
    match String::from_str(alloc, name) {
        Ok(name) => Ok(Some(WantedFile { line, name, bytes })),
        Err(_) => {
            drop(bytes);
            Err(Flaw::Memory)
        }
    }
}
