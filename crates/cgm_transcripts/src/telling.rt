//! How a difference is told.
ghost use Rattle.std.specs.Prelude.{◌≤◌, length};

use crate::case::{Run, WantedFile};
use crate::comparison::{Difference, Ended};
use crate::escapes::spell;
use cgm_base::OutOfMemory;
use cgm_shelf::MemShelf;
use std::alloc::Global;
use std::fmt::Write;

/// A difference that is told: the line of its directive, and what was wanted and what came.
#[derive(Drop)]
pub(crate) struct Told {
    pub(crate) line: u64,
    pub(crate) text: String,
}

/// Tells a difference of a run.
pub(crate) fn tell_difference(
    alloc: Global,
    run: &Run,
    ended: &Ended<'_>,
    found: Difference<'_>,
) -> Result<Told, OutOfMemory> {
    match found {
        Difference::Status => told_at(run.status.line, status_text(alloc, run, ended)),
        Difference::Output => told_at(run.output.line, output_text(alloc, run, ended)),
        Difference::File(file) => told_at(file.line, left_text(alloc, file, ended.after)),
        Difference::Changed(name) => told_at(run.line, changed_text(alloc, name)),
    }
}

/// Tells a text, where there was memory for it.
fn told_at(line: u64, text: Result<String, OutOfMemory>) -> Result<Told, OutOfMemory> {
    match text {
        Ok(text) => Ok(Told { line, text }),
        Err(stop) => Err(stop),
    }
}

fn status_text(alloc: Global, run: &Run, ended: &Ended<'_>) -> Result<String, OutOfMemory> {
    let wanted = run.status.code;
    let came = ended.status.code();
    let mut text = format!(in alloc; "status {wanted} is wanted, came {came} with ")?;
    spell_line(&mut text, ended.printed, 0)?;
    Ok(text)
}

fn output_text(alloc: Global, run: &Run, ended: &Ended<'_>) -> Result<String, OutOfMemory> {
    tell_bytes(alloc, "output", run.output.bytes.as_slice(), ended.printed)
}

fn left_text(alloc: Global, file: &WantedFile, shelf: &MemShelf) -> Result<String, OutOfMemory> {
    file_text(alloc, file, shelf.bytes(file.name.as_str()))
}

fn changed_text(alloc: Global, name: &str) -> Result<String, OutOfMemory> {
    format!(in alloc; "{name} was changed, and no word names it")
}

fn file_text(alloc: Global, file: &WantedFile, came: Option<&[u8]>) -> Result<String, OutOfMemory> {
    let name = file.name.as_str();
    match &file.bytes {
        Some(wanted) => match came {
            Some(came) => tell_bytes(alloc, name, wanted.as_slice(), came),
            None => format!(in alloc; "{name} is wanted, and isn't there"),
        },
        None => format!(in alloc; "{name} is there, and no file is wanted"),
    }
}

/// Tells the first line in which two contents differ, as content lines have it.
fn tell_bytes(
    alloc: Global,
    what: &str,
    wanted: &[u8],
    came: &[u8],
) -> Result<String, OutOfMemory> {
    let (same, _) = wanted.split_at(common_length(wanted, came));
    let start = last_line_start(same);
    let number = feeds_in(same).saturating_add(1);
    let mut text = format!(in alloc; "{what} differs in its line {number}: wanted ")?;
    spell_lines(&mut text, wanted, came, start)?;
    Ok(text)
}

/// Spells the lines of both that begin at a place.
fn spell_lines(
    text: &mut String,
    wanted: &[u8],
    came: &[u8],
    start: usize,
) -> Result<(), OutOfMemory>
    requires wanted { start ≤ length wanted.now }
    requires came { start ≤ length came.now }
{
    spell_line(text, wanted, start)?;
    text.push_str(", came ")?;
    spell_line(text, came, start)
}

/// How many bytes at the front are the same.
fn common_length(one: &[u8], other: &[u8]) -> usize
    ensures one { result ≤ length one.now }
    ensures other { result ≤ length other.now }
{
    let most = one.len().min(other.len());
    for at in 0..most {
        if one[at] != other[at] {
            return at;
        }
    }
    most
}

/// The place after the last line feed.
fn last_line_start(bytes: &[u8]) -> usize
    ensures { result ≤ length bytes.now }
{
    match bytes.iter().rposition(|byte| *byte == b'\n') {
        Some(at) => at + 1,
        None => 0,
    }
}

fn feeds_in(bytes: &[u8]) -> usize {
    bytes.iter().filter(|byte| **byte == b'\n').count()
}

/// Spells the line that begins at a place; a backslash ends it where it has no line feed.
fn spell_line(text: &mut String, bytes: &[u8], start: usize) -> Result<(), OutOfMemory>
    requires { start ≤ length bytes.now }
{
    let (_, rest) = bytes.split_at(start);
    text.push('\'')?;
    spell_first_line(text, rest)?;
    text.push('\'')
}

fn spell_first_line(text: &mut String, bytes: &[u8]) -> Result<(), OutOfMemory> {
    match bytes.iter().position(|byte| *byte == b'\n') {
        Some(end) => {
            let (line, _) = bytes.split_at(end);
            spell(text, line)
        }
        None => {
            spell(text, bytes)?;
            text.push('\\')
        }
    }
}
