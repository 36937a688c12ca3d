//! Whether a run gave what its case wants.
ghost use Rattle.std.specs.Prelude.{◌≡◌, ◌↔◌, length, take, All, IsTrue, IsNone, option_map};
ghost use Rattle.std.specs.Option.{option_copied};
ghost use Rattle.std.specs.String.{string_bytes};
ghost use Rattle.cgm_base.specs.Status.{code_of};
ghost use Rattle.cgm_shelf.specs.MemShelf.{mem_files};
ghost use Rattle.cgm_transcripts.specs.Folder.{files_of};
ghost use Rattle.cgm_transcripts.specs.Agreement.{IsWantedEnd, IsJoined, IsKeptFile, IsLeftFile, IsOutput, IsWrittenTo, NamesFile};

use crate::case::{Extent, Output, Run, WantedFile};
use crate::folder::Folder;
use cgm_base::Status;
use cgm_shelf::MemShelf;

/// A run that has ended: its status, its output, and the files before and after it. `names` are those
/// of all files that may have changed.
#[derive(Drop)]
pub(crate) struct Ended<'a> {
    pub(crate) status: Status,
    pub(crate) printed: &'a [u8],
    pub(crate) names: &'a [String],
    pub(crate) before: &'a Folder,
    pub(crate) after: &'a MemShelf,
}

/// What differs first.
#[derive(Clone, Copy)]
pub(crate) enum Difference<'a> {
    Status,
    Output,
    /// What the folder has under a name.
    File(&'a WantedFile),
    /// A file that no word of the run names was changed or made.
    Changed(&'a str),
}

/// What differs first between a run and what it must give, or none where nothing does.
pub(crate) fn first_difference<'a>(run: &'a Run, ended: &Ended<'a>) -> Option<Difference<'a>>
    ensures { IsNone result ↔ IsWantedEnd run.now (code_of ended.now.status) ended.now.printed.now
        ended.now.names.now (files_of ended.now.before.now) (mem_files ended.now.after.now) }
{
    if ended.status.code() as u64 != run.status.code {
        return Some(Difference::Status);
    }
    if is_output(&run.output, ended.printed) {
        first_file(run, ended)
    } else {
        Some(Difference::Output)
    }
}

/// The first file that isn't as it must be, or none where each is.
fn first_file<'a>(run: &'a Run, ended: &Ended<'a>) -> Option<Difference<'a>>
    ensures { IsNone result ↔ (All (IsLeftFile (mem_files ended.now.after.now)) run.now.files.items
        × All (λ name. IsKeptFile run.now.words.items (files_of ended.now.before.now)
        (mem_files ended.now.after.now) (string_bytes name)) ended.now.names.now) }
{
    match other_file(run.files.as_slice(), ended.after) {
        Some(file) => Some(Difference::File(file)),
        None => match changed_file(run.words.as_slice(), ended.names, ended.before, ended.after) {
            Some(name) => Some(Difference::Changed(name)),
            None => None,
        },
    }
}

/// Whether this is the wanted output, or begins with it.
fn is_output(wanted: &Output, printed: &[u8]) -> bool
    ensures { IsTrue result ↔ IsOutput wanted.now.extent wanted.now.bytes.items printed.now }
{
    match wanted.extent {
        Extent::Whole => printed == wanted.bytes.as_slice(),
        Extent::Front => begins_with(printed, wanted.bytes.as_slice()),
    }
}

/// Whether the bytes begin with these.
fn begins_with(bytes: &[u8], front: &[u8]) -> bool
    ensures { IsTrue result ↔ (take (length front.now) bytes.now ≡ front.now) }
{
    if bytes.len() < front.len() {
        return false;
    }
    let (begin, _) = bytes.split_at(front.len());
    begin == front
}

/// The first wanted file that the shelf doesn't have so.
fn other_file<'a>(files: &'a [WantedFile], shelf: &MemShelf) -> Option<&'a WantedFile>
    ensures { IsNone result ↔ All (IsLeftFile (mem_files shelf.now)) files.now }
{
    let mut left = files;
    while let Some((file, rest)) = left.split_first() {
        if is_left(file, shelf) {
            left = rest;
        } else {
            return Some(file);
        }
    }
    None
}

/// Whether the shelf has the wanted file, or none where none is wanted.
fn is_left(file: &WantedFile, shelf: &MemShelf) -> bool
    ensures { IsTrue result ↔ IsLeftFile (mem_files shelf.now) file.now }
{
    are_same(shelf.bytes(file.name.as_str()), wanted_bytes(file))
}

/// The bytes that the wanted file has.
fn wanted_bytes(file: &WantedFile) -> Option<&[u8]>
    ensures { option_copied result ≡ option_map (λ bytes. bytes.items) file.now.bytes }
{
    match &file.bytes {
        Some(bytes) => Some(bytes.as_slice()),
        None => None,
    }
}

/// The first of the names whose file has changed, though no word of the run names it.
fn changed_file<'a>(
    words: &[String],
    names: &'a [String],
    before: &Folder,
    after: &MemShelf,
) -> Option<&'a str>
    ensures { IsNone result ↔ All (λ name. IsKeptFile words.now (files_of before.now)
        (mem_files after.now) (string_bytes name)) names.now }
{
    let mut left = names;
    while let Some((name, rest)) = left.split_first() {
        if is_kept(words, name.as_str(), before, after) {
            left = rest;
        } else {
            return Some(name.as_str());
        }
    }
    None
}

/// Whether a file is as before, or is one that a word of the run names.
fn is_kept(words: &[String], name: &str, before: &Folder, after: &MemShelf) -> bool
    ensures { IsTrue result ↔ IsKeptFile words.now (files_of before.now) (mem_files after.now)
        name.now }
{
    if is_written_to(words, name) {
        return true;
    }
    are_same(after.bytes(name), before.bytes(name))
}

/// Whether a word names the file as one that is written.
fn is_written_to(words: &[String], name: &str) -> bool
    ensures { IsTrue result ↔ IsWrittenTo words.now name.now }
{
    let mut left = words;
    while let Some((word, rest)) = left.split_first() {
        if names_written(word.as_str(), name) {
            return true;
        }
        left = rest;
    }
    false
}

/// Whether the word names the file as one that is written.
fn names_written(word: &str, name: &str) -> bool
    ensures { IsTrue result ↔ NamesFile word.now name.now }
{
    if is_joined(word.as_bytes(), b"--cert=", name.as_bytes()) {
        return true;
    }
    is_joined(word.as_bytes(), b"--core=", name.as_bytes())
}

/// Whether the bytes are the front and then the rest.
fn is_joined(bytes: &[u8], front: &[u8], rest: &[u8]) -> bool
    ensures { IsTrue result ↔ IsJoined bytes.now front.now rest.now }
{
    if bytes.len() < front.len() {
        return false;
    }
    let (begin, end) = bytes.split_at(front.len());
    if begin != front {
        return false;
    }
    end == rest
}

/// Whether both have the same bytes, or neither has any.
fn are_same(one: Option<&[u8]>, other: Option<&[u8]>) -> bool
    ensures { IsTrue result ↔ (option_copied one.entry ≡ option_copied other.entry) }
{
    match one {
        Some(one) => match other {
            Some(other) => one == other,
            None => false,
        },
        None => other.is_none(),
    }
}
