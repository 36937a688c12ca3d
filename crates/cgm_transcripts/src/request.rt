//! The program's words.
ghost use Rattle.std.specs.Prelude.{◌≤◌, length, IfOk};

use crate::folder::add_name;
use crate::stop::Stop;
use std::alloc::Global;

/// Which files are read: transcripts, transcripts of wrong cases, and texts that are no transcripts.
/// With a name only the cases of that name are run.
#[derive(Drop)]
pub(crate) struct Request {
    pub(crate) files: Vec<String>,
    pub(crate) wrong: Vec<String>,
    pub(crate) broken: Vec<String>,
    pub(crate) only: Option<String>,
}

#[derive(Clone, Copy)]
enum Group {
    Files,
    Wrong,
    Broken,
}

impl Request {
    pub(crate) fn new(alloc: Global) -> Request {
        Request {
            files: Vec::new(alloc),
            wrong: Vec::new(alloc),
            broken: Vec::new(alloc),
            only: None,
        }
    }

    /// Whether no file is named.
    pub(crate) fn is_empty(&self) -> bool {
        self.files.is_empty() && self.wrong.is_empty() && self.broken.is_empty()
    }

    /// The names of a group.
    fn names_of(&mut self, group: Group) -> &mut Vec<String> {
        match group {
            Group::Files => &mut self.files,
            Group::Wrong => &mut self.wrong,
            Group::Broken => &mut self.broken,
        }
    }

    /// Adds a word that names a file.
    fn add(&mut self, alloc: Global, group: Group, word: &str) -> Result<(), Stop> {
        if word.starts_with("--") {
            return Err(Stop::Usage);
        }
        add_name(alloc, self.names_of(group), word)?;
        Ok(())
    }
}

/// Asks for what the words say.
pub(crate) fn take_words(
    alloc: Global,
    words: &[String],
    request: &mut Request,
) -> Result<(), Stop> {
    let mut group = Group::Files;
    let mut left = words;
    while let Some((word, after)) = left.split_first() {
        left = after;
        match group_of(word.as_str()) {
            Some(next) => group = next,
            None => {
                if word.as_str() == "--only" {
                    left = take_only(alloc, after, request)?;
                } else {
                    request.add(alloc, group, word.as_str())?;
                }
            }
        }
    }
    Ok(())
}

/// The group that a word begins.
fn group_of(word: &str) -> Option<Group> {
    if word == "--wrong" {
        Some(Group::Wrong)
    } else if word == "--broken" {
        Some(Group::Broken)
    } else {
        None
    }
}

/// Asks only for the cases of the name that stands after `--only`. What is left stands after it.
fn take_only<'w>(
    alloc: Global,
    words: &'w [String],
    request: &mut Request,
) -> Result<&'w [String], Stop>
    ensures { IfOk result (λ rest. length rest.now ≤ length words.now) }
{
    match words.split_first() {
        Some((name, rest)) => {
            request.only = Some(String::from_str(alloc, name.as_str())?);
            Ok(rest)
        }
        None => Err(Stop::Usage),
    }
}

/// Gives the memory of a request back.
pub(crate) fn discard(_request: Request) {}
