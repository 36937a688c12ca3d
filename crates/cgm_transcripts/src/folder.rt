//! The folder of a case: files by their names.
ghost use Rattle.std.specs.Prelude.{◌≡◌, OnOk};
ghost use Rattle.std.specs.Option.{option_copied};
ghost use Rattle.cgm_shelf.specs.Shelf.{OnlyChanges};

use cgm_base::OutOfMemory;
use cgm_shelf::MemShelf;
use std::alloc::Global;

/// How many bytes a call of a shelf moves at most where nothing else is said.
pub(crate) const LARGE: usize = 1 << 30;

/// Files in memory, their names, and names that a run may make files of. A name may stand twice.
#[derive(Drop)]
pub(crate) struct Folder {
    alloc: Global,
    held: MemShelf,
    names: Vec<String>,
}

impl Folder {
    ghost use Rattle.cgm_transcripts.specs.Folder.{files_of};

    pub(crate) fn new(alloc: Global) -> Folder {
        Folder {
            alloc,
            held: MemShelf::new(alloc, LARGE, Vec::new(alloc), Vec::new(alloc)),
            names: Vec::new(alloc),
        }
    }

    /// Sets the bytes of a file, whether it was there or not.
    pub(crate) fn set(&mut self, name: &str, bytes: &[u8]) -> Result<(), OutOfMemory>
        ensures { OnOk result (OnlyChanges (files_of self.old) (files_of self.new) name.now
            bytes.now) }
    {
        add_name(self.alloc, &mut self.names, name)?;
        self.held.put(name, bytes)
    }

    /// The bytes of a file, or none where it isn't there.
    pub(crate) fn bytes(&self, name: &str) -> Option<&[u8]>
        ensures { option_copied result ≡ files_of self.now name.now }
    {
        self.held.bytes(name)
    }

    /// The names of the files, and others that were added.
    pub(crate) fn names(&self) -> &[String] {
        self.names.as_slice()
    }

    /// Adds the names that words may give: each word, and what stands after its first `=`.
    pub(crate) fn add_names(&mut self, words: &[String]) -> Result<(), OutOfMemory> {
        for word in words {
            add_name(self.alloc, &mut self.names, word.as_str())?;
            match word.as_str().split_once('=') {
                Some((_, name)) => add_name(self.alloc, &mut self.names, name)?,
                None => {}
            }
        }
        Ok(())
    }

    /// Puts all files onto a shelf.
    pub(crate) fn put_all(&self, shelf: &mut MemShelf) -> Result<(), OutOfMemory> {
        put_files(&self.held, self.names.as_slice(), shelf)
    }

    /// Takes the files of all its names from a shelf.
    pub(crate) fn take_all(&mut self, shelf: &MemShelf) -> Result<(), OutOfMemory> {
        put_files(shelf, self.names.as_slice(), &mut self.held)
    }
}

/// Adds a copy of a name.
pub(crate) fn add_name(
    alloc: Global,
    names: &mut Vec<String>,
    name: &str,
) -> Result<(), OutOfMemory> {
    let name = String::from_str(alloc, name)?;
    names.push(name)?;
    Ok(())
}

/// Puts the files of these names from one shelf onto another.
fn put_files(from: &MemShelf, names: &[String], onto: &mut MemShelf) -> Result<(), OutOfMemory> {
    for name in names {
        match from.bytes(name.as_str()) {
            Some(bytes) => onto.put(name.as_str(), bytes)?,
            None => {}
        }
    }
    Ok(())
}
