//! The transcripts of the folder in which the program runs.
use crate::request::Request;
use crate::stop::Stop;
use cgm_base::OutOfMemory;
use std::alloc::Global;
use std::fs::{DirEntry, read_dir};
use std::io;
use std::rt::Files;

/// Asks for all texts of the folder, in the order of their names: its own are transcripts, those of
/// its folder `wrong` are transcripts of wrong cases, and those of `broken` are no transcripts.
pub(crate) fn take_folder<R: Files + AllocGlobal + Clone + Drop>(
    rt: &R,
    request: &mut Request,
) -> Result<(), Stop> {
    take_texts(rt, ".", "", &mut request.files)?;
    take_texts(rt, "wrong", "wrong/", &mut request.wrong)?;
    take_texts(rt, "broken", "broken/", &mut request.broken)
}

/// Adds the names of a folder's texts behind a front, and brings the names into their order.
fn take_texts<R: Files + AllocGlobal + Clone + Drop>(
    rt: &R,
    folder: &str,
    front: &str,
    names: &mut Vec<String>,
) -> Result<(), Stop> {
    match add_texts(rt, folder, front, names) {
        Ok(()) => {
            names.sort()?;
            Ok(())
        }
        Err(_) => Err(Stop::NoFolder),
    }
}

fn add_texts<R: Files + AllocGlobal + Clone + Drop>(
    rt: &R,
    folder: &str,
    front: &str,
    names: &mut Vec<String>,
) -> io::Result<()> {
    for entry in read_dir(rt, folder)? {
        add_entry(rt.alloc(), names, front, entry?)?;
    }
    Ok(())
}

fn add_entry<R: Files + AllocGlobal + Clone + Drop>(
    alloc: Global,
    names: &mut Vec<String>,
    front: &str,
    entry: DirEntry<R>,
) -> Result<(), OutOfMemory> {
    add_text(alloc, names, front, entry.file_name())
}

/// Adds a file's name behind a front, where it is that of a text.
fn add_text(
    alloc: Global,
    names: &mut Vec<String>,
    front: &str,
    name: &str,
) -> Result<(), OutOfMemory> {
    if !name.ends_with(".txt") {
        return Ok(());
    }
    let text = format!(in alloc; "{front}{name}")?;
    names.push(text)?;
    Ok(())
}
