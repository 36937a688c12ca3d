//! The host's files and its standard output. They tell no content: what the host does is trusted.
ghost use Rattle.std.specs.Prelude.{◌≡◌, ◌<◌, ◌≤◌, ◌^◌, length, MatchResult, IfOk, IsErr};
ghost use Rattle.cgm_shelf.specs.Faults.{HasCause, CountsFault};
ghost use Rattle.cgm_shelf.specs.Shelf.{IsAppend, IsRead, IsStart, untold_shelf};
ghost use Rattle.cgm_shelf.specs.Sink.{IsWrite, untold_sink};

use crate::{Failed, Shelf, Sink};
use std::fs::{File, OpenOptions};
use std::io::{self, ErrorKind, Read, Seek, SeekFrom, Write};
use std::rt::Files;

/// The files of the host, by their paths. Each call opens the file anew.
#[derive(Drop)]
pub struct FileShelf<'a, R: Files> {
    rt: &'a R,
    read_faults: u64,
    write_faults: u64,
}

impl<'a, R: Files> FileShelf<'a, R> {
    /// The files that this runtime reaches, with no faults so far.
    pub fn new(rt: &'a R) -> FileShelf<'a, R>
        ensures { ⟦<FileShelf<'a, R> as Shelf>⟧.state result ≡ untold_shelf 0 0 }
    {
        FileShelf {
            rt,
            read_faults: 0,
            write_faults: 0,
        }
    }
}

impl<R: Files> Shelf for FileShelf<'_, R> {
    ghost state = { λ shelf. untold_shelf shelf.read_faults shelf.write_faults };

    ghost small = { λ _. tt };

    fn start(&mut self, name: &str) -> Result<(), Failed>
        ensures start { IsStart (untold_shelf self.old.read_faults self.old.write_faults)
            (untold_shelf self.new.read_faults self.new.write_faults) name.now result }

        ensures counts { CountsFault self.old.write_faults self.new.write_faults result }
    {
        counted(start_file(self.rt, name), &mut self.write_faults)
    }

    fn read(&mut self, name: &str, at: u64, buf: &mut [u8]) -> Result<usize, Failed>
        requires { at < 2 ^ 63 }
        ensures read { IsRead (untold_shelf self.old.read_faults self.old.write_faults)
            (untold_shelf self.new.read_faults self.new.write_faults) name.now at buf.new result }

        ensures counts { CountsFault self.old.read_faults self.new.read_faults result }
    {
        let room = LAST_PLACE - at;
        let most = buf.len().min(room as usize);
        let (front, _) = buf.split_at_mut(most);
        counted(read_file(self.rt, name, at, front), &mut self.read_faults)
    }

    fn append(&mut self, name: &str, piece: &[u8]) -> Result<usize, Failed>
        ensures append { IsAppend (untold_shelf self.old.read_faults self.old.write_faults)
            (untold_shelf self.new.read_faults self.new.write_faults) name.now piece.now result }

        ensures counts { CountsFault self.old.write_faults self.new.write_faults result }
    {
        counted(append_file(self.rt, name, piece), &mut self.write_faults)
    }
}

/// The last place that a read reaches.
const LAST_PLACE: u64 = 0x7fff_ffff_ffff_ffff;

/// Makes the file empty, and makes it where it isn't there.
fn start_file<R: Files>(rt: &R, name: &str) -> io::Result<()> {
    File::create(rt, name)?;
    Ok(())
}

/// Reads once from a place on.
fn read_file<R: Files>(rt: &R, name: &str, at: u64, buf: &mut [u8]) -> io::Result<usize>
    ensures { IfOk result (λ count. count ≤ length buf.old) }
{
    let mut file = File::open(rt, name)?;
    file.seek(SeekFrom::Start(at))?;
    file.read(buf)
}

/// Writes once at the end of a file that is there.
fn append_file<R: Files>(rt: &R, name: &str, piece: &[u8]) -> io::Result<usize>
    ensures within { IfOk result (λ count. count ≤ length piece.now) }
    ensures some { IfOk result (λ count. 0 < length piece.now → 0 < count) }
{
    let mut file = OpenOptions::new().append(true).open(rt, name)?;
    some_written(file.write(piece)?, piece)
}

/// A write that takes nothing of a piece that isn't empty has failed.
fn some_written(count: usize, piece: &[u8]) -> io::Result<usize>
    ensures count { IfOk result (λ given. given ≡ count) }
    ensures some { IfOk result (λ given. 0 < length piece.now → 0 < given) }
{
    if count == 0 && !piece.is_empty() {
        return Err(io::Error::from(ErrorKind::WriteZero));
    }
    Ok(count)
}

/// Counts a fault where the host's call has failed.
fn counted<T>(called: io::Result<T>, faults: &mut u64) -> Result<T, Failed>
    ensures same { MatchResult called (λ value. result ≡ Ok value) (λ _. IsErr result) }
    ensures cause { HasCause faults.old faults.new result }
    ensures counts { CountsFault faults.old faults.new result }
{
    match called {
        Ok(value) => Ok(value),
        Err(_) => {
            *faults = faults.saturating_add(1);
            Err(Failed)
        }
    }
}

/// Standard output.
#[derive(Drop)]
pub struct OutSink<'a, R: Print> {
    rt: &'a R,
    faults: u64,
}

impl<'a, R: Print> OutSink<'a, R> {
    /// The output of this runtime, with no faults so far.
    pub fn new(rt: &'a R) -> OutSink<'a, R>
        ensures { ⟦<OutSink<'a, R> as Sink>⟧.state result ≡ untold_sink 0 }
    {
        OutSink { rt, faults: 0 }
    }
}

impl<R: Print> Sink for OutSink<'_, R> {
    ghost state = { λ sink. untold_sink sink.faults };

    fn write(&mut self, piece: &[u8]) -> Result<usize, Failed>
        ensures write { IsWrite (untold_sink self.old.faults) (untold_sink self.new.faults)
            piece.now result }

        ensures counts { CountsFault self.old.faults self.new.faults result }
    {
        counted(print_some(self.rt, piece), &mut self.faults)
    }
}

/// Writes once to standard output.
fn print_some<R: Print>(rt: &R, piece: &[u8]) -> io::Result<usize>
    ensures within { IfOk result (λ count. count ≤ length piece.now) }
    ensures some { IfOk result (λ count. 0 < length piece.now → 0 < count) }
{
    some_written(rt.write_some(piece)?, piece)
}
