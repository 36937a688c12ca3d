//! Whole reads and writes over a shelf or a sink.
ghost use Rattle.std.specs.Prelude.{◌≡◌, ◌↔◌, ◌<◌, ◌≤◌, ◌+◌, length, IsTrue, IfOk, OnOk, OnErr, IsErr, IfSome, IsSomeAnd, vec_len};
ghost use Rattle.cgm_shelf.specs.Faults.{Rose, HasCause};
ghost use Rattle.cgm_shelf.specs.Shelf.{CantRead, IsLongerFile, IsMissing, IsFileThere, Leaves, LeavesPart, OnlyReads, ReadsNext, WhereTold};
ghost use Rattle.cgm_shelf.specs.Sink.{Adds, AddsPart};

use crate::{Failed, Shelf, Sink};
use std::alloc::Global;
use thiserror::Error;

/// Why a whole file wasn't read.
#[derive(Clone, Copy, Debug, PartialEq, Eq, Error)]
pub enum ReadStop {
    /// A read failed, or the shelf tells that the file isn't there.
    #[error("the file can't be read")]
    Fault,
    /// The file has more bytes than the limit.
    #[error("the file is too long")]
    TooLong,
    /// The memory for the bytes was refused.
    #[error("out of memory")]
    Memory,
}

/// How many bytes one read asks for: a shelf over the host's files opens the file for each.
const READ_SIZE: usize = 65_536;

/// Reads the named file to its end. With a limit, a file of more bytes than that is `TooLong`.
pub fn read_whole<F: Shelf>(
    alloc: Global,
    shelf: &mut F,
    name: &str,
    limit: Option<u64>,
) -> Result<Vec<u8>, ReadStop>
    ensures ok { IfOk result
        (λ bytes. WhereTold (F.state shelf.old).files name.now (λ file. bytes.items ≡ file)) }
    ensures fits { IfOk result (λ bytes. IfSome limit (λ most. vec_len bytes ≤ most)) }

    ensures fault { result ≡ Err ReadStop.Fault
        → CantRead (F.state shelf.old) (F.state shelf.new) name.now }
    ensures missing { IsMissing (F.state shelf.old).files name.now → (result ≡ Err ReadStop.Fault)
        × ((F.state shelf.new).read_faults ≡ (F.state shelf.old).read_faults) }
    ensures there { IsFileThere (F.state shelf.old).files name.now → result ≡ Err ReadStop.Fault
        → Rose (F.state shelf.old).read_faults (F.state shelf.new).read_faults }

    ensures too_long { result ≡ Err ReadStop.TooLong → IsSomeAnd limit
        (λ most. WhereTold (F.state shelf.old).files name.now (λ file. most < length file)) }
    ensures longer { IsLongerFile (F.state shelf.old).files name.now limit → IsErr result }

    ensures only { OnlyReads (F.state shelf.old) (F.state shelf.new) }
{
    let mut bytes = Vec::new(alloc);
    let mut buffer = [0; READ_SIZE];
    loop {
        let count = read_more(shelf, name, limit, &mut buffer, &mut bytes)?;
        if count == 0 {
            return Ok(bytes);
        }
    }
}

/// Adds the file's next bytes, as many as one read gives, and answers how many they are: 0 at the
/// file's end.
fn read_more<F: Shelf>(
    shelf: &mut F,
    name: &str,
    limit: Option<u64>,
    buffer: &mut [u8; READ_SIZE],
    bytes: &mut Vec<u8>,
) -> Result<usize, ReadStop>
    requires { IfSome limit (λ most. vec_len bytes.old ≤ most) }
    ensures ok { IfOk result (λ count. WhereTold (F.state shelf.old).files name.now
        (λ file. ReadsNext file bytes.old.items bytes.new.items count)) }
    ensures grows { IfOk result (λ count. vec_len bytes.new ≡ vec_len bytes.old + count) }
    ensures fits { OnOk result (IfSome limit (λ most. vec_len bytes.new ≤ most)) }

    ensures fault { result ≡ Err ReadStop.Fault
        → CantRead (F.state shelf.old) (F.state shelf.new) name.now }
    ensures missing { IsMissing (F.state shelf.old).files name.now → (result ≡ Err ReadStop.Fault)
        × ((F.state shelf.new).read_faults ≡ (F.state shelf.old).read_faults) }
    ensures too_long { result ≡ Err ReadStop.TooLong → IsSomeAnd limit
        (λ most. WhereTold (F.state shelf.old).files name.now (λ file. most < length file)) }

    ensures only { OnlyReads (F.state shelf.old) (F.state shelf.new) }
{
    match shelf.read(name, bytes.len() as u64, buffer) {
        Ok(count) => {
            if is_past(limit, bytes.len() + count) {
                return Err(ReadStop::TooLong);
            }
            let (front, _) = buffer.split_at(count);
            match bytes.extend_from_slice(front) {
                Ok(()) => Ok(count),
                Err(_) => Err(ReadStop::Memory),
            }
        }
        Err(Failed) => Err(ReadStop::Fault),
    }
}

/// Whether this many bytes are more than the limit, if there is one.
fn is_past(limit: Option<u64>, count: usize) -> bool
    ensures { IsTrue result ↔ IsSomeAnd limit (λ most. most < count) }
{
    match limit {
        Some(most) => most < count as u64,
        None => false,
    }
}

/// Makes the named file hold exactly these bytes. After a fault it is as before, or holds a front of
/// them.
pub fn write_file<F: Shelf>(shelf: &mut F, name: &str, bytes: &[u8]) -> Result<(), Failed>
    ensures ok { OnOk result
        (Leaves (F.state shelf.old).files (F.state shelf.new).files name.now bytes.now) }
    ensures err { OnErr result
        (LeavesPart (F.state shelf.old).files (F.state shelf.new).files name.now bytes.now) }
    ensures reads { (F.state shelf.new).read_faults ≡ (F.state shelf.old).read_faults }
    ensures cause { HasCause (F.state shelf.old).write_faults (F.state shelf.new).write_faults
        result }
{
    shelf.start(name)?;
    let mut stored = 0;
    while stored < bytes.len() {
        let (_, rest) = bytes.split_at(stored);
        let count = shelf.append(name, rest)?;
        stored += count;
    }
    Ok(())
}

/// Adds exactly these bytes to the sink. After a fault a front of them was added.
pub fn write_whole<O: Sink>(sink: &mut O, bytes: &[u8]) -> Result<(), Failed>
    ensures ok { OnOk result (Adds (O.state sink.old) (O.state sink.new) bytes.now) }
    ensures err { OnErr result (AddsPart (O.state sink.old) (O.state sink.new) bytes.now) }
    ensures cause { HasCause (O.state sink.old).faults (O.state sink.new).faults result }
{
    let mut written = 0;
    while written < bytes.len() {
        let (_, rest) = bytes.split_at(written);
        let count = sink.write(rest)?;
        written += count;
    }
    Ok(())
}
