//! A shelf in memory, whose calls fail by a plan.
ghost use Rattle.std.specs.Prelude.{◌≡◌, ◌<◌, ◌≤◌, ◌^◌, ℕ, min, List, length, take, drop, Some, None, option_copied, IsSome, IsSomeAnd, IfOk, OnOk, OnErr, IsErr};
ghost use Rattle.cgm_shelf.specs.MemFiles.{files_in, files_small};
ghost use Rattle.cgm_shelf.specs.Shelf.{Appends, IsAppend, IsRead, IsStart, OnlyChanges};

use crate::calls::Calls;
use crate::{Failed, Shelf};
use cgm_base::OutOfMemory;
use std::alloc::Global;
use std::collections::BTreeMap;

/// Files in memory. It tells its files, and its calls fail by a plan.
///
/// Reads are numbered from 1, and so are starts and appends together. A call whose number is in its
/// list fails. Each read or append moves as many bytes as are wanted and there, but at most `piece`.
/// A read that fails leaves the buffer as it was.
#[derive(Drop)]
pub struct MemShelf {
    alloc: Global,
    files: BTreeMap<String, Vec<u8>>,
    piece: usize,
    reads: Calls,
    writes: Calls,
    refused: u64,
    ghost moves: { 1 ≤ piece },
}

impl MemShelf {
    ghost use Rattle.cgm_shelf.specs.MemShelf.{mem_files, read_faults_of, write_faults_of, refused_of, piece_of, failing_reads, failing_writes, reads_made, writes_made, KeepsPlan, CountsRead, CountsWrite};

    /// A shelf with no files, whose reads and whose starts and appends with these numbers fail.
    pub fn new(alloc: Global, piece: usize, fail_reads: Vec<u64>, fail_writes: Vec<u64>) -> Self
        requires { 1 ≤ piece }
        ensures empty { (name : List ℕ) → mem_files result name ≡ None }
        ensures piece { piece_of result ≡ piece }
        ensures fail_reads { (failing_reads result ≡ fail_reads.items) × (reads_made result ≡ 0) }
        ensures fail_writes { (failing_writes result ≡ fail_writes.items) × (writes_made result
            ≡ 0) }
        ensures read_faults { read_faults_of result ≡ 0 }
        ensures write_faults { write_faults_of result ≡ 0 }
        ensures refused { refused_of result ≡ 0 }
    {
        MemShelf {
            alloc,
            files: BTreeMap::new(alloc),
            piece,
            reads: Calls::new(fail_reads),
            writes: Calls::new(fail_writes),
            refused: 0,
        }
    }

    /// Sets a file's bytes, whether it was there or not. This counts as no call.
    pub fn put(&mut self, name: &str, bytes: &[u8]) -> Result<(), OutOfMemory>
        ensures ok { OnOk result (OnlyChanges (mem_files self.old) (mem_files self.new) name.now
            bytes.now) }
        ensures err { OnErr result (mem_files self.new ≡ mem_files self.old) }
        ensures plan { KeepsPlan self.old self.new }
        ensures reads { (reads_made self.new ≡ reads_made self.old) × (read_faults_of self.new
            ≡ read_faults_of self.old) }
        ensures writes { (writes_made self.new ≡ writes_made self.old) × (write_faults_of self.new
            ≡ write_faults_of self.old) }
        ensures refused { refused_of self.new ≡ refused_of self.old }
    {
        set_bytes(self.alloc, &mut self.files, name, bytes)
    }

    /// The bytes of a file, or `None` where the name isn't there.
    pub fn bytes(&self, name: &str) -> Option<&[u8]>
        ensures { option_copied result ≡ mem_files self.now name.now }
    {
        match self.files.get(name) {
            Some(bytes) => Some(bytes.as_slice()),
            None => None,
        }
    }

    /// How many calls have failed for want of memory, up to 2^64 - 1.
    pub fn refused(&self) -> u64
        ensures { result ≡ refused_of self.now }
    {
        self.refused
    }

    /// How many reads have failed, up to 2^64 - 1. A read of a name that isn't there doesn't count.
    pub fn read_faults(&self) -> u64
        ensures { result ≡ read_faults_of self.now }
    {
        self.reads.faults
    }

    /// How many starts and appends have failed, up to 2^64 - 1. An append to a name that isn't there
    /// doesn't count.
    pub fn write_faults(&self) -> u64
        ensures { result ≡ write_faults_of self.now }
    {
        self.writes.faults
    }
}

/// Copies at most `most` bytes from place `at` on to the front of the buffer, and answers how many.
fn copy_front(bytes: &[u8], at: u64, most: usize, buf: &mut [u8]) -> usize
    ensures count { result ≡ min (min most (length buf.old)) (length (drop at bytes.now)) }
    ensures front { take result buf.new ≡ take result (drop at bytes.now) }
{
    let start = (at as usize).min(bytes.len());
    let (_, rest) = bytes.split_at(start);
    let count = most.min(buf.len()).min(rest.len());
    let (from, _) = rest.split_at(count);
    let (to, _) = buf.split_at_mut(count);
    to.copy_from_slice(from);
    count
}

/// Adds bytes to a file that is there.
fn add_bytes(
    files: &mut BTreeMap<String, Vec<u8>>,
    name: &str,
    bytes: &[u8],
) -> Result<(), OutOfMemory>
    requires { IsSome (files_in files.old name.now) }
    ensures ok { OnOk result (Appends (Some (files_in files.old)) (Some (files_in files.new))
        name.now bytes.now) }
    ensures err { OnErr result (files_in files.new ≡ files_in files.old) }
{
    let held = files.get_mut(name).unwrap();
    held.extend_from_slice(bytes)?;
    Ok(())
}

/// Sets a file's bytes, whether it was there or not.
fn set_bytes(
    alloc: Global,
    files: &mut BTreeMap<String, Vec<u8>>,
    name: &str,
    bytes: &[u8],
) -> Result<(), OutOfMemory>
    ensures ok { OnOk result (OnlyChanges (files_in files.old) (files_in files.new) name.now
        bytes.now) }
    ensures err { OnErr result (files_in files.new ≡ files_in files.old) }
{
    let key = String::from_str(alloc, name)?;
    let held = Vec::from_slice(alloc, bytes)?;
    files.insert(key, held)?;
    Ok(())
}

impl Shelf for MemShelf {
    ghost use Rattle.cgm_shelf.specs.MemShelf.{mem_files, mem_shelf_state, piece_of, moved, KeepsPlan, CountsRead, CountsWrite, IsFailingRead, IsFailingWrite, KeepsFaults, FailsStart, FailsRead, FailsAppend};

    ghost state = { mem_shelf_state };

    ghost small = { λ shelf. files_small shelf.files };

    fn start(&mut self, name: &str) -> Result<(), Failed>
        ensures start { IsStart (mem_shelf_state self.old) (mem_shelf_state self.new) name.now
            result }

        ensures planned { IsFailingWrite self.old → IsErr result }
        ensures fails { OnErr result (FailsStart self.old self.new) }
        ensures kept { OnOk result (KeepsFaults self.old self.new) }
        ensures counts { CountsWrite self.old self.new }
        ensures plan { KeepsPlan self.old self.new }
    {
        self.writes.count();
        if self.writes.is_failing() {
            self.writes.fail();
            return Err(Failed);
        }
        match self.put(name, &[]) {
            Ok(()) => Ok(()),
            Err(_) => {
                self.refused = self.refused.saturating_add(1);
                self.writes.fail();
                Err(Failed)
            }
        }
    }

    fn read(&mut self, name: &str, at: u64, buf: &mut [u8]) -> Result<usize, Failed>
        requires { at < 2 ^ 63 }
        ensures read { IsRead (mem_shelf_state self.old) (mem_shelf_state self.new) name.now at
            buf.new result }

        ensures planned { IsFailingRead self.old → IsErr result }
        ensures fails { OnErr result (FailsRead self.old self.new name.now) }
        ensures buffer { OnErr result (buf.new ≡ buf.old) }
        ensures kept { OnOk result (KeepsFaults self.old self.new) }
        ensures moves { IfOk result (λ count. IsSomeAnd (mem_files self.old name.now)
            (λ file. count ≡ moved self.old file at buf.old)) }
        ensures counts { CountsRead self.old self.new }
        ensures plan { KeepsPlan self.old self.new }
    {
        self.reads.count();
        match self.files.get(name) {
            Some(bytes) => {
                if self.reads.is_failing() {
                    self.reads.fail();
                    return Err(Failed);
                }
                Ok(copy_front(bytes, at, self.piece, buf))
            }
            None => Err(Failed),
        }
    }

    fn append(&mut self, name: &str, piece: &[u8]) -> Result<usize, Failed>
        ensures append { IsAppend (mem_shelf_state self.old) (mem_shelf_state self.new) name.now
            piece.now result }

        ensures planned { IsFailingWrite self.old → IsErr result }
        ensures fails { OnErr result (FailsAppend self.old self.new name.now) }
        ensures kept { OnOk result (KeepsFaults self.old self.new) }
        ensures moves { IfOk result (λ count. count ≡ min (piece_of self.old) (length piece.now)) }
        ensures counts { CountsWrite self.old self.new }
        ensures plan { KeepsPlan self.old self.new }
    {
        self.writes.count();
        if !self.files.contains_key(name) {
            return Err(Failed);
        }
        if self.writes.is_failing() {
            self.writes.fail();
            return Err(Failed);
        }
        let count = self.piece.min(piece.len());
        let (front, _) = piece.split_at(count);
        match add_bytes(&mut self.files, name, front) {
            Ok(()) => Ok(count),
            Err(_) => {
                self.refused = self.refused.saturating_add(1);
                self.writes.fail();
                Err(Failed)
            }
        }
    }
}
