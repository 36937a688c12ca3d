//! A sink in memory, whose writes fail by a plan, and a sink that takes all.
ghost use Rattle.std.specs.Prelude.{◌≡◌, ◌≤◌, min, [], length, IfOk, OnOk, OnErr, IsErr};
ghost use Rattle.cgm_shelf.specs.Sink.{IsWrite, untold_sink};

use crate::calls::Calls;
use crate::{Failed, Sink};
use std::alloc::Global;

/// Bytes in memory. It tells them, and its writes fail by a plan.
///
/// Writes are numbered from 1, and one whose number is in the list fails. Each takes the whole piece,
/// but at most `piece` bytes of it.
#[derive(Drop)]
pub struct MemSink {
    bytes: Vec<u8>,
    piece: usize,
    writes: Calls,
    refused: u64,
    ghost moves: { 1 ≤ piece },
}

impl MemSink {
    ghost use Rattle.cgm_shelf.specs.MemSink.{bytes_of, faults_of, sink_refused_of, sink_piece_of, failing_sink_writes, sink_writes_made};

    /// A sink with no bytes, whose writes with these numbers fail.
    pub fn new(alloc: Global, piece: usize, fail_writes: Vec<u64>) -> Self
        requires { 1 ≤ piece }
        ensures empty { bytes_of result ≡ [] }
        ensures piece { sink_piece_of result ≡ piece }
        ensures failing { failing_sink_writes result ≡ fail_writes.items }
        ensures made { sink_writes_made result ≡ 0 }
        ensures faults { faults_of result ≡ 0 }
        ensures refused { sink_refused_of result ≡ 0 }
    {
        MemSink {
            bytes: Vec::new(alloc),
            piece,
            writes: Calls::new(fail_writes),
            refused: 0,
        }
    }

    /// The bytes written so far.
    pub fn written(&self) -> &[u8]
        ensures { result.now ≡ bytes_of self.now }
    {
        self.bytes.as_slice()
    }

    /// How many writes have failed for want of memory, up to 2^64 - 1.
    pub fn refused(&self) -> u64
        ensures { result ≡ sink_refused_of self.now }
    {
        self.refused
    }

    /// How many writes have failed, up to 2^64 - 1.
    pub fn faults(&self) -> u64
        ensures { result ≡ faults_of self.now }
    {
        self.writes.faults
    }
}

impl Sink for MemSink {
    ghost use Rattle.cgm_shelf.specs.MemSink.{mem_sink_state, sink_piece_of, CountsSinkWrite, IsFailingSinkWrite, KeepsSinkFaults, FailsWrite};

    ghost state = { mem_sink_state };

    fn write(&mut self, piece: &[u8]) -> Result<usize, Failed>
        ensures write { IsWrite (mem_sink_state self.old) (mem_sink_state self.new) piece.now
            result }

        ensures planned { IsFailingSinkWrite self.old → IsErr result }
        ensures fails { OnErr result (FailsWrite self.old self.new) }
        ensures kept { OnOk result (KeepsSinkFaults self.old self.new) }
        ensures moves { IfOk result (λ count. count ≡ min (sink_piece_of self.old)
            (length piece.now)) }
        ensures counts { CountsSinkWrite self.old self.new }
    {
        self.writes.count();
        if self.writes.is_failing() {
            self.writes.fail();
            return Err(Failed);
        }
        let count = self.piece.min(piece.len());
        let (front, _) = piece.split_at(count);
        match self.bytes.extend_from_slice(front) {
            Ok(()) => Ok(count),
            Err(_) => {
                self.refused = self.refused.saturating_add(1);
                self.writes.fail();
                Err(Failed)
            }
        }
    }
}

/// A sink that takes every piece whole, never fails and tells nothing.
#[derive(Clone, Copy, Debug)]
pub struct NullSink;

impl Sink for NullSink {
    ghost state = { λ _. untold_sink 0 };

    fn write(&mut self, piece: &[u8]) -> Result<usize, Failed>
        ensures whole { result ≡ Ok (length piece.now) }
    {
        Ok(piece.len())
    }
}
