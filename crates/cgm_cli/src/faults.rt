//! Faults whose lines tell what is faulty and where.
ghost use Rattle.std.specs.Prelude.{◌≡◌, IfOk};
ghost use Rattle.std.specs.String.{string_bytes};
ghost use Rattle.cgm_cli.specs.Effects.{TellsOrLacksMemory};
ghost use Rattle.cgm_cli.specs.FaultLines.{certificate_fault, earlier_fault, entry_fault, limit_fault, text_fault};
ghost use Rattle.cgm_cli.specs.Placed.{placed_line, placed_status};

use crate::print::{tell, tell_memory};
use cgm_atom::BadStep;
use cgm_base::{BadKind, Limit, OutOfMemory, Status};
use cgm_cert::CertKind;
use cgm_shelf::Sink;
use std::alloc::Global;

/// A fault whose line tells what is faulty and where.
#[derive(Clone, Copy)]
pub(crate) enum PlacedFault {
    /// The first faulty line of a model text, from 1, and what is wrong with it.
    Text { line: u32, kind: BadKind },
    /// The first faulty line of an earlier text, from 1, and what is wrong with it.
    Earlier { line: u32, kind: BadKind },
    /// A limit that was passed.
    Limit(Limit),
    /// The first faulty line of a certificate, from 1, and what is wrong with it.
    Certificate { line: u64, kind: CertKind },
    /// The first entry of a certificate, from 1, that isn't accepted, and the test that it fails.
    Entry { number: u64, why: BadStep },
}

impl PlacedFault {
    fn status(self) -> Status
        ensures { result ≡ placed_status self }
    {
        match self {
            PlacedFault::Text { .. } => Status::Text,
            PlacedFault::Earlier { .. } => Status::Earlier,
            PlacedFault::Limit(_) => Status::Limit,
            PlacedFault::Certificate { .. } => Status::Certificate,
            PlacedFault::Entry { .. } => Status::Certificate,
        }
    }

    fn line(self, alloc: Global) -> Result<String, OutOfMemory>
        ensures { IfOk result (λ line. string_bytes line ≡ placed_line self) }
    {
        match self {
            PlacedFault::Text { line, kind } => text_line(alloc, line, kind),
            PlacedFault::Earlier { line, kind } => earlier_line(alloc, line, kind),
            PlacedFault::Limit(limit) => limit_line(alloc, limit),
            PlacedFault::Certificate { line, kind } => certificate_line(alloc, line, kind),
            PlacedFault::Entry { number, why } => entry_line(alloc, number, why),
        }
    }
}

fn text_line(alloc: Global, line: u32, kind: BadKind) -> Result<String, OutOfMemory>
    ensures { IfOk result (λ told. string_bytes told ≡ text_fault line kind) }
{
    let word = kind.word();
    format!(in alloc; "fault text {line} {word}\n")
}

fn earlier_line(alloc: Global, line: u32, kind: BadKind) -> Result<String, OutOfMemory>
    ensures { IfOk result (λ told. string_bytes told ≡ earlier_fault line kind) }
{
    let word = kind.word();
    format!(in alloc; "fault earlier {line} {word}\n")
}

fn limit_line(alloc: Global, limit: Limit) -> Result<String, OutOfMemory>
    ensures { IfOk result (λ told. string_bytes told ≡ limit_fault limit) }
{
    let Limit { which, line, .. } = limit;
    let word = which.word();
    let number = which.number();
    format!(in alloc; "fault limit {word} {number} {line}\n")
}

fn certificate_line(alloc: Global, line: u64, kind: CertKind) -> Result<String, OutOfMemory>
    ensures { IfOk result (λ told. string_bytes told ≡ certificate_fault line kind) }
{
    let word = kind.word();
    format!(in alloc; "fault certificate line {line} {word}\n")
}

fn entry_line(alloc: Global, number: u64, why: BadStep) -> Result<String, OutOfMemory>
    ensures { IfOk result (λ told. string_bytes told ≡ entry_fault number why) }
{
    let words = why.words(alloc)?;
    let told = words.as_str();
    format!(in alloc; "fault certificate entry {number} {told}\n")
}

/// Tells a fault and answers its status, or tells that there is no memory for its line.
pub(crate) fn tell_fault<O: Sink>(alloc: Global, out: &mut O, fault: PlacedFault) -> Status
    ensures { TellsOrLacksMemory (placed_line fault) (placed_status fault)
        (O.state out.old) (O.state out.new) result }
{
    match fault.line(alloc) {
        Ok(line) => {
            tell(out, line.as_bytes());
            fault.status()
        }
        Err(_) => tell_memory(out),
    }
}
