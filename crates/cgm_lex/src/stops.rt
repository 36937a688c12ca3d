//! Why a line isn't taken, and why a text isn't read.
ghost use Rattle.std.specs.Prelude.{◌≡◌};
ghost use Rattle.cgm_lex.specs.Readings.{fault_kind, lexing_stop, stop_at};

use crate::token::{LexFault, LexStop};
use cgm_base::{BadKind, Limit, Which};

/// What is wrong with a line.
#[derive(Clone, Copy, PartialEq, Eq)]
pub enum LineFault {
    /// A fault of this kind.
    Bad(BadKind),
    /// A quantity that passes its limit.
    Limit(Which),
}

/// Why a line isn't added to those before it.
#[derive(Clone, Copy)]
pub enum LineStop {
    /// What is wrong with it.
    Faulty(LineFault),
    /// There is no memory for it.
    Memory,
}

/// Why a text isn't read.
#[derive(Clone, Copy, Debug)]
pub enum TextStop {
    /// The first faulty line, numbered from 1, and what is wrong with it.
    Bad { line: u32, kind: BadKind },
    /// A limit that the text passes, at its first faulty line.
    Limit(Limit),
    /// There is no memory for what it says.
    Memory,
}

/// The kind of a flaw in a line.
fn fault_kind(fault: LexFault) -> BadKind
    ensures { result ≡ fault_kind fault }
{
    match fault {
        LexFault::BadByte { line: _ } => BadKind::BadByte,
        LexFault::BadNumber { line: _ } => BadKind::BadNumber,
    }
}

/// Why a line isn't added that has no tokens.
pub fn lexing_stop(stop: LexStop) -> LineStop
    ensures { result ≡ lexing_stop stop }
{
    match stop {
        LexStop::Fault(fault) => LineStop::Faulty(LineFault::Bad(fault_kind(fault))),
        LexStop::Memory => LineStop::Memory,
    }
}

/// Why a text isn't read that stops at this line.
pub(crate) fn text_stop(stop: LineStop, line: u32) -> TextStop
    ensures { result ≡ stop_at line stop }
{
    match stop {
        LineStop::Faulty(LineFault::Bad(kind)) => TextStop::Bad { line, kind },
        LineStop::Faulty(LineFault::Limit(which)) => TextStop::Limit(Limit {
            which,
            number: which.number(),
            line,
        }),
        LineStop::Memory => TextStop::Memory,
    }
}
