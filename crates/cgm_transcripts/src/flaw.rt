//! Why a text is no transcript.
ghost use Rattle.std.specs.Prelude.{◌≡◌};
ghost use Rattle.cgm_transcripts.specs.declared.flaw.Flaw.TheVariants as flaws;

use cgm_base::OutOfMemory;
use std::alloc::AllocFailed;

/// What is wrong with a line.
#[derive(Clone, Copy)]
pub(crate) enum Fault {
    NoDirective,
    NoContentHere,
    NoTextHere,
    ContentAlone,
    NoCase,
    TakenName,
    NoName,
    Escape,
    OpenLine,
    Number,
    NotText,
    NoStatus,
    NoOutput,
    NoRun,
    IdleEnd,
}

impl Fault {
    /// The fault in words.
    pub(crate) fn words(self) -> &'static str {
        match self {
            Fault::NoDirective => "no directive",
            Fault::NoContentHere => "content lines under a directive that has none",
            Fault::NoTextHere => "text after a directive that has none",
            Fault::ContentAlone => "a content line under no directive",
            Fault::NoCase => "no case has begun",
            Fault::TakenName => "the name is taken",
            Fault::NoName => "no name",
            Fault::Escape => "an escape that isn't one, or a byte that wants one",
            Fault::OpenLine => "a line feed taken away before the last line",
            Fault::Number => "no number",
            Fault::NotText => "bytes that aren't UTF-8",
            Fault::NoStatus => "a run without status",
            Fault::NoOutput => "a run without prints or begins",
            Fault::NoRun => "what a run gives, where no run stands before",
            Fault::IdleEnd => "a case that doesn't end with a run",
        }
    }
}

/// Why a transcript can't be read.
#[derive(Clone, Copy)]
pub(crate) enum Flaw {
    /// It isn't of the form, at this line.
    Form { line: u64, fault: Fault },
    /// There is no memory.
    Memory,
}

impl From<OutOfMemory> for Flaw {
    ghost from_gives = { λ _ flaw. flaw ≡ flaws.Memory };

    fn from(_error: OutOfMemory) -> Flaw {
        Flaw::Memory
    }
}

impl<T: Drop> From<AllocFailed<T>> for Flaw {
    ghost from_gives = { λ _ flaw. flaw ≡ flaws.Memory };

    fn from(_error: AllocFailed<T>) -> Flaw {
        Flaw::Memory
    }
}
