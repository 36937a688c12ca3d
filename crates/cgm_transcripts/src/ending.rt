//! The counts of the program, and how it ends.
ghost use Rattle.std.specs.Prelude.{◌≡◌, ◌↔◌, ◌+◌, ◌-◌, ◌^◌, min};
ghost use Rattle.std.specs.Bool.{OnFalse, OnTrue};
ghost use Rattle.cgm_transcripts.specs.Ending.{IsUnrun, IsWell, ending_code};
ghost use Rattle.cgm_transcripts.specs.declared.ending.Ending.TheVariants as endings;

/// How many cases or texts were told, as different or as no transcript, and how many were not.
#[derive(Clone, Copy)]
pub(crate) struct Tally {
    pub(crate) told: u64,
    pub(crate) untold: u64,
}

impl Tally {
    pub(crate) const NONE: Tally = Tally { told: 0, untold: 0 };

    /// Counts one more, up to the last number.
    pub(crate) fn count(&mut self, is_told: bool)
        ensures told { OnTrue is_told ((self.new.told ≡ min (self.old.told + 1) (2 ^ 64 - 1))
            × (self.new.untold ≡ self.old.untold)) }
        ensures untold { OnFalse is_told ((self.new.untold ≡ min (self.old.untold + 1) (2 ^ 64 - 1))
            × (self.new.told ≡ self.old.told)) }
    {
        if is_told {
            self.told = self.told.saturating_add(1);
        } else {
            self.untold = self.untold.saturating_add(1);
        }
    }

    /// Adds what another one counted, up to the last number.
    pub(crate) fn add(&mut self, other: Tally)
        ensures told { self.new.told ≡ min (self.old.told + other.told) (2 ^ 64 - 1) }
        ensures untold { self.new.untold ≡ min (self.old.untold + other.untold) (2 ^ 64 - 1) }
    {
        self.told = self.told.saturating_add(other.told);
        self.untold = self.untold.saturating_add(other.untold);
    }

    /// How many were counted.
    pub(crate) fn all(self) -> u64 {
        self.told.saturating_add(self.untold)
    }
}

/// How the program ends.
#[derive(Clone, Copy, PartialEq, Eq)]
pub enum Ending {
    /// Each case agrees, and each wrong case and each broken text was told.
    Agree,
    /// A case differs, or a wrong case or a broken text wasn't told.
    Differ,
    /// No case was run.
    Unfit,
}

impl Ending {
    /// The program's exit status.
    pub fn code(self) -> u8
        ensures { result ≡ ending_code self }
    {
        match self {
            Ending::Agree => 0,
            Ending::Differ => 1,
            Ending::Unfit => 2,
        }
    }
}

/// How the program ends after these cases, wrong cases and broken texts.
pub(crate) fn ending_of(cases: Tally, wrong: Tally, broken: Tally) -> Ending
    ensures agree { (result ≡ endings.Agree) ↔ IsWell cases wrong broken }
    ensures unfit { (result ≡ endings.Unfit) ↔ IsUnrun cases wrong broken }
{
    if cases.told > 0 {
        return Ending::Differ;
    }
    if wrong.untold > 0 {
        return Ending::Differ;
    }
    if broken.untold > 0 {
        return Ending::Differ;
    }
    if cases.untold > 0 {
        Ending::Agree
    } else {
        Ending::Unfit
    }
}
