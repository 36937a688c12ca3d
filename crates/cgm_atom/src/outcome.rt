//! What narrowing answers.
ghost use Rattle.std.specs.Prelude.{◌≡◌};

/// What became of a box.
#[derive(Clone, Copy, Debug, PartialEq, Eq)]
pub enum Narrowed {
    /// It is as it was.
    Same,
    /// A bound is tighter.
    Tighter,
    /// No value of the box is left. The box is as it was.
    Conflict,
}

impl Narrowed {
    ghost use Rattle.cgm_atom.specs.Outcome.{outcomes_joined};

    /// The answer of this step and one after it.
    pub(crate) fn then(self, second: Narrowed) -> Narrowed
        ensures { result ≡ outcomes_joined self second }
    {
        match self {
            Narrowed::Same => second,
            Narrowed::Tighter => Narrowed::Tighter,
            Narrowed::Conflict => Narrowed::Conflict,
        }
    }
}
