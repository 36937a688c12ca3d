//! The kinds of fault that a line of a text may have.
ghost use Rattle.std.specs.Prelude.{◌≡◌};
ghost use Rattle.cgm_base.specs.Words.{kind_word};

/// What is wrong with a line of a text.
#[derive(Clone, Copy, Debug, PartialEq, Eq)]
pub enum BadKind {
    /// A byte outside comments that belongs to no token.
    BadByte,
    /// A run that begins as a number and is none of 64 bits.
    BadNumber,
    /// The first line with tokens isn't the header.
    Header,
    /// The first token is no statement word.
    Statement,
    /// The tokens don't have the statement's form.
    Form,
    /// A name that no earlier line declares.
    UnknownName,
    /// A name that is declared as another thing than its place wants.
    WrongKind,
    /// A declared word that is reserved or no name's spelling.
    Name,
    /// A declared name that an earlier line declares.
    DoubleName,
    /// A variable's least value is greater than its greatest.
    CrossedBounds,
    /// A source that is named twice in one refinement.
    DoubleSource,
    /// A variable or sum that is named twice in one linear expression.
    DoubleTerm,
    /// A second interest line of one element.
    DoubleInterest,
    /// A refinement whose target is a task.
    TaskRefined,
    /// A refinement whose target is an assumption.
    AssumptionRefined,
    /// A refinement with which the graph has a cycle.
    Cycle,
}

impl BadKind {
    /// The kind's word in a fault line.
    pub fn word(self) -> &'static str
        ensures { result.now ≡ kind_word self }
    {
        match self {
            BadKind::BadByte => "bad-byte",
            BadKind::BadNumber => "bad-number",
            BadKind::Header => "header",
            BadKind::Statement => "statement",
            BadKind::Form => "form",
            BadKind::UnknownName => "unknown-name",
            BadKind::WrongKind => "wrong-kind",
            BadKind::Name => "name",
            BadKind::DoubleName => "double-name",
            BadKind::CrossedBounds => "crossed-bounds",
            BadKind::DoubleSource => "double-source",
            BadKind::DoubleTerm => "double-term",
            BadKind::DoubleInterest => "double-interest",
            BadKind::TaskRefined => "task-refined",
            BadKind::AssumptionRefined => "assumption-refined",
            BadKind::Cycle => "cycle",
        }
    }
}
