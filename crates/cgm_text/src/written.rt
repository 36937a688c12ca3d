//! Statements as they are parsed, with names as places of their line.
use cgm_print::words::{
    Comparison, ConditionWord, Direction, Joint, NameWord, PairWord, Pairing, WeightWord,
};
use sqlite_items::{Boxed, Items};

/// Why tokens make no part of a statement.
#[derive(Clone, Copy)]
pub(crate) enum FormStop {
    /// They don't have the form.
    Form,
    /// There is no memory.
    Memory,
}

/// The places of a word in its line.
#[derive(Clone, Copy)]
pub(crate) struct Word {
    pub(crate) from: u32,
    pub(crate) to: u32,
}

/// The first word in the brackets of a formula.
#[derive(Clone, Copy)]
pub(crate) enum Connective {
    Not,
    Join(Joint),
    Pair(Pairing),
    Compare(Comparison),
}

impl Connective {
    ghost use Rattle.std.specs.Prelude.{◌≡◌};
    ghost use Rattle.cgm_text.specs.Parsed.{connective_word};

    /// The word itself.
    pub(crate) fn word(self) -> &'static [u8]
        ensures { result.now ≡ connective_word self }
    {
        match self {
            Connective::Not => b"not",
            Connective::Join(joint) => joint.word(),
            Connective::Pair(pairing) => pairing.word(),
            Connective::Compare(comparison) => comparison.word(),
        }
    }
}

/// A term of a linear expression.
#[derive(Clone, Copy)]
pub(crate) enum Term {
    /// A name alone.
    Plain(Word),
    /// A number times a name, in brackets.
    Scaled(i64, Word),
}

/// A linear expression.
#[derive(Drop)]
pub(crate) enum Linear {
    /// A term alone.
    Single(Term),
    /// A total of one or more terms, in brackets.
    Total(Term, Items<Term>),
}

/// A formula.
#[derive(Drop)]
pub(crate) enum Tree {
    Name(Word),
    Not(Boxed<Tree>),
    Join(Joint, Boxed<Tree>, Items<Tree>),
    Pair(Pairing, Boxed<Tree>, Boxed<Tree>),
    Compare(Comparison, Linear, i64),
}

/// A statement as it is written.
#[derive(Drop)]
pub(crate) enum Written {
    Goal {
        name: Word,
        must: bool,
    },
    Name {
        what: NameWord,
        name: Word,
    },
    Refine {
        name: Word,
        target: Word,
        first: Word,
        others: Items<Word>,
    },
    Pair {
        what: PairWord,
        one: Word,
        other: Word,
    },
    Assert {
        name: Word,
        truth: bool,
    },
    Var {
        name: Word,
        lo: i64,
        hi: i64,
    },
    Value {
        sum: Word,
        of: Word,
        k: i64,
    },
    Weight {
        what: WeightWord,
        name: Word,
        k: i64,
    },
    Condition {
        what: ConditionWord,
        name: Word,
        formula: Tree,
    },
    Require {
        formula: Tree,
    },
    Objective {
        direction: Direction,
        quantity: Word,
    },
}
