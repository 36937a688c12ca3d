//! The quantities that are limited, and a limit that was passed.
ghost use Rattle.std.specs.Prelude.{◌≡◌};
ghost use Rattle.cgm_base.specs.Words.{limit_word, limit_number};

use crate::limits;

/// A quantity that is counted and limited.
#[derive(Clone, Copy, Debug, PartialEq, Eq)]
pub enum Which {
    /// Bytes of a model or earlier text.
    TextBytes,
    /// Bytes of a name.
    NameBytes,
    /// Statements after the header.
    Statements,
    /// Elements.
    Elements,
    /// Refinements.
    Refinements,
    /// Sources of a refinement.
    Sources,
    /// Nodes of all formulas together.
    FormulaNodes,
    /// Brackets that are open at once in a line.
    FormulaDepth,
    /// Objectives.
    Objectives,
    /// The size of the number of a value, a reward, a penalty or a term.
    Coefficient,
    /// The size of a variable's bound.
    VariableBound,
    /// The measure of a comparison.
    Row,
    /// The size of a generated model.
    Trial,
}

impl Which {
    /// The quantity's word in a fault line.
    pub fn word(self) -> &'static str
        ensures { result.now ≡ limit_word self }
    {
        match self {
            Which::TextBytes => "text-bytes",
            Which::NameBytes => "name-bytes",
            Which::Statements => "statements",
            Which::Elements => "elements",
            Which::Refinements => "refinements",
            Which::Sources => "sources",
            Which::FormulaNodes => "formula-nodes",
            Which::FormulaDepth => "formula-depth",
            Which::Objectives => "objectives",
            Which::Coefficient => "coefficient",
            Which::VariableBound => "variable-bound",
            Which::Row => "row",
            Which::Trial => "trial",
        }
    }

    /// The limit itself.
    pub fn number(self) -> u64
        ensures { result ≡ limit_number self }
    {
        match self {
            Which::TextBytes => limits::TEXT_BYTES,
            Which::NameBytes => limits::NAME_BYTES,
            Which::Statements => limits::STATEMENTS,
            Which::Elements => limits::ELEMENTS,
            Which::Refinements => limits::REFINEMENTS,
            Which::Sources => limits::SOURCES,
            Which::FormulaNodes => limits::FORMULA_NODES,
            Which::FormulaDepth => limits::FORMULA_DEPTH,
            Which::Objectives => limits::OBJECTIVES,
            Which::Coefficient => limits::COEFFICIENT,
            Which::VariableBound => limits::VARIABLE_BOUND,
            Which::Row => limits::ROW,
            Which::Trial => limits::TRIAL,
        }
    }
}

/// A limit that was passed.
#[derive(Clone, Copy, Debug, PartialEq, Eq)]
pub struct Limit {
    /// The quantity.
    pub which: Which,
    /// The limit itself.
    pub number: u64,
    /// The line at which the quantity passes it, from 1; 0 for the whole text.
    pub line: u32,
}
