//! The limits of a model as sizes.
use cgm_base::limits;

/// Bytes of a name.
pub(crate) const NAME_BYTES: usize = limits::NAME_BYTES as usize;
/// Statements after the header.
pub(crate) const STATEMENTS: usize = limits::STATEMENTS as usize;
/// Elements.
pub(crate) const ELEMENTS: usize = limits::ELEMENTS as usize;
/// Refinements.
pub(crate) const REFINEMENTS: usize = limits::REFINEMENTS as usize;
/// Sources of a refinement.
pub(crate) const SOURCES: usize = limits::SOURCES as usize;
/// Nodes of the formulas of all rules.
pub(crate) const FORMULA_NODES: usize = limits::FORMULA_NODES as usize;
/// Objectives.
pub(crate) const OBJECTIVES: usize = limits::OBJECTIVES as usize;
/// The size of the number of a value, a reward, a penalty or a term.
pub(crate) const COEFFICIENT: u64 = limits::COEFFICIENT;
/// The size of a variable's bound.
pub(crate) const VARIABLE_BOUND: u64 = limits::VARIABLE_BOUND;
