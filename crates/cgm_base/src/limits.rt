//! The limits of the texts that are read and of the models that they give.

/// Bytes of a model or earlier text: 16 MiB.
pub const TEXT_BYTES: u64 = 16_777_216;
/// Bytes of a name.
pub const NAME_BYTES: u64 = 64;
/// Statements after the header.
pub const STATEMENTS: u64 = 1_000_000;
/// Elements.
pub const ELEMENTS: u64 = 20_000;
/// Refinements.
pub const REFINEMENTS: u64 = 20_000;
/// Sources of a refinement.
pub const SOURCES: u64 = 256;
/// Nodes of all formulas together.
pub const FORMULA_NODES: u64 = 200_000;
/// Brackets that are open at once in a line.
pub const FORMULA_DEPTH: u64 = 200;
/// Objectives.
pub const OBJECTIVES: u64 = 8;
/// The size of the number of a value, a reward, a penalty or a term.
pub const COEFFICIENT: u64 = 1_000_000;
/// The size of a variable's bound.
pub const VARIABLE_BOUND: u64 = 1_000_000_000;
/// The measure of a comparison.
pub const ROW: u64 = 4_000_000_000_000_000_000;
/// The size of a generated model.
pub const TRIAL: u64 = 2_000;
