//! The limits of problems and of entries.

/// The greatest size of a bound or a value of a variable.
pub const MAX_BOUND: u64 = 1_000_000_000_000_000;

/// The greatest size of the number of an atom.
pub const MAX_ATOM_NUMBER: u64 = 2_000_000_000_000_000;

/// The greatest measure of a row: the sum of coefficient size times greatest bound size.
pub const MAX_MEASURE: u64 = 4_000_000_000_000_000_000;

/// The greatest size of the least value of a row.
pub const MAX_LEAST: u64 = MAX_MEASURE + 1;

/// How many objectives a problem can have.
pub const MAX_OBJECTIVES: usize = 8;

/// How many workers there can be. They have the numbers below it.
pub const MAX_WORKERS: u32 = 16;

/// How many lemmas a worker can hand on at once.
pub const MAX_BATCH_LEMMAS: usize = 64;
