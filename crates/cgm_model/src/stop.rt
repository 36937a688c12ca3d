//! Why a statement isn't added.
use cgm_base::Which;

/// Why a statement doesn't fit those before it.
#[derive(Clone, Copy, Debug, PartialEq, Eq)]
pub enum Fault {
    /// The declared word is reserved or no name's spelling.
    Name,
    /// The declared name is declared already.
    DoubleName,
    /// A variable's least value is greater than its greatest.
    CrossedBounds,
    /// A source is named twice.
    DoubleSource,
    /// A variable or sum is named twice in one linear expression.
    DoubleTerm,
    /// The element has an interest line already.
    DoubleInterest,
    /// The target is a task.
    TaskRefined,
    /// The target is an assumption.
    AssumptionRefined,
    /// With this refinement the graph from targets to sources has a cycle.
    Cycle,
}

/// Why a statement isn't added.
#[derive(Clone, Copy, Debug, PartialEq, Eq)]
pub enum AddStop {
    /// The statement doesn't fit those before it.
    Refused(Fault),
    /// With the statement this quantity passes its limit.
    Limit(Which),
    /// There is no memory for it.
    Memory,
}
