//! Laws over the definitions. Each function does nothing: its contract is the law.
ghost use Rattle.cgm_clauses.specs.Laws.{ForgettingAddsNothing, ProblemClausesAreNamed, QuietIsNeither, QuietStoresRest, TighteningsAreByUnits};

/// Where a clause gives an open atom, the clause is unit, and the atom is the one that isn't false.
/// So each tightening of `propagate` names a unit clause and makes just its open atom true.
pub fn tightenings_are_by_units()
    ensures { TighteningsAreByUnits }
{}

/// A clause leaves a box as it is exactly where it is neither false nor unit.
pub fn quiet_is_neither()
    ensures { QuietIsNeither }
{}

/// Where no clause of a store is false or unit, the clauses of its problem leave the box as it is.
pub fn quiet_stores_rest()
    ensures { QuietStoresRest }
{}

/// The names of the problem's clauses name them, after every log.
pub fn problem_clauses_are_named()
    ensures { ProblemClausesAreNamed }
{}

/// What is left after a clause was forgotten was there before.
pub fn forgetting_adds_nothing()
    ensures { ForgettingAddsNothing }
{}
