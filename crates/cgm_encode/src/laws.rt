//! Laws over the definitions. Each function does nothing: its contract is the law.
ghost use Rattle.cgm_encode.specs.Laws.{LeastSolutionsDecode, NoSolutionNoRealization, ObjectiveRowsFit, PreferencesAreKnown, ProblemsAreSmall, RealizationsExtend, SolutionsDecode, SumRowsFit};

/// Each solution of a model's problem decodes to a realization of the model, whose vector is the list
/// of the objective values.
pub fn solutions_decode()
    ensures { SolutionsDecode }
{}

/// The values of a realization are a solution of the model's problem. It decodes to the realization,
/// and its objective values are the realization's vector.
pub fn realizations_extend()
    ensures { RealizationsExtend }
{}

/// A solution than which no solution is less decodes to a realization than which none is less.
pub fn least_solutions_decode()
    ensures { LeastSolutionsDecode }
{}

/// A model whose problem has no solution has no realization.
pub fn no_solution_no_realization()
    ensures { NoSolutionNoRealization }
{}

/// The problem of a model has fewer than 2^31 variables, clauses and rows, at most 8 objectives, and
/// bounds of at most 10^15 in size.
pub fn problems_are_small()
    ensures { ProblemsAreSmall }
{}

/// The clauses of preferences have variables of elements, refinements and preferences alone.
pub fn preferences_are_known()
    ensures { PreferencesAreKnown }
{}

/// The rows of sums have known, distinct variables and stay within the limit of a row.
pub fn sum_rows_fit()
    ensures { SumRowsFit }
{}

/// The rows of objectives have known, distinct variables and stay within the limit of a row.
pub fn objective_rows_fit()
    ensures { ObjectiveRowsFit }
{}
