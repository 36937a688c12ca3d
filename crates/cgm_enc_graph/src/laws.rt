//! Laws over the definitions. Each function does nothing: its contract is the law.
ghost use Rattle.cgm_enc_graph.specs.Laws.{GraphClausesAreFew, GraphClausesAreKnown, GraphClausesMeanRules, RealizationsKeepGraphs};

/// Values make each clause of a graph true exactly where the assignment that they stand for keeps the
/// rules of the graph: all rules of a realization but those that the model states as formulas.
pub fn graph_clauses_mean_rules()
    ensures { GraphClausesMeanRules }
{}

/// A realization is an assignment that keeps the rules of the graph and those that the model states.
pub fn realizations_keep_graphs()
    ensures { RealizationsKeepGraphs }
{}

/// The clauses of a graph have variables of elements and refinements alone.
pub fn graph_clauses_are_known()
    ensures { GraphClausesAreKnown }
{}

/// A graph has at most as many clauses as there can be statements, times two more than a refinement
/// can have sources: 258,000,000.
pub fn graph_clauses_are_few()
    ensures { GraphClausesAreFew }
{}
