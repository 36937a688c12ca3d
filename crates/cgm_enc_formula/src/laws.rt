//! Laws over the definitions. Each function does nothing: its contract is the law.
ghost use Rattle.cgm_enc_formula.specs.Laws.{ExtendedAreDefined, RuleDefinitionsAreKnown, RulesPartIsSmall, RulesPartMeansRules};

/// Values meet the clauses and rows of rules exactly where each naming variable has the truth of its
/// definition and the assignment that they stand for keeps each rule.
pub fn rules_part_means_rules()
    ensures { RulesPartMeansRules }
{}

/// Values, extended by naming variables with the truths of their definitions, have all of them defined.
pub fn extended_are_defined()
    ensures { ExtendedAreDefined }
{}

/// The definitions of a model's rules have variables before their own.
pub fn rule_definitions_are_known()
    ensures { RuleDefinitionsAreKnown }
{}

/// The rules of a model give at most three naming variables, four clauses and four rows for each node
/// that their formulas may have in all: at most 600,000, 800,000 and 800,000.
pub fn rules_part_is_small()
    ensures { RulesPartIsSmall }
{}
