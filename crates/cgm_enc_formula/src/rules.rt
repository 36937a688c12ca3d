//! Rules of a model as a part of a problem.
ghost use Rattle.std.specs.Prelude.{◌≡◌, ◌+◌, ◌≤◌, ◌^◌, ◌∷◌, [], length, All, OnOk};
ghost use Rattle.cgm_atom.specs.Adding.{CanTake, with_written};
ghost use Rattle.cgm_atom.specs.Instance.{var_count};
ghost use Rattle.cgm_model.specs.Formulas.{IsKnownTruth, condition_names};
ghost use Rattle.cgm_model.specs.Model.{lists_of};
ghost use Rattle.cgm_enc_formula.specs.Building.{HasRoomFor, rule_part, rules_part, with_part};
ghost use Rattle.cgm_enc_formula.specs.Measures.{IsRulesAnswer};
ghost use Rattle.cgm_enc_formula.specs.Rules.{IsEncodableRule, rule_clause};
ghost use Rattle.cgm_enc_formula.specs.Terms.{model_variables};

use crate::literals::{Literal, atom};
use crate::measures::first_past;
use crate::names::{name_formula, truth_variable};
use crate::naming_values::formula_of;
use crate::stop::EncodeStop;
use cgm_atom::ProblemBuilder;
use cgm_atom::literals::{add_clause, literal, negated};
use cgm_base::OutOfMemory;
use cgm_model::{Model, Rule};
use std::alloc::Global;

/// Adds the naming variables of a model's rules, each of 0 or 1, and for each rule in order the
/// clauses of its formula's nodes, parts before the whole, from the left, then the rule's own: `l` for
/// `require`, `~N l` for `pre+`, `N l` for `pre-`, where l is the literal of its formula. The literal
/// of a name is that of its element or refinement, that of `not` the negation of its part's, and
/// every other node has a naming variable p:
///
/// - `and` of l1 .. ln: for each i `~p li`, then `p ~l1 .. ~ln`;
/// - `or` of l1 .. ln: for each i `p ~li`, then `~p l1 .. ln`; `f => g` is the `or` of `~f` and g;
/// - `iff` of f, g: `~p ~f g`, `~p f ~g`, `p f g`, `p ~f ~g`;
/// - `<=` of L, k: two rows, `-L >= -k` where p and `L >= k + 1` where `~p`; `>=`: `L >= k` where p and
///   `-L >= 1 - k` where `~p`; `=`: a variable for `<=`, one for `>=`, and one for the `and` of both.
///
/// Terms stand by ascending variable, those with the coefficient 0 are dropped. A later equal atom of
/// a clause is dropped. `Row` is the first rule with a comparison whose measure passes 4·10^18: the
/// size of its number and, over its terms, coefficient size times the greatest size of the bounds
/// that the builder has for the variable or sum. After it the builder is as it was. After want of
/// memory the builder is given up.
///
/// Condition: the builder has the variables of elements, refinements, variables and sums, in this
/// order, and not more than 2^31 variables, clauses and rows so far. The rules add less than 2^20 of
/// each.
pub fn add_rules(
    alloc: Global,
    model: &Model,
    builder: &mut ProblemBuilder,
) -> Result<(), EncodeStop>
    requires variables { model_variables (lists_of model.now) ≤ var_count builder.old }
    requires few_variables { var_count builder.old ≤ 2 ^ 31 }
    requires few_clauses { length builder.old.clauses ≤ 2 ^ 31 + 2 ^ 28 }
    requires few_rows { length builder.old.rows ≤ 2 ^ 31 }
    ensures { IsRulesAnswer (lists_of model.now) builder.old builder.new result }
{
    let rules = model.rules.as_slice();
    match first_past(model, builder, rules) {
        Some(rule) => Err(EncodeStop::Row { rule }),
        None => match add_each(alloc, model, builder, rules) {
            Ok(()) => Ok(()),
            Err(_) => Err(EncodeStop::Memory),
        },
    }
}

fn add_each(
    alloc: Global,
    model: &Model,
    builder: &mut ProblemBuilder,
    rules: &[Rule],
) -> Result<(), OutOfMemory>
    requires encodable { All (IsEncodableRule (lists_of model.now) builder.old.bounds) rules.now }
    requires variables { model_variables (lists_of model.now) ≤ var_count builder.old }
    requires room { HasRoomFor builder.old (rules_part (lists_of model.now) (var_count builder.old)
        rules.now) }
    ensures { OnOk result (builder.new ≡ with_part builder.old
        (rules_part (lists_of model.now) (var_count builder.old) rules.now)) }
{
    for rule in rules {
        builder.recall_well_formed();
        add_rule(alloc, model, builder, rule)?;
    }
    Ok(())
}

fn add_rule(
    alloc: Global,
    model: &Model,
    builder: &mut ProblemBuilder,
    rule: &Rule,
) -> Result<(), OutOfMemory>
    requires encodable { IsEncodableRule (lists_of model.now) builder.old.bounds rule.now }
    requires variables { model_variables (lists_of model.now) ≤ var_count builder.old }
    requires room { HasRoomFor builder.old (rule_part (lists_of model.now) (var_count builder.old)
        rule.now) }
    ensures { OnOk result (builder.new ≡ with_part builder.old
        (rule_part (lists_of model.now) (var_count builder.old) rule.now)) }
{
    let l = name_formula(alloc, model, builder, formula_of(rule))?;
    add_condition(alloc, model, builder, rule, l)
}

/// Adds the clause of a rule by the literal of its formula.
fn add_condition(
    alloc: Global,
    model: &Model,
    builder: &mut ProblemBuilder,
    rule: &Rule,
    l: Literal,
) -> Result<(), OutOfMemory>
    requires condition { All (IsKnownTruth (lists_of model.now)) (condition_names rule.now) }
    requires room { CanTake builder.old (rule_clause (lists_of model.now) rule.now l ∷ []) }
    ensures { OnOk result
        (builder.new ≡ with_written builder.old (rule_clause (lists_of model.now) rule.now l
        ∷ [])) }
{
    match rule {
        Rule::Positive(name, _) => add_clause(
            alloc,
            builder,
            &[negated(truth_variable(model, *name)), atom(l)],
        ),
        Rule::Negative(name, _) => add_clause(
            alloc,
            builder,
            &[literal(truth_variable(model, *name)), atom(l)],
        ),
        Rule::Require(_) => add_clause(alloc, builder, &[atom(l)]),
    }
}
