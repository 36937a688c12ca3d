//! The tests that a statement has to pass, in their order.
ghost use Rattle.std.specs.Prelude.{◌≡◌, length, option_to_list, option_copied};
ghost use Rattle.cgm_model.specs.declared.lists.Lists.{Lists};
ghost use Rattle.std.specs.List.{list_all};
ghost use Rattle.cgm_base.specs.declared.limit.Which.TheVariants as limits;
ghost use Rattle.cgm_model.specs.Formulas.{is_small, node_total};
ghost use Rattle.cgm_model.specs.Lists.{added, statement_count};
ghost use Rattle.cgm_model.specs.Name as spelling;
ghost use Rattle.cgm_model.specs.Statement as tests;
ghost use Rattle.cgm_model.specs.WellFormed.{IsWellFormedModel};
ghost use Rattle.cgm_model.specs.Keeping.{AreFor};

use crate::aids::Aids;
use crate::facts::{is_marked, kind_at};
use crate::formulas::LinearTest;
use crate::lists::{ElementKind, Lists, Statement};
use crate::stop::{AddStop, Fault};
use crate::{formulas, limits, names, spelling};
use cgm_base::Which;

/// The answer of the first test that the statement fails. `acyclic` says whether the graph has no
/// cycle with it.
pub(crate) fn refusal(
    lists: &Lists,
    aids: &Aids,
    statement: &Statement,
    acyclic: bool,
) -> Option<AddStop>
    requires well_formed { IsWellFormedModel lists.now }
    requires aids { AreFor lists.now aids.now }
    requires proper { tests.IsProperStatement lists.now statement.now }
    ensures { result ≡ tests.refusal lists.now statement.now acyclic }
{
    first_failing(&[
        (has_short_name(statement), AddStop::Limit(Which::NameBytes)),
        (has_spelled_name(statement), AddStop::Refused(Fault::Name)),
        (
            has_new_name(lists, aids, statement),
            AddStop::Refused(Fault::DoubleName),
        ),
        (
            has_small_coefficients(aids, statement),
            AddStop::Limit(Which::Coefficient),
        ),
        (
            has_small_bounds(statement),
            AddStop::Limit(Which::VariableBound),
        ),
        (
            has_ordered_bounds(statement),
            AddStop::Refused(Fault::CrossedBounds),
        ),
        (
            has_distinct_sources(statement),
            AddStop::Refused(Fault::DoubleSource),
        ),
        (
            has_distinct_terms(aids, statement),
            AddStop::Refused(Fault::DoubleTerm),
        ),
        (
            has_new_interest(aids, statement),
            AddStop::Refused(Fault::DoubleInterest),
        ),
        (
            !refines_task(lists, statement),
            AddStop::Refused(Fault::TaskRefined),
        ),
        (
            !refines_assumption(lists, statement),
            AddStop::Refused(Fault::AssumptionRefined),
        ),
        (acyclic, AddStop::Refused(Fault::Cycle)),
        (
            statement_count(lists) < limits::STATEMENTS,
            AddStop::Limit(Which::Statements),
        ),
        (
            element_count(lists, statement) <= limits::ELEMENTS,
            AddStop::Limit(Which::Elements),
        ),
        (
            refinement_count(lists, statement) <= limits::REFINEMENTS,
            AddStop::Limit(Which::Refinements),
        ),
        (
            source_count(statement) <= limits::SOURCES,
            AddStop::Limit(Which::Sources),
        ),
        (
            has_room_for_nodes(aids, statement),
            AddStop::Limit(Which::FormulaNodes),
        ),
        (
            objective_count(lists, statement) <= limits::OBJECTIVES,
            AddStop::Limit(Which::Objectives),
        ),
    ])
}

fn first_failing(answers: &[(bool, AddStop)]) -> Option<AddStop>
    ensures { result ≡ tests.first_failing answers.now }
{
    for (passes, stop) in answers {
        if !*passes {
            return Some(*stop);
        }
    }
    None
}

fn declared_name(statement: &Statement) -> Option<&[u8]>
    ensures { tests.declared_names statement.now ≡ option_to_list (option_copied result) }
{
    match statement {
        Statement::Element(e) => Some(e.name.as_slice()),
        Statement::Refine(r) => Some(r.name.as_slice()),
        Statement::Variable(v) => Some(v.name.as_slice()),
        Statement::Sum(x) => Some(x.name.as_slice()),
        _ => None,
    }
}

fn has_short_name(statement: &Statement) -> bool
    ensures { result ≡ list_all tests.is_short (tests.declared_names statement.now) }
{
    match declared_name(statement) {
        Some(name) => name.len() <= limits::NAME_BYTES,
        None => true,
    }
}

fn has_spelled_name(statement: &Statement) -> bool
    ensures { result ≡ list_all spelling.is_name (tests.declared_names statement.now) }
{
    match declared_name(statement) {
        Some(name) => spelling::is_name(name),
        None => true,
    }
}

fn has_new_name(lists: &Lists, aids: &Aids, statement: &Statement) -> bool
    requires well_formed { IsWellFormedModel lists.now }
    requires aids { AreFor lists.now aids.now }
    ensures { result ≡ list_all (tests.is_new lists.now) (tests.declared_names statement.now) }
{
    match declared_name(statement) {
        Some(name) => names::is_new(lists, aids, name),
        None => true,
    }
}

fn has_small_coefficients(aids: &Aids, statement: &Statement) -> bool
    ensures { result ≡ tests.has_small_coefficients statement.now }
{
    match statement {
        Statement::Rule(r) => formulas::every_linear(
            aids.alloc,
            LinearTest::Small,
            formulas::formula_of(r),
        ),
        Statement::Value(v) => is_small(v.k),
        Statement::Reward(w) => is_small(w.k),
        Statement::Penalty(w) => is_small(w.k),
        _ => true,
    }
}

fn is_small(k: i64) -> bool
    ensures { result ≡ is_small k }
{
    k.unsigned_abs() <= limits::COEFFICIENT
}

fn has_small_bounds(statement: &Statement) -> bool
    ensures { result ≡ tests.has_small_bounds statement.now }
{
    match statement {
        Statement::Variable(v) => {
            v.lo.unsigned_abs() <= limits::VARIABLE_BOUND
                && v.hi.unsigned_abs() <= limits::VARIABLE_BOUND
        }
        _ => true,
    }
}

fn has_ordered_bounds(statement: &Statement) -> bool
    ensures { result ≡ tests.has_ordered_bounds statement.now }
{
    match statement {
        Statement::Variable(v) => v.lo <= v.hi,
        _ => true,
    }
}

fn has_distinct_sources(statement: &Statement) -> bool
    ensures { result ≡ tests.is_distinct (tests.source_list statement.now) }
{
    match statement {
        Statement::Refine(r) => are_distinct(r.sources.as_slice()),
        _ => true,
    }
}

/// Compares each number with those before it, so that a number that stands twice is met early.
fn are_distinct(numbers: &[u32]) -> bool
    ensures { result ≡ tests.is_distinct numbers.now }
{
    for (place, number) in numbers.iter().enumerate() {
        if numbers[..place].contains(number) {
            return false;
        }
    }
    true
}

fn has_distinct_terms(aids: &Aids, statement: &Statement) -> bool
    ensures { result ≡ tests.has_distinct_terms_each statement.now }
{
    match statement {
        Statement::Rule(r) => formulas::every_linear(
            aids.alloc,
            LinearTest::Distinct,
            formulas::formula_of(r),
        ),
        _ => true,
    }
}

fn has_new_interest(aids: &Aids, statement: &Statement) -> bool
    ensures { (m : Lists) → AreFor m aids.now → result ≡ tests.has_new_interest m statement.now }
{
    match statement {
        Statement::Interest(element) => !is_marked(&aids.interests, *element),
        _ => true,
    }
}

fn target_kind(lists: &Lists, statement: &Statement) -> Option<ElementKind>
    ensures { result ≡ tests.target_kind lists.now statement.now }
{
    match statement {
        Statement::Refine(r) => kind_at(lists.elements.as_slice(), r.target),
        _ => None,
    }
}

fn refines_task(lists: &Lists, statement: &Statement) -> bool
    ensures { result ≡ tests.is_task (tests.target_kind lists.now statement.now) }
{
    matches!(target_kind(lists, statement), Some(ElementKind::Task))
}

fn refines_assumption(lists: &Lists, statement: &Statement) -> bool
    ensures { result ≡ tests.is_assumption (tests.target_kind lists.now statement.now) }
{
    matches!(target_kind(lists, statement), Some(ElementKind::Assume))
}

fn statement_count(lists: &Lists) -> usize
    requires { IsWellFormedModel lists.now }
    ensures { result ≡ statement_count lists.now }
{
    lists.elements.as_slice().len()
        + lists.refinements.as_slice().len()
        + lists.vars.as_slice().len()
        + lists.sums.as_slice().len()
        + lists.contribs.as_slice().len()
        + lists.conflicts.as_slice().len()
        + lists.binds.as_slice().len()
        + lists.asserts.as_slice().len()
        + lists.values.as_slice().len()
        + lists.rewards.as_slice().len()
        + lists.penalties.as_slice().len()
        + lists.prefers.as_slice().len()
        + lists.rules.as_slice().len()
        + lists.interests.as_slice().len()
        + lists.objectives.as_slice().len()
}

fn element_count(lists: &Lists, statement: &Statement) -> usize
    requires { IsWellFormedModel lists.now }
    ensures { result ≡ length (added lists.now statement.now).elements }
{
    let count = lists.elements.as_slice().len();
    match statement {
        Statement::Element(_) => count + 1,
        _ => count,
    }
}

fn refinement_count(lists: &Lists, statement: &Statement) -> usize
    requires { IsWellFormedModel lists.now }
    ensures { result ≡ length (added lists.now statement.now).refinements }
{
    let count = lists.refinements.as_slice().len();
    match statement {
        Statement::Refine(_) => count + 1,
        _ => count,
    }
}

fn objective_count(lists: &Lists, statement: &Statement) -> usize
    requires { IsWellFormedModel lists.now }
    ensures { result ≡ length (added lists.now statement.now).objectives }
{
    let count = lists.objectives.as_slice().len();
    match statement {
        Statement::Objective(_) => count + 1,
        _ => count,
    }
}

fn source_count(statement: &Statement) -> usize
    ensures { result ≡ length (tests.source_list statement.now) }
{
    match statement {
        Statement::Refine(r) => r.sources.as_slice().len(),
        _ => 0,
    }
}

fn has_room_for_nodes(aids: &Aids, statement: &Statement) -> bool
    ensures { (m : Lists) → AreFor m aids.now → result ≡ tests.is_within
        (node_total (added m statement.now).rules) limits.FormulaNodes }
{
    match statement {
        Statement::Rule(r) => {
            formulas::room_after(formulas::formula_of(r), aids.node_room).is_some()
        }
        _ => true,
    }
}
