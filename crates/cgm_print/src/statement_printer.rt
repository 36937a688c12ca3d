//! The line of each statement.
ghost use Rattle.std.specs.Prelude.{◌≡◌, ◌∷◌, [], codes, map, OnOk};
ghost use Rattle.cgm_lex.specs.Lexemes.{number, word};
ghost use Rattle.cgm_model.specs.Model.{lists_of};
ghost use Rattle.cgm_model.specs.declared.lists.Statement.TheVariants as Statement;
ghost use Rattle.cgm_print.specs.Canonical.{direction_of, element_name as name_of_element, truth_name as name_of_truth, written_formula};
ghost use Rattle.cgm_print.specs.Printing.{Begins, IsLine, Writes, words_before};
ghost use Rattle.cgm_print.specs.Statements.{direction_word as word_of_direction, goal, sort_word, statement_tokens};
ghost use Rattle.cgm_print.specs.Written.{spelled};

use crate::formula_printer::formula;
use crate::line::Line;
use crate::names::{element_name, quantity_name, refinement_name, sum_name, truth_name};
use crate::printer::Printer;
use crate::words::{ConditionWord, Direction, NameWord, PairWord, Sort, WeightWord};
use cgm_base::{OutOfMemory, truth_word};
use cgm_model::{
    Assertion, Edge, Element, ElementKind, Formula, Model, Objective, Preference, Refinement, Rule,
    Sum, SumValue, Truth, Variable, Weighing,
};

/// Begins the line of a statement of this sort.
fn begin_statement(printer: &mut Printer, sort: Sort) -> Result<(), OutOfMemory>
    ensures { OnOk result (Begins printer.old printer.new
        (λ after. word (sort_word sort) ∷ after)) }
{
    printer.begin_line(sort.word())?;
    Ok(())
}

/// Begins such a line with a name.
fn named_line(printer: &mut Printer, sort: Sort, name: &[u8]) -> Result<(), OutOfMemory>
    ensures { OnOk result (Begins printer.old printer.new
        (λ after. word (sort_word sort) ∷ word name.now ∷ after)) }
{
    begin_statement(printer, sort)?;
    printer.word(name)?;
    Ok(())
}

fn goal_line(printer: &mut Printer, name: &[u8], must: bool) -> Result<(), OutOfMemory>
    ensures { OnOk result (IsLine printer.old printer.new (statement_tokens (goal name.now must))) }
{
    named_line(printer, Sort::Goal, name)?;
    if must {
        printer.word(b"must")?;
    }
    Ok(())
}

/// How elements are written.
pub(crate) struct Elements;

impl Line<Element> for Elements {
    ghost statement = { λ item. Statement.Element item };

    fn write(printer: &mut Printer, _model: &Model, item: &Element) -> Result<(), OutOfMemory> {
        match item.kind {
            ElementKind::Goal => goal_line(printer, item.name.as_slice(), item.must)?,
            ElementKind::Task => named_line(
                printer,
                Sort::Name(NameWord::Task),
                item.name.as_slice(),
            )?,
            ElementKind::Assume => named_line(
                printer,
                Sort::Name(NameWord::Assume),
                item.name.as_slice(),
            )?,
        }
        Ok(())
    }
}

fn source_names(printer: &mut Printer, model: &Model, numbers: &[u32]) -> Result<(), OutOfMemory>
    ensures { OnOk result (Writes printer.old printer.new
        (words_before (map (name_of_element (lists_of model.now)) numbers.now))) }
{
    for number in numbers {
        printer.word(element_name(model, *number))?;
    }
    Ok(())
}

/// How refinements are written.
pub(crate) struct Refinements;

impl Line<Refinement> for Refinements {
    ghost statement = { λ item. Statement.Refine item };

    fn write(printer: &mut Printer, model: &Model, item: &Refinement) -> Result<(), OutOfMemory> {
        named_line(printer, Sort::Refine, item.name.as_slice())?;
        printer.word(element_name(model, item.target))?;
        printer.colon()?;
        let numbers = item.sources.as_slice();
        match numbers {
            [] => printer.word(b"")?,
            [_, ..] => source_names(printer, model, numbers)?,
        }
        Ok(())
    }
}

/// How variables are written.
pub(crate) struct Variables;

impl Line<Variable> for Variables {
    ghost statement = { λ item. Statement.Variable item };

    fn write(printer: &mut Printer, _model: &Model, item: &Variable) -> Result<(), OutOfMemory> {
        named_line(printer, Sort::Var, item.name.as_slice())?;
        printer.number(item.lo)?;
        printer.number(item.hi)?;
        Ok(())
    }
}

fn pair(printer: &mut Printer, sort: Sort, one: &[u8], other: &[u8]) -> Result<(), OutOfMemory>
    ensures { OnOk result (IsLine printer.old printer.new
        (word (sort_word sort) ∷ word one.now ∷ word other.now ∷ [])) }
{
    named_line(printer, sort, one)?;
    printer.word(other)?;
    Ok(())
}

/// How contributions are written.
pub(crate) struct Contributions;

impl Line<Edge> for Contributions {
    ghost statement = { λ item. Statement.Contrib item };

    fn write(printer: &mut Printer, model: &Model, item: &Edge) -> Result<(), OutOfMemory> {
        pair(
            printer,
            Sort::Pair(PairWord::Contrib),
            element_name(model, item.from),
            element_name(model, item.to),
        )
    }
}

/// How conflicts are written.
pub(crate) struct Conflicts;

impl Line<Edge> for Conflicts {
    ghost statement = { λ item. Statement.Conflict item };

    fn write(printer: &mut Printer, model: &Model, item: &Edge) -> Result<(), OutOfMemory> {
        pair(
            printer,
            Sort::Pair(PairWord::Conflict),
            element_name(model, item.from),
            element_name(model, item.to),
        )
    }
}

/// How bindings are written.
pub(crate) struct Bindings;

impl Line<Edge> for Bindings {
    ghost statement = { λ item. Statement.Bind item };

    fn write(printer: &mut Printer, model: &Model, item: &Edge) -> Result<(), OutOfMemory> {
        pair(
            printer,
            Sort::Pair(PairWord::Bind),
            refinement_name(model, item.from),
            refinement_name(model, item.to),
        )
    }
}

/// How assertions are written.
pub(crate) struct Assertions;

impl Line<Assertion> for Assertions {
    ghost statement = { λ item. Statement.Assert item };

    fn write(printer: &mut Printer, model: &Model, item: &Assertion) -> Result<(), OutOfMemory> {
        pair(
            printer,
            Sort::Assert,
            element_name(model, item.element),
            truth_word(item.truth),
        )
    }
}

/// How sums are written.
pub(crate) struct Sums;

impl Line<Sum> for Sums {
    ghost statement = { λ item. Statement.Sum item };

    fn write(printer: &mut Printer, _model: &Model, item: &Sum) -> Result<(), OutOfMemory> {
        named_line(printer, Sort::Name(NameWord::Sum), item.name.as_slice())?;
        Ok(())
    }
}

/// How values are written.
pub(crate) struct Values;

impl Line<SumValue> for Values {
    ghost statement = { λ item. Statement.Value item };

    fn write(printer: &mut Printer, model: &Model, item: &SumValue) -> Result<(), OutOfMemory> {
        named_line(printer, Sort::Value, sum_name(model, item.sum))?;
        printer.word(truth_name(model, item.of))?;
        printer.number(item.k)?;
        Ok(())
    }
}

fn weighing(
    printer: &mut Printer,
    model: &Model,
    sort: Sort,
    item: &Weighing,
) -> Result<(), OutOfMemory>
    ensures { OnOk result (IsLine printer.old printer.new
        (word (sort_word sort) ∷ word (name_of_element (lists_of model.now) item.now.element)
        ∷ number item.now.k ∷ [])) }
{
    named_line(printer, sort, element_name(model, item.element))?;
    printer.number(item.k)?;
    Ok(())
}

/// How rewards are written.
pub(crate) struct Rewards;

impl Line<Weighing> for Rewards {
    ghost statement = { λ item. Statement.Reward item };

    fn write(printer: &mut Printer, model: &Model, item: &Weighing) -> Result<(), OutOfMemory> {
        weighing(printer, model, Sort::Weight(WeightWord::Reward), item)
    }
}

/// How penalties are written.
pub(crate) struct Penalties;

impl Line<Weighing> for Penalties {
    ghost statement = { λ item. Statement.Penalty item };

    fn write(printer: &mut Printer, model: &Model, item: &Weighing) -> Result<(), OutOfMemory> {
        weighing(printer, model, Sort::Weight(WeightWord::Penalty), item)
    }
}

/// How preferences are written.
pub(crate) struct Preferences;

impl Line<Preference> for Preferences {
    ghost statement = { λ item. Statement.Prefer item };

    fn write(printer: &mut Printer, model: &Model, item: &Preference) -> Result<(), OutOfMemory> {
        pair(
            printer,
            Sort::Pair(PairWord::Prefer),
            truth_name(model, item.better),
            truth_name(model, item.worse),
        )
    }
}

/// How interests are written.
pub(crate) struct Interests;

impl Line<u32> for Interests {
    ghost statement = { λ item. Statement.Interest item };

    fn write(printer: &mut Printer, model: &Model, item: &u32) -> Result<(), OutOfMemory> {
        named_line(
            printer,
            Sort::Name(NameWord::Interest),
            element_name(model, *item),
        )?;
        Ok(())
    }
}

fn direction_word(max: bool) -> &'static [u8]
    ensures { result.now ≡ word_of_direction (direction_of max) }
{
    if max {
        Direction::Max.word()
    } else {
        Direction::Min.word()
    }
}

/// How objectives are written.
pub(crate) struct Objectives;

impl Line<Objective> for Objectives {
    ghost statement = { λ item. Statement.Objective item };

    fn write(printer: &mut Printer, model: &Model, item: &Objective) -> Result<(), OutOfMemory> {
        pair(
            printer,
            Sort::Objective,
            direction_word(item.max),
            quantity_name(model, item.of),
        )
    }
}

fn condition(
    printer: &mut Printer,
    model: &Model,
    sort: Sort,
    truth: Truth,
    tree: &Formula,
) -> Result<(), OutOfMemory>
    ensures { OnOk result (IsLine printer.old printer.new
        (word (sort_word sort) ∷ word (name_of_truth (lists_of model.now) truth)
        ∷ spelled (written_formula (lists_of model.now) tree.now) [])) }
{
    named_line(printer, sort, truth_name(model, truth))?;
    formula(printer, model, tree)?;
    Ok(())
}

fn requirement(printer: &mut Printer, model: &Model, tree: &Formula) -> Result<(), OutOfMemory>
    ensures { OnOk result (IsLine printer.old printer.new
        (word (codes "require") ∷ spelled (written_formula (lists_of model.now) tree.now) [])) }
{
    begin_statement(printer, Sort::Require)?;
    formula(printer, model, tree)?;
    Ok(())
}

/// How rules are written.
pub(crate) struct Rules;

impl Line<Rule> for Rules {
    ghost statement = { λ item. Statement.Rule item };

    fn write(printer: &mut Printer, model: &Model, item: &Rule) -> Result<(), OutOfMemory> {
        match item {
            Rule::Positive(x, f) => condition(
                printer,
                model,
                Sort::Condition(ConditionWord::Positive),
                *x,
                f,
            ),
            Rule::Negative(x, f) => condition(
                printer,
                model,
                Sort::Condition(ConditionWord::Negative),
                *x,
                f,
            ),
            Rule::Require(f) => requirement(printer, model, f),
        }
    }
}
