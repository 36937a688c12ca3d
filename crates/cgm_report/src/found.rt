//! The lines of a found realization.
ghost use Rattle.std.specs.Prelude.{◌≡◌, ◌++◌, codes, length, OnOk, IfOk};
ghost use Rattle.cgm_base.specs.Printed.{line};
ghost use Rattle.cgm_model.specs.Model.{lists_of};
ghost use Rattle.cgm_report.specs.Report.{element_word, objective_word, found_line, number_line, element_lines, refinement_lines, variable_lines, sum_lines};
ghost use Rattle.cgm_report.specs.Shown.{IsShowable, shown, shown_line, shown_lines, vector_lines};

use cgm_base::{OutOfMemory, truth_word};
use cgm_encode::Found;
use cgm_model::{Element, ElementKind, Model, Objective, Refinement, Sum, Variable, sums};
use cgm_print::names::quantity_name;
use std::alloc::Global;

/// The lines of a realization with its vector: a line for each objective with the quantity itself,
/// then for each element, refinement, variable and sum, in the order of the model.
///
/// Conditions: the assignment fits the model, and the vector has a number for each objective.
pub fn found_lines(alloc: Global, model: &Model, found: &Found) -> Result<Vec<u8>, OutOfMemory>
    requires { IsShowable (lists_of model.now) found.now }
    ensures { IfOk result (λ lines. lines.items ≡ shown_lines (lists_of model.now) found.now) }
{
    let mut lines = Vec::new(alloc);
    push_found(alloc, &mut lines, model, found)?;
    Ok(lines)
}

/// Adds the lines of a realization.
pub(crate) fn push_found(
    alloc: Global,
    report: &mut Vec<u8>,
    model: &Model,
    found: &Found,
) -> Result<(), OutOfMemory>
    requires { IsShowable (lists_of model.now) found.now }
    ensures { OnOk result (report.new.items ≡ report.old.items ++ shown_lines (lists_of model.now)
        found.now) }
{
    let a = &found.assignment;
    let values = sums(alloc, model, a)?;
    push_objectives(
        alloc,
        report,
        model,
        model.objectives.as_slice(),
        found.vector.as_slice(),
    )?;
    push_elements(report, model.elements.as_slice(), a.elements.as_slice())?;
    push_refinements(
        report,
        model.refinements.as_slice(),
        a.refinements.as_slice(),
    )?;
    push_variables(alloc, report, model.vars.as_slice(), a.vars.as_slice())?;
    push_sums(alloc, report, model.sums.as_slice(), values.as_slice())
}

fn element_word(kind: ElementKind) -> &'static str
    ensures { result.now ≡ element_word kind }
{
    match kind {
        ElementKind::Goal => "goal",
        ElementKind::Task => "task",
        ElementKind::Assume => "assume",
    }
}

/// Adds a line of three words.
fn push_words(report: &mut Vec<u8>, word: &str, name: &[u8], last: &[u8]) -> Result<(), OutOfMemory>
    ensures { OnOk result (report.new.items ≡ report.old.items
        ++ line (word.now ++ codes " " ++ name.now ++ codes " " ++ last.now)) }
{
    report.extend_from_slice(word.as_bytes())?;
    report.extend_from_slice(b" ")?;
    report.extend_from_slice(name)?;
    report.extend_from_slice(b" ")?;
    report.extend_from_slice(last)?;
    report.extend_from_slice(b"\n")
}

/// Adds the line of one found truth value.
fn push_line(report: &mut Vec<u8>, word: &str, name: &[u8], truth: bool) -> Result<(), OutOfMemory>
    ensures { OnOk result (report.new.items ≡ report.old.items ++ found_line word.now name.now
        truth) }
{
    push_words(report, word, name, truth_word(truth))
}

fn push_elements(
    report: &mut Vec<u8>,
    elements: &[Element],
    truths: &[bool],
) -> Result<(), OutOfMemory>
    requires { length truths.now ≡ length elements.now }
    ensures { OnOk result (report.new.items ≡ report.old.items ++ element_lines elements.now
        truths.now) }
{
    for (at, element) in elements.iter().enumerate() {
        let word = element_word(element.kind);
        push_line(report, word, element.name.as_slice(), truths[at])?;
    }
    Ok(())
}

fn push_refinements(
    report: &mut Vec<u8>,
    refinements: &[Refinement],
    truths: &[bool],
) -> Result<(), OutOfMemory>
    requires { length truths.now ≡ length refinements.now }
    ensures { OnOk result (report.new.items ≡ report.old.items ++ refinement_lines refinements.now
        truths.now) }
{
    for (at, refinement) in refinements.iter().enumerate() {
        push_line(report, "refine", refinement.name.as_slice(), truths[at])?;
    }
    Ok(())
}

/// Adds the line of one number.
fn push_number(
    alloc: Global,
    report: &mut Vec<u8>,
    word: &str,
    name: &[u8],
    number: i128,
) -> Result<(), OutOfMemory>
    ensures { OnOk result (report.new.items ≡ report.old.items ++ number_line word.now name.now
        number) }
{
    let digits = format!(in alloc; "{number}")?;
    push_words(report, word, name, digits.as_bytes())
}

fn push_variables(
    alloc: Global,
    report: &mut Vec<u8>,
    vars: &[Variable],
    numbers: &[i64],
) -> Result<(), OutOfMemory>
    requires { length numbers.now ≡ length vars.now }
    ensures { OnOk result (report.new.items ≡ report.old.items ++ variable_lines vars.now
        numbers.now) }
{
    for (at, variable) in vars.iter().enumerate() {
        let number = i128::from(numbers[at]);
        push_number(alloc, report, "var", variable.name.as_slice(), number)?;
    }
    Ok(())
}

fn push_sums(
    alloc: Global,
    report: &mut Vec<u8>,
    sums: &[Sum],
    values: &[i64],
) -> Result<(), OutOfMemory>
    requires { length values.now ≡ length sums.now }
    ensures { OnOk result (report.new.items ≡ report.old.items ++ sum_lines sums.now values.now) }
{
    for (at, sum) in sums.iter().enumerate() {
        let value = i128::from(values[at]);
        push_number(alloc, report, "sum", sum.name.as_slice(), value)?;
    }
    Ok(())
}

fn objective_word(max: bool) -> &'static str
    ensures { result.now ≡ objective_word max }
{
    if max {
        "objective max"
    } else {
        "objective min"
    }
}

/// The quantity of an objective's number in a vector.
fn shown(max: bool, number: i64) -> i128
    ensures { result ≡ shown max number }
{
    let number = i128::from(number);
    if max { -number } else { number }
}

/// Adds the line of an objective with its number in a vector.
fn push_objective(
    alloc: Global,
    report: &mut Vec<u8>,
    model: &Model,
    objective: &Objective,
    number: i64,
) -> Result<(), OutOfMemory>
    ensures { OnOk result (report.new.items ≡ report.old.items ++ shown_line (lists_of model.now)
        objective.now number) }
{
    let word = objective_word(objective.max);
    let name = quantity_name(model, objective.of);
    push_number(alloc, report, word, name, shown(objective.max, number))
}

fn push_objectives(
    alloc: Global,
    report: &mut Vec<u8>,
    model: &Model,
    objectives: &[Objective],
    vector: &[i64],
) -> Result<(), OutOfMemory>
    requires { length vector.now ≡ length objectives.now }
    ensures { OnOk result (report.new.items ≡ report.old.items ++ vector_lines (lists_of model.now)
        objectives.now vector.now) }
{
    for (at, objective) in objectives.iter().enumerate() {
        push_objective(alloc, report, model, objective, vector[at])?;
    }
    Ok(())
}
