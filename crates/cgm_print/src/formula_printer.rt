//! Formulas as they are printed.
ghost use Rattle.std.specs.Prelude.{map, OnOk};
ghost use Rattle.cgm_model.specs.Model.{lists_of};
ghost use Rattle.cgm_print.specs.Canonical.{joined_with, written_formula, written_linear, written_term};
ghost use Rattle.cgm_print.specs.Printing.{Writes};
ghost use Rattle.cgm_print.specs.Written.{compared as written_comparison, spelled, spelled_each, spelled_linear, spelled_term, spelled_terms, formulas_of};

use crate::names::{number_name, truth_name};
use crate::printer::Printer;
use crate::words::{Comparison, Joint};
use cgm_base::OutOfMemory;
use cgm_model::{Formula, Linear, Model, Number};

fn term(printer: &mut Printer, model: &Model, term: (i64, Number)) -> Result<(), OutOfMemory>
    ensures { OnOk result (Writes printer.old printer.new
        (spelled_term (written_term (lists_of model.now) term))) }
{
    let name = number_name(model, term.1);
    if term.0 == 1 {
        return printer.word(name);
    }
    printer.open_with(b"*")?;
    printer.number(term.0)?;
    printer.word(name)?;
    printer.close()
}

fn terms(printer: &mut Printer, model: &Model, terms: &[(i64, Number)]) -> Result<(), OutOfMemory>
    ensures { OnOk result (Writes printer.old printer.new
        (spelled_terms (map (written_term (lists_of model.now)) terms.now))) }
{
    for one in terms {
        term(printer, model, *one)?;
    }
    Ok(())
}

fn linear(printer: &mut Printer, model: &Model, linear: &[(i64, Number)]) -> Result<(), OutOfMemory>
    ensures { OnOk result (Writes printer.old printer.new
        (spelled_linear (written_linear (lists_of model.now) linear.now))) }
{
    match linear {
        [] => printer.word(b""),
        [_] => terms(printer, model, linear),
        [_, _, ..] => {
            printer.open_with(b"+")?;
            terms(printer, model, linear)?;
            printer.close()
        }
    }
}

fn comparison(
    printer: &mut Printer,
    model: &Model,
    how: Comparison,
    total: &Linear,
    k: i64,
) -> Result<(), OutOfMemory>
    ensures { OnOk result (Writes printer.old printer.new
        (spelled (written_comparison how (written_linear (lists_of model.now) total.now.terms)
        k))) }
{
    let first = how.word();
    printer.open_with(first)?;
    linear(printer, model, total.terms.as_slice())?;
    printer.number(k)?;
    printer.close()
}

/// Writes a formula.
#[cycle(formula)]
pub(crate) fn formula(
    printer: &mut Printer,
    model: &Model,
    tree: &Formula,
) -> Result<(), OutOfMemory>
    ensures { OnOk result (Writes printer.old printer.new
        (spelled (written_formula (lists_of model.now) tree.now))) }
{
    match tree {
        Formula::Name(x) => printer.word(truth_name(model, *x)),
        Formula::Not(part) => {
            printer.open_with(b"not")?;
            formula(printer, model, part.get())?;
            printer.close()
        }
        Formula::And(parts) => joined(printer, model, Joint::And, parts.as_slice()),
        Formula::Or(parts) => joined(printer, model, Joint::Or, parts.as_slice()),
        Formula::Implies(one, other) => {
            printer.open_with(b"=>")?;
            formula(printer, model, one.get())?;
            formula(printer, model, other.get())?;
            printer.close()
        }
        Formula::Iff(one, other) => {
            printer.open_with(b"iff")?;
            formula(printer, model, one.get())?;
            formula(printer, model, other.get())?;
            printer.close()
        }
        Formula::AtMost(total, k) => comparison(printer, model, Comparison::AtMost, total, *k),
        Formula::AtLeast(total, k) => comparison(printer, model, Comparison::AtLeast, total, *k),
        Formula::Equal(total, k) => comparison(printer, model, Comparison::Equal, total, *k),
    }
}

#[cycle(formula)]
fn joined(
    printer: &mut Printer,
    model: &Model,
    joint: Joint,
    parts: &[Formula],
) -> Result<(), OutOfMemory>
    ensures { OnOk result (Writes printer.old printer.new
        (spelled (joined_with joint (map (written_formula (lists_of model.now)) parts.now)))) }
{
    let first = joint.word();
    match parts {
        [] => printer.word(b""),
        [_, ..] => {
            printer.open_with(first)?;
            each(printer, model, parts)?;
            printer.close()
        }
    }
}

#[cycle(formula)]
fn each(printer: &mut Printer, model: &Model, parts: &[Formula]) -> Result<(), OutOfMemory>
    ensures { OnOk result (Writes printer.old printer.new
        (spelled_each (formulas_of (map (written_formula (lists_of model.now)) parts.now)))) }
{
    for part in parts {
        formula(printer, model, part)?;
    }
    Ok(())
}
