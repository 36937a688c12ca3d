//! The canonical text of a model, group by group.
ghost use Rattle.std.specs.Prelude.{◌≡◌, ◌++◌, IfOk, OnOk};
ghost use Rattle.cgm_model.specs.Model.{lists_of};
ghost use Rattle.cgm_print.specs.Canonical.{canonical_text, statement_lines};
ghost use Rattle.cgm_print.specs.Printing.{declaring, demanding, relating, weighing};

use crate::line::lines;
use crate::printer::Printer;
use crate::statement_printer::{
    Assertions, Bindings, Conflicts, Contributions, Elements, Interests, Objectives, Penalties,
    Preferences, Refinements, Rewards, Rules, Sums, Values, Variables,
};
use cgm_base::OutOfMemory;
use cgm_model::{
    Assertion, Edge, Element, Model, Objective, Preference, Refinement, Rule, Sum, SumValue,
    Variable, Weighing,
};
use std::alloc::Global;

/// The lines of what declares names.
fn declarations(printer: &mut Printer, model: &Model) -> Result<(), OutOfMemory>
    ensures { OnOk result (printer.new.text.items ≡ printer.old.text.items ++ statement_lines
        (lists_of model.now)
        (declaring (lists_of model.now))) }
{
    lines::<Element, Elements>(printer, model, model.elements.as_slice())?;
    lines::<Refinement, Refinements>(printer, model, model.refinements.as_slice())?;
    lines::<Variable, Variables>(printer, model, model.vars.as_slice())?;
    lines::<Sum, Sums>(printer, model, model.sums.as_slice())?;
    Ok(())
}

/// The lines of what relates elements and refinements, or asserts them.
fn relations(printer: &mut Printer, model: &Model) -> Result<(), OutOfMemory>
    ensures { OnOk result (printer.new.text.items ≡ printer.old.text.items ++ statement_lines
        (lists_of model.now)
        (relating (lists_of model.now))) }
{
    lines::<Edge, Contributions>(printer, model, model.contribs.as_slice())?;
    lines::<Edge, Conflicts>(printer, model, model.conflicts.as_slice())?;
    lines::<Edge, Bindings>(printer, model, model.binds.as_slice())?;
    lines::<Assertion, Assertions>(printer, model, model.asserts.as_slice())?;
    Ok(())
}

/// The lines of numbers and preferences.
fn weights(printer: &mut Printer, model: &Model) -> Result<(), OutOfMemory>
    ensures { OnOk result (printer.new.text.items ≡ printer.old.text.items ++ statement_lines
        (lists_of model.now)
        (weighing (lists_of model.now))) }
{
    lines::<SumValue, Values>(printer, model, model.values.as_slice())?;
    lines::<Weighing, Rewards>(printer, model, model.rewards.as_slice())?;
    lines::<Weighing, Penalties>(printer, model, model.penalties.as_slice())?;
    lines::<Preference, Preferences>(printer, model, model.prefers.as_slice())?;
    Ok(())
}

/// The lines of rules, interests and objectives.
fn demands(printer: &mut Printer, model: &Model) -> Result<(), OutOfMemory>
    ensures { OnOk result (printer.new.text.items ≡ printer.old.text.items ++ statement_lines
        (lists_of model.now)
        (demanding (lists_of model.now))) }
{
    lines::<Rule, Rules>(printer, model, model.rules.as_slice())?;
    lines::<u32, Interests>(printer, model, model.interests.as_slice())?;
    lines::<Objective, Objectives>(printer, model, model.objectives.as_slice())?;
    Ok(())
}

/// The canonical text of a model.
pub fn print(alloc: Global, model: &Model) -> Result<Vec<u8>, OutOfMemory>
    ensures { IfOk result (λ bytes. bytes.items ≡ canonical_text (lists_of model.now)) }
{
    let mut p = Printer::new(alloc);
    p.begin_line(b"cgm")?;
    p.number(1)?;
    p.end_line()?;
    declarations(&mut p, model)?;
    relations(&mut p, model)?;
    weights(&mut p, model)?;
    demands(&mut p, model)?;
    let Printer { text, is_due: _ } = p;
    Ok(text)
}
