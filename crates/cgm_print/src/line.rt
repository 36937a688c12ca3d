//! The lines of statements of one kind.
ghost use Rattle.std.specs.Prelude.{◌≡◌, ◌++◌, map, OnOk};
ghost use Rattle.cgm_model.specs.Model.{lists_of};
ghost use Rattle.cgm_model.specs.declared.lists.Statement.{Statement};
ghost use Rattle.cgm_print.specs.Canonical.{statement_lines, written};
ghost use Rattle.cgm_print.specs.Printing.{IsLine};
ghost use Rattle.cgm_print.specs.Statements.{statement_tokens};

use crate::printer::Printer;
use cgm_base::OutOfMemory;
use cgm_model::Model;

/// A kind of statement, by what a model keeps of one.
pub(crate) trait Line<T> {
    /// The statement of which this is kept.
    ghost statement: { T → Statement };

    /// Writes the line of a statement, without its line feed.
    fn write(printer: &mut Printer, model: &Model, item: &T) -> Result<(), OutOfMemory>
        ensures { OnOk result (IsLine printer.old printer.new
            (statement_tokens (written (lists_of model.now) (statement item.now)))) };
}

/// Writes the lines of these statements.
pub(crate) fn lines<T, L: Line<T>>(
    printer: &mut Printer,
    model: &Model,
    all: &[T],
) -> Result<(), OutOfMemory>
    ensures { OnOk result (printer.new.text.items ≡ printer.old.text.items
        ++ statement_lines (lists_of model.now) (map L.statement all.now)) }
{
    for one in all {
        L::write(printer, model, one)?;
        printer.end_line()?;
    }
    Ok(())
}
