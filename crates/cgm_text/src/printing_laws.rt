//! Laws of printing: what is printed is read back.
ghost use Rattle.cgm_formula.specs.declared.formula.Formula.{Formula};
ghost use Rattle.cgm_model.specs.declared.lists.Lists.{Lists};
ghost use Rattle.cgm_model.specs.declared.lists.Statement.{Statement};
ghost use Rattle.cgm_model.specs.Canonical.{statements_of};
ghost use Rattle.cgm_model.specs.Statement.{IsProperStatement};
ghost use Rattle.cgm_model.specs.WellFormed.{IsWellFormedModel};
ghost use Rattle.cgm_text.specs.Text.{IsTextOf};
ghost use Rattle.std.specs.List.{AllByRecursion};
ghost use Rattle.cgm_text.specs.Back.{Knows, Given, Back, Fitting, HasWidth, StatementBack};
ghost use Rattle.cgm_print.specs.Canonical.{canonical_text, written, written_formula};

/// The law that the canonical form of a formula is read back as this formula, after lists that know its names.
pub fn canonical_formula_is_read_back()
    ensures { (p m : Lists) (f : Formula) → Knows p m → Given p f → Back p m f
        (written_formula m f) }
{}

/// The law that the canonical form of a statement is read back as this statement, after lists that know its names.
pub fn canonical_statement_is_read_back()
    ensures { (p m : Lists) (s : Statement) → Knows p m → IsProperStatement p s → Fitting p s
        → StatementBack p s (written m s) }
{}

/// The law that the canonical text of a well-formed model, whose numbers have 64 bits, is the text of this model.
pub fn canonical_text_is_read_back()
    ensures { (m : Lists) → IsWellFormedModel m → AllByRecursion HasWidth (statements_of m)
        → IsTextOf (canonical_text m) m }
{}
