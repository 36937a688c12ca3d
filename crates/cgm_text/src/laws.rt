//! Laws of the text form.
ghost use Rattle.std.specs.Prelude.{◌≡◌, ℕ, List};
ghost use Rattle.cgm_model.specs.declared.lists.Lists.{Lists};
ghost use Rattle.cgm_lex.specs.declared.stops.LineFault.{LineFault};
ghost use Rattle.cgm_lex.specs.Readings.{IsDecided};
ghost use Rattle.cgm_print.specs.Statements.{WrittenStatement, statement_tokens};
ghost use Rattle.cgm_text.specs.Text.{IsReading, IsTextOf, HasFault, model_text};

/// The law that after the statements so far a line comes to one thing, and always to one.
pub fn lines_are_decided()
    ensures { IsDecided model_text }
{}

/// The law that a text has a model or a first fault: never both, and never neither.
pub fn text_has_model_or_fault()
    ensures one { (text : List ℕ) (m : Lists) (line : ℕ) (fault : LineFault) → IsTextOf text m
        → ¬ HasFault text line fault }
    ensures some { (text : List ℕ) → ((m : Lists) → ¬ IsTextOf text m)
        → ¬ ((line : ℕ) (fault : LineFault) → ¬ HasFault text line fault) }
{}

/// The law that a text has one model at most, with the same lines of rules.
pub fn text_has_one_model()
    ensures model { (text : List ℕ) (one other : Lists) → IsTextOf text one → IsTextOf text other
        → one ≡ other }
    ensures rule_lines { (text : List ℕ) (one other : Lists) (lines other_lines : List ℕ)
        → IsReading text one lines → IsReading text other other_lines → lines ≡ other_lines }
{}

/// The law that a text has one first fault at most: its line, and its kind or limit.
pub fn text_has_one_fault()
    ensures { (text : List ℕ) (line other : ℕ) (fault other_fault : LineFault)
        → HasFault text line fault → HasFault text other other_fault
        → (line ≡ other) × (fault ≡ other_fault) }
{}

/// The law that tokens are those of one written statement at most.
pub fn tokens_have_one_statement()
    ensures { (one other : WrittenStatement) → statement_tokens one ≡ statement_tokens other → one
        ≡ other }
{}
