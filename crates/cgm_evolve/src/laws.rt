//! Laws of the earlier text.
ghost use Rattle.std.specs.Prelude.{◌≡◌, ◌↔◌, ◌⊎◌, ℕ, List, Some};
ghost use Rattle.cgm_lex.specs.declared.stops.LineFault.{LineFault};
ghost use Rattle.cgm_lex.specs.Lines.{lines};
ghost use Rattle.cgm_lex.specs.Readings.{IsDecided};
ghost use Rattle.cgm_evolve.specs.Pairs.{ArePairs, Pair};
ghost use Rattle.cgm_evolve.specs.Text.{Give, HasFault, HasNoHeader, IsFirstFaulty, IsTextOf, canonical_text, earlier_text};

/// The law that after the pairs so far a line comes to one thing, and always to one.
pub fn earlier_lines_are_decided()
    ensures { IsDecided earlier_text }
{}

/// The law that an earlier text has pairs or a first fault: never both, and never neither.
pub fn earlier_text_has_pairs_or_fault()
    ensures one { (text : List ℕ) (pairs : List Pair) (line : ℕ) (fault : LineFault)
        → IsTextOf text pairs → ¬ HasFault text line fault }
    ensures some { (text : List ℕ) → ((pairs : List Pair) → ¬ IsTextOf text pairs)
        → ¬ ((line : ℕ) (fault : LineFault) → ¬ HasFault text line fault) }
{}

/// The law that a text is one of these pairs exactly where its lines with tokens are the header and
/// then those of the pairs, in order, which are spelled as names, short and distinct.
pub fn earlier_text_is_header_and_pairs()
    ensures { (text : List ℕ) (pairs : List Pair) → IsTextOf text pairs
        ↔ Give (lines text) (Some pairs) }
{}

/// The law that the first fault of an earlier text is that of its first faulty line, after lines that
/// give pairs, or that no line has a token.
pub fn earlier_text_fails_at_its_first_faulty_line()
    ensures { (text : List ℕ) (line : ℕ) (fault : LineFault) → HasFault text line fault
        ↔ (IsFirstFaulty (lines text) line fault ⊎ HasNoHeader (lines text) line fault) }
{}

/// The law that an earlier text has one list of pairs at most.
pub fn earlier_text_has_one_list()
    ensures { (text : List ℕ) (one other : List Pair) → IsTextOf text one → IsTextOf text other
        → one ≡ other }
{}

/// The law that an earlier text has one first fault at most: its line, and its kind or limit.
pub fn earlier_text_has_one_fault()
    ensures { (text : List ℕ) (line other : ℕ) (fault other_fault : LineFault)
        → HasFault text line fault → HasFault text other other_fault
        → (line ≡ other) × (fault ≡ other_fault) }
{}

/// The law that the canonical text of pairs is a text of these pairs.
pub fn canonical_earlier_text_is_read_back()
    ensures { (pairs : List Pair) → ArePairs pairs → IsTextOf (canonical_text pairs) pairs }
{}
