//! Laws of lines and tokens.
ghost use Rattle.std.specs.Prelude.{◌≡◌, ◌≢◌, ℕ, List, map, All, Ok, IsTrue, IsUtf8};
ghost use Rattle.std.specs.List.{list_all};
ghost use Rattle.cgm_lex.specs.Pieces.{is_run_byte, pieces};
ghost use Rattle.cgm_lex.specs.Lexemes.{Lexeme, line_lexemes};
ghost use Rattle.cgm_lex.specs.declared.stops.LineFault.{LineFault};
ghost use Rattle.cgm_lex.specs.Readings.{Comes, IsDecided, gives, fails};
ghost use Rattle.cgm_lex.specs.Spans.{part_of, spans_at};
ghost use Rattle.cgm_lex.specs.Spelling.{IsPlain, spelled_line};

use crate::reading::Draft;

/// The law that a canonical line is lexed again as its tokens.
pub fn canonical_line_is_read_back()
    ensures { (lexemes : List Lexeme) → All IsPlain lexemes → line_lexemes (spelled_line lexemes)
        ≡ Ok lexemes }
{}

/// The law that a canonical line has no line feed.
pub fn canonical_line_has_no_feed()
    ensures { (lexemes : List Lexeme) → All IsPlain lexemes → All (λ byte. byte
        ≢ 10) (spelled_line lexemes) }
{}

/// The law that the words of a line are runs that begin as no number, and its numbers have 64 bits.
pub fn line_is_plain()
    ensures { (line : List ℕ) (lexemes : List Lexeme) → line_lexemes line ≡ Ok lexemes
        → All IsPlain lexemes }
{}

/// The law that a run is a text.
pub fn run_is_text()
    ensures { (run : List ℕ) → IsTrue (list_all is_run_byte run) → IsUtf8 run }
{}

/// The law that the spans of a line's pieces have the bytes of these pieces, in order.
pub fn spans_are_pieces()
    ensures { (line : List ℕ) → map (part_of line) (spans_at 0 line) ≡ pieces line }
{}

/// The law that a text of a decided form says something or has a first fault: never both, and never
/// neither.
pub fn text_says_or_fails<D: Draft>()
    ensures one { IsDecided D.form → (text : List ℕ) (said : D.Said) (line : ℕ)
        (fault : LineFault) → Comes D.form text (gives said)
        → ¬ Comes D.form text (fails line fault) }
    ensures some { IsDecided D.form → (text : List ℕ)
        → ((said : D.Said) → ¬ Comes D.form text (gives said))
        → ¬ ((line : ℕ) (fault : LineFault) → ¬ Comes D.form text (fails line fault)) }
{}

/// The law that a text of a decided form says one thing at most.
pub fn text_says_one_thing<D: Draft>()
    ensures { IsDecided D.form → (text : List ℕ) (one other : D.Said)
        → Comes D.form text (gives one) → Comes D.form text (gives other) → one ≡ other }
{}

/// The law that a text of a decided form has one first fault at most.
pub fn text_fails_once<D: Draft>()
    ensures { IsDecided D.form → (text : List ℕ) (line other : ℕ)
        (fault other_fault : LineFault) → Comes D.form text (fails line fault)
        → Comes D.form text (fails other other_fault)
        → (line ≡ other) × (fault ≡ other_fault) }
{}
