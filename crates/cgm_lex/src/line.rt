//! The pieces of a line.
ghost use Rattle.std.specs.Prelude.{◌≡◌, ℕ, ◌+◌, ◌<◌, ◌≤◌, true, false, [], ◌∷◌, length, position, ◌==◌, drop, IfSome, MatchOption, slice_index};
ghost use Rattle.std.specs.List.{slice_range};
ghost use Rattle.cgm_lex.specs.Lines.{content as content_of, lines};
ghost use Rattle.cgm_lex.specs.Pieces.{closed, pieces_cut, pieces, is_run_byte as is_of_run, is_blank as is_blank_byte};
ghost use Rattle.cgm_lex.specs.Spans.{run_before, span_from, spans_after};

use crate::bytes::{ends_line, is_blank, is_run_byte};

/// The places of a piece in its line.
#[derive(Clone, Copy)]
pub(crate) struct Span {
    pub(crate) from: usize,
    pub(crate) to: usize,
}

/// The bytes of a line that count.
pub(crate) fn content(line: &[u8]) -> &[u8]
    ensures content { result.now ≡ content_of line.now }
    ensures short { length result.now ≤ length line.now }
{
    for (at, byte) in line.iter().enumerate() {
        if ends_line(*byte, line.len() - at - 1) {
            return &line[..at];
        }
    }
    line
}

/// The place at or after this one where no blank stands.
fn skip_blanks(words: &[u8], from: usize) -> usize
    requires { from ≤ length words.now }
    ensures within { (from ≤ result) × (result ≤ length words.now) }
    ensures same { pieces (drop from words.now) ≡ pieces (drop result words.now) }
    ensures spans { (start : ℕ) → spans_after start from words.now
        ≡ spans_after start result words.now }
    ensures stops { result < length words.now → is_blank_byte (slice_index words.now result)
        ≡ false }
{
    for at in from..words.len() {
        if !is_blank(words[at]) {
            return at;
        }
    }
    words.len()
}

/// The place where a run that begins here ends.
fn run_end(words: &[u8], from: usize) -> usize
    requires { from ≤ length words.now }
    ensures within { (from ≤ result) × (result ≤ length words.now) }
    ensures run { pieces_cut [] (drop from words.now)
        ≡ closed (slice_range words.now from result) (pieces_cut [] (drop result words.now)) }
    ensures spans { (start : ℕ) → spans_after start from words.now
        ≡ run_before (start + from) (start + result) (spans_after start result words.now) }
    ensures begun { from < length words.now → is_of_run (slice_index words.now from) ≡ true
        → from < result }
{
    for at in from..words.len() {
        if !is_run_byte(words[at]) {
            return at;
        }
    }
    words.len()
}

/// The place where the piece that begins here ends.
fn piece_end(words: &[u8], from: usize) -> usize
    requires inside { from < length words.now }
    requires begins { is_blank_byte (slice_index words.now from) ≡ false }
    ensures within { (from < result) × (result ≤ length words.now) }
    ensures piece { pieces (drop from words.now)
        ≡ slice_range words.now from result ∷ pieces (drop result words.now) }
    ensures spans { (start : ℕ) → spans_after start from words.now
        ≡ span_from (start + from) (start + result) ∷ spans_after start result words.now }
{
    if is_run_byte(words[from]) {
        run_end(words, from)
    } else {
        from + 1
    }
}

/// The first piece at or after this place.
pub(crate) fn next_piece(words: &[u8], at: usize) -> Option<Span>
    requires { at ≤ length words.now }
    ensures order { IfSome result (λ s. at ≤ s.from) }
    ensures piece { MatchOption result
        (pieces (drop at words.now) ≡ [])
        (λ s. (pieces (drop at words.now)
        ≡ slice_range words.now s.from s.to ∷ pieces (drop s.to words.now))
        × (at < s.to) × (s.from < s.to) × (s.to ≤ length words.now)) }
    ensures spans { MatchOption result
        ((start : ℕ) → spans_after start at words.now ≡ [])
        (λ s. (start : ℕ) → spans_after start at words.now
        ≡ span_from (start + s.from) (start + s.to) ∷ spans_after start s.to words.now) }
{
    let from = skip_blanks(words, at);
    if from == words.len() {
        return None;
    }
    Some(Span {
        from,
        to: piece_end(words, from),
    })
}

/// The place of the first line feed.
fn feed_in(text: &[u8]) -> Option<usize>
    ensures { result ≡ position (λ byte. byte == 10) text.now }
{
    text.iter().position(|byte| *byte == b'\n')
}

/// Takes the first line off a text, without its line feed; none where the text has no line feed.
pub(crate) fn split_line(text: &[u8]) -> Option<(&[u8], &[u8])>
    ensures { MatchOption result (lines text.now ≡ text.now ∷ []) (λ parts. (lines text.now
        ≡ parts.0.now ∷ lines parts.1.now) × (length parts.0.now + length parts.1.now < length
        text.now)) }
{
    match feed_in(text) {
        None => None,
        Some(end) => Some((&text[..end], &text[end + 1..])),
    }
}

/// The place of the first line feed at or after this place, or the text's end.
pub(crate) fn line_end(text: &[u8], from: usize) -> usize
    requires { from ≤ length text.now }
    ensures within { (from ≤ result) × (result ≤ length text.now) }
    ensures last { result ≡ length text.now → lines (drop from text.now) ≡ drop from text.now ∷ [] }
    ensures more { result < length text.now → lines (drop from text.now)
        ≡ slice_range text.now from result ∷ lines (drop (result + 1) text.now) }
{
    match feed_in(&text[from..]) {
        None => text.len(),
        Some(count) => from + count,
    }
}
