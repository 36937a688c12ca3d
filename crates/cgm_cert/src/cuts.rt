//! Texts, cut at a byte.
ghost use Rattle.std.specs.Prelude.{◌≡◌, ◌↔◌, IsTrue, ◌==◌, ◌<◌, ◌≤◌, [], ◌∷◌, ◌++◌, length, position, MatchOption};
ghost use Rattle.std.specs.List.{slice_split};
ghost use Rattle.cgm_cert.specs.Spelling.{words, further_words};

/// Says whether this is the word.
pub(crate) fn is(word: &[u8], text: &str) -> bool
    ensures { IsTrue result ↔ (word.now ≡ text.now) }
{
    word == text.as_bytes()
}

fn place_of(text: &[u8], mark: u8) -> Option<usize>
    ensures { result ≡ position (λ byte. byte == mark) text.now }
{
    text.iter().position(|byte| *byte == mark)
}

/// What stands before and after the first such byte; none where the text has none.
pub(crate) fn cut(text: &[u8], mark: u8) -> Option<(&[u8], &[u8])>
    ensures { MatchOption result (slice_split (λ byte. byte == mark) text.now ≡ text.now ∷ [])
        (λ parts. (slice_split (λ byte. byte == mark) text.now
        ≡ parts.0.now ∷ slice_split (λ byte. byte == mark) parts.1.now)
        × (text.now ≡ parts.0.now ++ mark ∷ parts.1.now)) }
{
    match place_of(text, mark) {
        None => None,
        Some(place) => Some((&text[..place], &text[place + 1..])),
    }
}

/// The first word of a line, and the rest from the space after it on.
pub(crate) fn first_word(line: &[u8]) -> (&[u8], &[u8])
    ensures words { words line.now ≡ result.0.now ∷ further_words result.1.now }
    ensures shorter { length result.1.now ≤ length line.now }
{
    match cut(line, b' ') {
        None => (line, &line[line.len()..]),
        Some((word, _)) => (word, &line[word.len()..]),
    }
}

/// The word after the first space of `rest`, and the rest from the space after it on.
pub(crate) fn next_word(rest: &[u8]) -> Option<(&[u8], &[u8])>
    ensures { MatchOption result (further_words rest.now ≡ []) (λ parts. (further_words rest.now
        ≡ parts.0.now ∷ further_words parts.1.now) × (length parts.1.now < length rest.now)) }
{
    match cut(rest, b' ') {
        None => None,
        Some((_, after)) => Some(first_word(after)),
    }
}
