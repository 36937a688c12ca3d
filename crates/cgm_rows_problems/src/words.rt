// Words of cases: numbers, ranges, atoms, hints and lists of them. Any other word is read as one that no
// problem has.
use cgm_atom::{Atom, Hint, Var};
use std::alloc::Global;
use std::test::Fail;

/// The first word of a statement, and what follows it.
pub(crate) fn parted(statement: &str) -> (&str, &str) {
    let words = statement.trim();
    match words.split_once(' ') {
        Some((head, rest)) => (head, rest),
        None => (words, ""),
    }
}

/// What follows the first word of the first statement that begins with it, or nothing.
pub(crate) fn after<'t>(text: &'t str, wanted: &str) -> &'t str {
    for statement in text.split(';') {
        let (head, rest) = parted(statement);
        if head == wanted {
            return rest;
        }
    }
    ""
}

/// A signed number of 64 bits.
pub(crate) fn number(word: &str) -> i64 {
    match word.parse() {
        Ok(found) => found,
        Err(_) => i64::MIN,
    }
}

/// A number of 64 bits from 0 on.
pub(crate) fn count(word: &str) -> u64 {
    match word.parse() {
        Ok(found) => found,
        Err(_) => u64::MAX,
    }
}

/// A number of 32 bits from 0 on.
pub(crate) fn place(word: &str) -> u32 {
    match word.parse() {
        Ok(found) => found,
        Err(_) => u32::MAX,
    }
}

/// Whether a word is this number.
pub(crate) fn is_count(word: &str, wanted: u64) -> bool {
    match word.parse::<u64>() {
        Ok(found) => found == wanted,
        Err(_) => false,
    }
}

/// Two numbers, as in `-5..9`. Any other word is a range without values.
pub(crate) fn range(word: &str) -> (i64, i64) {
    match word.split_once("..") {
        Some((lo, hi)) => (number(lo), number(hi)),
        None => (1, 0),
    }
}

/// An atom, as in `0>=5` or `1<=-2`.
pub(crate) fn atom(word: &str) -> Atom {
    match word.split_once(">=") {
        Some((x, k)) => bounded(x, true, k),
        None => match word.split_once("<=") {
            Some((x, k)) => bounded(x, false, k),
            None => bounded(word, true, word),
        },
    }
}

fn bounded(x: &str, at_least: bool, k: &str) -> Atom {
    Atom {
        var: Var(place(x)),
        at_least,
        k: number(k),
    }
}

/// A hint to nothing.
const NOTHING: Hint = Hint::Entry(u64::MAX);

/// A hint: `c` and a clause, `r` and a row, `e` and an entry, `o` and a pending lemma, or `b`, a best,
/// a point and a part of its cut.
pub(crate) fn hint(word: &str) -> Hint {
    match word.split_once('b') {
        Some((_, cut)) => hint_to_cut(cut),
        None => hint_to_one(word),
    }
}

fn hint_to_cut(word: &str) -> Hint {
    match word.split_once('.') {
        Some((best, part)) => Hint::Cut {
            best: count(best),
            part: place(part),
        },
        None => NOTHING,
    }
}

fn hint_to_one(word: &str) -> Hint {
    match (word.get(0..1), word.get(1..)) {
        (Some(kind), Some(number)) => hint_of(kind, number),
        _ => NOTHING,
    }
}

fn hint_of(kind: &str, number: &str) -> Hint {
    match kind {
        "e" => Hint::Entry(count(number)),
        "c" => Hint::Clause(place(number)),
        "r" => Hint::Row(place(number)),
        "o" => Hint::Own(place(number)),
        _ => NOTHING,
    }
}

pub(crate) fn atoms(alloc: Global, words: &str) -> Result<Vec<Atom>, Fail> {
    let mut all = Vec::new(alloc);
    for word in words.split_whitespace() {
        all.push(atom(word))?;
    }
    Ok(all)
}

pub(crate) fn hints(alloc: Global, words: &str) -> Result<Vec<Hint>, Fail> {
    let mut all = Vec::new(alloc);
    for word in words.split_whitespace() {
        all.push(hint(word))?;
    }
    Ok(all)
}

pub(crate) fn numbers(alloc: Global, words: &str) -> Result<Vec<i64>, Fail> {
    let mut all = Vec::new(alloc);
    for word in words.split_whitespace() {
        all.push(number(word))?;
    }
    Ok(all)
}

/// Whether the words are these atoms.
pub(crate) fn are_atoms(words: &str, found: &[Atom]) -> bool {
    let mut left = found;
    for word in words.split_whitespace() {
        match left.split_first() {
            None => return false,
            Some((first, rest)) => {
                if *first != atom(word) {
                    return false;
                }
                left = rest;
            }
        }
    }
    left.is_empty()
}

/// Whether the words are these hints.
pub(crate) fn are_hints(words: &str, found: &[Hint]) -> bool {
    let mut left = found;
    for word in words.split_whitespace() {
        match left.split_first() {
            None => return false,
            Some((first, rest)) => {
                if *first != hint(word) {
                    return false;
                }
                left = rest;
            }
        }
    }
    left.is_empty()
}

/// Whether the words are these numbers.
pub(crate) fn are_numbers(words: &str, found: &[i64]) -> bool {
    let mut left = found;
    for word in words.split_whitespace() {
        match left.split_first() {
            None => return false,
            Some((first, rest)) => {
                if *first != number(word) {
                    return false;
                }
                left = rest;
            }
        }
    }
    left.is_empty()
}
