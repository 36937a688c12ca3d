// Assignments as words: a digit for each element, 1 where it is true, a digit for each refinement, and
// the numbers, parted by commas. A `-` stands for none.
use cgm_model::{Assignment, Parts};
use std::alloc::Global;
use std::test::Fail;

/// The first word, and what follows it.
pub(crate) fn parted(text: &str) -> (&str, &str) {
    let words = text.trim();
    match words.split_once(' ') {
        Some((head, rest)) => (head, rest),
        None => (words, ""),
    }
}

pub(crate) fn assignment(alloc: Global, words: &str) -> Result<Assignment, Fail> {
    let (elements, rest) = parted(words);
    let (refinements, vars) = parted(rest);
    Ok(Assignment {
        elements: Parts::of(truths(alloc, elements)?),
        refinements: Parts::of(truths(alloc, refinements)?),
        vars: Parts::of(numbers(alloc, vars)?),
    })
}

pub(crate) fn truths(alloc: Global, word: &str) -> Result<Vec<bool>, Fail> {
    let mut all = Vec::new(alloc);
    for digit in word.bytes() {
        if digit != b'-' {
            all.push(digit == b'1')?;
        }
    }
    Ok(all)
}

pub(crate) fn numbers(alloc: Global, word: &str) -> Result<Vec<i64>, Fail> {
    let mut all = Vec::new(alloc);
    if word == "-" {
        return Ok(all);
    }
    for number in word.split(',') {
        all.push(number.parse::<i64>()?)?;
    }
    Ok(all)
}

/// Whether the word's digits are these truths.
pub(crate) fn are_truths(alloc: Global, word: &str, found: &[bool]) -> Result<bool, Fail> {
    Ok(truths(alloc, word)?.as_slice() == found)
}

/// Whether the word has these numbers.
pub(crate) fn are_numbers(alloc: Global, word: &str, found: &[i64]) -> Result<bool, Fail> {
    Ok(numbers(alloc, word)?.as_slice() == found)
}
