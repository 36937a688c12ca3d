// What lists of entries tell of a problem. `best` has values, `lemma` a bound, atoms and hints. The
// verdict is `least`, `open` and values, `open`, `none`, or `refused`, an entry and its fault.
use crate::words::{after, are_numbers, atoms, count, hints, is_count, numbers, parted};
use cgm_atom::{BadStep, Clause, Entry, Problem, Seq};
use cgm_check::{Verdict, check};
use std::alloc::Global;
use std::test::Fail;

/// Whether the verdict on a text's entries is what the text says.
pub(crate) fn is_told(alloc: Global, problem: &Problem, text: &str) -> Result<bool, Fail> {
    let entries = entries_of(alloc, text)?;
    is_told_by(alloc, problem, entries.as_slice(), after(text, "verdict"))
}

/// Whether the verdict on entries is the wanted one.
pub(crate) fn is_told_by(
    alloc: Global,
    problem: &Problem,
    entries: &[Entry],
    wanted: &str,
) -> Result<bool, Fail> {
    let verdict = check(alloc, problem, entries)?;
    Ok(is_verdict(&verdict, wanted))
}

fn entries_of(alloc: Global, text: &str) -> Result<Vec<Entry>, Fail> {
    let mut entries = Vec::new(alloc);
    for statement in text.split(';') {
        push_entry(alloc, &mut entries, statement)?;
    }
    Ok(entries)
}

/// Adds the entry of a statement, if it is one's.
fn push_entry(alloc: Global, entries: &mut Vec<Entry>, statement: &str) -> Result<(), Fail> {
    match parted(statement) {
        ("best", values) => entries.push(best(numbers(alloc, values)?))?,
        ("lemma", words) => entries.push(lemma(alloc, 0, words)?)?,
        _ => {}
    }
    Ok(())
}

fn best(values: Vec<i64>) -> Entry {
    Entry::Best {
        by: 0,
        values: Seq::of(values),
    }
}

/// A worker's lemma: a bound, atoms, `:` and hints.
pub(crate) fn lemma(alloc: Global, worker: u32, words: &str) -> Result<Entry, Fail> {
    let (bound, rest) = parted(words);
    let bound = count(bound);
    match rest.split_once(':') {
        None => Err(Fail::new("no lemma")),
        Some((wanted, named)) => Ok(Entry::Lemma {
            by: worker,
            clause: Clause {
                atoms: Seq::of(atoms(alloc, wanted)?),
            },
            hints: Seq::of(hints(alloc, named)?),
            bound,
        }),
    }
}

fn is_verdict(verdict: &Verdict, wanted: &str) -> bool {
    match verdict {
        Verdict::NoSolution => wanted == "none",
        Verdict::Open { best } => is_open(best, wanted),
        Verdict::Least { values } => has_values("least", values.as_slice(), wanted),
        Verdict::Refused { step, why } => is_refusal(*step, *why, wanted),
    }
}

fn is_open(best: &Option<Seq<i64>>, wanted: &str) -> bool {
    match best {
        None => wanted == "open",
        Some(values) => has_values("open", values.as_slice(), wanted),
    }
}

/// Whether the words are this one and these values.
fn has_values(word: &str, values: &[i64], wanted: &str) -> bool {
    let (head, rest) = parted(wanted);
    if head != word {
        return false;
    }
    are_numbers(rest, values)
}

/// Whether the words are a refusal, this entry and this fault.
fn is_refusal(step: u64, why: BadStep, wanted: &str) -> bool {
    let (head, rest) = parted(wanted);
    let (place, fault) = parted(rest);
    if head != "refused" {
        return false;
    }
    if !is_count(place, step) {
        return false;
    }
    let (fault, number) = parted(fault);
    why == bad_step(fault, number)
}

fn bad_step(fault: &str, number: &str) -> BadStep {
    match fault {
        "after-end" => BadStep::AfterEnd,
        "not-less" => BadStep::NotLess,
        "no-conflict" => BadStep::NoConflict,
        other => numbered_step(other, count(number)),
    }
}

fn numbered_step(fault: &str, number: u64) -> BadStep {
    match fault {
        "values" => BadStep::Values { given: number },
        "atom" => BadStep::Atom { place: number },
        "hint" => BadStep::Hint { place: number },
        "bound" => BadStep::Bound { found: number },
        other => placed_step(other, number),
    }
}

fn placed_step(part: &str, number: u64) -> BadStep {
    let number = match u32::try_from(number) {
        Ok(fits) => fits,
        Err(_) => u32::MAX,
    };
    match part {
        "bounds" => BadStep::Bounds { var: number },
        "clause" => BadStep::Clause { number },
        "row" => BadStep::Row { number },
        _ => BadStep::Bounds { var: u32::MAX },
    }
}
