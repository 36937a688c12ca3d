// Trades with a log, by one worker that has always seen all of it. `offer` has the values of a
// candidate, and `close` a best and a part of its cut, by which the empty lemma follows; the answer
// stands behind `=`: `kept`, the place and the ordinal, `behind`, the ordinal and the values of the
// last best, `landed` and the place, or `closed`.
ghost use Rattle.std.specs.Prelude.{◌≡◌, None, IsTrue, IfOk};
ghost use Rattle.cgm_atom.specs.Acceptance.{first_fault};
ghost use Rattle.cgm_atom.specs.LogState.{state_of};
ghost use Rattle.cgm_log.specs.Landing.{IsProperBatch};

use crate::problems::problem_of;
use crate::words::{are_numbers, count, is_count, numbers, parted, place};
use cgm_atom::{BoxState, Clause, Entry, Hint, Seq, satisfied};
use cgm_base::OutOfMemory;
use cgm_log::{Batch, Fate, Log, Traded};
use cgm_step::accepts_next;
use std::alloc::Global;
use std::test::Fail;

/// Makes all trades of a text, and answers the first statement whose answer is another.
pub(crate) fn failing(alloc: Global, text: &str) -> Result<Option<&str>, Fail> {
    let mut log = Log::new(alloc, problem_of(alloc, text)?);
    failing_in(alloc, &mut log, text)
}

fn failing_in<'t>(alloc: Global, log: &mut Log, text: &'t str) -> Result<Option<&'t str>, Fail> {
    for statement in text.split(';') {
        if !is_answered(alloc, log, statement)? {
            return Ok(Some(statement));
        }
    }
    Ok(None)
}

fn is_answered(alloc: Global, log: &mut Log, statement: &str) -> Result<bool, Fail> {
    match statement.split_once(" = ") {
        None => Ok(true),
        Some((asked, answer)) => {
            let traded = traded_by(alloc, log, asked)?;
            Ok(is_answer(&traded, answer))
        }
    }
}

fn traded_by(alloc: Global, log: &mut Log, asked: &str) -> Result<Traded, Fail> {
    match parted(asked) {
        ("offer", values) => offer(alloc, log, numbers(alloc, values)?),
        ("close", cut) => {
            let (best, part) = parted(cut);
            end_by_cut(alloc, log, count(best), place(part))
        }
        _ => Err(Fail::new("no trade")),
    }
}

fn is_answer(traded: &Traded, answer: &str) -> bool {
    match traded {
        Traded::Closed { .. } => answer == "closed",
        Traded::Landed { first, fate, .. } => match fate {
            None => is_landed(*first, answer),
            Some(Fate::Kept { ordinal }) => is_kept(*first, *ordinal, answer),
            Some(Fate::Behind { ordinal, values }) => {
                is_behind(*ordinal, values.as_slice(), answer)
            }
        },
    }
}

fn is_landed(place: u64, answer: &str) -> bool {
    let (head, number) = parted(answer);
    head == "landed" && is_count(number, place)
}

fn is_kept(place: u64, ordinal: u64, answer: &str) -> bool {
    let (head, rest) = parted(answer);
    let (first, second) = parted(rest);
    head == "kept" && is_count(first, place) && is_count(second, ordinal)
}

fn is_behind(ordinal: u64, values: &[i64], answer: &str) -> bool {
    let (head, rest) = parted(answer);
    let (number, wanted) = parted(rest);
    if head != "behind" {
        return false;
    }
    if !is_count(number, ordinal) {
        return false;
    }
    are_numbers(wanted, values)
}

/// Trades a candidate, which has to be a solution.
fn offer(alloc: Global, log: &mut Log, values: Vec<i64>) -> Result<Traded, Fail> {
    if !satisfied(log.problem(), values.as_slice()) {
        return Err(Fail::new("no solution"));
    }
    let batch = Batch {
        by: 0,
        lemmas: Seq::of(Vec::new(alloc)),
        candidate: Some(Seq::of(values)),
    };
    trade(log, batch)
}

/// Trades the empty lemma by a part of the cut of a best, which has to be accepted.
fn end_by_cut(alloc: Global, log: &mut Log, best: u64, part: u32) -> Result<Traded, Fail> {
    let lemma = Entry::Lemma {
        by: 0,
        clause: Clause {
            atoms: Seq::of(Vec::new(alloc)),
        },
        hints: Seq::of(vec![in alloc; Hint::Cut { best, part }]?),
        bound: best,
    };
    if !is_accepted(alloc, log, &lemma)? {
        return Err(Fail::new("no lemma of the log"));
    }
    let batch = Batch {
        by: 0,
        lemmas: Seq::of(vec![in alloc; lemma]?),
        candidate: None,
    };
    trade(log, batch)
}

/// Whether an entry is accepted after those of the log.
fn is_accepted(alloc: Global, log: &Log, next: &Entry) -> Result<bool, Fail>
    ensures { IfOk result (λ accepted. IsTrue accepted → first_fault log.now.problem
        (state_of log.now.entries) next.now ≡ None) }
{
    let p = log.problem();
    let mut work = BoxState::of(alloc, p)?;
    match accepts_next(p, &log.indexed(), next, &mut work) {
        Ok(()) => Ok(true),
        Err(_) => Ok(false),
    }
}

fn trade(log: &mut Log, batch: Batch) -> Result<Traded, Fail>
    requires { IsProperBatch log.old.problem log.old.entries batch }
{
    let seen = log.entries().len() as u64;
    match log.trade(seen, batch) {
        Ok(traded) => Ok(traded),
        Err(_) => Err(OutOfMemory.into()),
    }
}
