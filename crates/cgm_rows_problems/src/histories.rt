// Histories: what workers do with a log, one after another, taken by a core. `enter`, `leave` and `look`
// have the worker, and `look` a length. `trade` has the worker and the parts of its batch, with `/`
// between them: `lemma`, a bound, atoms and hints, `offer` and the values of a candidate, and `by`, a
// number in the place of the worker's. `log` has the lines of all entries that are there then, as a
// certificate spells them, with `/` between them; `seen` has a worker and how many entries it has seen,
// or `out`; and `illegal` the place of the first event that isn't allowed.
use crate::verdicts::lemma;
use crate::words::{after, count, is_count, numbers, parted, place};
use cgm_atom::{Entry, Problem, Seq};
use cgm_base::OutOfMemory;
use cgm_cert::print_cert;
use cgm_core::{Core, CoreStop, Event, replay};
use cgm_log::{Batch, Log};
use std::alloc::Global;
use std::test::Fail;

/// The first statement of a history that isn't so, or the whole of it where its first event that isn't
/// allowed is another.
pub(crate) fn failing<'t>(
    alloc: Global,
    problem: &Problem,
    text: &'t str,
) -> Result<Option<&'t str>, Fail> {
    let events = events_of(alloc, text)?;
    match replay(alloc, problem.copy(alloc)?, events) {
        Ok(core) => failing_after(alloc, &core, text),
        Err(CoreStop::Illegal { place }) => Ok(unless_illegal(place, text)),
        Err(CoreStop::Memory) => Err(OutOfMemory.into()),
    }
}

/// The text, unless it says that the event at this place isn't allowed.
fn unless_illegal(place: u64, text: &str) -> Option<&str> {
    if is_count(after(text, "illegal"), place) {
        return None;
    }
    Some(text)
}

fn failing_after<'t>(alloc: Global, core: &Core, text: &'t str) -> Result<Option<&'t str>, Fail> {
    for statement in text.split(';') {
        if !is_so(alloc, core, statement)? {
            return Ok(Some(statement));
        }
    }
    Ok(None)
}

/// Whether the core is as a statement says; statements of other words say nothing of it.
fn is_so(alloc: Global, core: &Core, statement: &str) -> Result<bool, Fail> {
    match parted(statement) {
        ("log", wanted) => is_log(alloc, core.log(), wanted),
        ("seen", words) => has_seen(core, words),
        ("illegal", _) => Ok(false),
        _ => Ok(true),
    }
}

/// Whether the entries of a log have these lines in a certificate.
fn is_log(alloc: Global, log: &Log, wanted: &str) -> Result<bool, Fail> {
    let text = print_cert(alloc, log.entries())?;
    let lines = lines_of(alloc, wanted)?;
    Ok(text.as_slice() == lines.as_bytes())
}

/// The text of a certificate with these lines.
fn lines_of(alloc: Global, wanted: &str) -> Result<String, Fail> {
    let mut text = String::from_str(alloc, "cgm-cert 1\n")?;
    for line in wanted.split('/') {
        push_line(&mut text, line.trim())?;
    }
    Ok(text)
}

/// Adds a line, unless it is empty.
fn push_line(text: &mut String, line: &str) -> Result<(), Fail> {
    if line.is_empty() {
        return Ok(());
    }
    text.push_str(line)?;
    text.push_str("\n")?;
    Ok(())
}

/// Whether a worker has seen so many entries, or is out.
fn has_seen(core: &Core, words: &str) -> Result<bool, Fail> {
    let (worker, wanted) = parted(words);
    match core.seen(place(worker)) {
        None => Ok(wanted == "out"),
        Some(seen) => Ok(is_count(wanted, seen)),
    }
}

fn events_of(alloc: Global, text: &str) -> Result<Vec<Event>, Fail> {
    let mut events = Vec::new(alloc);
    for statement in text.split(';') {
        push_event(alloc, &mut events, statement)?;
    }
    Ok(events)
}

/// Adds the event of a statement, if it is one's.
fn push_event(alloc: Global, events: &mut Vec<Event>, statement: &str) -> Result<(), Fail> {
    match parted(statement) {
        ("enter", worker) => events.push(enter(worker))?,
        ("trade", words) => events.push(trade(alloc, words)?)?,
        ("look", words) => events.push(look(words))?,
        ("leave", worker) => events.push(leave(worker))?,
        _ => {}
    }
    Ok(())
}

fn enter(worker: &str) -> Event {
    Event::Enter {
        worker: place(worker),
    }
}

fn leave(worker: &str) -> Event {
    Event::Leave {
        worker: place(worker),
    }
}

fn look(words: &str) -> Event {
    let (worker, length) = parted(words);
    Event::Look {
        worker: place(worker),
        length: count(length),
    }
}

fn trade(alloc: Global, words: &str) -> Result<Event, Fail> {
    let (worker, parts) = parted(words);
    let worker = place(worker);
    let by = maker(worker, parts);
    Ok(Event::Trade {
        worker,
        batch: Batch {
            by,
            lemmas: Seq::of(lemmas(alloc, by, parts)?),
            candidate: candidate(alloc, parts)?,
        },
    })
}

/// The number that a batch has: the worker's, unless another is given.
fn maker(worker: u32, parts: &str) -> u32 {
    for part in parts.split('/') {
        let (head, number) = parted(part);
        if head == "by" {
            return place(number);
        }
    }
    worker
}

fn lemmas(alloc: Global, by: u32, parts: &str) -> Result<Vec<Entry>, Fail> {
    let mut all = Vec::new(alloc);
    for part in parts.split('/') {
        let (head, words) = parted(part);
        if head == "lemma" {
            all.push(lemma(alloc, by, words)?)?;
        }
    }
    Ok(all)
}

fn candidate(alloc: Global, parts: &str) -> Result<Option<Seq<i64>>, Fail> {
    for part in parts.split('/') {
        let (head, values) = parted(part);
        if head == "offer" {
            return Ok(Some(Seq::of(numbers(alloc, values)?)));
        }
    }
    Ok(None)
}
