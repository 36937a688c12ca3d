//! Whether a batch is proper.
ghost use Rattle.std.specs.Prelude.{◌≡◌, ◌↔◌, ◌<◌, ◌+◌, ◌^◌, length, IsTrue, IfOk, IfSome, OnOk, ◌++◌, ◌∷◌, []};
ghost use Rattle.std.specs.List.{All};
ghost use Rattle.cgm_atom.specs.Acceptance.{IsAccepted, IsAcceptedAfter};
ghost use Rattle.cgm_atom.specs.Instance.{IsSolution};
ghost use Rattle.cgm_atom.specs.LogState.{is_closing, state_of};
ghost use Rattle.cgm_atom.specs.Placing.{IsBefore, all_placed};
ghost use Rattle.cgm_atom.specs.Ranges.{IsAtomInRange, IsHintInRange};
ghost use Rattle.cgm_step.specs.Indexing.{IsLogIndexOf};
ghost use Rattle.cgm_log.specs.Landing.{ClosesLast, IsLemmaOf, IsProperBatch};

use cgm_atom::{
    Atom, BoxState, Entry, Hint, MAX_ATOM_NUMBER, MAX_BATCH_LEMMAS, MAX_WORKERS, Problem, Seq,
    copy_entries, place_all, satisfied,
};
use cgm_base::OutOfMemory;
use cgm_log::Batch;
use cgm_step::{IndexedLog, LogIndex, accepts_next};
use std::alloc::Global;

/// Whether the batch is proper after the entries.
/// Condition: they are accepted, and there is room for 64 more below 2^63.
pub fn is_proper(
    alloc: Global,
    problem: &Problem,
    seen: &[Entry],
    batch: &Batch,
) -> Result<bool, OutOfMemory>
    requires accepted { IsAccepted problem.now seen.now }
    requires count { length seen.now + 64 < 2 ^ 63 }
    ensures { IfOk result (λ t. IsTrue t ↔ IsProperBatch problem.now seen.now batch.now) }
{
    let lemmas = batch.lemmas.as_slice();
    let before = seen.len() as u64;
    if batch.by >= MAX_WORKERS || lemmas.len() > MAX_BATCH_LEMMAS {
        return Ok(false);
    }
    if !are_lemmas_of(lemmas, batch.by, before) {
        return Ok(false);
    }
    if !closes_last(lemmas, &batch.candidate) || !is_candidate(problem, &batch.candidate) {
        return Ok(false);
    }
    let placed = placed_copies(alloc, lemmas, batch.by, before)?;
    accepts_all(alloc, problem, seen, placed.as_slice())
}

/// Whether each entry is a lemma of the worker, with its numbers in range, and names of entries one
/// of the first `before`.
fn are_lemmas_of(lemmas: &[Entry], worker: u32, before: u64) -> bool
    requires { worker < 16 }
    ensures { IsTrue result ↔ All (IsLemmaOf worker before) lemmas.now }
{
    for lemma in lemmas {
        if !is_lemma_of(lemma, worker, before) {
            return false;
        }
    }
    true
}

fn is_lemma_of(lemma: &Entry, worker: u32, before: u64) -> bool
    requires { worker < 16 }
    ensures { IsTrue result ↔ IsLemmaOf worker before lemma.now }
{
    match lemma {
        Entry::Best { .. } => false,
        Entry::Lemma {
            by: maker,
            clause,
            hints,
            bound,
        } => {
            // The range of the bound is known of its value alone.
            let _bound = *bound;
            if *maker != worker {
                return false;
            }
            if !are_in_range(clause.atoms.as_slice()) {
                return false;
            }
            are_hints(hints.as_slice(), before)
        }
    }
}

fn are_in_range(atoms: &[Atom]) -> bool
    ensures { IsTrue result ↔ All IsAtomInRange atoms.now }
{
    for atom in atoms {
        if !is_in_range(*atom) {
            return false;
        }
    }
    true
}

fn is_in_range(atom: Atom) -> bool
    ensures { IsTrue result ↔ IsAtomInRange atom }
{
    atom.k.unsigned_abs() <= MAX_ATOM_NUMBER
}

fn are_hints(hints: &[Hint], before: u64) -> bool
    ensures { IsTrue result ↔ (All IsHintInRange hints.now × All (IsBefore before) hints.now) }
{
    for hint in hints {
        if !is_before(*hint, before) {
            return false;
        }
    }
    true
}

// By its type the numbers of each hint are in range.
fn is_before(hint: Hint, before: u64) -> bool
    ensures before { IsTrue result ↔ IsBefore before hint }
    ensures range { IsHintInRange hint }
{
    match hint {
        Hint::Entry(place) => place <= before,
        Hint::Own(i) => i >= 1,
        Hint::Clause(_) => true,
        Hint::Row(_) => true,
        Hint::Cut { .. } => true,
    }
}

/// Whether a lemma without atoms comes last and without a candidate.
fn closes_last(lemmas: &[Entry], candidate: &Option<Seq<i64>>) -> bool
    ensures { IsTrue result ↔ ClosesLast lemmas.now candidate.now }
{
    for (i, lemma) in lemmas.iter().enumerate() {
        if closes(lemma) && (i + 1 != lemmas.len() || candidate.is_some()) {
            return false;
        }
    }
    true
}

fn closes(lemma: &Entry) -> bool
    ensures { result ≡ is_closing lemma.now }
{
    match lemma {
        Entry::Best { .. } => false,
        Entry::Lemma { clause, .. } => clause.atoms.as_slice().is_empty(),
    }
}

fn is_candidate(problem: &Problem, candidate: &Option<Seq<i64>>) -> bool
    ensures { IsTrue result ↔ IfSome candidate.now (IsSolution problem.now) }
{
    match candidate {
        None => true,
        Some(values) => satisfied(problem, values.as_slice()),
    }
}

fn copies(alloc: Global, entries: &[Entry]) -> Result<Vec<Entry>, OutOfMemory>
    ensures { IfOk result (λ all. all.items ≡ entries.now) }
{
    let copied = copy_entries(alloc, entries)?;
    Ok(copied.into_inner())
}

/// Copies of the lemmas, each placed behind so many entries.
fn placed_copies(
    alloc: Global,
    lemmas: &[Entry],
    worker: u32,
    before: u64,
) -> Result<Vec<Entry>, OutOfMemory>
    requires count { before < 2 ^ 63 }
    requires lemmas { All (IsLemmaOf worker before) lemmas.now }
    ensures { IfOk result (λ placed. placed.items ≡ all_placed before lemmas.now) }
{
    let copied = copies(alloc, lemmas)?;
    Ok(place_all(alloc, copied, before))
}

/// Whether the further entries are accepted after those that were seen.
fn accepts_all(
    alloc: Global,
    problem: &Problem,
    seen: &[Entry],
    more: &[Entry],
) -> Result<bool, OutOfMemory>
    requires accepted { IsAccepted problem.now seen.now }
    requires count { length seen.now + length more.now < 2 ^ 63 }
    ensures { IfOk result
        (λ t. IsTrue t ↔ IsAcceptedAfter problem.now (state_of seen.now) more.now) }
{
    let mut index = LogIndex::new(alloc);
    index.append(seen)?;
    let mut all = copies(alloc, seen)?;
    let mut work = BoxState::of(alloc, problem)?;
    for entry in more {
        match accepts_next(
            problem,
            &IndexedLog::of(all.as_slice(), &index),
            entry,
            &mut work,
        ) {
            Ok(()) => {}
            Err(_) => return Ok(false),
        }
        take_in(alloc, &mut all, &mut index, entry)?;
    }
    Ok(true)
}

/// One more entry.
fn take_in(
    alloc: Global,
    all: &mut Vec<Entry>,
    index: &mut LogIndex,
    entry: &Entry,
) -> Result<(), OutOfMemory>
    requires count { index.old.entries < 2 ^ 63 }
    requires own { IsLogIndexOf index.old all.old.items }
    ensures items { OnOk result (all.new.items ≡ all.old.items ++ entry.now ∷ []) }
    ensures own { OnOk result (IsLogIndexOf index.new (all.old.items ++ entry.now ∷ [])) }
{
    index.add(entry)?;
    all.push(entry.copy(alloc)?)?;
    Ok(())
}
