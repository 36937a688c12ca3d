//! Batches, and what becomes of them in a log that isn't closed.
ghost use Rattle.std.specs.Prelude.{◌≡◌, ◌-◌, ◌+◌, ◌++◌, ◌≤◌, [], ◌∷◌, None, Some, IfOk};
ghost use Rattle.std.specs.List.{All};
ghost use Rattle.cgm_atom.specs.Placing.{HintsCanBePlaced, all_placed};
ghost use Rattle.cgm_learn.specs.Learning.{lemma_by};
ghost use Rattle.cgm_search.specs.Trading.{kept_of};

use cgm_atom::{Entry, Seq, copy_entries, place_all};
use cgm_base::OutOfMemory;
use cgm_learn::Learned;
use cgm_log::{Batch, Fate};
use std::alloc::Global;

/// A batch that adds nothing.
pub(crate) fn empty_batch(alloc: Global, worker: u32) -> Batch
    ensures { result ≡ record { by = worker; lemmas = []; candidate = None } }
{
    Batch {
        by: worker,
        lemmas: Seq::of(Vec::new(alloc)),
        candidate: None,
    }
}

/// A batch with what was learned as its one lemma.
pub(crate) fn lemma_batch(alloc: Global, worker: u32, lemma: Learned) -> Result<Batch, OutOfMemory>
    ensures { IfOk result
        (λ b. b ≡ record { by = worker; lemmas = lemma_by worker lemma ∷ []; candidate = None }) }
{
    let mut lemmas = Vec::new(alloc);
    lemmas.push(lemma_entry(worker, lemma))?;
    Ok(Batch {
        by: worker,
        lemmas: Seq::of(lemmas),
        candidate: None,
    })
}

fn lemma_entry(worker: u32, lemma: Learned) -> Entry
    ensures { result ≡ lemma_by worker lemma }
{
    let bound = lemma.bound;
    let Learned { clause, hints, .. } = lemma;
    Entry::Lemma {
        by: worker,
        clause,
        hints,
        bound,
    }
}

/// A batch with a candidate alone.
pub(crate) fn candidate_batch(alloc: Global, worker: u32, values: Vec<i64>) -> Batch
    ensures { result ≡ record { by = worker; lemmas = []; candidate = Some values.items } }
{
    Batch {
        by: worker,
        lemmas: Seq::of(Vec::new(alloc)),
        candidate: Some(Seq::of(values)),
    }
}

/// An equal batch.
pub(crate) fn copy_batch(alloc: Global, batch: &Batch) -> Result<Batch, OutOfMemory>
    ensures { IfOk result (λ c. c ≡ batch.now) }
{
    let lemmas = copy_entries(alloc, batch.lemmas.as_slice())?;
    let candidate = copy_candidate(alloc, &batch.candidate)?;
    Ok(Batch {
        by: batch.by,
        lemmas,
        candidate,
    })
}

fn copy_candidate(
    alloc: Global,
    candidate: &Option<Seq<i64>>,
) -> Result<Option<Seq<i64>>, OutOfMemory>
    ensures { IfOk result (λ copy. copy ≡ candidate.now) }
{
    match candidate {
        None => Ok(None),
        Some(values) => Ok(Some(Seq::of(Vec::from_slice(alloc, values.as_slice())?))),
    }
}

/// What landed of a batch whose first lemma has the place `first`, where its candidate had this fate.
pub(crate) fn landing_of(
    alloc: Global,
    batch: Batch,
    first: u64,
    fate: &Option<Fate>,
) -> Result<Vec<Entry>, OutOfMemory>
    requires first { 1 ≤ first }
    requires placed { All (HintsCanBePlaced (first - 1)) batch.lemmas }
    ensures { IfOk result (λ landing. landing.items
        ≡ all_placed (first - 1) batch.lemmas ++ kept_of batch.by batch.candidate fate.now) }
{
    let Batch {
        by,
        lemmas,
        candidate,
    } = batch;
    let mut kept = kept_entries(alloc, by, candidate, fate)?;
    let mut landing = place_all(alloc, lemmas.into_inner(), first - 1);
    landing.append(&mut kept)?;
    Ok(landing)
}

fn kept_entries(
    alloc: Global,
    worker: u32,
    candidate: Option<Seq<i64>>,
    fate: &Option<Fate>,
) -> Result<Vec<Entry>, OutOfMemory>
    ensures { IfOk result (λ kept. kept.items ≡ kept_of worker candidate fate.now) }
{
    match candidate {
        None => Ok(Vec::new(alloc)),
        Some(values) => match fate {
            None => Ok(Vec::new(alloc)),
            Some(Fate::Behind { .. }) => Ok(Vec::new(alloc)),
            Some(Fate::Kept { .. }) => one_best(alloc, worker, values),
        },
    }
}

fn one_best(alloc: Global, worker: u32, values: Seq<i64>) -> Result<Vec<Entry>, OutOfMemory>
    ensures { IfOk result (λ kept. kept.items ≡ Entry.Best worker values ∷ []) }
{
    let mut kept = Vec::new(alloc);
    kept.push(Entry::Best { by: worker, values })?;
    Ok(kept)
}
