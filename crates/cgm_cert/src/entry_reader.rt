//! The entry of a line.
ghost use Rattle.std.specs.Prelude.{◌≡◌, ◌≢◌, ◌<◌, ◌^◌, ◌∷◌, ℕ, List, codes, decimal, IfOk, IfSome, IfNone};
ghost use Rattle.cgm_atom.specs.Limits.{max_workers};
ghost use Rattle.cgm_cert.specs.Fault.{AreReadAs};
ghost use Rattle.cgm_cert.specs.Spelling.{words, further_words};

use crate::cuts::{first_word, is, next_word};
use crate::numbers::{number_of, number_within};
use crate::word_lists::{atoms_of, hints_of, values_of};
use cgm_atom::{Clause, Entry, MAX_WORKERS, Seq};
use cgm_base::OutOfMemory;
use std::alloc::Global;

/// The greatest number of a worker.
const LAST_WORKER: u32 = MAX_WORKERS - 1;

/// The worker that the next word spells, and what follows.
fn worker_of(rest: &[u8]) -> Option<(u32, &[u8])>
    ensures found { IfSome result (λ parts. (further_words rest.now
        ≡ decimal parts.0 ∷ further_words parts.1.now) × (parts.0 < max_workers)) }
    ensures none { IfNone result ((by : ℕ) (more : List (List ℕ)) → by < max_workers
        → further_words rest.now ≢ decimal by ∷ more) }
{
    match next_word(rest) {
        None => None,
        Some((word, after)) => match number_within(word, LAST_WORKER) {
            None => None,
            Some(by) => Some((by, after)),
        },
    }
}

/// The bound that the next word spells, and what follows.
fn bound_of(rest: &[u8]) -> Option<(u64, &[u8])>
    ensures found { IfSome result (λ parts. (further_words rest.now
        ≡ decimal parts.0 ∷ further_words parts.1.now) × (parts.0 < 2 ^ 64)) }
    ensures none { IfNone result ((bound : ℕ) (more : List (List ℕ)) → bound < 2 ^ 64
        → further_words rest.now ≢ decimal bound ∷ more) }
{
    match next_word(rest) {
        None => None,
        Some((word, after)) => match number_of(word) {
            None => None,
            Some(bound) => Some((bound, after)),
        },
    }
}

/// The entry of a line that begins with `best`.
fn best_of(alloc: Global, rest: &[u8]) -> Result<Option<Entry>, OutOfMemory>
    ensures { IfOk result (AreReadAs (codes "best" ∷ further_words rest.now)) }
{
    match worker_of(rest) {
        None => Ok(None),
        Some((by, after)) => match values_of(alloc, after)? {
            None => Ok(None),
            Some(values) => Ok(Some(Entry::Best {
                by,
                values: Seq::of(values),
            })),
        },
    }
}

/// The lemma of a worker and a bound whose atoms and hints `rest` has.
fn lemma_with(alloc: Global, by: u32, bound: u64, rest: &[u8]) -> Result<Option<Entry>, OutOfMemory>
    requires { by < max_workers }
    ensures { IfOk result (AreReadAs (codes "lemma" ∷ decimal by ∷ decimal bound
        ∷ further_words rest.now)) }
{
    match atoms_of(alloc, rest)? {
        None => Ok(None),
        Some((atoms, after)) => match hints_of(alloc, after)? {
            None => Ok(None),
            Some(hints) => Ok(Some(Entry::Lemma {
                by,
                clause: Clause {
                    atoms: Seq::of(atoms),
                },
                hints: Seq::of(hints),
                bound,
            })),
        },
    }
}

/// The entry of a line that begins with `lemma`.
fn lemma_of(alloc: Global, rest: &[u8]) -> Result<Option<Entry>, OutOfMemory>
    ensures { IfOk result (AreReadAs (codes "lemma" ∷ further_words rest.now)) }
{
    match worker_of(rest) {
        None => Ok(None),
        Some((by, after)) => match bound_of(after) {
            None => Ok(None),
            Some((bound, after)) => lemma_with(alloc, by, bound, after),
        },
    }
}

/// The entry of a line.
pub(crate) fn entry_of(alloc: Global, line: &[u8]) -> Result<Option<Entry>, OutOfMemory>
    ensures { IfOk result (AreReadAs (words line.now)) }
{
    let (kind, rest) = first_word(line);
    if is(kind, "best") {
        best_of(alloc, rest)
    } else if is(kind, "lemma") {
        lemma_of(alloc, rest)
    } else {
        Ok(None)
    }
}
