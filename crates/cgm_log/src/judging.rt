//! What becomes of a candidate.
ghost use Rattle.std.specs.Prelude.{◌≡◌, ◌^◌, ◌<◌, length, IfOk, IfSome};
ghost use Rattle.cgm_atom.specs.Acceptance.{IsAcceptedState};
ghost use Rattle.cgm_atom.specs.Instance.{IsSolution};
ghost use Rattle.cgm_atom.specs.LogState.{last_best};
ghost use Rattle.cgm_log.specs.Landing.{fate_after, fate_of, kept_candidate, kept_entry};

use crate::batches::Fate;
use cgm_atom::{Entry, Problem, Seq};
use cgm_base::OutOfMemory;
use cgm_step::{IndexedLog, is_less};
use std::alloc::Global;

/// What becomes of a candidate, and the entry that it is where it is kept.
#[derive(Drop)]
pub(crate) struct Judged {
    pub(crate) fate: Option<Fate>,
    pub(crate) kept: Vec<Entry>,
}

pub(crate) fn judge(
    alloc: Global,
    problem: &Problem,
    log: &IndexedLog<'_>,
    worker: u32,
    candidate: &Option<Seq<i64>>,
) -> Result<Judged, OutOfMemory>
    requires accepted { IsAcceptedState problem.now log.now }
    requires room { length log.now.bests < 2 ^ 63 }
    requires solution { IfSome candidate.now (IsSolution problem.now) }
    ensures fate { IfOk result (λ j. j.fate ≡ fate_of problem.now log.now candidate.now) }
    ensures kept { IfOk result
        (λ j. j.kept.items ≡ kept_candidate problem.now log.now worker candidate.now) }
{
    match candidate {
        None => Ok(Judged {
            fate: None,
            kept: Vec::new(alloc),
        }),
        Some(values) => {
            let fate = find_fate(alloc, problem, log, values.as_slice())?;
            let kept = keep(alloc, worker, values.as_slice(), &fate)?;
            Ok(Judged {
                fate: Some(fate),
                kept,
            })
        }
    }
}

/// A candidate is kept where it is less than the last best, or where there is none.
fn find_fate(
    alloc: Global,
    problem: &Problem,
    log: &IndexedLog<'_>,
    values: &[i64],
) -> Result<Fate, OutOfMemory>
    requires accepted { IsAcceptedState problem.now log.now }
    requires room { length log.now.bests < 2 ^ 63 }
    requires solution { IsSolution problem.now values.now }
    ensures { IfOk result (λ fate. fate ≡ fate_after problem.now (length log.now.bests) (last_best
        log.now) values.now) }
{
    let ordinal = log.bests();
    let objectives = problem.objectives();
    match log.last_best() {
        None => Ok(Fate::Kept {
            ordinal: ordinal + 1,
        }),
        Some(best) => {
            if is_less(objectives, values, best) {
                return Ok(Fate::Kept {
                    ordinal: ordinal + 1,
                });
            }
            let values = Vec::from_slice(alloc, best)?;
            Ok(Fate::Behind {
                ordinal,
                values: Seq::of(values),
            })
        }
    }
}

fn keep(alloc: Global, worker: u32, values: &[i64], fate: &Fate) -> Result<Vec<Entry>, OutOfMemory>
    ensures { IfOk result (λ kept. kept.items ≡ kept_entry worker values.now fate.now) }
{
    let mut kept = Vec::new(alloc);
    match fate {
        Fate::Kept { .. } => {
            let values = Seq::of(Vec::from_slice(alloc, values)?);
            kept.push(Entry::Best { by: worker, values })?;
            Ok(kept)
        }
        Fate::Behind { .. } => Ok(kept),
    }
}
