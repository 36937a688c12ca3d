//! The end of accepted entries.
ghost use Rattle.std.specs.Prelude.{◌≡◌, option_copied, IfOk};
ghost use Rattle.cgm_check.specs.Verdicts.{IsEndOf};

use crate::Verdict;
use cgm_atom::Seq;
use cgm_base::OutOfMemory;
use cgm_step::IndexedLog;
use std::alloc::Global;

/// What accepted entries tell.
pub(crate) fn conclude(alloc: Global, log: &IndexedLog<'_>) -> Result<Verdict, OutOfMemory>
    ensures { IfOk result (λ verdict. IsEndOf log.now verdict) }
{
    let best = copy_of(alloc, log.last_best())?;
    if !log.is_closed() {
        return Ok(Verdict::Open { best });
    }
    match best {
        Some(values) => Ok(Verdict::Least { values }),
        None => Ok(Verdict::NoSolution),
    }
}

fn copy_of(alloc: Global, values: Option<&[i64]>) -> Result<Option<Seq<i64>>, OutOfMemory>
    ensures { IfOk result (λ copy. copy ≡ option_copied values.entry) }
{
    match values {
        Some(values) => Ok(Some(Seq::of(Vec::from_slice(alloc, values)?))),
        None => Ok(None),
    }
}
