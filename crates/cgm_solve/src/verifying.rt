//! What entries, whoever made them, show of a model.
ghost use Rattle.std.specs.Prelude.{◌≡◌, IfOk, IfSome};
ghost use Rattle.cgm_model.specs.Model.{lists_of};
ghost use Rattle.cgm_atom.specs.Instance.{IsSolution};
ghost use Rattle.cgm_encode.specs.Decoding.{ForEncoded};
ghost use Rattle.cgm_solve.specs.Answers.{IsDecodedBest, IsVerifyAnswer, IsVerified};

use cgm_atom::{BadStep, Entry, Seq, copy_entries};
use cgm_base::OutOfMemory;
use cgm_check::{Verdict, check};
use cgm_encode::{Answer, Encoded, Found, SolveStop, decoded, encode};
use cgm_evolve::Earlier;
use cgm_model::Model;
use std::alloc::Global;

/// What entries show of a model.
#[derive(Drop)]
pub enum Verified {
    /// All entries are accepted, and this is what they show: `Realized`, `Unrealizable` or `Open`.
    Shown(Answer),
    /// The entry at this place, from 1, is the first that isn't accepted.
    Refused { step: u64, why: BadStep },
}

/// Checks entries against the encoding of a model, with what is known of an earlier realization.
///
/// `Realized` comes exactly where the entries are accepted and closed and have a best: the last one
/// stands for a least realization. `Unrealizable` comes exactly where they are closed and have no
/// best: there is no realization. `Open` comes exactly where they are accepted and not closed.
/// `Exhausted` never comes. `SolveStop::Row` comes exactly where the model has no encoding.
pub fn verify(
    alloc: Global,
    model: &Model,
    earlier: &Earlier,
    entries: &[Entry],
) -> Result<Verified, SolveStop>
    ensures { IsVerifyAnswer (lists_of model.now) earlier.now.pairs entries.now result }
{
    let encoded = encode(alloc, model, earlier)?;
    match verify_copy(alloc, &encoded, entries) {
        Ok(verified) => Ok(verified),
        Err(_) => Err(SolveStop::Memory),
    }
}

/// The same over an encoding that was made before: its model is the one that it was made of. The
/// entries that the answer has are those that are given.
///
/// `Err` is want of memory.
pub fn verify_encoded(
    alloc: Global,
    encoded: &Encoded,
    entries: Seq<Entry>,
) -> Result<Verified, OutOfMemory>
    ensures { IfOk result
        (λ verified. ForEncoded encoded.now (λ m pairs. IsVerified m pairs entries verified)) }
{
    encoded.problem.recall_well_formed();
    let verdict = check(alloc, &encoded.problem, entries.as_slice())?;
    match verdict {
        Verdict::Least { values } => {
            let found = decoded(alloc, encoded, values.as_slice())?;
            Ok(Verified::Shown(Answer::Realized { found, entries }))
        }
        Verdict::NoSolution => Ok(Verified::Shown(Answer::Unrealizable { entries })),
        Verdict::Open { best } => {
            let best = decoded_best(alloc, encoded, &best)?;
            Ok(Verified::Shown(Answer::Open { best }))
        }
        Verdict::Refused { step, why } => Ok(Verified::Refused { step, why }),
    }
}

/// The same with entries of its own for the answer.
fn verify_copy(alloc: Global, encoded: &Encoded, entries: &[Entry]) -> Result<Verified, OutOfMemory>
    ensures { IfOk result
        (λ verified. ForEncoded encoded.now (λ m pairs. IsVerified m pairs entries.now verified)) }
{
    let entries = copy_entries(alloc, entries)?;
    verify_encoded(alloc, encoded, entries)
}

/// The realization that the values of a best stand for, if there are any.
fn decoded_best(
    alloc: Global,
    encoded: &Encoded,
    best: &Option<Seq<i64>>,
) -> Result<Option<Found>, OutOfMemory>
    requires { IfSome best.now (IsSolution encoded.now.problem) }
    ensures { IfOk result
        (λ found. ForEncoded encoded.now (λ m pairs. IsDecodedBest m pairs best.now found)) }
{
    match best {
        None => Ok(None),
        Some(values) => {
            let found = decoded(alloc, encoded, values.as_slice())?;
            Ok(Some(found))
        }
    }
}
