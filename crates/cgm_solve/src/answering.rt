//! What is told of ended runs.
ghost use Rattle.std.specs.Prelude.{◌≡◌, ◌↔◌, IfOk, IsTrue};
ghost use Rattle.cgm_solve.specs.Answers.{IsLastBestOf};
ghost use Rattle.cgm_solve.specs.Runs.{AreSpent, AreTrailsKept, IsAnswerTold, IsExhausted, closed_answer, moves_of};

use cgm_atom::{Entry, Seq};
use cgm_base::OutOfMemory;
use cgm_crew::CrewEnd;
use cgm_encode::{Answer, Encoded, Found, decoded};
use cgm_log::Log;
use cgm_search::Stopped;
use cgm_trail::{Trail, Work};
use std::alloc::Global;
use std::mem::drop;

/// The answer of a closed log, or of one that isn't closed where every worker's budget is spent.
/// Then the work gains their trails. Its entries are those of the log.
pub(crate) fn tell(
    alloc: Global,
    encoded: &Encoded,
    ended: CrewEnd,
    work: &mut Work,
) -> Result<Answer, OutOfMemory>
    requires { ended.log.problem ≡ encoded.now.problem }
    ensures { IsAnswerTold encoded.now ended work.old work.new result }
{
    let best = match decoded_last_best(alloc, encoded, &ended.log) {
        Ok(best) => best,
        Err(_) => {
            drop(ended);
            return Err(OutOfMemory);
        }
    };
    let CrewEnd {
        log,
        stopped,
        trails,
    } = ended;
    let is_closed = log.closed();
    let entries = log.into_entries();
    if is_closed {
        drop(trails);
        return Ok(closed_answer(best, entries));
    }
    if !are_spent(stopped.as_slice()) {
        // A worker without memory: what the others reached leaves the log open.
        drop(best);
        drop(entries);
        drop(trails);
        return Err(OutOfMemory);
    }
    exhausted(alloc, best, entries, trails, work)
}

/// Whether each worker spent its budget.
fn are_spent(stopped: &[Stopped]) -> bool
    ensures { IsTrue result ↔ AreSpent stopped.now }
{
    stopped.iter().all(|how| is_spent(*how))
}

fn is_spent(how: Stopped) -> bool
    ensures { IsTrue result ↔ how ≡ Stopped.Spent }
{
    how == Stopped::Spent
}

/// The realization that the last best of the log stands for, if there is one.
fn decoded_last_best(
    alloc: Global,
    encoded: &Encoded,
    log: &Log,
) -> Result<Option<Found>, OutOfMemory>
    requires { log.now.problem ≡ encoded.now.problem }
    ensures { IfOk result (λ found. IsLastBestOf encoded.now log.now.entries found) }
{
    match log.indexed().last_best() {
        None => Ok(None),
        Some(values) => {
            let found = decoded(alloc, encoded, values)?;
            Ok(Some(found))
        }
    }
}

fn closed_answer(best: Option<Found>, entries: Seq<Entry>) -> Answer
    ensures { result ≡ closed_answer best entries }
{
    match best {
        None => Answer::Unrealizable { entries },
        Some(found) => Answer::Realized { found, entries },
    }
}

fn exhausted(
    alloc: Global,
    best: Option<Found>,
    entries: Seq<Entry>,
    trails: Vec<Trail>,
    work: &mut Work,
) -> Result<Answer, OutOfMemory>
    ensures { IsExhausted best entries trails.items work.old work.new result }
{
    match keep_trails(alloc, trails, work) {
        Ok(spent) => Ok(Answer::Exhausted {
            best,
            spent,
            entries,
        }),
        Err(_) => {
            drop(best);
            drop(entries);
            Err(OutOfMemory)
        }
    }
}

/// Adds the trails to the work, and answers the list of what their workers spent.
fn keep_trails(alloc: Global, trails: Vec<Trail>, work: &mut Work) -> Result<Seq<u64>, OutOfMemory>
    ensures { AreTrailsKept trails.items work.old work.new result }
{
    let spent = moves_of(alloc, trails.as_slice())?;
    work.keep(trails)?;
    Ok(Seq::of(spent))
}

/// How many moves were made on each trail.
fn moves_of(alloc: Global, trails: &[Trail]) -> Result<Vec<u64>, OutOfMemory>
    ensures { IfOk result (λ moves. moves.items ≡ moves_of trails.now) }
{
    let mut moves = Vec::with_capacity(alloc, trails.len())?;
    for trail in trails {
        moves.push_reserved(trail.moves());
    }
    Ok(moves)
}
