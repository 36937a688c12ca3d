// Passes of a turn, on one thread. Each offers a candidate, which lands in its next turn.
ghost use Rattle.std.specs.Prelude.{◌≡◌, ◌+◌, ◌^◌, ◌<◌, ◌≤◌, [], IsTrue, IfOk};
ghost use Rattle.cgm_turn.specs.Passes.{IsPassOf, IsSamePass, beginner};

use crate::problems::problem_of;
use crate::verdicts::lemma;
use cgm_atom::{Entry, MAX_WORKERS, Problem, Seq, satisfied};
use cgm_core::is_proper;
use cgm_log::{Batch, Fate, Log, MAX_TRADES, Traded};
use cgm_turn::{Pass, Turn};
use std::alloc::Global;
use std::sync::Wait;
use std::test::Fail;

/// The problem of a text, the turn of its log for so many workers, and the first pass.
pub(crate) fn opened(alloc: Global, text: &str, workers: u32) -> Result<(Problem, Turn, Pass), Fail>
    requires { (1 ≤ workers) × (workers ≤ 16) }
    ensures own { IfOk result (λ t. IsPassOf t.1 t.2) }
    ensures turn { IfOk result (λ t. (t.1.problem ≡ t.0) × (t.1.workers ≡ workers)) }
    ensures first { IfOk result (λ t. t.2 ≡ beginner t.2.table t.0) }
{
    let problem = problem_of(alloc, text)?;
    let log = Log::new(alloc, problem.copy(alloc)?);
    let (turn, first) = Turn::new(alloc, log, workers)?;
    Ok((problem, turn, first))
}

/// Whether a pass may trade: its number is a worker's, and it has trades left.
fn may_trade(pass: &Pass) -> bool
    ensures { IsTrue result → (pass.now.number < 16) × (pass.now.trades < 2 ^ 59) }
{
    if pass.number() >= MAX_WORKERS {
        return false;
    }
    pass.trades() < MAX_TRADES
}

/// Trades a candidate by a pass. It has to be a solution.
pub(crate) fn offer<R: Wait>(
    rt: &R,
    alloc: Global,
    problem: &Problem,
    turn: &Turn,
    pass: &mut Pass,
    values: &[i64],
) -> Result<Traded, Fail>
    requires own { IsPassOf turn.now pass.old }
    requires problem { turn.now.problem ≡ problem.now }
    ensures own { IsPassOf turn.now pass.new }
    ensures same { IsSamePass pass.old pass.new }
{
    if !satisfied(problem, values) {
        return Err(Fail::new("no solution"));
    }
    if !may_trade(pass) {
        return Err(Fail::new("no trade left"));
    }
    let batch = Batch {
        by: pass.number(),
        lemmas: Seq::of(Vec::new(alloc)),
        candidate: Some(Seq::of(Vec::from_slice(alloc, values)?)),
    };
    match turn.trade(rt, pass, batch) {
        Ok(traded) => Ok(traded),
        Err(_) => Err(Fail::new("no memory")),
    }
}

/// Trades a lemma by a pass that has seen nothing: a bound, atoms, `:` and hints. It has to be
/// proper.
pub(crate) fn teach<R: Wait>(
    rt: &R,
    alloc: Global,
    problem: &Problem,
    turn: &Turn,
    pass: &mut Pass,
    words: &str,
) -> Result<Traded, Fail>
    requires own { IsPassOf turn.now pass.old }
    requires problem { turn.now.problem ≡ problem.now }
    requires unseen { pass.old.told ≡ [] }
    ensures own { IsPassOf turn.now pass.new }
    ensures same { IsSamePass pass.old pass.new }
{
    if !may_trade(pass) {
        return Err(Fail::new("no trade left"));
    }
    let by = pass.number();
    let batch = Batch {
        by,
        lemmas: Seq::of(vec![in alloc; lemma(alloc, by, words)?]?),
        candidate: None,
    };
    if !is_proper(alloc, problem, &[], &batch)? {
        return Err(Fail::new("no lemma of the problem"));
    }
    match turn.trade(rt, pass, batch) {
        Ok(traded) => Ok(traded),
        Err(_) => Err(Fail::new("no memory")),
    }
}

/// Whether a candidate was kept with this ordinal, at this place, and so many entries were news.
pub(crate) fn is_kept(traded: &Traded, ordinal: u64, place: u64, told: u64) -> bool {
    match traded {
        Traded::Closed { .. } => false,
        Traded::Landed { news, first, fate } => {
            *first == place && news.as_slice().len() as u64 == told && has_ordinal(fate, ordinal)
        }
    }
}

fn has_ordinal(fate: &Option<Fate>, wanted: u64) -> bool {
    match fate {
        Some(Fate::Kept { ordinal }) => *ordinal == wanted,
        _ => false,
    }
}

/// Whether a candidate is behind the best with this ordinal and these values, and so many entries
/// were news.
pub(crate) fn is_behind(traded: &Traded, wanted: u64, best: &[i64], told: u64) -> bool {
    match traded {
        Traded::Closed { .. } => false,
        Traded::Landed { news, fate, .. } => {
            news.as_slice().len() as u64 == told && has_best(fate, wanted, best)
        }
    }
}

fn has_best(fate: &Option<Fate>, wanted: u64, best: &[i64]) -> bool {
    match fate {
        Some(Fate::Behind { ordinal, values }) => {
            *ordinal == wanted && values.as_slice() == best
        }
        _ => false,
    }
}

/// Whether a log has one entry, the best of this worker with these values.
pub(crate) fn is_one_best(log: &Log, worker: u32, wanted: &[i64]) -> bool {
    match log.entries().split_first() {
        None => false,
        Some((entry, rest)) => rest.is_empty() && is_best(entry, worker, wanted),
    }
}

fn is_best(entry: &Entry, worker: u32, wanted: &[i64]) -> bool {
    match entry {
        Entry::Best { by, values } => *by == worker && values.as_slice() == wanted,
        Entry::Lemma { .. } => false,
    }
}

/// Splits off the pass with this number and, while it is out, all further ones; each offers a
/// candidate that is one better, the last one first. Whether each was kept at its place.
pub(crate) fn nest<R: Wait>(
    rt: &R,
    alloc: Global,
    problem: &Problem,
    turn: &Turn,
    first: &mut Pass,
    number: u32,
) -> Result<bool, Fail>
    requires own { IsPassOf turn.now first.old }
    requires problem { turn.now.problem ≡ problem.now }
    requires first { first.old.number ≡ 0 }
    requires number { first.old.splits + 1 ≡ number }
    requires workers { turn.now.workers ≡ 16 }
    ensures own { IsPassOf turn.now first.new }
    ensures first { first.new.number ≡ 0 }
{
    if number >= MAX_WORKERS {
        return Ok(true);
    }
    let mut other = turn.split(first);
    let later = nest(rt, alloc, problem, turn, first, number + 1)?;
    let values = [i64::from(number)];
    let traded = offer(rt, alloc, problem, turn, &mut other, &values)?;
    turn.join(first, other);
    let before = u64::from(15 - number);
    Ok(later && is_kept(&traded, before + 1, before + 1, before))
}
