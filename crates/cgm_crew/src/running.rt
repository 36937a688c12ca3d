//! The runs of the workers.
ghost use Rattle.std.specs.Prelude.{◌≡◌, ℕ, ◌<◌, [], ◌∷◌, ◌++◌, length, vec_len, slice_index_or, IfOk};
ghost use Rattle.std.specs.List.{All};
ghost use Rattle.cgm_crew.specs.declared.crews.Crew.{Crew};
ghost use Rattle.cgm_crew.specs.Workers.{HasEnded, IsDone, IsLead, IsOther, IsRunOf};
ghost use Rattle.cgm_turn.specs.Passes.{TurnState};

use cgm_base::OutOfMemory;
use cgm_search::{Gate, Worker};
use cgm_turn::Seated;
use std::marker::Sync;
use std::sync::Wait;
use std::thread;
use std::thread::Threads;

/// How many threads run at most.
const MAX_THREADS: usize = 16;

fn run_one<'t, R: Wait, G: Gate>(worker: &mut Worker<Seated<'t, R>>, gate: &G)
    ensures { IsRunOf worker.old worker.new }
{
    worker.run(gate);
}

/// Runs each worker, in a thread of its own where one can be made.
fn run_each<'t, R: Threads + Wait + Sync, G: Gate>(
    rt: &R,
    workers: &mut [Worker<Seated<'t, R>>],
    gate: &G,
)
    ensures { (i : ℕ) (d : _) → i < length workers.old
        → IsRunOf (slice_index_or workers.old i d) (slice_index_or workers.new i d) }
{
    thread::for_each_mut(rt, workers, MAX_THREADS, &|_, worker| run_one(worker, gate));
}

fn push_last<T: Drop>(items: Vec<T>, last: T) -> Result<Vec<T>, OutOfMemory>
    ensures { IfOk result (λ v. v.items ≡ items.items ++ last ∷ []) }
{
    let mut items = items;
    items.push(last)?;
    Ok(items)
}

fn take_last<T>(items: Vec<T>) -> (T, Vec<T>)
    requires { 0 < vec_len items }
    ensures { items.items ≡ result.1.items ++ result.0 ∷ [] }
{
    let mut items = items;
    let last = items.pop().unwrap();
    (last, items)
}

fn run_vec<'t, R: Threads + Wait + Sync, G: Gate>(
    rt: &R,
    workers: Vec<Worker<Seated<'t, R>>>,
    gate: &G,
) -> Vec<Worker<Seated<'t, R>>>
    ensures each { (i : ℕ) (d : _) → i < length workers.entry.items
        → IsRunOf (slice_index_or workers.entry.items i d) (slice_index_or result.items i d) }
    ensures count { vec_len result ≡ vec_len workers.entry }
    ensures long { length result.items ≡ length workers.entry.items }
{
    let mut workers = workers;
    run_each(rt, workers.as_mut_slice(), gate);
    workers
}

/// Runs the workers.
fn run_all<'t, R: Threads + Wait + Sync, G: Gate>(
    rt: &R,
    lead: Worker<Seated<'t, R>>,
    others: Vec<Worker<Seated<'t, R>>>,
    gate: &G,
) -> Result<(Worker<Seated<'t, R>>, Vec<Worker<Seated<'t, R>>>), OutOfMemory>
    ensures lead { IfOk result (λ r. IsRunOf lead.entry r.0) }
    ensures others { IfOk result (λ r. (i : ℕ) (d : _) → i < length others.entry.items
        → IsRunOf (slice_index_or others.entry.items i d) (slice_index_or r.1.items i d)) }
    ensures count { IfOk result (λ r. vec_len r.1 ≡ vec_len others.entry) }
    ensures long { IfOk result (λ r. length r.1.items ≡ length others.entry.items) }
{
    let all = push_last(others, lead)?;
    let all = run_vec(rt, all, gate);
    Ok(take_last(all))
}

/// What the runs left of the workers. Where there is no memory for a list of all, none runs.
pub(crate) fn run_crew<'t, R: Threads + Wait + Sync, G: Gate>(
    rt: &R,
    lead: Worker<Seated<'t, R>>,
    others: Vec<Worker<Seated<'t, R>>>,
    gate: &G,
) -> Result<(Worker<Seated<'t, R>>, Vec<Worker<Seated<'t, R>>>), OutOfMemory>
    ensures lead { IfOk result (λ r. (turn : TurnState) (crew : Crew)
        → IsLead turn crew lead.entry → IsLead turn crew r.0) }
    ensures lead_ended { IfOk result (λ r. HasEnded r.0) }
    ensures others { IfOk result (λ r. (turn : TurnState) (crew : Crew)
        → All (IsOther turn crew) others.entry.items → All (IsDone turn crew) r.1.items) }
    ensures count { IfOk result (λ r. vec_len r.1 ≡ vec_len others.entry) }
    ensures long { IfOk result (λ r. length r.1.items ≡ length others.entry.items) }
{
    let (lead, others) = run_all(rt, lead, others, gate)?;
    Ok((lead, others))
}
