//! The end of a crew: all passes are joined to the first.
ghost use Rattle.std.specs.Prelude.{◌≡◌, Some, ◌+◌, ◌≤◌, [], vec_len, vec_capacity, IfOk};
ghost use Rattle.std.specs.List.{All};
ghost use Rattle.cgm_crew.specs.Crews.{IsCrew, plan_of};
ghost use Rattle.cgm_crew.specs.Ends.{ArePlacesFor, IsJoining, IsOwnEnd};
ghost use Rattle.cgm_crew.specs.Workers.{HasEnded, IsDone, IsLead};
ghost use Rattle.cgm_turn.specs.Passes.{home_of};

use crate::crews::Crew;
use cgm_base::OutOfMemory;
use cgm_search::{Stopped, Worker};
use cgm_trail::Trail;
use cgm_turn::{Pass, Seated, Turn};
use std::alloc::Global;
use std::sync::Wait;

/// How the workers' runs ended, each with its trail.
#[derive(Drop)]
pub(crate) struct Places {
    pub(crate) stopped: Vec<Stopped>,
    pub(crate) trails: Vec<Trail>,
}

/// The first pass, to which all others were joined, and how their workers ended.
#[derive(Drop)]
pub(crate) struct Ended {
    pub(crate) first: Pass,
    pub(crate) places: Places,
}

/// The parts of a worker whose run ended.
struct Left {
    pass: Pass,
    stopped: Stopped,
    trail: Trail,
}

/// Room for what is told of each worker of the crew.
pub(crate) fn places_for(alloc: Global, crew: Crew) -> Result<Places, OutOfMemory>
    ensures { IfOk result (ArePlacesFor crew) }
{
    let count = crew.workers as usize;
    let stopped = Vec::with_capacity(alloc, count)?;
    let trails = Vec::with_capacity(alloc, count)?;
    Ok(Places { stopped, trails })
}

fn parts<'t, R: Wait>(turn: &Turn, crew: Crew, worker: Worker<Seated<'t, R>>) -> Left
    requires ended { HasEnded worker }
    requires problem { worker.seat.problem ≡ turn.now.problem }
    requires plan { worker.plan ≡ plan_of crew }
    ensures own { IsOwnEnd turn.now.problem (plan_of crew) result.pass result.stopped result.trail }
    ensures problem { result.pass.problem ≡ turn.now.problem }
    ensures number { Some result.pass.number ≡ worker.entry.seat.number }
    ensures home { home_of result.pass ≡ worker.entry.home }
{
    let stopped = worker.stopped().unwrap();
    let (seated, trail) = worker.into_parts();
    let pass = seated.into_pass();
    Left {
        pass,
        stopped,
        trail,
    }
}

/// Joins the pass of a worker whose run ended to the first.
fn add<'t, R: Wait>(turn: &Turn, crew: Crew, ended: &mut Ended, worker: Worker<Seated<'t, R>>)
    requires worker { IsDone turn.now crew worker }
    requires joining { IsJoining turn.now crew ended.old }
    requires out { 1 ≤ ended.old.first.out }
    ensures joining { IsJoining turn.now crew ended.new }
    ensures out { ended.new.first.out + 1 ≡ ended.old.first.out }
{
    let Left {
        pass,
        stopped,
        trail,
    } = parts(turn, crew, worker);
    turn.join(&mut ended.first, pass);
    ended.places.stopped.push_reserved(stopped);
    ended.places.trails.push_reserved(trail);
}

/// The pass of the lead, with what is told of its worker.
fn begin<'t, R: Wait>(turn: &Turn, crew: Crew, lead: Worker<Seated<'t, R>>, places: Places) -> Ended
    requires lead { IsLead turn.now crew lead }
    requires lead_ended { HasEnded lead }
    requires crew { IsCrew crew }
    requires places { ArePlacesFor crew places }
    ensures joining { IsJoining turn.now crew result }
    ensures out { result.first.out + 1 ≡ crew.workers }
{
    let mut places = places;
    let Left {
        pass: first,
        stopped,
        trail,
    } = parts(turn, crew, lead);
    places.stopped.push_reserved(stopped);
    places.trails.push_reserved(trail);
    Ended { first, places }
}

/// Joins the passes of the others to that of the lead. Takes no memory.
pub(crate) fn end_all<'t, R: Wait>(
    turn: &Turn,
    crew: Crew,
    lead: Worker<Seated<'t, R>>,
    others: Vec<Worker<Seated<'t, R>>>,
    places: Places,
) -> Ended
    requires lead { IsLead turn.now crew lead }
    requires lead_ended { HasEnded lead }
    requires crew { IsCrew crew }
    requires count { vec_len others + 1 ≡ crew.workers }
    requires others { All (IsDone turn.now crew) others.items }
    requires places { ArePlacesFor crew places }
    ensures joining { IsJoining turn.now crew result }
    ensures out { result.first.out ≡ 0 }
{
    let mut ended = begin(turn, crew, lead, places);
    for worker in others {
        add(turn, crew, &mut ended, worker);
    }
    ended
}
