//! The core: a log, and how much of it each worker that is in has seen.
ghost use Rattle.std.specs.Prelude.{◌≡◌, IfOk, IfErr, OnOk, OnErr, Some};
ghost use Rattle.cgm_log.specs.Events.{AreAllowedEvents, IsAllowedEvent, after_event, after_events, begin, seen_by};
ghost use Rattle.cgm_log.specs.declared.events.Event.TheVariants.{Enter, Trade, Look, Leave};
ghost use Rattle.cgm_core.specs.Stops.{IsCoreStop, IsReplayStop};

use crate::batches::is_proper;
use crate::stops::CoreStop;
use cgm_atom::{MAX_WORKERS, Problem};
use cgm_base::OutOfMemory;
use cgm_log::{Batch, Event, Log};
use std::alloc::Global;
use std::marker::Model;

/// A log, and for each worker that is in how many of its entries that worker has seen.
#[derive(Drop)]
pub struct Core {
    alloc: Global,
    log: Log,
    fronts_seen: Vec<Option<u64>>,
}

impl Model for Core {
    ghost use Rattle.cgm_log.specs.Events.{CoreState};

    ghost Value = { CoreState };

    ghost use Rattle.cgm_core.specs.CoreParts.{IsCoreInside, core_state};

    ghost view = { core_state };

    ghost invariant = { IsCoreInside };
}

impl Core {
    /// The core of a problem: no entries, and no worker is in.
    pub fn new(alloc: Global, problem: Problem) -> Result<Core, OutOfMemory>
        ensures { IfOk result (λ c. c ≡ begin problem) }
    {
        let fronts_seen = vec![in alloc; None; MAX_WORKERS as usize]?;
        Ok(Core {
            alloc,
            log: Log::new(alloc, problem),
            fronts_seen,
        })
    }

    /// The log.
    pub fn log(&self) -> &Log
        ensures problem { result.now.problem ≡ self.now.problem }
        ensures entries { result.now.entries ≡ self.now.log }
    {
        &self.log
    }

    /// How many entries the worker has seen, if it is in.
    pub fn seen(&self, worker: u32) -> Option<u64>
        ensures { result ≡ seen_by self.now worker }
    {
        match self.fronts_seen.get(worker as usize) {
            Some(seen) => *seen,
            None => None,
        }
    }

    /// Takes the event, if it is allowed. Otherwise, and without memory, the core stays as it was.
    pub fn step(&mut self, event: Event) -> Result<(), CoreStop>
        ensures ok { OnOk result
            (IsAllowedEvent self.old event × (self.new ≡ after_event self.old event)) }
        ensures err { IfErr result (λ stop. IsCoreStop self.old event stop) }
        ensures same { OnErr result (self.new ≡ self.old) }
    {
        match event {
            Event::Enter { worker } => self.enter(worker),
            Event::Trade { worker, batch } => self.trade(worker, batch),
            Event::Look { worker, length } => self.look(worker, length),
            Event::Leave { worker } => self.leave(worker),
        }
    }

    fn enter(&mut self, worker: u32) -> Result<(), CoreStop>
        ensures ok { OnOk result (IsAllowedEvent self.old (Enter worker)
            × (self.new ≡ after_event self.old (Enter worker))) }
        ensures err { IfErr result (λ stop. IsCoreStop self.old (Enter worker) stop) }
        ensures same { OnErr result (self.new ≡ self.old) }
    {
        if worker >= MAX_WORKERS {
            return Err(CoreStop::Illegal { place: 1 });
        }
        match self.seen(worker) {
            Some(_) => Err(CoreStop::Illegal { place: 1 }),
            None => {
                self.fronts_seen[worker as usize] = Some(0);
                Ok(())
            }
        }
    }

    fn leave(&mut self, worker: u32) -> Result<(), CoreStop>
        ensures ok { OnOk result (IsAllowedEvent self.old (Leave worker)
            × (self.new ≡ after_event self.old (Leave worker))) }
        ensures err { IfErr result (λ stop. IsCoreStop self.old (Leave worker) stop) }
        ensures same { OnErr result (self.new ≡ self.old) }
    {
        match self.seen(worker) {
            None => Err(CoreStop::Illegal { place: 1 }),
            Some(_) => {
                self.fronts_seen[worker as usize] = None;
                Ok(())
            }
        }
    }

    fn look(&self, worker: u32, length: u64) -> Result<(), CoreStop>
        ensures ok { OnOk result (IsAllowedEvent self.now (Look worker length)) }
        ensures err { IfErr result (λ stop. IsCoreStop self.now (Look worker length) stop) }
    {
        match self.seen(worker) {
            None => Err(CoreStop::Illegal { place: 1 }),
            Some(seen) => {
                if seen <= length && length <= self.log.entries().len() as u64 {
                    return Ok(());
                }
                Err(CoreStop::Illegal { place: 1 })
            }
        }
    }

    fn trade(&mut self, worker: u32, batch: Batch) -> Result<(), CoreStop>
        ensures ok { OnOk result (IsAllowedEvent self.old (Trade worker batch)
            × (self.new ≡ after_event self.old (Trade worker batch))) }
        ensures err { IfErr result (λ stop. IsCoreStop self.old (Trade worker batch) stop) }
        ensures same { OnErr result (self.new ≡ self.old) }
    {
        match self.seen(worker) {
            None => Err(CoreStop::Illegal { place: 1 }),
            Some(seen) => self.trade_after(worker, seen, batch),
        }
    }

    /// The trade of a worker that has seen so many entries. That it is allowed is tested on these,
    /// and not on the whole log: a batch may be proper after more entries than its worker knew.
    fn trade_after(&mut self, worker: u32, seen: u64, batch: Batch) -> Result<(), CoreStop>
        requires { seen_by self.old worker ≡ Some seen }
        ensures ok { OnOk result (IsAllowedEvent self.old (Trade worker batch)
            × (self.new ≡ after_event self.old (Trade worker batch))) }
        ensures err { IfErr result (λ stop. IsCoreStop self.old (Trade worker batch) stop) }
        ensures same { OnErr result (self.new ≡ self.old) }
    {
        if batch.by != worker {
            return Err(CoreStop::Illegal { place: 1 });
        }
        self.log.recall_log();
        let (front, _) = self.log.entries().split_at(seen as usize);
        match is_proper(self.alloc, self.log.problem(), front, &batch) {
            Err(_) => Err(CoreStop::Memory),
            Ok(false) => Err(CoreStop::Illegal { place: 1 }),
            Ok(true) => match self.log.trade(seen, batch) {
                Err(_) => Err(CoreStop::Memory),
                Ok(_) => {
                    self.fronts_seen[worker as usize] = Some(self.log.entries().len() as u64);
                    Ok(())
                }
            },
        }
    }
}

/// The core after all events, or the place, from 1, of the first that isn't allowed.
pub fn replay(alloc: Global, problem: Problem, events: Vec<Event>) -> Result<Core, CoreStop>
    ensures ok { IfOk result (λ c. AreAllowedEvents (begin problem) events.items
        × (c ≡ after_events (begin problem) events.items)) }
    ensures err { IfErr result (λ stop. IsReplayStop (begin problem) events.items stop) }
{
    let mut core = match Core::new(alloc, problem) {
        Ok(core) => core,
        Err(_) => return Err(CoreStop::Memory),
    };
    for (i, event) in events.into_iter().enumerate() {
        match core.step(event) {
            Ok(()) => {}
            Err(CoreStop::Memory) => return Err(CoreStop::Memory),
            Err(CoreStop::Illegal { .. }) => {
                return Err(CoreStop::Illegal {
                    place: i as u64 + 1,
                });
            }
        }
    }
    Ok(core)
}
