//! A pass as a trader.
ghost use Rattle.std.specs.Prelude.{◌≡◌, IsNone, IfSome};
ghost use Rattle.cgm_turn.specs.Passes.{IsPassOf, home_of, seat_of};

use crate::passes::{Pass, Turn};
use cgm_log::{Batch, Log, Refund, Traded, Trader};
use std::sync::Wait;

/// The trader of a pass. It waits with this handle.
#[derive(Drop)]
pub struct Seated<'t, R: Wait> {
    rt: &'t R,
    turn: &'t Turn,
    pass: Pass,
    ghost own: { IsPassOf turn.now pass },
}

impl<'t, R: Wait> Seated<'t, R> {
    /// The trader. Takes no memory. Condition: the pass is of this turn.
    pub fn new(rt: &'t R, turn: &'t Turn, pass: Pass) -> Seated<'t, R>
        requires { IsPassOf turn.now pass }
        ensures { result.pass ≡ pass }
    {
        Seated { rt, turn, pass }
    }

    /// Gives the pass back. Takes no memory.
    pub fn into_pass(self) -> Pass
        ensures { result ≡ self.entry.pass }
    {
        let Seated { pass, .. } = self;
        pass
    }
}

impl<'t, R: Wait> Trader for Seated<'t, R> {
    type Home = Pass;

    ghost seat = { λ s. seat_of s.pass };

    ghost home = { λ s. home_of s.pass };

    fn seen(&self) -> u64 {
        self.pass.seen()
    }

    fn trade(&mut self, batch: Batch) -> Result<Traded, Refund> {
        self.turn.trade(self.rt, &mut self.pass, batch)
    }

    /// Never: others may add to the log.
    fn into_log_if_alone(self) -> Option<Log>
        ensures never { IsNone result }
        ensures problem { IfSome result (λ log. log.problem ≡ self.entry.pass.problem) }
        ensures entries { IfSome result (λ log. log.entries ≡ self.entry.pass.told) }
    {
        let Seated { .. } = self;
        None
    }
}
