//! Laws over the definitions of the turn. Each function does nothing: its contract is the law.
ghost use Rattle.cgm_turn.specs.Laws.{TradesAreTheCores};

/// A trade at the turn is the core's: in the state of the core whose log is what the pass had seen
/// and the answer's news, the same trade is allowed, leaves the log that the pass has seen then, and
/// its worker has seen all of that log.
pub fn trades_are_the_cores()
    ensures { TradesAreTheCores }
{}
