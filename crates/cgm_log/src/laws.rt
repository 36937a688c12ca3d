//! Laws over the definitions of landing. Each function does nothing: its contract is the law.
ghost use Rattle.cgm_log.specs.Laws.{ProperBatchesStay};

/// A batch that is proper after some entries is proper after more, where the log isn't closed.
pub fn proper_batches_stay()
    ensures { ProperBatchesStay }
{}
