//! Laws over every list of events. Each function does nothing: its contract is the law.
ghost use Rattle.cgm_core.specs.Laws.{EventsKeepLogs, LogsGrow};

/// Whatever allowed events come, in whatever order: the log is accepted, each lemma follows under
/// the bound that it names, each best is a solution and better than the one before, and what each
/// worker has seen is a front of the log.
pub fn events_keep_logs()
    ensures { EventsKeepLogs }
{}

/// The log after events begins with the log before them.
pub fn logs_grow()
    ensures { LogsGrow }
{}
