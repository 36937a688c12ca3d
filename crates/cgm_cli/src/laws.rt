//! Laws over the outcomes of commands. Each function does nothing: its contract is the law.
ghost use Rattle.cgm_cli.specs.Laws.{CertificatesAreAccepted, CheckCompletes, EncodeCompletes, ShowCompletes, SolveCompletes, TrialCompletes};

/// Where the files have a model with a problem, and neither the shelf nor the sink fails, `solve`
/// answers `Done`, `Unrealizable` or `Open`, or wants memory. `Open` comes only where the budget can be
/// spent.
pub fn solve_completes()
    ensures { SolveCompletes }
{}

/// Where the certificate is there too, `check` answers `Done`, `Unrealizable`, `Certificate` or `Open`,
/// or wants memory.
pub fn check_completes()
    ensures { CheckCompletes }
{}

/// Over such files `encode` answers `Done`, or wants memory.
pub fn encode_completes()
    ensures { EncodeCompletes }
{}

/// Where the file has a model, with a problem or without, and neither the shelf nor the sink fails,
/// `show` answers `Done`, or wants memory.
pub fn show_completes()
    ensures { ShowCompletes }
{}

/// Where neither the shelf nor the sink fails, `trial` answers `Done` or `Open` for at most 2,000 goals
/// and `Limit` for more, or wants memory.
pub fn trial_completes()
    ensures { TrialCompletes }
{}

/// A later `check`, for the same bytes of the model and the earlier text and the certificate that
/// `solve` wrote, ends with the same status and the same report, or for `Open` with the same best,
/// unless a read, the sink or memory fails. It may find these files under other names, as it must
/// where the certificate was written over the model or the earlier text.
pub fn certificates_are_accepted()
    ensures { CertificatesAreAccepted }
{}
