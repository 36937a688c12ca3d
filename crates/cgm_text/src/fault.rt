//! Why a statement of a model text isn't taken.
ghost use Rattle.std.specs.Prelude.{◌≡◌};
ghost use Rattle.cgm_text.specs.Line.{refusal_kind};

use cgm_base::BadKind;
use cgm_model::Fault;

/// The kind of a refused statement.
pub(crate) fn refusal_kind(fault: Fault) -> BadKind
    ensures { result ≡ refusal_kind fault }
{
    match fault {
        Fault::Name => BadKind::Name,
        Fault::DoubleName => BadKind::DoubleName,
        Fault::CrossedBounds => BadKind::CrossedBounds,
        Fault::DoubleSource => BadKind::DoubleSource,
        Fault::DoubleTerm => BadKind::DoubleTerm,
        Fault::DoubleInterest => BadKind::DoubleInterest,
        Fault::TaskRefined => BadKind::TaskRefined,
        Fault::AssumptionRefined => BadKind::AssumptionRefined,
        Fault::Cycle => BadKind::Cycle,
    }
}
