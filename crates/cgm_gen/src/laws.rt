//! Laws of generated models. Each function does nothing: its contract is the law.
ghost use Rattle.cgm_gen.specs.Laws.{GeneratedHasLeast, GeneratedIsRead, GeneratedIsRealized, GeneratedIsShort};

/// The text of each generated model is a text of the model that is written out for it.
pub fn generated_is_read()
    ensures { GeneratedIsRead }
{}

/// It is short enough to be read.
pub fn generated_is_short()
    ensures { GeneratedIsShort }
{}

/// The assignment that takes the cheaper task of each goal is a realization of this model, with the
/// stated cost.
pub fn generated_is_realized()
    ensures { GeneratedIsRealized }
{}

/// No realization of this model costs less.
pub fn generated_has_least()
    ensures { GeneratedHasLeast }
{}
