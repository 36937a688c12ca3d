//! The words of statements and formulas, each in the type of its form.
ghost use Rattle.std.specs.Prelude.{◌≡◌};
ghost use Rattle.cgm_print.specs.Statements.{condition_word, direction_word, name_word, pair_word, sort_word, weight_word};
ghost use Rattle.cgm_print.specs.Written.{comparison_word, joint_word, pairing_word};

/// A word that takes one or more formulas.
#[derive(Clone, Copy)]
pub enum Joint {
    And,
    Or,
}

impl Joint {
    /// The word itself.
    pub fn word(self) -> &'static [u8]
        ensures { result.now ≡ joint_word self }
    {
        match self {
            Joint::And => b"and",
            Joint::Or => b"or",
        }
    }
}

/// A word that takes two formulas.
#[derive(Clone, Copy)]
pub enum Pairing {
    Implies,
    Iff,
}

impl Pairing {
    /// The word itself.
    pub fn word(self) -> &'static [u8]
        ensures { result.now ≡ pairing_word self }
    {
        match self {
            Pairing::Implies => b"=>",
            Pairing::Iff => b"iff",
        }
    }
}

/// A word that takes a linear expression and a number.
#[derive(Clone, Copy)]
pub enum Comparison {
    AtMost,
    AtLeast,
    Equal,
}

impl Comparison {
    /// The word itself.
    pub fn word(self) -> &'static [u8]
        ensures { result.now ≡ comparison_word self }
    {
        match self {
            Comparison::AtMost => b"<=",
            Comparison::AtLeast => b">=",
            Comparison::Equal => b"=",
        }
    }
}

/// A statement word that takes one name and nothing else.
#[derive(Clone, Copy)]
pub enum NameWord {
    Task,
    Assume,
    Sum,
    Interest,
}

impl NameWord {
    /// The word itself.
    pub fn word(self) -> &'static [u8]
        ensures { result.now ≡ name_word self }
    {
        match self {
            NameWord::Task => b"task",
            NameWord::Assume => b"assume",
            NameWord::Sum => b"sum",
            NameWord::Interest => b"interest",
        }
    }
}

/// A statement word that takes two names.
#[derive(Clone, Copy)]
pub enum PairWord {
    Contrib,
    Conflict,
    Bind,
    Prefer,
}

impl PairWord {
    /// The word itself.
    pub fn word(self) -> &'static [u8]
        ensures { result.now ≡ pair_word self }
    {
        match self {
            PairWord::Contrib => b"contrib",
            PairWord::Conflict => b"conflict",
            PairWord::Bind => b"bind",
            PairWord::Prefer => b"prefer",
        }
    }
}

/// A statement word that takes a name and a number.
#[derive(Clone, Copy)]
pub enum WeightWord {
    Reward,
    Penalty,
}

impl WeightWord {
    /// The word itself.
    pub fn word(self) -> &'static [u8]
        ensures { result.now ≡ weight_word self }
    {
        match self {
            WeightWord::Reward => b"reward",
            WeightWord::Penalty => b"penalty",
        }
    }
}

/// A statement word that takes a name and a formula.
#[derive(Clone, Copy)]
pub enum ConditionWord {
    Positive,
    Negative,
}

impl ConditionWord {
    /// The word itself.
    pub fn word(self) -> &'static [u8]
        ensures { result.now ≡ condition_word self }
    {
        match self {
            ConditionWord::Positive => b"pre+",
            ConditionWord::Negative => b"pre-",
        }
    }
}

/// A statement word.
#[derive(Clone, Copy)]
pub enum Sort {
    Goal,
    Name(NameWord),
    Refine,
    Pair(PairWord),
    Assert,
    Var,
    Value,
    Weight(WeightWord),
    Condition(ConditionWord),
    Require,
    Objective,
}

impl Sort {
    /// The word itself.
    pub fn word(self) -> &'static [u8]
        ensures { result.now ≡ sort_word self }
    {
        match self {
            Sort::Goal => b"goal",
            Sort::Name(what) => what.word(),
            Sort::Refine => b"refine",
            Sort::Pair(what) => what.word(),
            Sort::Assert => b"assert",
            Sort::Var => b"var",
            Sort::Value => b"value",
            Sort::Weight(what) => what.word(),
            Sort::Condition(what) => what.word(),
            Sort::Require => b"require",
            Sort::Objective => b"objective",
        }
    }
}

/// Which vectors an objective prefers.
#[derive(Clone, Copy)]
pub enum Direction {
    Min,
    Max,
}

impl Direction {
    /// The word itself.
    pub fn word(self) -> &'static [u8]
        ensures { result.now ≡ direction_word self }
    {
        match self {
            Direction::Min => b"min",
            Direction::Max => b"max",
        }
    }
}
