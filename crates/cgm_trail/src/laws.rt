//! Laws over the definitions. Each function does nothing: its contract is the law.
ghost use Rattle.cgm_trail.specs.Laws.{CutsKeepLevels, LandedHintsArePlaced, LevelsAreChanges, LevelsAreCounted, MovesAreFew, MovesRaiseRank, RankIsBounded};

/// The levels of a trail, one after another, are its changes.
pub fn levels_are_changes()
    ensures { LevelsAreChanges }
{}

/// There is level 0, and one level more for each decision.
pub fn levels_are_counted()
    ensures { LevelsAreCounted }
{}

/// A cut to a level keeps this level and those before it.
pub fn cuts_keep_levels()
    ensures { CutsKeepLevels }
{}

/// A tightening, a decision and a jump raise the rank.
pub fn moves_raise_rank()
    ensures { MovesRaiseRank }
{}

/// The rank is at most `2^(S + 1) - 2`, where S is the slack of the problem's bounds.
pub fn rank_is_bounded()
    ensures { RankIsBounded }
{}

/// A trail with so many restarts has fewer moves than `(restarts + 1) * 2^(S + 1)`, where S is the
/// slack of its problem's bounds. So a budget of at least that many moves is never spent.
pub fn moves_are_few()
    ensures { MovesAreFew }
{}

/// Where n entries stand before the first of the lemmas that landed, a landed hint is the hint
/// placed after n entries.
pub fn landed_hints_are_placed()
    ensures { LandedHintsArePlaced }
{}
