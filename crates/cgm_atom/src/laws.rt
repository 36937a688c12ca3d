//! Laws over the definitions. Each function does nothing: its contract is the law.
ghost use Rattle.std.specs.Prelude.{◌≡◌, ◌^◌, ◌∷◌, ℕ, List};
ghost use Rattle.cgm_atom.specs.declared.constraints.Clause.{Clause};
ghost use Rattle.cgm_atom.specs.declared.entries.Entry.TheVariants as entry;
ghost use Rattle.cgm_atom.specs.declared.entries.Hint.{Hint};
ghost use Rattle.cgm_atom.specs.declared.entries.Hint.TheVariants as hint;
ghost use Rattle.cgm_atom.specs.Laws.{AcceptedStatesGrow, AssumedKeepValues, BestsAreSolutions, BestsDescend, CarriedStays, ClauseKeepsValues, ClosedLogEnds, ClosedLogIsLeast, CutIsLess, LaterBoundsFollow, LemmasFollow, MadeTrueKeepsValues, NamesStay, NarrowingShrinks, RowKeepsValues, SmallerBoxesAssume, SmallerBoxesFollowHints, SmallerBoxesNarrow};
ghost use Rattle.cgm_atom.specs.Limits.{max_atom_number, max_batch_lemmas, max_bound, max_least, max_measure, max_objectives, max_workers};
ghost use Rattle.cgm_atom.specs.Placing.{PlacedArePlaced, PlacedCarryPending, PlacedComeBack, PlacedNamePending, PlacedStay};
ghost use Rattle.cgm_atom.specs.Ranges.{IsPrintable};

use crate::limits::{
    MAX_ATOM_NUMBER, MAX_BATCH_LEMMAS, MAX_BOUND, MAX_LEAST, MAX_MEASURE, MAX_OBJECTIVES,
    MAX_WORKERS,
};

/// The constants are the limits that the definitions speak of.
pub fn limits_are_defined()
    ensures bound { MAX_BOUND ≡ max_bound }
    ensures atom_number { MAX_ATOM_NUMBER ≡ max_atom_number }
    ensures measure { MAX_MEASURE ≡ max_measure }
    ensures least { MAX_LEAST ≡ max_least }
    ensures objectives { MAX_OBJECTIVES ≡ max_objectives }
    ensures workers { MAX_WORKERS ≡ max_workers }
    ensures batch_lemmas { MAX_BATCH_LEMMAS ≡ max_batch_lemmas }
{}

/// What a certificate can print is within the ranges of its text: no lemma with the bound 2^70
/// or with a hint to clause 2^40 is.
pub fn printable_numbers_fit()
    ensures bounds { (by : ℕ) (clause : Clause) (hints : List Hint) → ¬ IsPrintable
        (entry.Lemma by clause hints (2 ^ 70)) }
    ensures clauses { (by bound : ℕ) (clause : Clause) (hints : List Hint) → ¬ IsPrintable
        (entry.Lemma by clause (hint.Clause (2 ^ 40) ∷ hints) bound) }
{}

/// Values of a box that make an atom true are in what is left of the box where the atom is made true.
pub fn made_true_keeps_values()
    ensures { MadeTrueKeepsValues }
{}

/// Values of a box that make each of the atoms true are in what is left where the atoms are
/// assumed in their order, and there is no conflict.
pub fn assumed_atoms_keep_values()
    ensures { AssumedKeepValues }
{}

/// Values of a box that make a clause true are in what the clause leaves of the box.
/// So where it leaves conflict there are none.
pub fn clause_keeps_values()
    ensures { ClauseKeepsValues }
{}

/// Values of a box that meet a row are in what the row leaves of the box.
/// So where it leaves conflict there are none.
pub fn row_keeps_values()
    ensures { RowKeepsValues }
{}

/// What a clause or a row leaves of a box is a smaller box.
pub fn narrowing_shrinks()
    ensures { NarrowingShrinks }
{}

/// A clause or a row leaves of a smaller box a smaller box or conflict.
/// Where it leaves conflict of the larger box, it does so of the smaller.
pub fn smaller_boxes_narrow()
    ensures { SmallerBoxesNarrow }
{}

/// Atoms that are assumed in their order leave of a smaller box a smaller box or conflict.
pub fn smaller_boxes_assume()
    ensures { SmallerBoxesAssume }
{}

/// Hints in their order leave of a smaller box a smaller box or conflict.
pub fn smaller_boxes_follow_hints()
    ensures { SmallerBoxesFollowHints }
{}

/// The objective values are less than a vector exactly where each clause of the vector's cut is true.
pub fn cut_is_less()
    ensures { CutIsLess }
{}

/// In an accepted log what follows under a bound follows under each later bound.
pub fn later_bounds_follow()
    ensures { LaterBoundsFollow }
{}

/// Each lemma of an accepted log follows under the bound that it names, which is 0 or the ordinal of a best.
pub fn lemmas_follow()
    ensures { LemmasFollow }
{}

/// Each best of an accepted log is a solution.
pub fn bests_are_solutions()
    ensures { BestsAreSolutions }
{}

/// In an accepted log the vector of each best is less than that of the best before it.
pub fn bests_descend()
    ensures { BestsDescend }
{}

/// An accepted log is closed exactly where its last entry is a lemma without atoms.
pub fn closed_log_ends()
    ensures { ClosedLogEnds }
{}

/// The state of an accepted log, after one more entry that has no fault, is that of an accepted log.
pub fn accepted_states_grow()
    ensures { AcceptedStatesGrow }
{}

/// Of an accepted, closed log the last best is a solution, and no solution is less.
/// Without a best there is no solution.
pub fn closed_log_is_least()
    ensures { ClosedLogIsLeast }
{}

/// A hint that is placed comes back, where it names an entry before the pending lemmas or a pending lemma.
pub fn placed_hints_come_back()
    ensures { PlacedComeBack }
{}

/// A hint that names no pending lemma stays as it is when it is placed.
pub fn placed_hints_stay()
    ensures { PlacedStay }
{}

/// A placed hint names no pending lemma.
pub fn placed_hints_have_places()
    ensures { PlacedArePlaced }
{}

/// Where the pending lemmas, each placed, follow a log, a placed hint to one of them names its clause
/// and carries its bound.
pub fn placed_hints_name_pending_lemmas()
    ensures named { PlacedNamePending }
    ensures carried { PlacedCarryPending }
{}

/// A hint that names a clause or a row names it still where more entries follow, and carries what it carried.
pub fn hints_stay_in_longer_logs()
    ensures named { NamesStay }
    ensures carried { CarriedStays }
{}
