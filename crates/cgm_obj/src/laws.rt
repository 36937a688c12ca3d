//! Laws of vectors.
ghost use Rattle.std.specs.Prelude.{◌≡◌, ◌≤◌, All, List, length, unsigned_abs};
ghost use Rattle.cgm_formula.specs.declared.assignment.Assignment.{Assignment};
ghost use Rattle.cgm_model.specs.declared.lists.Lists.{Lists};
ghost use Rattle.cgm_model.specs.Assignment.{Fits};
ghost use Rattle.cgm_model.specs.WellFormed.{IsWellFormedModel};
ghost use Rattle.cgm_evolve.specs.Pairs.{Pair};
ghost use Rattle.cgm_obj.specs.Vector.{vector_of};

/// The law that a vector has one number for each objective.
pub fn vector_has_a_number_for_each_objective()
    ensures { (m : Lists) (pairs : List Pair) (a : Assignment) → length (vector_of m pairs a)
        ≡ length m.objectives }
{}

/// The law that the numbers of the vector of an assignment that fits a model are at most 10^12 in size.
pub fn vector_is_small()
    ensures { (m : Lists) (pairs : List Pair) (a : Assignment) → IsWellFormedModel m → Fits m a
        → All (λ number. unsigned_abs number ≤ 1000000000000) (vector_of m pairs a) }
{}
