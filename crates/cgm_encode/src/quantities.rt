//! The objectives of a model as expressions.
ghost use Rattle.std.specs.Prelude.{◌≡◌, ◌<◌, ◌≤◌, ◌^◌, ◌++◌, length, map, pos, negsuc, neg_ℤ, cond, count_by, unsigned_abs, All, IfOk, OnOk};
ghost use Rattle.cgm_model.specs.Model.{lists_of};
ghost use Rattle.cgm_model.specs.Statement.{IsKnownQuantity};
ghost use Rattle.cgm_evolve.specs.Costs.{elements_of_interest as elements_of_interest_in};
ghost use Rattle.cgm_encode.specs.Building.{expression_of};
ghost use Rattle.cgm_encode.specs.Summands.{AreSummandsOf, AreVariablesOfPreferences, IsFitting};
ghost use Rattle.cgm_encode.specs.Quantities as quantities;
ghost use Rattle.cgm_encode.specs.Quantities.{objective_total, ones as ones_of, quantity_total};
ghost use Rattle.cgm_encode.specs.Totals.{opposite_total};
ghost use Rattle.cgm_encode.specs.Variables.{first_objective};

use crate::expressions::{Expression, combined_terms};
use crate::interest::{
    elements_of_interest, free_requirements, leaf_tasks, possible_work, was_true_before,
};
use crate::names::{own_variable, sum_variable};
use cgm_atom::Seq;
use cgm_base::OutOfMemory;
use cgm_evolve::Earlier;
use cgm_model::{Model, Objective, Quantity, Weighing};
use std::alloc::Global;

/// Numbers for variables and a constant, which are to be added up.
#[derive(Drop)]
pub(crate) struct Summands {
    pub(crate) shares: Seq<(i64, u32)>,
    pub(crate) constant: i64,
}

/// What each objective is over the variables before the objectives, by the variables of the preferences.
pub(crate) fn objective_expressions(
    alloc: Global,
    model: &Model,
    earlier: &Earlier,
    preferences: &[u32],
) -> Result<Vec<Expression>, OutOfMemory>
    requires { AreVariablesOfPreferences (lists_of model.now) preferences.now }
    ensures { IfOk result (λ es. es.items ≡ map (λ o. expression_of
        (first_objective (lists_of model.now)) (objective_total (lists_of model.now)
        earlier.now.pairs o)) model.now.objectives) }
{
    let objectives = objectives(model, earlier);
    let mut expressions = Vec::with_capacity(alloc, objectives.len())?;
    for o in objectives {
        expressions.push(objective_expression(alloc, model, earlier, preferences, *o)?)?;
    }
    Ok(expressions)
}

/// The objectives, whose numbers fit.
fn objectives<'m>(model: &'m Model, earlier: &Earlier) -> &'m [Objective]
    ensures items { result.now ≡ model.now.objectives }
    ensures fitting { All (IsFitting (lists_of model.now) earlier.now.pairs) result.now }
{
    model.objectives.as_slice()
}

/// The quantity for `min`, and with its sign changed for `max`.
fn objective_expression(
    alloc: Global,
    model: &Model,
    earlier: &Earlier,
    preferences: &[u32],
    objective: Objective,
) -> Result<Expression, OutOfMemory>
    requires preferences { AreVariablesOfPreferences (lists_of model.now) preferences.now }
    requires fitting { IsFitting (lists_of model.now) earlier.now.pairs objective }
    ensures { IfOk result (λ x. x ≡ expression_of (first_objective (lists_of model.now))
        (objective_total (lists_of model.now) earlier.now.pairs objective)) }
{
    let summands = objective_summands(alloc, model, earlier, preferences, objective)?;
    let terms = combined_terms(alloc, summands.shares.as_slice())?;
    Ok(Expression {
        terms: Seq::of(terms),
        constant: summands.constant,
    })
}

fn objective_summands(
    alloc: Global,
    model: &Model,
    earlier: &Earlier,
    preferences: &[u32],
    objective: Objective,
) -> Result<Summands, OutOfMemory>
    requires preferences { AreVariablesOfPreferences (lists_of model.now) preferences.now }
    requires fitting { IsFitting (lists_of model.now) earlier.now.pairs objective }
    ensures { IfOk result (λ s. AreSummandsOf s (objective_total (lists_of model.now)
        earlier.now.pairs objective)) }
{
    let summands = summands_of(alloc, model, earlier, preferences, objective.of)?;
    if objective.max {
        return opposite(alloc, &summands);
    }
    Ok(summands)
}

/// The summands with their signs changed.
fn opposite(alloc: Global, summands: &Summands) -> Result<Summands, OutOfMemory>
    requires shares { All (λ s. unsigned_abs s.0 < 2 ^ 63) summands.now.shares }
    requires constant { unsigned_abs summands.now.constant < 2 ^ 63 }
    ensures { IfOk result (λ s. AreSummandsOf s (opposite_total
        (record { shares = summands.now.shares; constant = summands.now.constant }))) }
{
    let shares = opposite_shares(alloc, summands.shares.as_slice())?;
    Ok(Summands {
        shares: Seq::of(shares),
        constant: -summands.constant,
    })
}

fn opposite_shares(alloc: Global, shares: &[(i64, u32)]) -> Result<Vec<(i64, u32)>, OutOfMemory>
    requires { All (λ s. unsigned_abs s.0 < 2 ^ 63) shares.now }
    ensures { IfOk result (λ opposites. opposites.items ≡ map (λ s. (neg_ℤ s.0, s.1)) shares.now) }
{
    let mut opposites = Vec::with_capacity(alloc, shares.len())?;
    for share in shares {
        opposites.push(opposite_share(share))?;
    }
    Ok(opposites)
}

fn opposite_share(share: &(i64, u32)) -> (i64, u32)
    requires { unsigned_abs share.now.0 < 2 ^ 63 }
    ensures { result ≡ (neg_ℤ share.now.0, share.now.1) }
{
    (-share.0, share.1)
}

fn summands_of(
    alloc: Global,
    model: &Model,
    earlier: &Earlier,
    preferences: &[u32],
    quantity: Quantity,
) -> Result<Summands, OutOfMemory>
    requires preferences { AreVariablesOfPreferences (lists_of model.now) preferences.now }
    requires known { IsKnownQuantity (lists_of model.now) quantity }
    ensures { IfOk result (λ s. AreSummandsOf s (quantity_total (lists_of model.now)
        earlier.now.pairs quantity)) }
{
    match quantity {
        Quantity::Var(k) => ones(alloc, &[own_variable(model, k)]),
        Quantity::Sum(k) => ones(alloc, &[sum_variable(model, k)]),
        Quantity::Weight => weights(alloc, model),
        Quantity::UnsatPrefs => ones(alloc, preferences),
        Quantity::UnsatReqs => missed(alloc, free_requirements(alloc, model)?.as_slice()),
        Quantity::SatTasks => ones(alloc, leaf_tasks(alloc, model)?.as_slice()),
        Quantity::Familiarity => familiarity(alloc, model, earlier),
        Quantity::Effort => ones(alloc, possible_work(alloc, model, earlier)?.as_slice()),
    }
}

/// 1 for each variable.
fn ones(alloc: Global, variables: &[u32]) -> Result<Summands, OutOfMemory>
    ensures { IfOk result (λ s. AreSummandsOf s (quantities.plain (ones_of variables.now))) }
{
    let mut shares = Vec::with_capacity(alloc, variables.len())?;
    for x in variables {
        shares.push((1, *x))?;
    }
    Ok(Summands {
        shares: Seq::of(shares),
        constant: 0,
    })
}

/// -1 for each variable, and the number of variables.
fn missed(alloc: Global, variables: &[u32]) -> Result<Summands, OutOfMemory>
    requires { length variables.now < 2 ^ 63 }
    ensures { IfOk result (λ s. AreSummandsOf s (record {
      shares = map (λ e. (negsuc 0, e)) variables.now;
      constant = pos (length variables.now);
    })) }
{
    let mut shares = Vec::with_capacity(alloc, variables.len())?;
    for x in variables {
        shares.push((-1, *x))?;
    }
    Ok(Summands {
        shares: Seq::of(shares),
        constant: variables.len() as i64,
    })
}

/// The number of each penalty, and that of each reward with its sign changed, for its element.
fn weights(alloc: Global, model: &Model) -> Result<Summands, OutOfMemory>
    ensures { IfOk result (λ s. AreSummandsOf s (quantities.plain
        (map (λ w. (w.k, w.element)) model.now.penalties ++ map (λ w. (neg_ℤ w.k, w.element))
        model.now.rewards))) }
{
    let mut shares = Vec::new(alloc);
    push_penalties(&mut shares, model.penalties.as_slice())?;
    push_rewards(&mut shares, rewards(model))?;
    Ok(Summands {
        shares: Seq::of(shares),
        constant: 0,
    })
}

fn rewards(model: &Model) -> &[Weighing]
    ensures items { result.now ≡ model.now.rewards }
    ensures small { All (λ w. unsigned_abs w.k ≤ 1000000) result.now }
{
    model.rewards.as_slice()
}

fn push_penalties(shares: &mut Vec<(i64, u32)>, penalties: &[Weighing]) -> Result<(), OutOfMemory>
    ensures { OnOk result (shares.new.items ≡ shares.old.items ++ map (λ w. (w.k, w.element))
        penalties.now) }
{
    for w in penalties {
        shares.push((w.k, w.element))?;
    }
    Ok(())
}

fn push_rewards(shares: &mut Vec<(i64, u32)>, rewards: &[Weighing]) -> Result<(), OutOfMemory>
    requires { All (λ w. unsigned_abs w.k ≤ 1000000) rewards.now }
    ensures { OnOk result (shares.new.items ≡ shares.old.items ++ map (λ w. (neg_ℤ w.k, w.element))
        rewards.now) }
{
    for w in rewards {
        shares.push(reward_share(w))?;
    }
    Ok(())
}

fn reward_share(weighing: &Weighing) -> (i64, u32)
    requires { unsigned_abs weighing.now.k ≤ 1000000 }
    ensures { result ≡ (neg_ℤ weighing.now.k, weighing.now.element) }
{
    (-weighing.k, weighing.element)
}

/// For each element of interest -1 where it was true, which the constant counts, else 1.
fn familiarity(alloc: Global, model: &Model, earlier: &Earlier) -> Result<Summands, OutOfMemory>
    ensures { IfOk result (λ s. AreSummandsOf s (quantities.familiarity_total (lists_of model.now)
        earlier.now.pairs)) }
{
    let interest = elements_of_interest(alloc, model)?;
    let shares = changes(alloc, model, earlier, interest.as_slice())?;
    Ok(Summands {
        shares: Seq::of(shares),
        constant: true_before(model, earlier, interest.as_slice()) as i64,
    })
}

fn changes(
    alloc: Global,
    model: &Model,
    earlier: &Earlier,
    elements: &[u32],
) -> Result<Vec<(i64, u32)>, OutOfMemory>
    ensures { IfOk result (λ shares. shares.items ≡ map
        (λ x. (
          cond (quantities.was_true_before (lists_of model.now) earlier.now.pairs x) (negsuc 0)
              (pos 1),
          x,
        )) elements.now) }
{
    let mut shares = Vec::with_capacity(alloc, elements.len())?;
    for element in elements {
        shares.push(change(model, earlier, *element))?;
    }
    Ok(shares)
}

fn change(model: &Model, earlier: &Earlier, element: u32) -> (i64, u32)
    ensures { result ≡ (
      cond (quantities.was_true_before (lists_of model.now) earlier.now.pairs
          element) (negsuc 0) (pos 1),
      element,
    ) }
{
    if was_true_before(model, earlier, element) {
        (-1, element)
    } else {
        (1, element)
    }
}

/// How many of these elements were true.
fn true_before(model: &Model, earlier: &Earlier, elements: &[u32]) -> usize
    ensures count { result ≡ count_by (quantities.was_true_before (lists_of model.now)
        earlier.now.pairs) elements.now }
{
    elements
        .iter()
        .filter(|element| was_true_before(model, earlier, **element))
        .count()
}
