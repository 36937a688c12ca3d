// What orders decide: `order` has a seed, a worker and the decision on the trail's box, `all` a seed,
// a worker and how many decisions there are until all is fixed, `raise` a variable and how often it
// is raised, and `heaviest` the decision of the order by conflicts. `none` stands for no decision.
ghost use Rattle.std.specs.Prelude.{◌≡◌, ◌<◌, length, IfOk};
ghost use Rattle.cgm_atom.specs.Instance.{var_count};

use crate::steps::make;
use crate::words::{atom, count, is_count, parted, place};
use cgm_atom::{Atom, Hint, Problem, Var};
use cgm_split::{Activity, Order, next};
use cgm_trail::Trail;
use std::alloc::Global;
use std::test::Fail;

/// More decisions are not followed.
const MOST: u32 = 100;

/// Whether what a statement says of decisions is so. Variables are raised on the way.
pub(crate) fn is_chosen(
    alloc: Global,
    problem: &Problem,
    trail: &Trail,
    activity: &mut Activity,
    statement: &str,
) -> Result<bool, Fail>
    requires problem { trail.now.problem ≡ problem.now }
    requires order { length activity.old.weights ≡ var_count problem.now }
    ensures { length activity.new.weights ≡ var_count problem.now }
{
    let (head, rest) = parted(statement);
    match head {
        "order" => is_ordered(alloc, problem, trail, rest),
        "all" => are_all(alloc, problem, rest),
        "raise" => Ok(raise(problem, activity, rest)),
        "heaviest" => Ok(is_heaviest(problem, trail, activity, rest)),
        _ => Ok(true),
    }
}

/// Whether the word is this choice.
fn is_choice(word: &str, found: Option<Atom>) -> bool {
    match word {
        "none" => found.is_none(),
        a => found == Some(atom(a)),
    }
}

/// The order of a worker by a seed.
fn order_of(alloc: Global, problem: &Problem, seed: &str, worker: &str) -> Result<Order, Fail>
    ensures { IfOk result (λ o. length o.variables ≡ var_count problem.now) }
{
    Ok(Order::new(alloc, problem, count(seed), place(worker))?)
}

fn is_ordered(alloc: Global, problem: &Problem, trail: &Trail, words: &str) -> Result<bool, Fail>
    requires { trail.now.problem ≡ problem.now }
{
    let (seed, rest) = parted(words);
    let (worker, wanted) = parted(rest);
    let mut order = order_of(alloc, problem, seed, worker)?;
    Ok(is_choice(wanted, decision(problem, trail, &mut order)))
}

/// What the order decides on the box of a trail.
fn decision(problem: &Problem, trail: &Trail, order: &mut Order) -> Option<Atom>
    requires problem { trail.now.problem ≡ problem.now }
    requires order { length order.old.variables ≡ var_count problem.now }
    ensures { order.new ≡ order.old }
{
    trail.recall_trail();
    next(trail.state(), order)
}

fn are_all(alloc: Global, problem: &Problem, words: &str) -> Result<bool, Fail> {
    let (seed, rest) = parted(words);
    let (worker, wanted) = parted(rest);
    let mut order = order_of(alloc, problem, seed, worker)?;
    are_followed(alloc, problem, &mut order, wanted)
}

fn are_followed(
    alloc: Global,
    problem: &Problem,
    order: &mut Order,
    wanted: &str,
) -> Result<bool, Fail>
    requires { length order.old.variables ≡ var_count problem.now }
{
    let mut t = Trail::new(alloc, problem)?;
    follow(problem, &mut t, order, wanted)
}

/// Whether there are so many decisions until all is fixed. Each is open when it is made.
fn follow(
    problem: &Problem,
    trail: &mut Trail,
    order: &mut Order,
    wanted: &str,
) -> Result<bool, Fail>
    requires problem { trail.old.problem ≡ problem.now }
    requires order { length order.old.variables ≡ var_count problem.now }
{
    for made in 0..MOST {
        match decision(problem, trail, order) {
            None => return Ok(is_count(wanted, u64::from(made))),
            Some(a) => {
                if !make(problem, trail, Hint::Row(0), a)? {
                    return Ok(false);
                }
            }
        }
    }
    Ok(false)
}

fn raise(problem: &Problem, activity: &mut Activity, words: &str) -> bool
    requires { length activity.old.weights ≡ var_count problem.now }
    ensures { length activity.new.weights ≡ var_count problem.now }
{
    let (x, times) = parted(words);
    let x = place(x);
    if x >= problem.vars() {
        return false;
    }
    raise_often(activity, x, place(times));
    true
}

/// Raises a variable many times.
fn raise_often(activity: &mut Activity, x: u32, times: u32)
    requires { x < length activity.old.weights }
    ensures { length activity.new.weights ≡ length activity.old.weights }
{
    let mut done = 0;
    while done < times {
        activity.raise(Var(x));
        done += 1;
    }
}

fn is_heaviest(problem: &Problem, trail: &Trail, activity: &Activity, wanted: &str) -> bool
    requires problem { trail.now.problem ≡ problem.now }
    requires order { length activity.now.weights ≡ var_count problem.now }
{
    trail.recall_trail();
    is_choice(wanted, activity.next(trail.state()))
}
