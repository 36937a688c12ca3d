//! The order of the variables that a worker goes by.
ghost use Rattle.std.specs.Prelude.{◌≡◌, ◌<◌, ◌^◌, ◌≤◌, length, vec_len, IsPermutation, IfOk};
ghost use Rattle.cgm_split.specs.Drawing.{IsEachOnce, by_number, drawn, generator, order_of, shuffled};

use cgm_atom::Var;
use cgm_base::OutOfMemory;
use rand_core::utils::NextWord;
use rand_pcg::Pcg32;
use std::alloc::Global;

/// Each variable once: by number for worker 0, in a drawn order for the others.
#[tactic(auto, using(crate::proofs::Shuffling::each_once_by_number, crate::proofs::Shuffling::order_of_first))]
pub(crate) fn variable_order(
    alloc: Global,
    count: u32,
    seed: u64,
    worker: u32,
) -> Result<Vec<Var>, OutOfMemory>
    ensures order { IfOk result (λ v. v.items ≡ order_of count seed worker) }
    ensures each_once { IfOk result (λ v. IsEachOnce count v.items) }
    ensures count { IfOk result (λ v. vec_len v ≡ count) }
{
    let variables = numbered(alloc, count)?;
    if worker == 0 {
        return Ok(variables);
    }
    Ok(drawn_order(variables, Pcg32::new(seed, u64::from(worker))))
}

fn numbered(alloc: Global, count: u32) -> Result<Vec<Var>, OutOfMemory>
    ensures order { IfOk result (λ v. v.items ≡ by_number count) }
    ensures count { IfOk result (λ v. vec_len v ≡ count) }
{
    (0..count).map(Var).collect(alloc)
}

fn drawn_order(mut variables: Vec<Var>, mut words: Pcg32) -> Vec<Var>
    requires { vec_len variables ≤ 2 ^ 32 }
    ensures order { result.items ≡ shuffled (vec_len variables) words variables.items }
    ensures permutation { IsPermutation variables.items result.items }
    ensures count { vec_len result ≡ vec_len variables }
{
    shuffle(variables.as_mut_slice(), &mut words);
    variables
}

fn shuffle(variables: &mut [Var], words: &mut Pcg32)
    requires { length variables.old ≤ 2 ^ 32 }
    ensures order { variables.new ≡ shuffled (length variables.old) words.old variables.old }
    ensures permutation { IsPermutation variables.old variables.new }
{
    let mut place = variables.len();
    while place > 0 {
        let word = words.next_word() as usize;
        let other = word % place;
        place -= 1;
        variables.swap(place, other);
    }
}
