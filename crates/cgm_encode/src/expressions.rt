//! Linear expressions over a problem's variables.
ghost use Rattle.std.specs.Prelude.{◌≡◌, ◌++◌, ◌∷◌, [], ◌+◌, ◌^◌, ◌<◌, ◌==◌, ℕ, pos, ◌+ℤ◌, unsigned_abs, if◌then◌else◌, All, IfOk, OnOk};
ghost use Rattle.std.specs.BTreeMap.{IsOrdered};
ghost use Rattle.std.specs.Ordering.{nat_cmp};
ghost use Rattle.cgm_enc_formula.specs.Terms.{as_terms, nonzero};
ghost use Rattle.cgm_encode.specs.Building.{number_at, share_size};
ghost use Rattle.cgm_encode.specs.Totals.{combined, combined_terms as terms_of};

use cgm_atom::{Seq, Var};
use cgm_base::OutOfMemory;
use std::alloc::Global;
use std::collections::BTreeMap;

/// Terms by ascending variable, none of which has the coefficient 0, and a constant.
#[derive(Drop)]
pub(crate) struct Expression {
    pub(crate) terms: Seq<(i64, Var)>,
    pub(crate) constant: i64,
}

/// The terms of numbers for variables, where the numbers for one variable are added up.
pub(crate) fn combined_terms(
    alloc: Global,
    shares: &[(i64, u32)],
) -> Result<Vec<(i64, Var)>, OutOfMemory>
    requires { share_size shares.now < 2 ^ 63 }
    ensures { IfOk result (λ terms. (n : ℕ) → All (λ s. s.1 < n) shares.now → terms.items ≡ terms_of
        n shares.now) }
{
    let numbers = combine(alloc, shares)?;
    let terms = nonzero_terms(alloc, &numbers)?;
    Ok(terms)
}

/// The numbers for each variable, added up.
fn combine(alloc: Global, shares: &[(i64, u32)]) -> Result<BTreeMap<u32, i64>, OutOfMemory>
    requires { share_size shares.now < 2 ^ 63 }
    ensures { IfOk result (λ numbers. (x : ℕ) → number_at numbers x ≡ combined shares.now x) }
{
    let mut numbers = BTreeMap::new(alloc);
    for share in shares {
        add_share(&mut numbers, share)?;
    }
    Ok(numbers)
}

fn add_share(numbers: &mut BTreeMap<u32, i64>, share: &(i64, u32)) -> Result<(), OutOfMemory>
    requires { unsigned_abs (number_at numbers.old share.now.1) + unsigned_abs share.now.0 < 2 ^
        63 }
    ensures { OnOk result ((x : ℕ) → number_at numbers.new x ≡ number_at numbers.old x
        +ℤ (if share.now.1 == x then share.now.0 else pos 0)) }
{
    let so_far = number_of(numbers, share.1);
    numbers.insert(share.1, plus(so_far, share.0))?;
    Ok(())
}

fn number_of(numbers: &BTreeMap<u32, i64>, x: u32) -> i64
    ensures { result ≡ number_at numbers.now x }
{
    match numbers.get(&x) {
        None => 0,
        Some(number) => *number,
    }
}

fn plus(x: i64, y: i64) -> i64
    requires { unsigned_abs x + unsigned_abs y < 2 ^ 63 }
    ensures { result ≡ x +ℤ y }
{
    x + y
}

/// The numbers other than 0 as terms.
fn nonzero_terms(
    alloc: Global,
    numbers: &BTreeMap<u32, i64>,
) -> Result<Vec<(i64, Var)>, OutOfMemory>
    ensures terms { IfOk result (λ terms. terms.items ≡ nonzero (as_terms numbers.now.entries)) }
    ensures ordered { OnOk result (IsOrdered nat_cmp numbers.now) }
{
    let mut terms = Vec::with_capacity(alloc, numbers.len())?;
    for (x, number) in numbers {
        push_nonzero(&mut terms, *number, *x)?;
    }
    Ok(terms)
}

fn push_nonzero(terms: &mut Vec<(i64, Var)>, number: i64, x: u32) -> Result<(), OutOfMemory>
    ensures { OnOk result (terms.new.items ≡ terms.old.items ++ nonzero
        ((number, record { 0 = x }) ∷ [])) }
{
    if number == 0 {
        return Ok(());
    }
    terms.push((number, Var(x)))?;
    Ok(())
}
