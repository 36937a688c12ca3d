//! Formulas and linear expressions.
ghost use Rattle.std.specs.Prelude.{◌≡◌, IfOk};

use crate::parts::Parts;
use cgm_base::OutOfMemory;
use sqlite_items::Boxed;
use std::alloc::Global;

/// An element or a refinement, by its number.
#[derive(Clone, Copy, PartialEq, Eq)]
pub enum Truth {
    Element(u32),
    Refinement(u32),
}

/// A variable or a sum, by its number.
#[derive(Clone, Copy, PartialEq, Eq)]
pub enum Number {
    Var(u32),
    Sum(u32),
}

/// A linear expression: the total of coefficient times number over its terms.
#[derive(Drop)]
pub struct Linear {
    pub terms: Parts<(i64, Number)>,
}

impl Linear {
    /// An equal linear expression.
    pub fn copy(&self, alloc: Global) -> Result<Linear, OutOfMemory>
        ensures { IfOk result (λ l. l ≡ self.now) }
    {
        let terms = Vec::from_slice(alloc, self.terms.as_slice())?;
        Ok(Linear {
            terms: Parts::of(terms),
        })
    }
}

/// A formula over elements, refinements and numbers.
#[derive(Drop)]
pub enum Formula {
    /// The element or refinement is true.
    Name(Truth),
    Not(Boxed<Formula>),
    /// All parts hold.
    And(Parts<Formula>),
    /// At least one part holds.
    Or(Parts<Formula>),
    /// Where the first part holds, so does the second.
    Implies(Boxed<Formula>, Boxed<Formula>),
    /// Both parts hold, or neither does.
    Iff(Boxed<Formula>, Boxed<Formula>),
    /// The linear expression is at most the number.
    AtMost(Linear, i64),
    /// The linear expression is at least the number.
    AtLeast(Linear, i64),
    /// The linear expression is equal to the number.
    Equal(Linear, i64),
}

impl Formula {
    /// An equal formula.
    #[cycle(copy)]
    pub fn copy(&self, alloc: Global) -> Result<Formula, OutOfMemory>
        ensures { IfOk result (λ f. f ≡ self.now) }
    {
        match self {
            Formula::Name(name) => Ok(Formula::Name(*name)),
            Formula::Not(part) => Ok(Formula::Not(Boxed::new(alloc, part.get().copy(alloc)?)?)),
            Formula::And(parts) => Ok(Formula::And(copy_all(alloc, parts.as_slice())?)),
            Formula::Or(parts) => Ok(Formula::Or(copy_all(alloc, parts.as_slice())?)),
            Formula::Implies(premise, conclusion) => {
                let premise = Boxed::new(alloc, premise.get().copy(alloc)?)?;
                let conclusion = Boxed::new(alloc, conclusion.get().copy(alloc)?)?;
                Ok(Formula::Implies(premise, conclusion))
            }
            Formula::Iff(one, other) => {
                let one = Boxed::new(alloc, one.get().copy(alloc)?)?;
                let other = Boxed::new(alloc, other.get().copy(alloc)?)?;
                Ok(Formula::Iff(one, other))
            }
            Formula::AtMost(linear, k) => Ok(Formula::AtMost(linear.copy(alloc)?, *k)),
            Formula::AtLeast(linear, k) => Ok(Formula::AtLeast(linear.copy(alloc)?, *k)),
            Formula::Equal(linear, k) => Ok(Formula::Equal(linear.copy(alloc)?, *k)),
        }
    }
}

#[cycle(copy)]
fn copy_all(alloc: Global, parts: &[Formula]) -> Result<Parts<Formula>, OutOfMemory>
    ensures { IfOk result (λ ps. ps ≡ parts.now) }
{
    let mut copies = Vec::new(alloc);
    for part in parts {
        copies.push(part.copy(alloc)?)?;
    }
    Ok(Parts::of(copies))
}
