//! Statements, and the lists of a model.
use cgm_formula::{Formula, Name, Parts, Truth};

/// What an element is.
#[derive(Clone, Copy, PartialEq, Eq)]
pub enum ElementKind {
    Goal,
    Task,
    /// An assumption.
    Assume,
}

/// An element of the goal graph.
#[derive(Drop)]
pub struct Element {
    pub name: Name,
    pub kind: ElementKind,
    /// Whether each realization makes it true; on a goal alone.
    pub must: bool,
}

/// A way to reach a target: all of its sources.
#[derive(Drop)]
pub struct Refinement {
    pub name: Name,
    /// The number of the element that is refined.
    pub target: u32,
    /// The numbers of one or more elements.
    pub sources: Parts<u32>,
}

/// A whole number with its least and its greatest value.
#[derive(Drop)]
pub struct Variable {
    pub name: Name,
    pub lo: i64,
    pub hi: i64,
}

/// A number that is added up from the value lines of what is true.
#[derive(Drop)]
pub struct Sum {
    pub name: Name,
}

/// Two elements, or two refinements, by number.
#[derive(Clone, Copy)]
pub struct Edge {
    pub from: u32,
    pub to: u32,
}

/// A user's word that an element is true, or that it is false.
#[derive(Clone, Copy)]
pub struct Assertion {
    /// The number of the element.
    pub element: u32,
    pub truth: bool,
}

/// What an element or refinement adds to a sum where it is true.
#[derive(Clone, Copy)]
pub struct SumValue {
    /// The number of the sum.
    pub sum: u32,
    /// The element or refinement.
    pub of: Truth,
    /// What it adds, in a model at most 1,000,000 in size.
    pub k: i64,
}

/// What an element takes off the weight, as a reward, or adds to it, as a penalty, where it is true.
#[derive(Clone, Copy)]
pub struct Weighing {
    /// The number of the element.
    pub element: u32,
    /// How much, in a model at most 1,000,000 in size.
    pub k: i64,
}

/// A wish that the first is true or the second is false.
#[derive(Clone, Copy)]
pub struct Preference {
    pub better: Truth,
    pub worse: Truth,
}

/// What an objective makes least or greatest.
#[derive(Clone, Copy, PartialEq, Eq)]
pub enum Quantity {
    /// The variable with this number.
    Var(u32),
    /// The sum with this number.
    Sum(u32),
    /// The penalties of true elements minus the rewards of true elements.
    Weight,
    /// The preferences that don't hold.
    UnsatPrefs,
    /// The requirements without `must` that are false.
    UnsatReqs,
    /// The leaf tasks that are true.
    SatTasks,
    /// How far the elements of interest are from an earlier realization.
    Familiarity,
    /// The leaf tasks of interest that an earlier realization lacks.
    Effort,
}

impl Quantity {
    ghost use Rattle.std.specs.Prelude.{◌≡◌};
    ghost use Rattle.std.specs.Str.{bytes_eq};
    ghost use Rattle.cgm_model.specs.QuantityWords.{quantity_word};

    /// The word of a built-in quantity. A variable and a sum have names, and no word.
    pub fn word(self) -> &'static [u8]
        ensures { result.now ≡ quantity_word self }
    {
        match self {
            Quantity::Var(_) => b"",
            Quantity::Sum(_) => b"",
            Quantity::Weight => b"weight",
            Quantity::UnsatPrefs => b"unsat_prefs",
            Quantity::UnsatReqs => b"unsat_reqs",
            Quantity::SatTasks => b"sat_tasks",
            Quantity::Familiarity => b"familiarity",
            Quantity::Effort => b"effort",
        }
    }

    /// Says whether the bytes are its word.
    pub fn has_word(self, bytes: &[u8]) -> bool
        ensures { result ≡ bytes_eq (quantity_word self) bytes.now }
    {
        self.word() == bytes
    }
}

/// A quantity to make least or greatest.
#[derive(Clone, Copy)]
pub struct Objective {
    /// Whether it is made greatest.
    pub max: bool,
    /// The quantity.
    pub of: Quantity,
}

/// A formula that holds in each realization, always or on a condition.
#[derive(Drop)]
pub enum Rule {
    /// Where the element or refinement is true.
    Positive(Truth, Formula),
    /// Where the element or refinement is false.
    Negative(Truth, Formula),
    Require(Formula),
}

/// One statement of a model.
#[derive(Drop)]
pub enum Statement {
    Element(Element),
    Refine(Refinement),
    Variable(Variable),
    Sum(Sum),
    /// Elements: where the first is true, so is the second.
    Contrib(Edge),
    /// Elements: they aren't both true.
    Conflict(Edge),
    /// Refinements: where both targets are true, both or neither of them is true.
    Bind(Edge),
    Assert(Assertion),
    Value(SumValue),
    Reward(Weighing),
    Penalty(Weighing),
    Prefer(Preference),
    Rule(Rule),
    /// The element with this number is of interest.
    Interest(u32),
    Objective(Objective),
}

/// What a name stands for, by its number.
#[derive(Clone, Copy, PartialEq, Eq)]
pub enum Thing {
    Element(u32),
    Refinement(u32),
    Var(u32),
    Sum(u32),
}

/// Statements by group, each group in order.
#[derive(Drop)]
pub struct Lists {
    pub elements: Parts<Element>,
    pub refinements: Parts<Refinement>,
    pub vars: Parts<Variable>,
    pub sums: Parts<Sum>,
    pub contribs: Parts<Edge>,
    pub conflicts: Parts<Edge>,
    pub binds: Parts<Edge>,
    pub asserts: Parts<Assertion>,
    pub values: Parts<SumValue>,
    pub rewards: Parts<Weighing>,
    pub penalties: Parts<Weighing>,
    pub prefers: Parts<Preference>,
    pub rules: Parts<Rule>,
    pub interests: Parts<u32>,
    pub objectives: Parts<Objective>,
}
