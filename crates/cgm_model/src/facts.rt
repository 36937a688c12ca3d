//! What the elements of a goal graph are: leaves, sources, and the refinements that each has.
ghost use Rattle.std.specs.Prelude.{◌≡◌, ◌==◌, ◌||◌, ◌<◌, ℕ, [], false, All, length, map, slice_get, slice_index_or};
ghost use Rattle.std.specs.List.{list_any};
ghost use Rattle.cgm_model.specs.Facts.{AreFacts, AreSources, AreTargets};
ghost use Rattle.cgm_model.specs.Graph.{HasKnownElements};
ghost use Rattle.cgm_model.specs.Leaves as leaves;
ghost use Rattle.cgm_model.specs.Model.{lists_of};
ghost use Rattle.cgm_model.specs.Statement.{is_assumption};
ghost use Rattle.cgm_model.specs.TargetIndex.{IsTargetIndexOf};

use crate::graph::{Graph, unmark_all};
use crate::lists::{Element, ElementKind, Refinement};
use crate::model::Model;
use sqlite_items::{Items, at};

/// What a model keeps of its goal graph, so that each question is one look.
#[derive(Drop)]
pub(crate) struct Facts {
    /// For each element the numbers of the refinements that have it as target, and maybe others.
    pub(crate) by_target: Vec<Items<u32>>,
    /// For each element whether it is the target of a refinement.
    pub(crate) targets: Vec<bool>,
    /// For each element whether it is a source of a refinement.
    pub(crate) sources: Vec<bool>,
}

impl Facts {
    /// The facts of a graph of these refinements. It takes no memory.
    pub(crate) fn of(graph: Graph, refinements: &[Refinement]) -> Facts
        requires index { IsTargetIndexOf refinements.now graph }
        requires known { All (HasKnownElements (length graph.marks.items)) refinements.now }
        ensures { AreFacts refinements.now result }
    {
        let Graph {
            by_target,
            is_source,
            queue: _,
            marks,
        } = graph;
        let mut sources = is_source;
        let mut targets = marks;
        mark_sources(&mut sources, refinements);
        mark_targets(&mut targets, refinements);
        Facts {
            by_target,
            targets,
            sources,
        }
    }
}

impl Model {
    /// Says whether no refinement has the element as its target. It takes no memory.
    pub fn is_leaf(&self, element: u32) -> bool
        ensures { result ≡ leaves.is_leaf (lists_of self.now) element }
    {
        !is_target(&self.facts, element)
    }

    /// Says whether the element is a leaf task: no refinement has it as its target, and it isn't
    /// declared an assumption. It takes no memory.
    pub fn is_leaf_task(&self, element: u32) -> bool
        ensures { result ≡ leaves.is_leaf_task (lists_of self.now) element }
    {
        self.is_leaf(element) && !is_assumption(self.kind_of(element))
    }

    /// Says whether the element is a source of a refinement. It takes no memory.
    pub fn is_source(&self, element: u32) -> bool
        ensures { result ≡ leaves.is_source (lists_of self.now) element }
    {
        is_source(&self.facts, element)
    }

    /// The kind of the element, where there is one with this number. It takes no memory.
    pub fn kind_of(&self, element: u32) -> Option<ElementKind>
        ensures { result ≡ slice_get (map (λ e. e.kind) self.now.elements) element }
    {
        kind_at(self.elements.as_slice(), element)
    }
}

/// The numbers of the refinements that have the element as target, and maybe others.
pub(crate) fn by_target(facts: &Facts, element: u32) -> &[u32]
    ensures { result.now ≡ slice_index_or facts.now.by_target.items element [] }
{
    match facts.by_target.as_slice().get(element as usize) {
        None => &[],
        Some(numbers) => numbers.as_slice(),
    }
}

/// The kind of the element with this number.
pub(crate) fn kind_at(elements: &[Element], number: u32) -> Option<ElementKind>
    ensures { result ≡ slice_get (map (λ e. e.kind) elements.now) number }
{
    match at(elements, number as usize) {
        None => None,
        Some(e) => Some(e.kind),
    }
}

/// The mark at this number; false past the end.
pub(crate) fn is_marked(marks: &[bool], number: u32) -> bool
    ensures { result ≡ slice_index_or marks.now number false }
{
    marks.get(number as usize).copied().unwrap_or(false)
}

fn is_assumption(kind: Option<ElementKind>) -> bool
    ensures { result ≡ is_assumption kind }
{
    matches!(kind, Some(ElementKind::Assume))
}

fn is_target(facts: &Facts, element: u32) -> bool
    ensures { result ≡ slice_index_or facts.now.targets.items element false }
{
    is_marked(facts.targets.as_slice(), element)
}

fn is_source(facts: &Facts, element: u32) -> bool
    ensures { result ≡ slice_index_or facts.now.sources.items element false }
{
    is_marked(facts.sources.as_slice(), element)
}

/// Marks the targets of these refinements, and nothing else.
fn mark_targets(marks: &mut [bool], refinements: &[Refinement])
    requires { All (λ r. r.target < length marks.old) refinements.now }
    ensures { AreTargets marks.new refinements.now }
{
    unmark_all(marks);
    for r in refinements {
        mark(marks, r.target);
    }
}

/// Marks the sources of these refinements, and nothing else.
fn mark_sources(marks: &mut [bool], refinements: &[Refinement])
    requires { All (λ r. All (λ source. source < length marks.old) r.sources) refinements.now }
    ensures { AreSources marks.new refinements.now }
{
    unmark_all(marks);
    for r in refinements {
        mark_all(marks, r.sources.as_slice());
    }
}

fn mark(marks: &mut [bool], element: u32)
    requires { element < length marks.old }
    ensures { (k : ℕ) → slice_index_or marks.new k false
        ≡ (slice_index_or marks.old k false || (element == k)) }
{
    marks[element as usize] = true;
}

fn mark_all(marks: &mut [bool], elements: &[u32])
    requires { All (λ element. element < length marks.old) elements.now }
    ensures { (k : ℕ) → slice_index_or marks.new k false
        ≡ (slice_index_or marks.old k false || list_any (λ element. element == k) elements.now) }
{
    for element in elements {
        mark(marks, *element);
    }
}
