//! Whether the graph of targets and sources has a cycle.
ghost use Rattle.std.specs.Prelude.{◌≡◌, ◌+◌, ◌<◌, ◌≤◌, ◌++◌, ◌∷◌, [], ◌==◌, ◌↔◌, ℕ, false, List, IsTrue, All, length, slice_index_or, OnOk};
ghost use Rattle.std.specs.List.{list_any};
ghost use Rattle.cgm_model.specs.declared.lists.Refinement.{Refinement};
ghost use Rattle.cgm_model.specs.Graph.{IsAcyclic, HasKnownElements};
ghost use Rattle.cgm_model.specs.Search.{IsMarked, IsSearch, MarksEach, Visits, Fills, IsCovered, state};
ghost use Rattle.cgm_model.specs.TargetIndex.{IsTargetIndexOf, HasTargetRoomFor};

use crate::lists::Refinement;
use cgm_base::OutOfMemory;
use sqlite_items::{Items, at};
use std::alloc::Global;

/// The graph from targets to sources, with room to search it for a cycle without taking memory.
#[derive(Drop)]
pub(crate) struct Graph {
    /// For each element the numbers of the refinements that have it as target, and maybe others.
    pub(crate) by_target: Vec<Items<u32>>,
    /// For each element whether it is a source, or was to become one.
    pub(crate) is_source: Vec<bool>,
    pub(crate) queue: Vec<u32>,
    pub(crate) marks: Vec<bool>,
}

impl Graph {
    pub(crate) fn new(alloc: Global) -> Graph
        ensures index { IsTargetIndexOf [] result }
        ensures room { HasTargetRoomFor 0 result }
    {
        Graph {
            by_target: Vec::new(alloc),
            is_source: Vec::new(alloc),
            queue: Vec::new(alloc),
            marks: Vec::new(alloc),
        }
    }
}

/// Makes room for one more element.
pub(crate) fn grow(alloc: Global, graph: &mut Graph) -> Result<(), OutOfMemory>
    ensures kept { (rs : List Refinement) → IsTargetIndexOf rs graph.old → IsTargetIndexOf rs
        graph.new }
    ensures room { (count : ℕ) → HasTargetRoomFor count graph.old → HasTargetRoomFor count
        graph.new }
    ensures more { OnOk result ((count : ℕ) → HasTargetRoomFor count graph.old → HasTargetRoomFor
        (count + 1) graph.new) }
{
    graph.by_target.push(Items::new(alloc))?;
    graph.is_source.push(false)?;
    graph.queue.push(0)?;
    graph.marks.push(false)?;
    Ok(())
}

/// Takes the refinement with this number into the graph.
pub(crate) fn link(
    graph: &mut Graph,
    number: u32,
    refinement: &Refinement,
) -> Result<(), OutOfMemory>
    requires known { HasKnownElements (length graph.old.marks.items) refinement.now }
    requires index { IsTargetIndexOf [] graph.old }
    ensures kept { (rs : List Refinement) → IsTargetIndexOf rs graph.old → IsTargetIndexOf rs
        graph.new }
    ensures room { (count : ℕ) → HasTargetRoomFor count graph.old → HasTargetRoomFor count
        graph.new }
    ensures linked { OnOk result ((rs : List Refinement) → number ≡ length rs → IsTargetIndexOf rs
        graph.old → IsTargetIndexOf (rs ++ refinement.now ∷ []) graph.new) }
{
    graph.by_target[refinement.target as usize].push(number)?;
    flag_each(&mut graph.is_source, refinement.sources.as_slice());
    Ok(())
}

fn flag_each(flags: &mut Vec<bool>, elements: &[u32])
    requires { All (λ element. element < length flags.old.items) elements.now }
    ensures length { length flags.new.items ≡ length flags.old.items }
    ensures kept { (element : ℕ) → IsMarked flags.old.items element → IsMarked flags.new.items
        element }
    ensures flagged { All (IsMarked flags.new.items) elements.now }
{
    for element in elements {
        flags[*element as usize] = true;
    }
}

/// Says whether the graph of the refinements still has no cycle with one more.
pub(crate) fn stays_acyclic(
    graph: &mut Graph,
    refinements: &[Refinement],
    refinement: &Refinement,
) -> bool
    requires acyclic { IsAcyclic refinements.now }
    requires index { IsTargetIndexOf refinements.now graph.old }
    requires known { All (HasKnownElements (length graph.old.marks.items)) refinements.now }
    requires new_known { HasKnownElements (length graph.old.marks.items) refinement.now }
    ensures answer { IsTrue result ↔ IsAcyclic (refinements.now ++ refinement.now ∷ []) }
    ensures kept { (rs : List Refinement) → IsTargetIndexOf rs graph.old → IsTargetIndexOf rs
        graph.new }
    ensures room { (count : ℕ) → HasTargetRoomFor count graph.old → HasTargetRoomFor count
        graph.new }
{
    if is_on_top(graph.is_source.as_slice(), refinement) {
        return true;
    }
    is_unreached(
        graph.by_target.as_slice(),
        graph.marks.as_mut_slice(),
        graph.queue.as_mut_slice(),
        refinements,
        refinement,
    )
}

/// Says whether the target is no source, of this refinement neither.
fn is_on_top(is_source: &[bool], refinement: &Refinement) -> bool
    requires { refinement.now.target < length is_source.now }
    ensures old { IsTrue result → slice_index_or is_source.now refinement.now.target false ≡ false }
    ensures new { IsTrue result → list_any (λ y. y == refinement.now.target) refinement.now.sources
        ≡ false }
{
    !is_source[refinement.target as usize]
        && !refinement.sources.as_slice().contains(&refinement.target)
}

/// Says whether the target isn't reached from the sources.
fn is_unreached(
    by_target: &[Items<u32>],
    marks: &mut [bool],
    queue: &mut [u32],
    refinements: &[Refinement],
    refinement: &Refinement,
) -> bool
    requires acyclic { IsAcyclic refinements.now }
    requires covered { IsCovered by_target.now refinements.now }
    requires targets { length marks.old ≤ length by_target.now }
    requires queue { length marks.old ≤ length queue.old }
    requires known { All (HasKnownElements (length marks.old)) refinements.now }
    requires new_known { HasKnownElements (length marks.old) refinement.now }
    ensures { IsTrue result ↔ IsAcyclic (refinements.now ++ refinement.now ∷ []) }
{
    unmark_all(marks);
    let count = mark_each(marks, queue, 0, refinement.sources.as_slice());
    fill(by_target, marks, queue, count, refinements);
    !marks[refinement.target as usize]
}

pub(crate) fn unmark_all(marks: &mut [bool])
    ensures { (element : ℕ) → slice_index_or marks.new element false ≡ false }
{
    for mark in marks.iter_mut() {
        *mark = false;
    }
}

/// Marks all that is reached from the elements in the queue.
fn fill(
    by_target: &[Items<u32>],
    marks: &mut [bool],
    queue: &mut [u32],
    count: usize,
    refinements: &[Refinement],
)
    requires search { IsSearch (state marks.old queue.old count) }
    requires covered { IsCovered by_target.now refinements.now }
    requires targets { length marks.old ≤ length by_target.now }
    requires known { All (HasKnownElements (length marks.old)) refinements.now }
    ensures { Fills refinements.now marks.old marks.new }
{
    let mut count = count;
    let mut next = 0;
    while next < count {
        let element = queue[next];
        let numbers = by_target[element as usize].as_slice();
        count = visit(marks, queue, count, refinements, element, numbers);
        next += 1;
    }
}

/// Marks the sources of each refinement that has one of these numbers and the element as target.
fn visit(
    marks: &mut [bool],
    queue: &mut [u32],
    count: usize,
    refinements: &[Refinement],
    element: u32,
    numbers: &[u32],
) -> usize
    requires search { IsSearch (state marks.old queue.old count) }
    requires known { All (HasKnownElements (length marks.old)) refinements.now }
    ensures { Visits refinements.now element numbers.now (state marks.old queue.old count)
        (state marks.new queue.new result) }
{
    let mut count = count;
    for number in numbers {
        count = visit_one(marks, queue, count, refinements, element, *number);
    }
    count
}

fn visit_one(
    marks: &mut [bool],
    queue: &mut [u32],
    count: usize,
    refinements: &[Refinement],
    element: u32,
    number: u32,
) -> usize
    requires search { IsSearch (state marks.old queue.old count) }
    requires known { All (HasKnownElements (length marks.old)) refinements.now }
    ensures { Visits refinements.now element (number ∷ []) (state marks.old queue.old count)
        (state marks.new queue.new result) }
{
    match at(refinements, number as usize) {
        None => count,
        Some(r) => {
            if r.target == element {
                mark_each(marks, queue, count, r.sources.as_slice())
            } else {
                count
            }
        }
    }
}

/// Marks these elements, and puts those that weren't marked into the queue.
fn mark_each(marks: &mut [bool], queue: &mut [u32], count: usize, elements: &[u32]) -> usize
    requires search { IsSearch (state marks.old queue.old count) }
    requires known { All (λ element. element < length marks.old) elements.now }
    ensures { MarksEach elements.now (state marks.old queue.old count)
        (state marks.new queue.new result) }
{
    let mut count = count;
    for element in elements {
        count = mark(marks, queue, count, *element);
    }
    count
}

fn mark(marks: &mut [bool], queue: &mut [u32], count: usize, element: u32) -> usize
    requires search { IsSearch (state marks.old queue.old count) }
    requires known { element < length marks.old }
    ensures { MarksEach (element ∷ []) (state marks.old queue.old count)
        (state marks.new queue.new result) }
{
    if marks[element as usize] {
        return count;
    }
    marks[element as usize] = true;
    queue[count] = element;
    count + 1
}
