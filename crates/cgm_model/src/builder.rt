//! A model that is made statement by statement.
ghost use Rattle.std.specs.Prelude.{◌≡◌, ◌↔◌, ◌+◌, if◌then◌else◌, length, is_ok, IsTrue, OnOk, OnErr, IfErr};
ghost use Rattle.cgm_model.specs.Facts.{AreFacts};
ghost use Rattle.cgm_model.specs.Graph.{IsAcyclic};
ghost use Rattle.cgm_model.specs.declared.lists.Lists.{Lists};
ghost use Rattle.cgm_model.specs.Keeping.{AreFor, HasGraphRoom};
ghost use Rattle.cgm_model.specs.Lists.{no_lists, added, Pushes};
ghost use Rattle.cgm_model.specs.Model.{lists_of};
ghost use Rattle.cgm_model.specs.Named.{thing_named};
ghost use Rattle.cgm_model.specs.Statement.{IsProperStatement, IsAllowed, IsNotAdded};
ghost use Rattle.cgm_model.specs.WellFormed.{IsWellFormedModel};

use crate::aids::Aids;
use crate::facts::Facts;
use crate::graph::Graph;
use crate::lists::{Element, Lists, Refinement, Rule, Statement, Sum, Thing, Variable};
use crate::model::Model;
use crate::names::NameTable;
use crate::stop::AddStop;
use crate::{admission, formulas, graph, limits, names};
use cgm_base::OutOfMemory;
use cgm_formula::Parts;
use std::alloc::Global;
use std::marker;

/// A model that is being built, statement by statement; contracts see it as the lists so far.
#[derive(Drop)]
pub struct ModelBuilder {
    lists: Lists,
    aids: Aids,
}

impl marker::Model for ModelBuilder {
    ghost use Rattle.cgm_model.specs.contracts.lists.Lists as values;
    ghost use Rattle.cgm_model.specs.declared.lists.Lists.{Lists};
    ghost use Rattle.cgm_model.specs.Keeping.{AreFor};
    ghost use Rattle.cgm_model.specs.WellFormed.{IsWellFormedModel};

    ghost Value = { Lists };

    ghost coded = { values.the_row.coded };

    ghost view = { λ b. b.lists };

    ghost invariant = { λ b. IsWellFormedModel b.lists × AreFor b.lists b.aids };
}

impl ModelBuilder {
    /// The empty model. It takes no memory.
    pub fn new(alloc: Global) -> ModelBuilder
        ensures empty { result ≡ no_lists }
        ensures known { IsWellFormedModel result }
    {
        ModelBuilder {
            lists: empty_lists(alloc),
            aids: Aids {
                alloc,
                names: NameTable::new(alloc),
                graph: Graph::new(alloc),
                node_room: limits::FORMULA_NODES,
                interests: Vec::new(alloc),
            },
        }
    }

    /// Answers what this name was declared as by a statement so far, if it was. It takes no memory.
    pub fn find(&self, name: &[u8]) -> Option<Thing>
        ensures known { IsWellFormedModel self.now }
        ensures found { result ≡ thing_named self.now name.now }
    {
        names::find(&self.lists, &self.aids, name)
    }

    /// Adds one statement. Condition: every number names something that is there, a refinement has
    /// a source, `And` and `Or` have a part, a linear expression has a term, a formula has at most
    /// 200 brackets open at once in its canonical text, and a goal alone has `must`. A refusal
    /// comes for the first test that fails, and only what is allowed can lack memory. Each leaves
    /// the builder as it was.
    pub fn add(&mut self, statement: Statement) -> Result<(), AddStop>
        requires { IsProperStatement self.old statement }
        ensures added { OnOk result (self.new ≡ added self.old statement) }
        ensures allowed { OnOk result (IsAllowed self.old statement) }
        ensures refused { IfErr result (IsNotAdded self.old statement) }
        ensures unchanged { OnErr result (self.new ≡ self.old) }
        ensures known { IsWellFormedModel self.new }
    {
        add(&mut self.lists, &mut self.aids, statement)
    }

    /// The model of the statements so far. It takes no memory.
    pub fn finish(self) -> Model
        ensures { lists_of result ≡ self }
    {
        let ModelBuilder { lists, aids } = self;
        let facts = facts_of(&lists, aids);
        let Lists {
            elements,
            refinements,
            vars,
            sums,
            contribs,
            conflicts,
            binds,
            asserts,
            values,
            rewards,
            penalties,
            prefers,
            rules,
            interests,
            objectives,
        } = lists;
        Model {
            elements,
            refinements,
            vars,
            sums,
            contribs,
            conflicts,
            binds,
            asserts,
            values,
            rewards,
            penalties,
            prefers,
            rules,
            interests,
            objectives,
            facts,
        }
    }
}

/// The facts of the graph, by what was kept to find cycles.
fn facts_of(lists: &Lists, aids: Aids) -> Facts
    requires well_formed { IsWellFormedModel lists.now }
    requires aids { AreFor lists.now aids }
    ensures { AreFacts lists.now.refinements result }
{
    let Aids {
        alloc: _,
        names: _,
        graph,
        node_room: _,
        interests: _,
    } = aids;
    Facts::of(graph, lists.refinements.as_slice())
}

fn empty_lists(alloc: Global) -> Lists
    ensures { result ≡ no_lists }
{
    Lists {
        elements: Parts::of(Vec::new(alloc)),
        refinements: Parts::of(Vec::new(alloc)),
        vars: Parts::of(Vec::new(alloc)),
        sums: Parts::of(Vec::new(alloc)),
        contribs: Parts::of(Vec::new(alloc)),
        conflicts: Parts::of(Vec::new(alloc)),
        binds: Parts::of(Vec::new(alloc)),
        asserts: Parts::of(Vec::new(alloc)),
        values: Parts::of(Vec::new(alloc)),
        rewards: Parts::of(Vec::new(alloc)),
        penalties: Parts::of(Vec::new(alloc)),
        prefers: Parts::of(Vec::new(alloc)),
        rules: Parts::of(Vec::new(alloc)),
        interests: Parts::of(Vec::new(alloc)),
        objectives: Parts::of(Vec::new(alloc)),
    }
}

/// Adds a statement that passes each test, or answers the first that it fails.
fn add(lists: &mut Lists, aids: &mut Aids, statement: Statement) -> Result<(), AddStop>
    requires well_formed { IsWellFormedModel lists.old }
    requires aids { AreFor lists.old aids.old }
    requires proper { IsProperStatement lists.old statement }
    ensures added { OnOk result (lists.new ≡ added lists.old statement) }
    ensures allowed { OnOk result (IsAllowed lists.old statement) }
    ensures refused { IfErr result (IsNotAdded lists.old statement) }
    ensures unchanged { OnErr result (lists.new ≡ lists.old) }
    ensures known { IsWellFormedModel lists.new }
    ensures aids { AreFor lists.new aids.new }
{
    let acyclic = stays_acyclic(lists, aids, &statement);
    match admission::refusal(lists, aids, &statement, acyclic) {
        Some(stop) => Err(stop),
        None => match push(lists, aids, statement) {
            Ok(()) => Ok(()),
            Err(_) => Err(AddStop::Memory),
        },
    }
}

/// Says whether the graph has no cycle with the statement.
fn stays_acyclic(lists: &Lists, aids: &mut Aids, statement: &Statement) -> bool
    requires well_formed { IsWellFormedModel lists.now }
    requires aids { AreFor lists.now aids.old }
    requires proper { IsProperStatement lists.now statement.now }
    ensures answer { IsTrue result ↔ IsAcyclic (added lists.now statement.now).refinements }
    ensures aids { AreFor lists.now aids.new }
{
    match statement {
        Statement::Refine(r) => {
            graph::stays_acyclic(&mut aids.graph, lists.refinements.as_slice(), r)
        }
        _ => true,
    }
}

/// Adds a statement as it is, or leaves the lists for want of memory.
fn push(lists: &mut Lists, aids: &mut Aids, statement: Statement) -> Result<(), OutOfMemory>
    requires well_formed { IsWellFormedModel lists.old }
    requires aids { AreFor lists.old aids.old }
    requires proper { IsProperStatement lists.old statement }
    requires allowed { IsAllowed lists.old statement }
    ensures lists { Pushes lists.old lists.new statement result }
    ensures aids { AreFor lists.new aids.new }
{
    match statement {
        Statement::Element(e) => push_element(lists, aids, e),
        Statement::Refine(r) => push_refinement(lists, aids, r),
        Statement::Variable(v) => push_variable(lists, aids, v),
        Statement::Sum(x) => push_sum(lists, aids, x),
        Statement::Contrib(e) => lists.contribs.push(e).map_err(|_| OutOfMemory),
        Statement::Conflict(e) => lists.conflicts.push(e).map_err(|_| OutOfMemory),
        Statement::Bind(e) => lists.binds.push(e).map_err(|_| OutOfMemory),
        Statement::Assert(a) => lists.asserts.push(a).map_err(|_| OutOfMemory),
        Statement::Value(v) => lists.values.push(v).map_err(|_| OutOfMemory),
        Statement::Reward(w) => lists.rewards.push(w).map_err(|_| OutOfMemory),
        Statement::Penalty(w) => lists.penalties.push(w).map_err(|_| OutOfMemory),
        Statement::Prefer(p) => lists.prefers.push(p).map_err(|_| OutOfMemory),
        Statement::Rule(r) => push_rule(lists, aids, r),
        Statement::Interest(element) => push_interest(lists, aids, element),
        Statement::Objective(o) => lists.objectives.push(o).map_err(|_| OutOfMemory),
    }
}

fn push_element(lists: &mut Lists, aids: &mut Aids, element: Element) -> Result<(), OutOfMemory>
    requires well_formed { IsWellFormedModel lists.old }
    requires aids { AreFor lists.old aids.old }
    requires allowed { IsAllowed lists.old (Statement.Element element) }
    ensures lists { Pushes lists.old lists.new (Statement.Element element) result }
    ensures aids { AreFor lists.new aids.new }
{
    let thing = Thing::Element(lists.elements.as_slice().len() as u32);
    make_room(aids)?;
    names::declare(aids.alloc, &mut aids.names, element.name.as_slice(), thing)?;
    lists.elements.push(element).map_err(|_| OutOfMemory)
}

/// Makes room for one more element.
fn make_room(aids: &mut Aids) -> Result<(), OutOfMemory>
    ensures kept { (m : Lists) → AreFor m aids.old → AreFor m aids.new }
    ensures more { OnOk result ((m : Lists) → AreFor m aids.old → HasGraphRoom
        (length m.elements + 1) aids.new) }
{
    graph::grow(aids.alloc, &mut aids.graph)?;
    aids.interests.push(false).map_err(|_| OutOfMemory)
}

fn push_refinement(
    lists: &mut Lists,
    aids: &mut Aids,
    refinement: Refinement,
) -> Result<(), OutOfMemory>
    requires well_formed { IsWellFormedModel lists.old }
    requires aids { AreFor lists.old aids.old }
    requires proper { IsProperStatement lists.old (Statement.Refine refinement) }
    requires allowed { IsAllowed lists.old (Statement.Refine refinement) }
    ensures lists { Pushes lists.old lists.new (Statement.Refine refinement) result }
    ensures aids { AreFor lists.new aids.new }
{
    let number = lists.refinements.as_slice().len() as u32;
    graph::link(&mut aids.graph, number, &refinement)?;
    let thing = Thing::Refinement(number);
    names::declare(
        aids.alloc,
        &mut aids.names,
        refinement.name.as_slice(),
        thing,
    )?;
    lists.refinements.push(refinement).map_err(|_| OutOfMemory)
}

fn push_variable(lists: &mut Lists, aids: &mut Aids, variable: Variable) -> Result<(), OutOfMemory>
    requires well_formed { IsWellFormedModel lists.old }
    requires aids { AreFor lists.old aids.old }
    requires allowed { IsAllowed lists.old (Statement.Variable variable) }
    ensures lists { Pushes lists.old lists.new (Statement.Variable variable) result }
    ensures aids { AreFor lists.new aids.new }
{
    let thing = Thing::Var(lists.vars.as_slice().len() as u32);
    names::declare(aids.alloc, &mut aids.names, variable.name.as_slice(), thing)?;
    lists.vars.push(variable).map_err(|_| OutOfMemory)
}

fn push_sum(lists: &mut Lists, aids: &mut Aids, sum: Sum) -> Result<(), OutOfMemory>
    requires well_formed { IsWellFormedModel lists.old }
    requires aids { AreFor lists.old aids.old }
    requires allowed { IsAllowed lists.old (Statement.Sum sum) }
    ensures lists { Pushes lists.old lists.new (Statement.Sum sum) result }
    ensures aids { AreFor lists.new aids.new }
{
    let thing = Thing::Sum(lists.sums.as_slice().len() as u32);
    names::declare(aids.alloc, &mut aids.names, sum.name.as_slice(), thing)?;
    lists.sums.push(sum).map_err(|_| OutOfMemory)
}

fn push_interest(lists: &mut Lists, aids: &mut Aids, element: u32) -> Result<(), OutOfMemory>
    requires aids { AreFor lists.old aids.old }
    requires proper { IsProperStatement lists.old (Statement.Interest element) }
    ensures lists { Pushes lists.old lists.new (Statement.Interest element) result }
    ensures aids { AreFor lists.new aids.new }
{
    lists.interests.push(element).map_err(|_| OutOfMemory)?;
    aids.interests[element as usize] = true;
    Ok(())
}

fn push_rule(lists: &mut Lists, aids: &mut Aids, rule: Rule) -> Result<(), OutOfMemory>
    requires aids { AreFor lists.old aids.old }
    requires allowed { IsAllowed lists.old (Statement.Rule rule) }
    ensures lists { Pushes lists.old lists.new (Statement.Rule rule) result }
    ensures aids { AreFor lists.new aids.new }
{
    let left = formulas::room_after(formulas::formula_of(&rule), aids.node_room).unwrap_or(0);
    lists.rules.push(rule).map_err(|_| OutOfMemory)?;
    aids.node_room = left;
    Ok(())
}
