//! What a written statement says after those before it.
ghost use Rattle.std.specs.Prelude.{◌≡◌, [], ◌∷◌, ◌++◌, map, All, IfOk, OnOk};
ghost use Rattle.std.specs.Str.{IsUtf8};
ghost use Rattle.cgm_formula.specs.declared.formula.Formula.TheVariants as formulas;
ghost use Rattle.cgm_print.specs.Statements.{assertion as written_assertion, condition as written_condition, objective as written_objective, requirement as written_requirement, value as written_value, weight as written_weight};
ghost use Rattle.cgm_print.specs.Written.{formulas_of};
ghost use Rattle.cgm_text.specs.Meaning.{compared_as, condition_of, declared_words, each_formula_of, element_named, formula_of, is_max, joined_as, linear_of, named_of, number_named, pair_of, paired_as, quantity_of, refinement_named, statement_of, sum_named, term_of, truth_named, statement_of_weight};
ghost use Rattle.cgm_text.specs.Trees.{formula_in, linear_in, term_in, word_in};
ghost use Rattle.cgm_text.specs.Parsed.{statement_in};

use crate::keyword::built_in;
use crate::take::bytes_in;
use crate::word::name_of;
use crate::written;
use crate::written::{Term, Tree, Word, Written};
use cgm_base::OutOfMemory;
use cgm_model::{
    Assertion, Edge, Element, ElementKind, Formula, Linear, ModelBuilder, Number, Objective, Parts,
    Preference, Quantity, Refinement, Rule, Statement, Sum, SumValue, Thing, Truth, Variable,
    Weighing,
};
use cgm_print::words::{
    Comparison, ConditionWord, Direction, Joint, NameWord, PairWord, Pairing, WeightWord,
};
use sqlite_items::Boxed;
use std::alloc::Global;

/// The number of the element with this name; 0 where there is none, here and below.
fn element(builder: &ModelBuilder, line: &[u8], word: Word) -> u32
    ensures { result ≡ element_named builder.now (word_in line.now word) }
{
    match builder.find(bytes_in(line, word)) {
        Some(Thing::Element(k)) => k,
        _ => 0,
    }
}

fn refinement(builder: &ModelBuilder, line: &[u8], word: Word) -> u32
    ensures { result ≡ refinement_named builder.now (word_in line.now word) }
{
    match builder.find(bytes_in(line, word)) {
        Some(Thing::Refinement(k)) => k,
        _ => 0,
    }
}

fn truth(builder: &ModelBuilder, line: &[u8], word: Word) -> Truth
    ensures { result ≡ truth_named builder.now (word_in line.now word) }
{
    match builder.find(bytes_in(line, word)) {
        Some(Thing::Element(k)) => Truth::Element(k),
        Some(Thing::Refinement(k)) => Truth::Refinement(k),
        _ => Truth::Element(0),
    }
}

fn number(builder: &ModelBuilder, line: &[u8], word: Word) -> Number
    ensures { result ≡ number_named builder.now (word_in line.now word) }
{
    match builder.find(bytes_in(line, word)) {
        Some(Thing::Var(k)) => Number::Var(k),
        Some(Thing::Sum(k)) => Number::Sum(k),
        _ => Number::Var(0),
    }
}

fn sum(builder: &ModelBuilder, line: &[u8], word: Word) -> u32
    ensures { result ≡ sum_named builder.now (word_in line.now word) }
{
    match builder.find(bytes_in(line, word)) {
        Some(Thing::Sum(k)) => k,
        _ => 0,
    }
}

fn term(builder: &ModelBuilder, line: &[u8], term: &Term) -> (i64, Number)
    ensures { result ≡ term_of builder.now (term_in line.now term.now) }
{
    match term {
        Term::Plain(w) => (1, number(builder, line, *w)),
        Term::Scaled(k, w) => (*k, number(builder, line, *w)),
    }
}

/// The elements with these names.
fn elements(
    alloc: Global,
    builder: &ModelBuilder,
    line: &[u8],
    first: Word,
    others: &[Word],
) -> Result<Parts<u32>, OutOfMemory>
    ensures { IfOk result (λ numbers. numbers ≡ map (element_named builder.now)
        (word_in line.now first ∷ map (word_in line.now) others.now)) }
{
    let mut numbers = Vec::new(alloc);
    numbers.push(element(builder, line, first))?;
    for w in others {
        numbers.push(element(builder, line, *w))?;
    }
    Ok(Parts::of(numbers))
}

fn terms(
    alloc: Global,
    builder: &ModelBuilder,
    line: &[u8],
    first: &Term,
    others: &[Term],
) -> Result<Linear, OutOfMemory>
    ensures { IfOk result (λ l. l.terms ≡ term_of builder.now (term_in line.now first.now) ∷ map
        (term_of builder.now) (map (term_in line.now) others.now)) }
{
    let mut terms = Vec::new(alloc);
    terms.push(term(builder, line, first))?;
    for other in others {
        terms.push(term(builder, line, other))?;
    }
    Ok(Linear {
        terms: Parts::of(terms),
    })
}

fn linear(
    alloc: Global,
    builder: &ModelBuilder,
    line: &[u8],
    linear: &written::Linear,
) -> Result<Linear, OutOfMemory>
    ensures { IfOk result (λ l. l ≡ linear_of builder.now (linear_in line.now linear.now)) }
{
    match linear {
        written::Linear::Single(term) => terms(alloc, builder, line, term, &[]),
        written::Linear::Total(term, others) => {
            terms(alloc, builder, line, term, others.as_slice())
        }
    }
}

fn negated(alloc: Global, part: Formula) -> Result<Formula, OutOfMemory>
    ensures { IfOk result (λ f. f ≡ formulas.Not part) }
{
    Ok(Formula::Not(Boxed::new(alloc, part)?))
}

fn push(formulas: &mut Vec<Formula>, part: Formula) -> Result<(), OutOfMemory>
    ensures { OnOk result (formulas.new.items ≡ formulas.old.items ++ part ∷ []) }
{
    formulas.push(part)?;
    Ok(())
}

fn joined(joint: Joint, parts: Parts<Formula>) -> Formula
    ensures { result ≡ joined_as joint parts }
{
    match joint {
        Joint::And => Formula::And(parts),
        Joint::Or => Formula::Or(parts),
    }
}

/// Gives the memory of a formula back.
fn discard(_formula: Formula) {}

/// Gives the memory of formulas back.
fn discard_each(_formulas: Vec<Formula>) {}

fn pair_of_boxes(pairing: Pairing, one: Boxed<Formula>, other: Boxed<Formula>) -> Formula
    ensures { result ≡ paired_as pairing one other }
{
    match pairing {
        Pairing::Implies => Formula::Implies(one, other),
        Pairing::Iff => Formula::Iff(one, other),
    }
}

fn paired(
    alloc: Global,
    pairing: Pairing,
    one: Formula,
    other: Formula,
) -> Result<Formula, OutOfMemory>
    ensures { IfOk result (λ f. f ≡ paired_as pairing one other) }
{
    match Boxed::new(alloc, one) {
        Ok(one) => Ok(pair_of_boxes(pairing, one, Boxed::new(alloc, other)?)),
        Err(stop) => {
            discard(other);
            Err(stop)
        }
    }
}

fn compared(comparison: Comparison, linear: Linear, k: i64) -> Formula
    ensures { result ≡ compared_as comparison linear k }
{
    match comparison {
        Comparison::AtMost => Formula::AtMost(linear, k),
        Comparison::AtLeast => Formula::AtLeast(linear, k),
        Comparison::Equal => Formula::Equal(linear, k),
    }
}

/// The formula that a written one stands for.
#[cycle(meaning)]
fn formula(
    alloc: Global,
    builder: &ModelBuilder,
    line: &[u8],
    tree: &Tree,
) -> Result<Formula, OutOfMemory>
    ensures { IfOk result (λ f. f ≡ formula_of builder.now (formula_in line.now tree.now)) }
{
    match tree {
        Tree::Name(w) => Ok(Formula::Name(truth(builder, line, *w))),
        Tree::Not(part) => {
            match formula(alloc, builder, line, part.get()) {
                Ok(part) => negated(alloc, part),
                Err(stop) => Err(stop),
            }
        }
        Tree::Join(joint, part, parts) => {
            match formula(alloc, builder, line, part.get()) {
                Ok(first) => match formulas(alloc, builder, line, parts.as_slice(), first) {
                    Ok(parts) => Ok(joined(*joint, parts)),
                    Err(stop) => Err(stop),
                },
                Err(stop) => Err(stop),
            }
        }
        Tree::Pair(pairing, one, other) => {
            match formula(alloc, builder, line, one.get()) {
                Ok(one) => match formula(alloc, builder, line, other.get()) {
                    Ok(other) => paired(alloc, *pairing, one, other),
                    Err(stop) => {
                        discard(one);
                        Err(stop)
                    }
                },
                Err(stop) => Err(stop),
            }
        }
        Tree::Compare(comparison, left, k) => {
            match linear(alloc, builder, line, left) {
                Ok(left) => Ok(compared(*comparison, left, *k)),
                Err(stop) => Err(stop),
            }
        }
    }
}

/// The first formula and those that the trees stand for.
#[cycle(meaning)]
fn formulas(
    alloc: Global,
    builder: &ModelBuilder,
    line: &[u8],
    trees: &[Tree],
    first: Formula,
) -> Result<Parts<Formula>, OutOfMemory>
    ensures { IfOk result (λ fs. fs ≡ first ∷ each_formula_of builder.now
        (formulas_of (map (formula_in line.now) trees.now))) }
{
    let mut formulas = Vec::new(alloc);
    match push_formulas(alloc, builder, line, trees, first, &mut formulas) {
        Ok(()) => Ok(Parts::of(formulas)),
        Err(stop) => {
            discard_each(formulas);
            Err(stop)
        }
    }
}

/// Adds the first formula and those that the trees stand for.
#[cycle(meaning)]
fn push_formulas(
    alloc: Global,
    builder: &ModelBuilder,
    line: &[u8],
    trees: &[Tree],
    first: Formula,
    formulas: &mut Vec<Formula>,
) -> Result<(), OutOfMemory>
    requires { formulas.old.items ≡ [] }
    ensures { OnOk result (formulas.new.items ≡ first ∷ each_formula_of builder.now
        (formulas_of (map (formula_in line.now) trees.now))) }
{
    match push(formulas, first) {
        Ok(()) => {}
        Err(stop) => return Err(stop),
    }
    for tree in trees {
        match formula(alloc, builder, line, tree) {
            Ok(part) => match push(formulas, part) {
                Ok(()) => {}
                Err(stop) => return Err(stop),
            },
            Err(stop) => return Err(stop),
        }
    }
    Ok(())
}

fn declared(
    alloc: Global,
    name: &[u8],
    kind: ElementKind,
    must: bool,
) -> Result<Statement, OutOfMemory>
    requires text { IsUtf8 name.now }
    ensures { IfOk result (λ s. s ≡ Statement.Element
        (record { name = name.now; kind = kind; must = must })) }
{
    Ok(Statement::Element(Element {
        name: name_of(alloc, name)?,
        kind,
        must,
    }))
}

fn named(
    alloc: Global,
    builder: &ModelBuilder,
    line: &[u8],
    what: NameWord,
    name: Word,
) -> Result<Statement, OutOfMemory>
    requires text { IsUtf8 (word_in line.now name) }
    ensures { IfOk result (λ s. s ≡ named_of builder.now what (word_in line.now name)) }
{
    match what {
        NameWord::Task => declared(alloc, bytes_in(line, name), ElementKind::Task, false),
        NameWord::Assume => declared(alloc, bytes_in(line, name), ElementKind::Assume, false),
        NameWord::Sum => Ok(Statement::Sum(Sum {
            name: name_of(alloc, bytes_in(line, name))?,
        })),
        NameWord::Interest => Ok(Statement::Interest(element(builder, line, name))),
    }
}

fn pair(builder: &ModelBuilder, line: &[u8], what: PairWord, one: Word, other: Word) -> Statement
    ensures { result ≡ pair_of builder.now what (word_in line.now one) (word_in line.now other) }
{
    match what {
        PairWord::Contrib => Statement::Contrib(element_edge(builder, line, one, other)),
        PairWord::Conflict => Statement::Conflict(element_edge(builder, line, one, other)),
        PairWord::Bind => Statement::Bind(Edge {
            from: refinement(builder, line, one),
            to: refinement(builder, line, other),
        }),
        PairWord::Prefer => Statement::Prefer(Preference {
            better: truth(builder, line, one),
            worse: truth(builder, line, other),
        }),
    }
}

fn element_edge(builder: &ModelBuilder, line: &[u8], one: Word, other: Word) -> Edge
    ensures { result ≡ record {
      from = element_named builder.now (word_in line.now one);
      to =
          element_named builder.now (word_in line.now other);
    } }
{
    Edge {
        from: element(builder, line, one),
        to: element(builder, line, other),
    }
}

fn condition(what: ConditionWord, name: Truth, formula: Formula) -> Rule
    ensures { result ≡ condition_of what name formula }
{
    match what {
        ConditionWord::Positive => Rule::Positive(name, formula),
        ConditionWord::Negative => Rule::Negative(name, formula),
    }
}

fn weight(what: WeightWord, weighing: Weighing) -> Statement
    ensures { result ≡ statement_of_weight what weighing }
{
    match what {
        WeightWord::Reward => Statement::Reward(weighing),
        WeightWord::Penalty => Statement::Penalty(weighing),
    }
}

fn is_max(direction: Direction) -> bool
    ensures { result ≡ is_max direction }
{
    match direction {
        Direction::Min => false,
        Direction::Max => true,
    }
}

fn quantity(built_in: Option<Quantity>, number: Number) -> Quantity
    ensures { result ≡ quantity_of built_in number }
{
    match built_in {
        Some(quantity) => quantity,
        None => match number {
            Number::Var(k) => Quantity::Var(k),
            Number::Sum(k) => Quantity::Sum(k),
        },
    }
}

fn refined(
    alloc: Global,
    builder: &ModelBuilder,
    line: &[u8],
    name: Word,
    target: Word,
    sources: Parts<u32>,
) -> Result<Statement, OutOfMemory>
    requires text { IsUtf8 (word_in line.now name) }
    ensures { IfOk result (λ s. s ≡ Statement.Refine (record {
      name = word_in line.now name;
      target = element_named builder.now (word_in line.now target);
      sources = sources;
    })) }
{
    Ok(Statement::Refine(Refinement {
        name: name_of(alloc, bytes_in(line, name))?,
        target: element(builder, line, target),
        sources,
    }))
}

fn variable(
    alloc: Global,
    line: &[u8],
    name: Word,
    lo: i64,
    hi: i64,
) -> Result<Statement, OutOfMemory>
    requires text { IsUtf8 (word_in line.now name) }
    ensures { IfOk result (λ s. s ≡ Statement.Variable
        (record { name = word_in line.now name; lo = lo; hi = hi })) }
{
    Ok(Statement::Variable(Variable {
        name: name_of(alloc, bytes_in(line, name))?,
        lo,
        hi,
    }))
}

fn assertion(builder: &ModelBuilder, line: &[u8], name: Word, truth: bool) -> Statement
    ensures { result ≡ statement_of builder.now (written_assertion (word_in line.now name) truth) }
{
    Statement::Assert(Assertion {
        element: element(builder, line, name),
        truth,
    })
}

fn value(builder: &ModelBuilder, line: &[u8], name: Word, of: Word, k: i64) -> Statement
    ensures { result ≡ statement_of builder.now (written_value (word_in line.now name)
        (word_in line.now of) k) }
{
    Statement::Value(SumValue {
        sum: sum(builder, line, name),
        of: truth(builder, line, of),
        k,
    })
}

fn weighing(builder: &ModelBuilder, line: &[u8], what: WeightWord, name: Word, k: i64) -> Statement
    ensures { result ≡ statement_of builder.now (written_weight what (word_in line.now name) k) }
{
    let element = element(builder, line, name);
    weight(what, Weighing { element, k })
}

fn conditional(
    alloc: Global,
    builder: &ModelBuilder,
    line: &[u8],
    what: ConditionWord,
    name: Word,
    tree: &Tree,
) -> Result<Statement, OutOfMemory>
    ensures { IfOk result (λ s. s ≡ statement_of builder.now
        (written_condition what (word_in line.now name) (formula_in line.now tree.now))) }
{
    let formula = formula(alloc, builder, line, tree)?;
    let name = truth(builder, line, name);
    Ok(Statement::Rule(condition(what, name, formula)))
}

fn requirement(
    alloc: Global,
    builder: &ModelBuilder,
    line: &[u8],
    tree: &Tree,
) -> Result<Statement, OutOfMemory>
    ensures { IfOk result (λ s. s ≡ statement_of builder.now
        (written_requirement (formula_in line.now tree.now))) }
{
    let formula = formula(alloc, builder, line, tree)?;
    Ok(Statement::Rule(Rule::Require(formula)))
}

fn objective(builder: &ModelBuilder, line: &[u8], direction: Direction, name: Word) -> Statement
    ensures { result ≡ statement_of builder.now (written_objective direction
        (word_in line.now name)) }
{
    Statement::Objective(Objective {
        max: is_max(direction),
        of: quantity(built_in(bytes_in(line, name)), number(builder, line, name)),
    })
}

/// The statement that a written one makes after those of the builder.
pub(crate) fn statement(
    alloc: Global,
    builder: &ModelBuilder,
    line: &[u8],
    written: &Written,
) -> Result<Statement, OutOfMemory>
    requires texts { All IsUtf8 (declared_words (statement_in line.now written.now)) }
    ensures { IfOk result (λ s. s ≡ statement_of builder.now (statement_in line.now written.now)) }
{
    match written {
        Written::Goal { name, must } => {
            declared(alloc, bytes_in(line, *name), ElementKind::Goal, *must)
        }
        Written::Name { what, name } => named(alloc, builder, line, *what, *name),
        Written::Refine {
            name,
            target,
            first,
            others,
        } => {
            let sources = elements(alloc, builder, line, *first, others.as_slice())?;
            refined(alloc, builder, line, *name, *target, sources)
        }
        Written::Pair { what, one, other } => Ok(pair(builder, line, *what, *one, *other)),
        Written::Assert { name, truth } => Ok(assertion(builder, line, *name, *truth)),
        Written::Var { name, lo, hi } => variable(alloc, line, *name, *lo, *hi),
        Written::Value { sum, of, k } => Ok(value(builder, line, *sum, *of, *k)),
        Written::Weight { what, name, k } => Ok(weighing(builder, line, *what, *name, *k)),
        Written::Condition {
            what,
            name,
            formula,
        } => conditional(alloc, builder, line, *what, *name, formula),
        Written::Require { formula } => requirement(alloc, builder, line, formula),
        Written::Objective {
            direction,
            quantity,
        } => Ok(objective(builder, line, *direction, *quantity)),
    }
}
