//! What is wrong with the first name that a statement may not use.
ghost use Rattle.std.specs.Prelude.{◌≡◌, [], ◌∷◌, map};
ghost use Rattle.cgm_model.specs.Named.{thing_named};
ghost use Rattle.cgm_print.specs.Written.{formulas_of};
ghost use Rattle.cgm_text.specs.declared.names.Wanted.TheVariants as wants;
ghost use Rattle.cgm_text.specs.Trees.{formula_in, linear_in, term_in, word_in};
ghost use Rattle.cgm_text.specs.Uses.{IsFirstNameFault, end_of, first_name_fault, formula_uses, formulas_uses, linear_uses, named_uses, quantity_uses, statement_uses, suits, terms_uses, thing_fault, use_as};
ghost use Rattle.cgm_text.specs.Parsed.{built_in, statement_in};

use crate::keyword::built_in;
use crate::take::bytes_in;
use crate::written::{Linear, Term, Tree, Word, Written};
use cgm_base::BadKind;
use cgm_model::{ModelBuilder, Thing};
use cgm_print::words::{NameWord, PairWord};

/// What the place of a name wants.
#[derive(Clone, Copy)]
pub(crate) enum Wanted {
    Element,
    Refinement,
    /// An element or a refinement.
    Truth,
    /// A variable or a sum.
    Number,
    Sum,
}

fn suits(wanted: Wanted, thing: Thing) -> bool
    ensures { result ≡ suits wanted thing }
{
    match thing {
        Thing::Element(_) => match wanted {
            Wanted::Element => true,
            Wanted::Refinement => false,
            Wanted::Truth => true,
            Wanted::Number => false,
            Wanted::Sum => false,
        },
        Thing::Refinement(_) => match wanted {
            Wanted::Element => false,
            Wanted::Refinement => true,
            Wanted::Truth => true,
            Wanted::Number => false,
            Wanted::Sum => false,
        },
        Thing::Var(_) => match wanted {
            Wanted::Element => false,
            Wanted::Refinement => false,
            Wanted::Truth => false,
            Wanted::Number => true,
            Wanted::Sum => false,
        },
        Thing::Sum(_) => match wanted {
            Wanted::Element => false,
            Wanted::Refinement => false,
            Wanted::Truth => false,
            Wanted::Number => true,
            Wanted::Sum => true,
        },
    }
}

fn thing_fault(wanted: Wanted, thing: Option<Thing>) -> Option<BadKind>
    ensures { result ≡ thing_fault wanted thing }
{
    match thing {
        None => Some(BadKind::UnknownName),
        Some(thing) => {
            if suits(wanted, thing) {
                None
            } else {
                Some(BadKind::WrongKind)
            }
        }
    }
}

/// What is wrong with a name in this place, if anything is.
fn word_fault(builder: &ModelBuilder, line: &[u8], wanted: Wanted, word: Word) -> Option<BadKind>
    ensures { result ≡ thing_fault wanted (thing_named builder.now (word_in line.now word)) }
{
    thing_fault(wanted, builder.find(bytes_in(line, word)))
}

fn two_words_fault(
    builder: &ModelBuilder,
    line: &[u8],
    wanted: Wanted,
    one: Word,
    other: Word,
) -> Option<BadKind>
    ensures { result ≡ first_name_fault builder.now
        (use_as wanted (word_in line.now one) ∷ use_as wanted (word_in line.now other) ∷ []) }
{
    match word_fault(builder, line, wanted, one) {
        Some(kind) => Some(kind),
        None => word_fault(builder, line, wanted, other),
    }
}

/// What is wrong with the first name that is none of an element.
fn elements_fault(builder: &ModelBuilder, line: &[u8], words: &[Word]) -> Option<BadKind>
    ensures { result ≡ first_name_fault builder.now
        (map (use_as wants.Element) (map (word_in line.now) words.now)) }
{
    for w in words {
        match word_fault(builder, line, Wanted::Element, *w) {
            Some(kind) => return Some(kind),
            None => {}
        }
    }
    None
}

fn term_fault(builder: &ModelBuilder, line: &[u8], term: &Term) -> Option<BadKind>
    ensures { IsFirstNameFault builder.now (terms_uses (term_in line.now term.now ∷ [])) result }
{
    match term {
        Term::Plain(w) => word_fault(builder, line, Wanted::Number, *w),
        Term::Scaled(_, w) => word_fault(builder, line, Wanted::Number, *w),
    }
}

fn terms_fault(builder: &ModelBuilder, line: &[u8], terms: &[Term]) -> Option<BadKind>
    ensures { IsFirstNameFault builder.now (terms_uses (map (term_in line.now) terms.now)) result }
{
    for term in terms {
        match term_fault(builder, line, term) {
            Some(kind) => return Some(kind),
            None => {}
        }
    }
    None
}

fn linear_fault(builder: &ModelBuilder, line: &[u8], linear: &Linear) -> Option<BadKind>
    ensures { IsFirstNameFault builder.now (linear_uses (linear_in line.now linear.now)) result }
{
    match linear {
        Linear::Single(term) => term_fault(builder, line, term),
        Linear::Total(term, others) => match term_fault(builder, line, term) {
            Some(kind) => Some(kind),
            None => terms_fault(builder, line, others.as_slice()),
        },
    }
}

/// What is wrong with the first bad name of a formula.
#[cycle(fault)]
fn formula_fault(builder: &ModelBuilder, line: &[u8], tree: &Tree) -> Option<BadKind>
    ensures { IsFirstNameFault builder.now (formula_uses (formula_in line.now tree.now)) result }
{
    match tree {
        Tree::Name(w) => word_fault(builder, line, Wanted::Truth, *w),
        Tree::Not(part) => formula_fault(builder, line, part.get()),
        Tree::Join(_, part, parts) => match formula_fault(builder, line, part.get()) {
            Some(kind) => Some(kind),
            None => formulas_fault(builder, line, parts.as_slice()),
        },
        Tree::Pair(_, one, other) => match formula_fault(builder, line, one.get()) {
            Some(kind) => Some(kind),
            None => formula_fault(builder, line, other.get()),
        },
        Tree::Compare(_, linear, _) => linear_fault(builder, line, linear),
    }
}

#[cycle(fault)]
fn formulas_fault(builder: &ModelBuilder, line: &[u8], trees: &[Tree]) -> Option<BadKind>
    ensures { IsFirstNameFault builder.now
        (formulas_uses (formulas_of (map (formula_in line.now) trees.now))) result }
{
    for tree in trees {
        match formula_fault(builder, line, tree) {
            Some(kind) => return Some(kind),
            None => {}
        }
    }
    None
}

fn end_of(what: PairWord) -> Wanted
    ensures { result ≡ end_of what }
{
    match what {
        PairWord::Contrib => Wanted::Element,
        PairWord::Conflict => Wanted::Element,
        PairWord::Bind => Wanted::Refinement,
        PairWord::Prefer => Wanted::Truth,
    }
}

fn named_fault(builder: &ModelBuilder, line: &[u8], what: NameWord, name: Word) -> Option<BadKind>
    ensures { result ≡ first_name_fault builder.now (named_uses what (word_in line.now name)) }
{
    match what {
        NameWord::Interest => word_fault(builder, line, Wanted::Element, name),
        _ => None,
    }
}

fn value_fault(builder: &ModelBuilder, line: &[u8], sum: Word, of: Word) -> Option<BadKind>
    ensures { result ≡ first_name_fault builder.now
        (use_as wants.Sum (word_in line.now sum) ∷ use_as wants.Truth (word_in line.now of) ∷ []) }
{
    match word_fault(builder, line, Wanted::Sum, sum) {
        Some(kind) => Some(kind),
        None => word_fault(builder, line, Wanted::Truth, of),
    }
}

/// What is wrong with the word of a quantity.
fn quantity_fault(builder: &ModelBuilder, line: &[u8], quantity: Word) -> Option<BadKind>
    ensures { result ≡ first_name_fault builder.now
        (quantity_uses (built_in (word_in line.now quantity)) (word_in line.now quantity)) }
{
    match built_in(bytes_in(line, quantity)) {
        Some(_) => None,
        None => word_fault(builder, line, Wanted::Number, quantity),
    }
}

/// What is wrong with the first bad name that a statement uses.
pub(crate) fn statement_fault(
    builder: &ModelBuilder,
    line: &[u8],
    written: &Written,
) -> Option<BadKind>
    ensures { result ≡ first_name_fault builder.now
        (statement_uses (statement_in line.now written.now)) }
{
    match written {
        Written::Refine {
            name: _,
            target,
            first,
            others,
        } => match two_words_fault(builder, line, Wanted::Element, *target, *first) {
            Some(kind) => Some(kind),
            None => elements_fault(builder, line, others.as_slice()),
        },
        Written::Pair { what, one, other } => {
            two_words_fault(builder, line, end_of(*what), *one, *other)
        }
        Written::Assert { name, truth: _ } => word_fault(builder, line, Wanted::Element, *name),
        Written::Condition {
            what: _,
            name,
            formula,
        } => match word_fault(builder, line, Wanted::Truth, *name) {
            Some(kind) => Some(kind),
            None => formula_fault(builder, line, formula),
        },
        Written::Require { formula } => formula_fault(builder, line, formula),
        Written::Name { what, name } => named_fault(builder, line, *what, *name),
        Written::Value { sum, of, k: _ } => value_fault(builder, line, *sum, *of),
        Written::Weight {
            what: _,
            name,
            k: _,
        } => word_fault(builder, line, Wanted::Element, *name),
        Written::Objective {
            direction: _,
            quantity,
        } => quantity_fault(builder, line, *quantity),
        Written::Goal { .. } => None,
        Written::Var { .. } => None,
    }
}
