//! What the words of statements, connectives and quantities stand for.
ghost use Rattle.std.specs.Prelude.{◌≡◌, ◌≢◌, ◌↔◌, IsTrue, IfSome, IfNone};
ghost use Rattle.cgm_print.specs.declared.words.ConditionWord.{ConditionWord};
ghost use Rattle.cgm_text.specs.declared.written.Connective.{Connective};
ghost use Rattle.cgm_text.specs.Parsed.{IsNoSingle, built_in, connective_word};
ghost use Rattle.cgm_print.specs.declared.words.Direction.{Direction};
ghost use Rattle.cgm_print.specs.declared.words.NameWord.{NameWord};
ghost use Rattle.cgm_print.specs.declared.words.PairWord.{PairWord};
ghost use Rattle.cgm_print.specs.declared.words.Sort.{Sort};
ghost use Rattle.cgm_print.specs.declared.words.WeightWord.{WeightWord};
ghost use Rattle.cgm_print.specs.Statements.{condition_word, direction_word, name_word, pair_word, sort_word, weight_word};

use crate::written::Connective;
use cgm_model::Quantity;
use cgm_print::words::{
    Comparison, ConditionWord, Direction, Joint, NameWord, PairWord, Pairing, Sort, WeightWord,
};

/// Says whether this is the word of the connective.
fn is_connective(word: &[u8], connective: Connective) -> bool
    ensures { IsTrue result ↔ (word.now ≡ connective_word connective) }
{
    word == connective.word()
}

/// Says whether this is the word of the sort of statement.
fn is_sort(word: &[u8], sort: Sort) -> bool
    ensures { IsTrue result ↔ (word.now ≡ sort_word sort) }
{
    word == sort.word()
}

/// Says whether this is the word of the direction.
fn is_direction(word: &[u8], direction: Direction) -> bool
    ensures { IsTrue result ↔ (word.now ≡ direction_word direction) }
{
    word == direction.word()
}

/// The connective with this word.
pub(crate) fn connective_of(word: &[u8]) -> Option<Connective>
    ensures found { IfSome result (λ c. word.now ≡ connective_word c) }
    ensures none { IfNone result ((c : Connective) → word.now ≢ connective_word c) }
{
    if is_connective(word, Connective::Join(Joint::And)) {
        Some(Connective::Join(Joint::And))
    } else if is_connective(word, Connective::Join(Joint::Or)) {
        Some(Connective::Join(Joint::Or))
    } else if is_connective(word, Connective::Not) {
        Some(Connective::Not)
    } else if is_connective(word, Connective::Pair(Pairing::Implies)) {
        Some(Connective::Pair(Pairing::Implies))
    } else if is_connective(word, Connective::Pair(Pairing::Iff)) {
        Some(Connective::Pair(Pairing::Iff))
    } else if is_connective(word, Connective::Compare(Comparison::AtMost)) {
        Some(Connective::Compare(Comparison::AtMost))
    } else if is_connective(word, Connective::Compare(Comparison::AtLeast)) {
        Some(Connective::Compare(Comparison::AtLeast))
    } else if is_connective(word, Connective::Compare(Comparison::Equal)) {
        Some(Connective::Compare(Comparison::Equal))
    } else {
        None
    }
}

fn name_word_of(word: &[u8]) -> Option<NameWord>
    ensures found { IfSome result (λ w. word.now ≡ name_word w) }
    ensures none { IfNone result ((w : NameWord) → word.now ≢ name_word w) }
{
    if is_sort(word, Sort::Name(NameWord::Task)) {
        Some(NameWord::Task)
    } else if is_sort(word, Sort::Name(NameWord::Assume)) {
        Some(NameWord::Assume)
    } else if is_sort(word, Sort::Name(NameWord::Sum)) {
        Some(NameWord::Sum)
    } else if is_sort(word, Sort::Name(NameWord::Interest)) {
        Some(NameWord::Interest)
    } else {
        None
    }
}

fn pair_word_of(word: &[u8]) -> Option<PairWord>
    ensures found { IfSome result (λ w. word.now ≡ pair_word w) }
    ensures none { IfNone result ((w : PairWord) → word.now ≢ pair_word w) }
{
    if is_sort(word, Sort::Pair(PairWord::Contrib)) {
        Some(PairWord::Contrib)
    } else if is_sort(word, Sort::Pair(PairWord::Conflict)) {
        Some(PairWord::Conflict)
    } else if is_sort(word, Sort::Pair(PairWord::Bind)) {
        Some(PairWord::Bind)
    } else if is_sort(word, Sort::Pair(PairWord::Prefer)) {
        Some(PairWord::Prefer)
    } else {
        None
    }
}

fn weight_word_of(word: &[u8]) -> Option<WeightWord>
    ensures found { IfSome result (λ w. word.now ≡ weight_word w) }
    ensures none { IfNone result ((w : WeightWord) → word.now ≢ weight_word w) }
{
    if is_sort(word, Sort::Weight(WeightWord::Reward)) {
        Some(WeightWord::Reward)
    } else if is_sort(word, Sort::Weight(WeightWord::Penalty)) {
        Some(WeightWord::Penalty)
    } else {
        None
    }
}

fn condition_word_of(word: &[u8]) -> Option<ConditionWord>
    ensures found { IfSome result (λ w. word.now ≡ condition_word w) }
    ensures none { IfNone result ((w : ConditionWord) → word.now ≢ condition_word w) }
{
    if is_sort(word, Sort::Condition(ConditionWord::Positive)) {
        Some(ConditionWord::Positive)
    } else if is_sort(word, Sort::Condition(ConditionWord::Negative)) {
        Some(ConditionWord::Negative)
    } else {
        None
    }
}

/// The sort whose word stands alone in its group.
fn single_sort_of(word: &[u8]) -> Option<Sort>
    ensures found { IfSome result (λ sort. word.now ≡ sort_word sort) }
    ensures none { IfNone result (IsNoSingle word.now) }
{
    if is_sort(word, Sort::Goal) {
        Some(Sort::Goal)
    } else if is_sort(word, Sort::Refine) {
        Some(Sort::Refine)
    } else if is_sort(word, Sort::Assert) {
        Some(Sort::Assert)
    } else if is_sort(word, Sort::Var) {
        Some(Sort::Var)
    } else if is_sort(word, Sort::Value) {
        Some(Sort::Value)
    } else if is_sort(word, Sort::Require) {
        Some(Sort::Require)
    } else if is_sort(word, Sort::Objective) {
        Some(Sort::Objective)
    } else {
        None
    }
}

/// The sort of statement with this word.
pub(crate) fn sort_of_word(word: &[u8]) -> Option<Sort>
    ensures found { IfSome result (λ sort. word.now ≡ sort_word sort) }
    ensures none { IfNone result ((sort : Sort) → word.now ≢ sort_word sort) }
{
    match single_sort_of(word) {
        Some(sort) => Some(sort),
        None => match name_word_of(word) {
            Some(what) => Some(Sort::Name(what)),
            None => match pair_word_of(word) {
                Some(what) => Some(Sort::Pair(what)),
                None => match weight_word_of(word) {
                    Some(what) => Some(Sort::Weight(what)),
                    None => match condition_word_of(word) {
                        Some(what) => Some(Sort::Condition(what)),
                        None => None,
                    },
                },
            },
        },
    }
}

/// The direction with this word.
pub(crate) fn direction_of_word(word: &[u8]) -> Option<Direction>
    ensures found { IfSome result (λ direction. word.now ≡ direction_word direction) }
    ensures none { IfNone result ((direction : Direction) → word.now ≢ direction_word direction) }
{
    if is_direction(word, Direction::Min) {
        Some(Direction::Min)
    } else if is_direction(word, Direction::Max) {
        Some(Direction::Max)
    } else {
        None
    }
}

/// The built-in quantity with this word.
pub(crate) fn built_in(word: &[u8]) -> Option<Quantity>
    ensures { result ≡ built_in word.now }
{
    if Quantity::Weight.has_word(word) {
        Some(Quantity::Weight)
    } else if Quantity::UnsatPrefs.has_word(word) {
        Some(Quantity::UnsatPrefs)
    } else if Quantity::UnsatReqs.has_word(word) {
        Some(Quantity::UnsatReqs)
    } else if Quantity::SatTasks.has_word(word) {
        Some(Quantity::SatTasks)
    } else if Quantity::Familiarity.has_word(word) {
        Some(Quantity::Familiarity)
    } else if Quantity::Effort.has_word(word) {
        Some(Quantity::Effort)
    } else {
        None
    }
}
