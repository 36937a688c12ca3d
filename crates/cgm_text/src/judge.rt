//! The statement that the tokens of a line make.
ghost use Rattle.std.specs.Prelude.{◌≡◌, ◌∷◌, List, All, IfOk, IfErr};
ghost use Rattle.std.specs.Str.{IsUtf8};
ghost use Rattle.cgm_lex.specs.Lexemes.{Lexeme, word};
ghost use Rattle.cgm_lex.specs.Spelling.{IsPlain};
ghost use Rattle.cgm_model.specs.declared.lists.Lists.{Lists};
ghost use Rattle.cgm_text.specs.Line.{AreJudged, HasForm, written};
ghost use Rattle.cgm_text.specs.Meaning.{declared_words};
ghost use Rattle.cgm_text.specs.Progress.{MakesStatement, IsFaultOrMemory};
ghost use Rattle.cgm_print.specs.Statements.{sort_word};
ghost use Rattle.cgm_text.specs.Trees.{seen_all};
ghost use Rattle.cgm_text.specs.Parsed.{statement_in};

use crate::form::statement_of_sort;
use crate::keyword::sort_of_word;
use crate::meaning::statement;
use crate::names::statement_fault;
use crate::take::{bytes_in, take_word};
use crate::written::{FormStop, Written};
use cgm_base::BadKind;
use cgm_lex::Token;
use cgm_lex::reading::{LineFault, LineStop};
use cgm_model::{ModelBuilder, Statement};
use cgm_print::words::Sort;
use std::alloc::Global;

fn bad(kind: BadKind) -> LineStop
    ensures { result ≡ LineStop.Faulty (LineFault.Bad kind) }
{
    LineStop::Faulty(LineFault::Bad(kind))
}

/// The written statement with this word and the tokens after it.
fn form_of_sort(
    alloc: Global,
    line: &[u8],
    sort: Sort,
    tokens: &[Token],
) -> Result<Written, LineStop>
    ensures found { IfOk result (λ s. HasForm (word (sort_word sort) ∷ seen_all line.now tokens.now)
        (written (statement_in line.now s))) }
    ensures stop { IfErr result (λ stop. (m : Lists) → IsFaultOrMemory
        (AreJudged m (word (sort_word sort) ∷ seen_all line.now tokens.now)) stop) }
{
    match statement_of_sort(alloc, line, sort, tokens) {
        Ok(written) => Ok(written),
        Err(FormStop::Form) => Err(bad(BadKind::Form)),
        Err(FormStop::Memory) => Err(LineStop::Memory),
    }
}

/// The written statement with these tokens.
fn form_of(alloc: Global, line: &[u8], tokens: &[Token]) -> Result<Written, LineStop>
    ensures found { IfOk result (λ s. HasForm (seen_all line.now tokens.now)
        (written (statement_in line.now s))) }
    ensures stop { IfErr result (λ stop. (m : Lists) → IsFaultOrMemory
        (AreJudged m (seen_all line.now tokens.now)) stop) }
{
    match take_word(tokens) {
        None => Err(bad(BadKind::Statement)),
        Some((first, rest)) => match sort_of_word(bytes_in(line, first)) {
            None => Err(bad(BadKind::Statement)),
            Some(sort) => form_of_sort(alloc, line, sort, rest),
        },
    }
}

/// Gives the memory of a written statement back.
fn discard(_parsed: Written) {}

/// The statement that a written one makes after those of the builder, if its names are right.
fn judged(
    alloc: Global,
    builder: &ModelBuilder,
    line: &[u8],
    parsed: &Written,
) -> Result<Statement, LineStop>
    requires texts { All IsUtf8 (declared_words (statement_in line.now parsed.now)) }
    ensures made { IfOk result (λ s. (tokens : List Lexeme)
        → HasForm tokens (written (statement_in line.now parsed.now)) → MakesStatement builder.now
        tokens s) }
    ensures stop { IfErr result (λ stop. (tokens : List Lexeme)
        → HasForm tokens (written (statement_in line.now parsed.now))
        → IsFaultOrMemory (AreJudged builder.now tokens) stop) }
{
    match statement_fault(builder, line, parsed) {
        Some(kind) => Err(bad(kind)),
        None => match statement(alloc, builder, line, parsed) {
            Ok(statement) => Ok(statement),
            Err(_) => Err(LineStop::Memory),
        },
    }
}

/// The statement that these tokens make after those of the builder, if its names are right.
pub(crate) fn statement_of_tokens(
    alloc: Global,
    builder: &ModelBuilder,
    line: &[u8],
    tokens: &[Token],
) -> Result<Statement, LineStop>
    requires plain { All IsPlain (seen_all line.now tokens.now) }
    ensures made { IfOk result (MakesStatement builder.now (seen_all line.now tokens.now)) }
    ensures stop { IfErr result (IsFaultOrMemory (AreJudged builder.now
        (seen_all line.now tokens.now))) }
{
    let parsed = form_of(alloc, line, tokens)?;
    let answer = judged(alloc, builder, line, &parsed);
    discard(parsed);
    answer
}
