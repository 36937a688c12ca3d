//! The model of the lines that were read so far.
ghost use Rattle.std.specs.Prelude.{◌≡◌, ◌↔◌, ℕ, List, [], ◌∷◌, true, false, if◌then◌else◌, All, Option, None, IsTrue, IfErr, OnOk};
ghost use Rattle.cgm_lex.specs.Spelling.{IsPlain};
ghost use Rattle.cgm_model.specs.Statement.{IsProperStatement};
ghost use Rattle.cgm_print.specs.Statements.{header_tokens};
ghost use Rattle.cgm_text.specs.Line.{AreFirst, AreJudged, IsJudged, nests_too_deep};
ghost use Rattle.cgm_text.specs.Progress.{IsStatementAdded, IsModelDraft, IsFinished, IsStatementPut, IsStatementStep, IsFaultOrMemory, IsStopAfter, line_stop, tokens_come_to};
ghost use Rattle.cgm_text.specs.Text.{LineStatement, model_text, rule_line};
ghost use Rattle.cgm_text.specs.Trees.{seen_all};

use crate::depth::nests_deeper;
use crate::fault::refusal_kind;
use crate::judge::statement_of_tokens;
use crate::reader::Reading;
use crate::shape::is_end;
use crate::take::{take_exact, take_number};
use cgm_base::{BadKind, Which, limits};
use cgm_lex::reading::{Draft, LineFault, LineStop, lexing_stop};
use cgm_lex::{Token, tokens_of_line};
use cgm_model::{AddStop, ModelBuilder, Statement};
use std::alloc::Global;
use std::mem::drop;

/// What the lines so far make.
#[derive(Drop)]
pub(crate) struct ModelDraft {
    has_header: bool,
    builder: ModelBuilder,
    rule_lines: Vec<u32>,
}

fn is_rule(statement: &Statement) -> bool
    ensures { (line : ℕ) → rule_line line statement.now ≡ (if result then line ∷ [] else []) }
{
    match statement {
        Statement::Rule(_) => true,
        _ => false,
    }
}

/// Says whether these are the tokens of the header.
fn is_header(line: &[u8], tokens: &[Token]) -> bool
    ensures { IsTrue result ↔ (seen_all line.now tokens.now ≡ header_tokens) }
{
    match take_exact(line, tokens, "cgm") {
        None => false,
        Some(rest) => match take_number(rest) {
            None => false,
            Some((version, rest)) => version == 1 && is_end(rest),
        },
    }
}

fn add_stop(stop: AddStop) -> LineStop
    ensures { result ≡ line_stop stop }
{
    match stop {
        AddStop::Refused(fault) => LineStop::Faulty(LineFault::Bad(refusal_kind(fault))),
        AddStop::Limit(which) => LineStop::Faulty(LineFault::Limit(which)),
        AddStop::Memory => LineStop::Memory,
    }
}

impl ModelDraft {
    /// The draft before the first line.
    pub(crate) fn new(alloc: Global) -> ModelDraft
        ensures { IsModelDraft None result }
    {
        ModelDraft {
            has_header: false,
            builder: ModelBuilder::new(alloc),
            rule_lines: Vec::new(alloc),
        }
    }

    /// Adds a statement of the line with this number.
    fn add(&mut self, statement: Statement, number: u32) -> Result<(), LineStop>
        requires { IsProperStatement self.old.builder statement }
        ensures put { OnOk result (IsStatementPut number statement self.old self.new) }
        ensures stop { IfErr result (IsFaultOrMemory (IsJudged self.old.builder statement)) }
    {
        let has_line = is_rule(&statement);
        match self.builder.add(statement) {
            Ok(()) => {}
            Err(stop) => return Err(add_stop(stop)),
        }
        if has_line {
            match self.rule_lines.push(number) {
                Ok(()) => {}
                Err(_) => return Err(LineStop::Memory),
            }
        }
        Ok(())
    }

    /// Adds the statement that a line's tokens make.
    fn add_statement(
        &mut self,
        alloc: Global,
        line: &[u8],
        tokens: &[Token],
        number: u32,
    ) -> Result<(), LineStop>
        requires plain { All IsPlain (seen_all line.now tokens.now) }
        requires shallow { nests_too_deep (seen_all line.now tokens.now) ≡ false }
        ensures added { OnOk result (IsStatementAdded number (seen_all line.now tokens.now) self.old
            self.new) }
        ensures stop { IfErr result (IsFaultOrMemory
            (AreJudged self.old.builder (seen_all line.now tokens.now))) }
    {
        let statement = statement_of_tokens(alloc, &self.builder, line, tokens)?;
        self.add(statement, number)
    }

    /// Takes the first tokens of the text, which are to be the header.
    fn begin(&mut self, line: &[u8], tokens: &[Token]) -> Result<(), LineStop>
        ensures begun { OnOk result (seen_all line.now tokens.now ≡ header_tokens) }
        ensures header { OnOk result (self.new.has_header ≡ true) }
        ensures lists { self.new.builder ≡ self.old.builder }
        ensures lines { self.new.rule_lines.items ≡ self.old.rule_lines.items }
        ensures stop { IfErr result (IsFaultOrMemory (AreFirst (seen_all line.now tokens.now))) }
    {
        if !is_header(line, tokens) {
            return Err(LineStop::Faulty(LineFault::Bad(BadKind::Header)));
        }
        self.has_header = true;
        Ok(())
    }

    /// Adds what a line's tokens say.
    fn add_tokens(
        &mut self,
        alloc: Global,
        line: &[u8],
        tokens: &[Token],
        number: u32,
    ) -> Result<(), LineStop>
        requires plain { All IsPlain (seen_all line.now tokens.now) }
        ensures step { OnOk result (IsStatementStep (tokens_come_to (seen_all line.now tokens.now))
            number self.old self.new) }
        ensures stop { IfErr result (IsStopAfter (tokens_come_to (seen_all line.now tokens.now))
            self.old) }
    {
        if is_end(tokens) {
            return Ok(());
        }
        if nests_deeper(tokens, limits::FORMULA_DEPTH as usize) {
            return Err(LineStop::Faulty(LineFault::Limit(Which::FormulaDepth)));
        }
        if self.has_header {
            self.add_statement(alloc, line, tokens, number)
        } else {
            self.begin(line, tokens)
        }
    }

    /// Gives the memory of the draft back.
    pub(crate) fn discard(self) {
        drop(self);
    }

    /// The model of the lines so far.
    pub(crate) fn finish(self) -> Reading
        ensures { IsFinished self result }
    {
        let ModelDraft {
            has_header: _,
            builder,
            rule_lines,
        } = self;
        Reading {
            model: builder.finish(),
            rule_lines,
        }
    }
}

impl Draft for ModelDraft {
    ghost Said = { Option (List LineStatement) };

    ghost form = { model_text };

    ghost holds = { IsModelDraft };

    fn add_line(&mut self, alloc: Global, line: &[u8], number: u32) -> Result<(), LineStop> {
        match tokens_of_line(alloc, line, number) {
            Ok(tokens) => self.add_tokens(alloc, line, tokens.as_slice(), number),
            Err(stop) => Err(lexing_stop(stop)),
        }
    }

    fn lack(&self) -> Option<LineFault> {
        if self.has_header {
            None
        } else {
            Some(LineFault::Bad(BadKind::Header))
        }
    }
}
