//! The pairs of the lines that were read so far.
ghost use Rattle.std.specs.Prelude.{◌≡◌, ◌≢◌, List, Option, true, IsTrue, IfOk, IfErr, OnOk, map};
ghost use Rattle.cgm_base.specs.declared.fault.BadKind.TheVariants.{Header};
ghost use Rattle.cgm_lex.specs.Lexemes.{token_seen};
ghost use Rattle.cgm_lex.specs.Names.{is_spelled};
ghost use Rattle.cgm_lex.specs.declared.stops.LineFault.TheVariants.{Bad};
ghost use Rattle.cgm_lex.specs.declared.stops.LineStop.TheVariants.{Faulty};
ghost use Rattle.cgm_evolve.specs.Index.{Indexes};
ghost use Rattle.cgm_evolve.specs.Line.{AreFaulty, header_tokens, name_fault};
ghost use Rattle.cgm_evolve.specs.Pairs.{Pair};
ghost use Rattle.cgm_evolve.specs.Progress.{IsEarlierDraft, HasDistinctPairs, IsPairAdded, IsPairStop, IsPairPut, IsPairStep, IsStopAfter};
ghost use Rattle.cgm_evolve.specs.Text.{Follows, earlier_text};

use crate::earlier::Earlier;
use crate::form::{is_end, is_header, pair_of};
use crate::index::Index;
use cgm_base::{BadKind, OutOfMemory, Which, limits};
use cgm_formula::{Name, Parts};
use cgm_lex::reading::{Draft, LineFault, LineStop, lexing_stop};
use cgm_lex::{Token, tokens_of_line};
use std::alloc::Global;

/// What the lines so far give.
#[derive(Drop)]
pub(crate) struct EarlierDraft {
    has_header: bool,
    pairs: Vec<(Name, bool)>,
    index: Index,
}

/// The name with these bytes.
fn name_of(alloc: Global, bytes: &[u8]) -> Result<Name, OutOfMemory>
    requires { IsTrue (is_spelled bytes.now) }
    ensures { IfOk result (λ name. name ≡ bytes.now) }
{
    Ok(Name::of(String::from_utf8_lossy(alloc, bytes)?))
}

/// What is wrong with a name after those of this index, if anything is.
fn name_fault(index: &Index, name: &[u8]) -> Option<LineFault>
    ensures { (pairs : List Pair) → Indexes pairs index.now → result ≡ name_fault pairs name.now }
{
    if name.len() > limits::NAME_BYTES as usize {
        return Some(LineFault::Limit(Which::NameBytes));
    }
    if index.get(name).is_some() {
        return Some(LineFault::Bad(BadKind::DoubleName));
    }
    None
}

impl EarlierDraft {
    /// The draft before the first line.
    pub(crate) fn new(alloc: Global) -> EarlierDraft
        ensures { IsEarlierDraft None result }
    {
        EarlierDraft {
            has_header: false,
            pairs: Vec::new(alloc),
            index: Index::new(alloc),
        }
    }

    /// Adds a pair.
    fn put(&mut self, alloc: Global, name: &[u8], truth: bool) -> Result<(), OutOfMemory>
        requires { IsTrue (is_spelled name.now) }
        ensures { OnOk result (IsPairPut (name.now, truth) self.old self.new) }
    {
        let kept = name_of(alloc, name)?;
        self.index.set(alloc, name, truth)?;
        match self.pairs.push((kept, truth)) {
            Ok(()) => Ok(()),
            Err(_) => Err(OutOfMemory),
        }
    }

    /// Adds the pair that a line's tokens say.
    fn add_pair(&mut self, alloc: Global, line: &[u8], tokens: &[Token]) -> Result<(), LineStop>
        ensures added { OnOk result (IsPairAdded (map (token_seen line.now) tokens.now) self.old
            self.new) }
        ensures stop { IfErr result (IsPairStop (map (token_seen line.now) tokens.now)
            self.old.index) }
    {
        match pair_of(line, tokens) {
            None => Err(LineStop::Faulty(LineFault::Bad(BadKind::Form))),
            Some((name, truth)) => match name_fault(&self.index, name) {
                Some(fault) => Err(LineStop::Faulty(fault)),
                None => match self.put(alloc, name, truth) {
                    Ok(()) => Ok(()),
                    Err(_) => Err(LineStop::Memory),
                },
            },
        }
    }

    /// Takes the first tokens of the text, which are to be the header.
    fn begin(&mut self, line: &[u8], tokens: &[Token]) -> Result<(), LineStop>
        ensures begun { OnOk result (map (token_seen line.now) tokens.now ≡ header_tokens) }
        ensures header { OnOk result (self.new.has_header ≡ true) }
        ensures pairs { self.new.pairs.items ≡ self.old.pairs.items }
        ensures index { self.new.index ≡ self.old.index }
        ensures stop { IfErr result (λ stop. (map (token_seen line.now) tokens.now ≢ header_tokens)
            × (stop ≡ Faulty (Bad Header))) }
    {
        if !is_header(line, tokens) {
            return Err(LineStop::Faulty(LineFault::Bad(BadKind::Header)));
        }
        self.has_header = true;
        Ok(())
    }

    /// Adds what a line's tokens say.
    fn add_tokens(&mut self, alloc: Global, line: &[u8], tokens: &[Token]) -> Result<(), LineStop>
        ensures step { OnOk result (IsPairStep (λ so_far next. Follows so_far
            (map (token_seen line.now) tokens.now) next) self.old self.new) }
        ensures stop { IfErr result (IsStopAfter (λ so_far. AreFaulty so_far
            (map (token_seen line.now) tokens.now)) self.old) }
    {
        if is_end(tokens) {
            return Ok(());
        }
        if self.has_header {
            self.add_pair(alloc, line, tokens)
        } else {
            self.begin(line, tokens)
        }
    }

    /// The earlier realization of the lines so far.
    pub(crate) fn finish(self) -> Earlier
        requires { HasDistinctPairs self }
        ensures { result.pairs ≡ self.pairs.items }
    {
        let EarlierDraft {
            has_header: _,
            pairs,
            index,
        } = self;
        Earlier {
            pairs: Parts::of(pairs),
            index,
        }
    }
}

impl Draft for EarlierDraft {
    ghost Said = { Option (List Pair) };

    ghost form = { earlier_text };

    ghost holds = { IsEarlierDraft };

    fn add_line(&mut self, alloc: Global, line: &[u8], number: u32) -> Result<(), LineStop> {
        match tokens_of_line(alloc, line, number) {
            Ok(tokens) => self.add_tokens(alloc, line, tokens.as_slice()),
            Err(stop) => Err(lexing_stop(stop)),
        }
    }

    fn lack(&self) -> Option<LineFault> {
        if self.has_header {
            None
        } else {
            Some(LineFault::Bad(BadKind::Header))
        }
    }
}
