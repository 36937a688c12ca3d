//! The tokens of a line and of a text.
ghost use Rattle.std.specs.Prelude.{◌≡◌, ◌+◌, ◌<◌, ◌≤◌, List, ◌++◌, length, map, All, IfOk, IfErr, IfNone, MatchOption, Ok, drop};
ghost use Rattle.std.specs.List.{slice_range};
ghost use Rattle.cgm_base.specs.Words.{most_bytes};
ghost use Rattle.cgm_lex.specs.Lexemes.{Lexeme, AreTokensAdded, IsFaultOf, IsLineStop, IsWithinText, TokensStandInOrder, first_lexical_fault, lexeme_with, line_lexemes, token_placed, token_seen, text_lexemes};
ghost use Rattle.cgm_lex.specs.Lines.{lines};
ghost use Rattle.cgm_lex.specs.Spans.{line_spans, span_of, text_spans};

use crate::line::{Span, content, line_end, next_piece};
use crate::number::kind_of;
use crate::token::{Kind, LexFault, LexStop, Lexed, Token, fault_of};
use cgm_base::OutOfMemory;
use std::alloc::Global;

/// The token of a piece of the line that begins at the place `start`.
fn token_at(line: u32, start: usize, piece: Span, kind: Kind) -> Token
    requires small { start + piece.to ≤ most_bytes }
    requires order { piece.from < piece.to }
    ensures line { result.line ≡ line }
    ensures from { result.from ≡ start + piece.from }
    ensures to { result.to ≡ start + piece.to }
    ensures kind { result.kind ≡ kind }
{
    Token {
        line,
        from: (start + piece.from) as u32,
        to: (start + piece.to) as u32,
        kind,
    }
}

/// Adds the tokens of the line from place `start` to before place `end`; answers the line's fault,
/// and adds nothing, where it has one.
fn add_tokens(
    tokens: &mut Vec<Token>,
    text: &[u8],
    start: usize,
    end: usize,
    line: u32,
) -> Result<Option<LexFault>, OutOfMemory>
    requires order { start ≤ end }
    requires inside { end ≤ length text.now }
    requires small { length text.now ≤ most_bytes }
    ensures added { IfOk result (λ found. MatchOption found
        ((lexemes : List Lexeme) × ((line_lexemes (slice_range text.now start end) ≡ Ok lexemes)
        × AreTokensAdded text.now line tokens.old.items tokens.new.items lexemes))
        (λ fault. IsFaultOf line (slice_range text.now start end) fault
        × (tokens.new.items ≡ tokens.old.items))) }
    ensures order { IfOk result (λ found. TokensStandInOrder text.now 0 start tokens.old.items
        → TokensStandInOrder text.now 0 end tokens.new.items) }
    ensures spans { IfOk result (λ found. IfNone found (map span_of tokens.new.items
        ≡ map span_of tokens.old.items ++ line_spans start (slice_range text.now start end))) }
{
    let count = tokens.len();
    let words = content(&text[start..end]);
    let mut at = 0;
    while let Some(piece) = next_piece(words, at) {
        match kind_of(&words[piece.from..piece.to]) {
            Ok(kind) => tokens.push(token_at(line, start, piece, kind))?,
            Err(flaw) => {
                tokens.truncate(count);
                return Ok(Some(fault_of(line, flaw)));
            }
        }
        at = piece.to;
    }
    Ok(None)
}

/// The tokens of one line of at most 16 MiB, given without its line feed; their spans are places of
/// the line. `number` is the line's number.
pub fn tokens_of_line(alloc: Global, line: &[u8], number: u32) -> Result<Vec<Token>, LexStop>
    requires { length line.now ≤ most_bytes }
    ensures lexemes { IfOk result (λ tokens. line_lexemes line.now
        ≡ Ok (map (token_seen line.now) tokens.items)) }
    ensures numbered { IfOk result (λ tokens. All (λ token. token.line ≡ number) tokens.items) }
    ensures within { IfOk result (λ tokens. All (IsWithinText line.now) tokens.items) }
    ensures order { IfOk result (λ tokens. TokensStandInOrder line.now 0 (length line.now)
        tokens.items) }
    ensures spans { IfOk result (λ tokens. map span_of tokens.items ≡ line_spans 0 line.now) }
    ensures stop { IfErr result (IsLineStop number line.now) }
{
    let mut tokens = Vec::new(alloc);
    match add_tokens(&mut tokens, line, 0, line.len(), number) {
        Ok(None) => Ok(tokens),
        Ok(Some(fault)) => Err(LexStop::Fault(fault)),
        Err(_) => Err(LexStop::Memory),
    }
}

/// The tokens of a text of at most 16 MiB: those of the lines before the first faulty one, and its
/// fault.
pub fn tokens(alloc: Global, bytes: &[u8]) -> Result<Lexed, OutOfMemory>
    requires { length bytes.now ≤ most_bytes }
    ensures tokens { IfOk result (λ lexed. map (token_placed bytes.now) lexed.tokens.items
        ≡ text_lexemes 1 (lines bytes.now)) }
    ensures within { IfOk result (λ lexed. All (IsWithinText bytes.now) lexed.tokens.items) }
    ensures order { IfOk result (λ lexed. TokensStandInOrder bytes.now 0 (length bytes.now)
        lexed.tokens.items) }
    ensures spans { IfOk result (λ lexed. map span_of lexed.tokens.items
        ≡ text_spans 0 (lines bytes.now)) }
    ensures fault { IfOk result (λ lexed. lexed.fault ≡ first_lexical_fault 1 (lines bytes.now)) }
{
    let mut tokens = Vec::new(alloc);
    let mut start = 0;
    let mut line = 1;
    while start < bytes.len() {
        let end = line_end(bytes, start);
        match add_tokens(&mut tokens, bytes, start, end, line)? {
            None => {}
            fault => return Ok(Lexed { tokens, fault }),
        }
        start = (end + 1).min(bytes.len());
        line += 1;
    }
    Ok(Lexed {
        tokens,
        fault: None,
    })
}
