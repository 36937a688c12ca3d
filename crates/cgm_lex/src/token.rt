//! Tokens, flaws and faults.
ghost use Rattle.std.specs.Prelude.{◌≡◌};
ghost use Rattle.cgm_lex.specs.Lexemes.{fault_at, token_bytes};

/// What a token is.
#[derive(Clone, Copy, PartialEq, Eq)]
pub enum Kind {
    /// `(`
    Open,
    /// `)`
    Close,
    /// `:`
    Colon,
    /// A number of 64 bits.
    Number(i64),
    /// Any other run.
    Word,
}

/// A token of a text: its line, numbered from 1, and the bytes from place `from` to before place `to`.
#[derive(Clone, Copy, PartialEq, Eq)]
pub struct Token {
    pub line: u32,
    pub from: u32,
    pub to: u32,
    pub kind: Kind,
}

/// What is wrong with a piece of a line.
#[derive(Clone, Copy, Debug, PartialEq, Eq)]
pub enum Flaw {
    /// A byte outside comments that belongs to no token.
    BadByte,
    /// A run that begins as a number and is none of 64 bits.
    BadNumber,
}

/// The first flaw of a text, with its line, numbered from 1.
#[derive(Clone, Copy, Debug, PartialEq, Eq)]
pub enum LexFault {
    /// A byte outside comments that belongs to no token.
    BadByte { line: u32 },
    /// A run that begins as a number and is none of 64 bits.
    BadNumber { line: u32 },
}

/// Why a line has no tokens.
#[derive(Clone, Copy, Debug, PartialEq, Eq)]
pub enum LexStop {
    /// The line's first flaw.
    Fault(LexFault),
    /// There is no memory for the tokens.
    Memory,
}

/// The tokens of the lines before the first faulty one, and its fault; all tokens, where no line is faulty.
#[derive(Drop)]
pub struct Lexed {
    pub tokens: Vec<Token>,
    pub fault: Option<LexFault>,
}

pub(crate) fn fault_of(line: u32, flaw: Flaw) -> LexFault
    ensures { result ≡ fault_at line flaw }
{
    match flaw {
        Flaw::BadByte => LexFault::BadByte { line },
        Flaw::BadNumber => LexFault::BadNumber { line },
    }
}

/// The bytes of a token of this text. What lies past the text's end is left out.
pub fn bytes_of<'t>(text: &'t [u8], token: &Token) -> &'t [u8]
    ensures { result.now ≡ token_bytes text.now token.now }
{
    let to = (token.to as usize).min(text.len());
    let from = (token.from as usize).min(to);
    &text[from..to]
}
