//! A text that is written token by token.
ghost use Rattle.std.specs.Prelude.{◌≡◌, ◌∷◌, [], ◌++◌, if◌then◌else◌, codes, List, OnOk};
ghost use Rattle.cgm_lex.specs.Lexemes.{Lexeme, opening, closing, colon, number, word};
ghost use Rattle.cgm_lex.specs.Spelling.{spelled_line};
ghost use Rattle.cgm_print.specs.Printing.{Writes, text_followed};

use cgm_base::OutOfMemory;
use itoa::Buffer;
use std::alloc::Global;

/// A text that is being written, token by token.
#[derive(Drop)]
pub(crate) struct Printer {
    pub(crate) text: Vec<u8>,
    /// Whether a space comes before the next token, if that one doesn't close.
    pub(crate) is_due: bool,
}

impl Printer {
    pub(crate) fn new(alloc: Global) -> Printer
        ensures { result.text.items ≡ [] }
    {
        Printer {
            text: Vec::new(alloc),
            is_due: false,
        }
    }

    /// Begins a line with this word.
    pub(crate) fn begin_line(&mut self, first: &[u8]) -> Result<(), OutOfMemory>
        ensures { OnOk result ((after : List Lexeme) → text_followed self.new after
            ≡ self.old.text.items ++ spelled_line (word first.now ∷ after)) }
    {
        self.text.extend_from_slice(first)?;
        self.is_due = true;
        Ok(())
    }

    /// Ends the line.
    pub(crate) fn end_line(&mut self) -> Result<(), OutOfMemory>
        ensures { OnOk result (self.new.text.items ≡ text_followed self.old [] ++ 10 ∷ []) }
    {
        self.text.push(b'\n')?;
        Ok(())
    }

    /// Writes the space that is due.
    fn space(&mut self) -> Result<(), OutOfMemory>
        ensures { OnOk result (self.new.text.items ≡ self.old.text.items
            ++ (if self.old.is_due then codes " " else [])) }
    {
        if self.is_due {
            self.text.push(b' ')?;
        }
        Ok(())
    }

    pub(crate) fn word(&mut self, bytes: &[u8]) -> Result<(), OutOfMemory>
        ensures { OnOk result (Writes self.old self.new (λ after. word bytes.now ∷ after)) }
    {
        self.space()?;
        self.text.extend_from_slice(bytes)?;
        self.is_due = true;
        Ok(())
    }

    pub(crate) fn number(&mut self, k: i64) -> Result<(), OutOfMemory>
        ensures { OnOk result (Writes self.old self.new (λ after. number k ∷ after)) }
    {
        self.space()?;
        self.text
            .extend_from_slice(Buffer::new().format(k).as_bytes())?;
        self.is_due = true;
        Ok(())
    }

    pub(crate) fn colon(&mut self) -> Result<(), OutOfMemory>
        ensures { OnOk result (Writes self.old self.new (λ after. colon ∷ after)) }
    {
        self.space()?;
        self.text.push(b':')?;
        self.is_due = true;
        Ok(())
    }

    pub(crate) fn open(&mut self) -> Result<(), OutOfMemory>
        ensures { OnOk result (Writes self.old self.new (λ after. opening ∷ after)) }
    {
        self.space()?;
        self.text.push(b'(')?;
        self.is_due = false;
        Ok(())
    }

    pub(crate) fn close(&mut self) -> Result<(), OutOfMemory>
        ensures { OnOk result (Writes self.old self.new (λ after. closing ∷ after)) }
    {
        self.text.push(b')')?;
        self.is_due = true;
        Ok(())
    }

    /// Opens a bracket with this word in it.
    pub(crate) fn open_with(&mut self, first: &[u8]) -> Result<(), OutOfMemory>
        ensures { OnOk result (Writes self.old self.new
            (λ after. opening ∷ word first.now ∷ after)) }
    {
        self.open()?;
        self.word(first)?;
        Ok(())
    }
}
