//! A text that contracts see as its bytes.
ghost use Rattle.std.specs.Prelude.{◌≡◌, ◌++◌, ◌↔◌, IsTrue, encode_utf8, is_ok, if◌then◌else◌};
ghost use Rattle.std.specs.String.{string_bytes};

use cgm_base::OutOfMemory;
use std::marker::Model;

/// A `String` that contracts see as the list of its bytes.
#[derive(Drop)]
pub struct Name {
    text: String,
}

impl Model for Name {
    ghost use Rattle.std.specs.Prelude.{List, ℕ};
    ghost use Rattle.std.specs.String.{string_bytes};

    ghost Value = { List ℕ };

    ghost view = { λ n. string_bytes n.text };
}

impl Name {
    /// Keeps this text.
    pub fn of(text: String) -> Name
        ensures { result ≡ string_bytes text }
    {
        Name { text }
    }

    /// Gives the text back.
    pub fn into_inner(self) -> String
        ensures { string_bytes result ≡ self }
    {
        let Name { text } = self;
        text
    }

    /// Lends the bytes.
    pub fn as_slice(&self) -> &[u8]
        ensures { result.now ≡ self.now }
    {
        self.text.as_bytes()
    }

    /// Adds a character at the end.
    pub fn push(&mut self, ch: char) -> Result<(), OutOfMemory>
        ensures bytes { self.new ≡ (if is_ok result then self.old ++ encode_utf8 ch else self.old) }
    {
        self.text.push(ch)
    }

    /// Says whether these are the name's bytes.
    pub fn is(&self, bytes: &[u8]) -> bool
        ensures { IsTrue result ↔ (self.now ≡ bytes.now) }
    {
        self.text.as_bytes() == bytes
    }
}
