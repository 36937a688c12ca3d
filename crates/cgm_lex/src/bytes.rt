//! The bytes that words, numbers and blanks are made of.
ghost use Rattle.std.specs.Prelude.{◌≡◌};
ghost use Rattle.cgm_lex.specs.Lines.{ends_line as ends};
ghost use Rattle.cgm_lex.specs.Pieces.{is_mark as is_mark_byte, is_run_byte as is_of_run, is_blank as is_blank_byte};

fn is_mark(byte: u8) -> bool
    ensures { result ≡ is_mark_byte byte }
{
    b"_-.+*<>=".iter().any(|mark| *mark == byte)
}

/// Whether a run may have this byte.
pub(crate) fn is_run_byte(byte: u8) -> bool
    ensures { result ≡ is_of_run byte }
{
    byte.is_ascii_alphanumeric() || is_mark(byte)
}

/// Whether this is a space or a tab.
pub(crate) fn is_blank(byte: u8) -> bool
    ensures { result ≡ is_blank_byte byte }
{
    byte == b' ' || byte == b'\t'
}

/// Whether this byte, after which the line has so many more, ends what counts of the line.
pub(crate) fn ends_line(byte: u8, after: usize) -> bool
    ensures { result ≡ ends byte after }
{
    byte == b'#' || (byte == b'\r' && after == 0)
}
