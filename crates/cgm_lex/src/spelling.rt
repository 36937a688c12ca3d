//! The spelling of a name.
ghost use Rattle.std.specs.Prelude.{◌≡◌};
ghost use Rattle.std.specs.List.{list_all};
ghost use Rattle.cgm_lex.specs.Names as spelling;

/// Says whether the bytes are spelled as a name; a reserved word is.
pub fn is_spelled(bytes: &[u8]) -> bool
    ensures { result ≡ spelling.is_spelled bytes.now }
{
    match bytes {
        [] => false,
        [first, rest @ ..] => starts_name(*first) && continue_name(rest),
    }
}

fn starts_name(b: u8) -> bool
    ensures { result ≡ spelling.starts_name b }
{
    b.is_ascii_alphabetic() || b == b'_'
}

fn continue_name(bytes: &[u8]) -> bool
    ensures { result ≡ list_all spelling.continues_name bytes.now }
{
    bytes.iter().all(|b| continues_name(*b))
}

fn continues_name(b: u8) -> bool
    ensures { result ≡ spelling.continues_name b }
{
    starts_name(b) || b.is_ascii_digit() || b == b'-' || b == b'.'
}
