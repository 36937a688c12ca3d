//! Names: what is spelled as one and is no reserved word.
ghost use Rattle.std.specs.Prelude.{◌≡◌};
ghost use Rattle.std.specs.Str.{bytes_eq};
ghost use Rattle.cgm_model.specs.Name as spelling;

use crate::lists::Quantity;
use cgm_lex::is_spelled;

/// Says whether the bytes are a name: spelled as one, and no reserved word.
pub(crate) fn is_name(bytes: &[u8]) -> bool
    ensures { result ≡ spelling.is_name bytes.now }
{
    is_spelled(bytes) && !is_reserved(bytes)
}

fn is_reserved(bytes: &[u8]) -> bool
    ensures { result ≡ spelling.is_reserved bytes.now }
{
    is_word("and", bytes)
        || is_word("or", bytes)
        || is_word("not", bytes)
        || is_word("iff", bytes)
        || Quantity::Weight.has_word(bytes)
        || Quantity::UnsatPrefs.has_word(bytes)
        || Quantity::UnsatReqs.has_word(bytes)
        || Quantity::SatTasks.has_word(bytes)
        || Quantity::Familiarity.has_word(bytes)
        || Quantity::Effort.has_word(bytes)
}

fn is_word(word: &str, bytes: &[u8]) -> bool
    ensures { result ≡ bytes_eq word.now bytes.now }
{
    word.as_bytes() == bytes
}
