//! How many brackets are open at once.
ghost use Rattle.std.specs.Prelude.{◌≡◌, ℕ, ◌<◌, List};
ghost use Rattle.cgm_text.specs.Trees.{count_after, is_deeper, seen_all};
ghost use Rattle.cgm_lex.specs.Lexemes.{lexeme_with};

use cgm_lex::{Kind, Token};

/// Says whether more than so many brackets are open at once. A closing bracket with none open closes nothing.
pub(crate) fn nests_deeper(tokens: &[Token], most: usize) -> bool
    requires { most < 1000 }
    ensures { (line : List ℕ) → result ≡ is_deeper most 0 (seen_all line tokens.now) }
{
    let mut unclosed = 0;
    for token in tokens {
        unclosed = open_after(token.kind, unclosed);
        if unclosed > most {
            return true;
        }
    }
    false
}

fn open_after(kind: Kind, unclosed: usize) -> usize
    requires { unclosed < 1000 }
    ensures { (bytes : List ℕ) → result ≡ count_after (lexeme_with bytes kind) unclosed }
{
    match kind {
        Kind::Open => unclosed + 1,
        Kind::Close => unclosed.saturating_sub(1),
        Kind::Colon => unclosed,
        Kind::Number(_) => unclosed,
        Kind::Word => unclosed,
    }
}
