//! Words: whether bytes are one, and the words of truth values.
ghost use Rattle.std.specs.Prelude.{◌≡◌, ◌≢◌, ◌↔◌, Bool, IsTrue, IfSome, IfNone};
ghost use Rattle.cgm_base.specs.Printed.{truth_word};

/// Says whether the bytes are this word.
pub fn is_word(bytes: &[u8], word: &str) -> bool
    ensures { IsTrue result ↔ (bytes.now ≡ word.now) }
{
    bytes == word.as_bytes()
}

/// The word of a truth value.
pub fn truth_word(truth: bool) -> &'static [u8]
    ensures { result.now ≡ truth_word truth }
{
    if truth { b"true" } else { b"false" }
}

/// The truth value with this word.
pub fn truth_of_word(bytes: &[u8]) -> Option<bool>
    ensures found { IfSome result (λ truth. bytes.now ≡ truth_word truth) }
    ensures none { IfNone result ((truth : Bool) → bytes.now ≢ truth_word truth) }
{
    if is_word(bytes, "true") {
        Some(true)
    } else if is_word(bytes, "false") {
        Some(false)
    } else {
        None
    }
}
