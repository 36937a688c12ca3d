//! The numbers that options give.
ghost use Rattle.std.specs.Prelude.{◌≡◌, ◌≤◌, IfSome, option_map};
ghost use Rattle.std.specs.Char.{is_ascii_digit};
ghost use Rattle.std.specs.List.{list_all};
ghost use Rattle.cgm_cli.specs.Numbers.{is_between, is_numeral, numeral_in, number_or};

/// The most digits of a number, leading zeros among them.
const MAX_DIGITS: usize = 20;

/// Whether the text is one to twenty digits.
fn is_numeral(text: &str) -> bool
    ensures { result ≡ is_numeral text.now }
{
    let bytes = text.as_bytes();
    1 <= bytes.len() && bytes.len() <= MAX_DIGITS && are_digits(bytes)
}

fn are_digits(bytes: &[u8]) -> bool
    ensures { result ≡ list_all is_ascii_digit bytes.now }
{
    bytes.iter().all(|byte| byte.is_ascii_digit())
}

fn is_between(least: u64, greatest: u64, number: u64) -> bool
    ensures { result ≡ is_between least greatest number }
{
    least <= number && number <= greatest
}

/// The number that a text writes, where it is one to twenty digits and lies in the range.
pub(crate) fn numeral_in(least: u64, greatest: u64, text: &str) -> Option<u64>
    ensures number { result ≡ numeral_in least greatest text.now }
    ensures within { IfSome result (λ number. number ≤ greatest) }
    ensures at_least { IfSome result (λ number. least ≤ number) }
{
    if !is_numeral(text) {
        return None;
    }
    match text.parse::<u64>() {
        Ok(number) => {
            if is_between(least, greatest, number) {
                Some(number)
            } else {
                None
            }
        }
        Err(_) => None,
    }
}

/// The same of a text that may be left out, which then stands for the default.
pub(crate) fn number_or(least: u64, greatest: u64, default: u64, text: Option<&str>) -> Option<u64>
    requires default { (least ≤ default) × (default ≤ greatest) }
    ensures number { result
        ≡ number_or least greatest default (option_map (λ t. t.now) text.entry) }
    ensures within { IfSome result (λ number. number ≤ greatest) }
    ensures at_least { IfSome result (λ number. least ≤ number) }
{
    match text {
        None => Some(default),
        Some(text) => numeral_in(least, greatest, text),
    }
}
