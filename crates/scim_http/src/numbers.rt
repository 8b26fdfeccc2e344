//! Whole numbers as a query writes them.
ghost use Rattle.std.specs.Prelude.{◌≡◌};
ghost use Rattle.std.specs.Char.{is_ascii_digit};
ghost use Rattle.std.specs.List.{list_all};
ghost use Rattle.scim_http.specs.Numbers as spec;

/// The most digits that a number may have.
const MOST_DIGITS: usize = 18;

/// Reads a number: an optional `-` and 1 to 18 digits.
pub(crate) fn number_in(text: &str) -> Option<i64>
    ensures { result ≡ spec.number_in text.now }
{
    if is_digits(without_minus(text.as_bytes())) {
        text.parse().ok()
    } else {
        None
    }
}

fn without_minus(text: &[u8]) -> &[u8]
    ensures { result.now ≡ spec.without_minus text.now }
{
    match text {
        [b'-', digits @ ..] => digits,
        _ => text,
    }
}

fn is_digits(text: &[u8]) -> bool
    ensures { result ≡ spec.is_digits text.now }
{
    !text.is_empty() && text.len() <= MOST_DIGITS && has_digits_alone(text)
}

fn has_digits_alone(text: &[u8]) -> bool
    ensures { result ≡ list_all is_ascii_digit text.now }
{
    text.iter().all(|byte| byte.is_ascii_digit())
}
