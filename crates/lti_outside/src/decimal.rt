// Numbers in decimal digits.
ghost use Rattle.std.specs.Prelude.{◌≡◌, ◌≤◌};
ghost use Rattle.std.specs.List.{list_all};
ghost use Rattle.std.specs.Char as char;
ghost use Rattle.lti_outside.specs.Decimal.{is_decimal, decimal_of};

fn are_digits(text: &[u8]) -> bool
    ensures { result ≡ list_all char.is_ascii_digit text.now }
{
    text.iter().all(|b| b.is_ascii_digit())
}

fn is_decimal_text(text: &[u8], most: usize) -> bool
    ensures { result ≡ is_decimal most text.now }
{
    1 <= text.len() && text.len() <= most && are_digits(text)
}

/// The number that the digits spell, where `text` is one digit at least, at most `most` digits, and
/// nothing else. Leading zeros are digits like others.
pub fn read_decimal(text: &[u8], most: usize) -> Option<u64>
    requires { most ≤ 15 }
    ensures { result ≡ decimal_of most text.now }
{
    if !is_decimal_text(text, most) {
        return None;
    }
    let mut number = 0u64;
    for b in text {
        number = number * 10 + u64::from(*b - b'0');
    }
    Some(number)
}
