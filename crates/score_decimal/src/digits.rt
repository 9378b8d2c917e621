// Decimal digits and the number that they spell.
ghost use Rattle.std.specs.Prelude.{◌≡◌, ◌≤◌, ◌+◌, ◌*◌, ◌^◌, ℕ, ◌↔◌, length, IsTrue, nat_le, if◌then◌else◌, ◌==◌, Some, None};
ghost use Rattle.std.specs.List.{list_all, position};
ghost use Rattle.std.specs.Char as char;
ghost use Rattle.std.specs.Str.Parse.{digits_value};
ghost use Rattle.score_decimal.specs.Written.{whole_of, fraction_of};

/// How many units of 10^-30 make one.
pub const ONE: u128 = 1_000_000_000_000_000_000_000_000_000_000;

pub fn are_digits(text: &[u8]) -> bool
    ensures { result ≡ list_all char.is_ascii_digit text.now }
{
    text.iter().all(|b| b.is_ascii_digit())
}

pub fn are_zeros(text: &[u8]) -> bool
    ensures { result ≡ list_all (λ b. b == 48) text.now }
{
    text.iter().all(|b| *b == b'0')
}

/// The number that the digits spell, where it is at most `most`.
pub fn number_within(text: &[u8], most: u128) -> Option<u128>
    requires digits { IsTrue (list_all char.is_ascii_digit text.now) }
    requires least { most ≤ 10 ^ 30 }
    ensures { result ≡ (if nat_le (digits_value 10 text.now) most then Some (digits_value 10 text.now) else None) }
{
    let mut number = 0u128;
    for b in text {
        number = number * 10 + u128::from(*b - b'0');
        if number > most {
            return None;
        }
    }
    Some(number)
}

/// What stands before the first point, and what stands behind it.
pub fn split_at_point(text: &[u8]) -> (&[u8], &[u8])
    ensures whole { result.0.now ≡ whole_of text.now }
    ensures fraction { result.1.now ≡ fraction_of text.now }
{
    match point_of(text) {
        Some(at) => (&text[..at], &text[at + 1..]),
        None => (text, &text[text.len()..]),
    }
}

fn point_of(text: &[u8]) -> Option<usize>
    ensures { result ≡ position (λ b. b == 46) text.now }
{
    text.iter().position(|b| *b == b'.')
}

/// Ten to the power `places`.
pub fn ten_to(places: usize) -> u128
    requires { places ≤ 30 }
    ensures { result ≡ 10 ^ places }
{
    let mut power = 1u128;
    for _ in 0..places {
        power *= 10;
    }
    power
}
