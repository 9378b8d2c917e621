// Reading a score text.
ghost use Rattle.std.specs.Prelude.{◌≡◌, ℕ, ◌+◌, ◌*◌, ◌^◌, ◌≤◌, ◌<◌, ◌↔◌, Some, IfSome, IsTrue, length};
ghost use Rattle.std.specs.List.{list_all};
ghost use Rattle.std.specs.Char as char;
ghost use Rattle.std.specs.Str.Parse.{digits_value};
ghost use Rattle.score_decimal.specs.Written.{IsWritten};

use crate::digits::{ONE, are_digits, are_zeros, number_within, split_at_point, ten_to};

/// The number of units that the text writes.
pub fn units_of(text: &[u8]) -> Option<u128>
    ensures written { (n : ℕ) → (result ≡ Some n) ↔ IsWritten text.now n }
    ensures range { IfSome result (λ n. n ≤ 10 ^ 30) }
{
    if text.len() > 40 {
        return None;
    }
    let (whole, fraction) = split_at_point(text);
    if !has_digit(whole, fraction) {
        return None;
    }
    if !are_digits(whole) || !are_digits(fraction) {
        return None;
    }
    let ones = number_within(whole, 1)?;
    let units = fraction_units(fraction)?;
    let number = ones * ONE + units;
    if number <= ONE { Some(number) } else { None }
}

fn has_digit(whole: &[u8], fraction: &[u8]) -> bool
    ensures { IsTrue result ↔ (1 ≤ length whole.now + length fraction.now) }
{
    !whole.is_empty() || !fraction.is_empty()
}

/// The number of units of a fraction: there is one exactly where its digits from the 31st on are zeros.
fn fraction_units(fraction: &[u8]) -> Option<u128>
    requires { IsTrue (list_all char.is_ascii_digit fraction.now) }
    ensures units { (n : ℕ) → (result ≡ Some n) ↔ (n * 10 ^ length fraction.now ≡ digits_value 10 fraction.now * 10 ^ 30) }
    ensures range { IfSome result (λ n. n < 10 ^ 30) }
{
    let places = fraction.len().min(30);
    let (first, rest) = fraction.split_at(places);
    if !are_zeros(rest) {
        return None;
    }
    let number = number_within(first, ONE)?;
    Some(number * ten_to(30 - places))
}
