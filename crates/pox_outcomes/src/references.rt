// References to characters (XML 1.0, sections 4.1 and 4.6).
ghost use Rattle.std.specs.Prelude.{◌≡◌, ◌≤◌, ◌<◌, ◌⊎◌, ℕ, true, IfOk, IfErr, MatchOption};
ghost use Rattle.std.specs.Char.{digit_value};
ghost use Rattle.pox_outcomes.specs.Language.{Reads};
ghost use Rattle.pox_outcomes.specs.Characters as characters;
ghost use Rattle.pox_outcomes.specs.References.{IsNumber, IsNumeral, IsReference, EndsNumber, GoesOn};
ghost use Rattle.pox_outcomes.specs.Stops.{IsStop};

use crate::characters::is_allowed;
use crate::markup::{after_byte, one_of};
use crate::stops::Left;

// How a reference begins: by a name, or for a number.
const OPENINGS: [&[u8]; 6] = [b"&lt;", b"&gt;", b"&amp;", b"&apos;", b"&quot;", b"&#"];

// The value of the digit in bases up to 36, or 36.
fn digit_of(b: u8) -> u32
    ensures { result ≡ digit_value b }
{
    match b {
        b'0'..=b'9' => u32::from(b - b'0'),
        b'A'..=b'Z' => u32::from(b - b'A') + 10,
        b'a'..=b'z' => u32::from(b - b'a') + 10,
        _ => 36,
    }
}

// The number with one digit more, and what stands behind the digit.
fn next_digit(bytes: &[u8], value: u32, base: u32) -> Option<(u32, &[u8])>
    requires base { base ≤ 16 }
    requires value { value ≤ 0x10FFFF }
    ensures { MatchOption result (EndsNumber base value bytes.now) (λ found. GoesOn base value found.0 bytes.now found.1.now) }
{
    let [first, rest @ ..] = bytes else {
        return None;
    };
    let digit = digit_of(*first);
    if digit >= base {
        return None;
    }
    let next = value * base + digit;
    if next > 0x10FFFF {
        return None;
    }
    Some((next, rest))
}

// The code that digits and a semicolon spell, and what stands behind.
fn number(bytes: &[u8], base: u32) -> Result<(u32, &[u8]), Left>
    requires { (base ≡ 10) ⊎ (base ≡ 16) }
    ensures reads { IfOk result (λ found. Reads (IsNumber base 0 found.0) bytes.now found.1.now) }
    ensures stops { IfErr result (IsStop (λ bytes. (code : ℕ) × IsNumber base 0 code bytes) bytes.now) }
{
    let mut value = 0;
    let mut rest = bytes;
    'digits: while let Some((next, others)) = next_digit(rest, value, base) {
        value = next;
        rest = others;
    }
    if !is_allowed(value) {
        return Err(Left { left: rest.len() });
    }
    match after_byte(rest, b';') {
        Some(behind) => Ok((value, behind)),
        None => Err(Left { left: rest.len() }),
    }
}

// The code behind `&#`, and what stands behind it.
fn numeral(bytes: &[u8]) -> Result<(u32, &[u8]), Left>
    ensures reads { IfOk result (λ found. Reads (IsNumeral found.0) bytes.now found.1.now) }
    ensures stops { IfErr result (IsStop (λ bytes. (code : ℕ) × IsNumeral code bytes) bytes.now) }
{
    match after_byte(bytes, b'x') {
        Some(digits) => number(digits, 16),
        None => number(bytes, 10),
    }
}

/// The code of the character that a reference stands for, and what stands behind it.
pub fn reference(bytes: &[u8]) -> Result<(u32, &[u8]), Left>
    ensures reads { IfOk result (λ found. Reads (IsReference found.0) bytes.now found.1.now) }
    ensures stops { IfErr result (IsStop (λ bytes. (code : ℕ) × IsReference code bytes) bytes.now) }
{
    let (place, rest) = one_of(bytes, &OPENINGS)?;
    if place == 5 {
        return numeral(rest);
    }
    let code = match place {
        0 => '<',
        1 => '>',
        2 => '&',
        3 => '\'',
        _ => '"',
    };
    Ok((code as u32, rest))
}
