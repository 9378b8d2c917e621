// Printing a score.
ghost use Rattle.std.specs.Prelude.{◌≡◌, ◌^◌, ◌<◌, ◌≤◌, ◌++◌, length, take, IfOk};
ghost use Rattle.std.specs.Str.{IsAscii};
ghost use Rattle.std.specs.String.{string_bytes};
ghost use Rattle.score_decimal.specs.Printed.{digits_in, score_text};

use crate::digits::ONE;
use lti_outside::NoMemory;
use std::alloc::Global;

/// Writes the text of the units at the front of `room`, and answers its length.
pub fn write_units(units: u128, room: &mut [u8]) -> usize
    requires range { units ≤ 10 ^ 30 }
    requires room { length room.old ≡ 32 }
    ensures within { result ≤ 32 }
    ensures text { take result room.new ≡ score_text units }
{
    if units == 0 {
        room[0] = b'0';
        return 1;
    }
    if units == ONE {
        room[0] = b'1';
        return 1;
    }
    room[0] = b'0';
    room[1] = b'.';
    write_fraction(units, room)
}

/// Writes the digits of a fraction from the third byte of `room` on, and answers where they end.
fn write_fraction(units: u128, room: &mut [u8]) -> usize
    requires range { units < 10 ^ 30 }
    requires room { length room.old ≡ 32 }
    ensures within { result ≤ 32 }
    ensures text { take result room.new ≡ take 2 room.old ++ digits_in 30 units }
{
    let mut rest = units;
    let mut weight = ONE / 10;
    let mut at = 2;
    'digits: while rest > 0 {
        room[at] = b'0' + (rest / weight) as u8;
        rest %= weight;
        weight /= 10;
        at += 1;
    }
    at
}

/// The text of these bytes.
pub fn ascii_text(alloc: Global, bytes: &[u8]) -> Result<String, NoMemory>
    requires { IsAscii bytes.now }
    ensures { IfOk result (λ text. string_bytes text ≡ bytes.now) }
{
    match str::from_utf8(bytes) {
        Ok(text) => Ok(String::from_str(alloc, text)?),
        Err(_) => unreachable!(),
    }
}
