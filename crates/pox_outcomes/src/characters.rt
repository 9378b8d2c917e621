// Characters that XML 1.0 allows (section 2.2), in UTF-8 (RFC 3629, section 4).
ghost use Rattle.std.specs.Prelude.{◌≡◌, ◌∷◌, ℕ, true, IfOk, IfErr, MatchOption, ◌<◌, length};
ghost use Rattle.std.specs.List.{list_all};
ghost use Rattle.pox_outcomes.specs.Language.{Reads, IsAmong};
ghost use Rattle.pox_outcomes.specs.Characters as spec;
ghost use Rattle.pox_outcomes.specs.Characters.{IsRow, IsCharacter, BeginsBeside, is_within, are_ranges, row_at, behind};
ghost use Rattle.pox_outcomes.specs.Stops.{IsStop};

use crate::stops::Left;

type Range = (u8, u8);

// The bytes behind the first one of a character.
const TAIL: Range = (0x80, 0xBF);

// The rows of bytes that are one character each.
const ROWS: [&[Range]; 13] = [
    &[(0x20, 0x7F)],
    &[(0x09, 0x0A)],
    &[(0x0D, 0x0D)],
    &[(0xC2, 0xDF), TAIL],
    &[(0xE0, 0xE0), (0xA0, 0xBF), TAIL],
    &[(0xE1, 0xEC), TAIL, TAIL],
    &[(0xED, 0xED), (0x80, 0x9F), TAIL],
    &[(0xEE, 0xEE), TAIL, TAIL],
    &[(0xEF, 0xEF), (0x80, 0xBE), TAIL],
    &[(0xEF, 0xEF), (0xBF, 0xBF), (0x80, 0xBD)],
    &[(0xF0, 0xF0), (0x90, 0xBF), TAIL, TAIL],
    &[(0xF1, 0xF3), TAIL, TAIL, TAIL],
    &[(0xF4, 0xF4), (0x80, 0x8F), TAIL, TAIL],
];

// What stands behind a byte of the range, where the bytes begin with one.
fn after_byte_in(bytes: &[u8], range: Range) -> Option<&[u8]>
    ensures { MatchOption result (BeginsBeside range bytes.now)
        (λ rest. (b : ℕ) × (bytes.now ≡ b ∷ rest.now) × (is_within range b ≡ true)) }
{
    match bytes {
        [first, rest @ ..] if range.0 <= *first && *first <= range.1 => Some(rest),
        _ => None,
    }
}

// What stands behind one byte of each range.
fn follow_row<'a>(bytes: &'a [u8], row: &[Range]) -> Result<&'a [u8], Left>
    requires { are_ranges row.now ≡ true }
    ensures reads { IfOk result (λ rest. Reads (IsRow row.now) bytes.now rest.now) }
    ensures stops { IfErr result (IsStop (IsRow row.now) bytes.now) }
{
    let mut rest = bytes;
    for range in row {
        let Some(others) = after_byte_in(rest, *range) else {
            return Err(Left { left: rest.len() });
        };
        rest = others;
    }
    Ok(rest)
}

// What stands behind the first of the rows that the bytes begin with.
fn follow_one<'a>(bytes: &'a [u8], rows: &[&[Range]]) -> Result<&'a [u8], Left>
    requires ranges { list_all are_ranges (behind rows.now) ≡ true }
    requires one { 0 < length rows.now }
    ensures reads { IfOk result (λ rest. Reads (IsAmong (λ place. IsRow (row_at (behind rows.now) place)) (length rows.now)) bytes.now rest.now) }
    ensures stops { IfErr result (IsStop (IsAmong (λ place. IsRow (row_at (behind rows.now) place)) (length rows.now)) bytes.now) }
{
    let mut left = bytes.len();
    for (place, row) in rows.iter().enumerate() {
        match follow_row(bytes, row) {
            Ok(rest) => return Ok(rest),
            Err(stop) => left = left.min(stop.left),
        }
    }
    Err(Left { left })
}

/// What stands behind the first character.
pub fn after_character(bytes: &[u8]) -> Result<&[u8], Left>
    ensures reads { IfOk result (λ rest. Reads IsCharacter bytes.now rest.now) }
    ensures stops { IfErr result (IsStop IsCharacter bytes.now) }
{
    follow_one(bytes, &ROWS)
}

/// Whether the code is that of an allowed character.
pub fn is_allowed(code: u32) -> bool
    ensures { result ≡ spec.is_allowed code }
{
    match code {
        0x9 | 0xA | 0xD | 0x20..=0xD7FF | 0xE000..=0xFFFD | 0x10000..=0x10FFFF => true,
        _ => false,
    }
}
