// Markup with white space (XML 1.0, section 2.3).
ghost use Rattle.std.specs.Prelude.{◌≡◌, ◌∷◌, true, codes, IfOk, IfErr, MatchOption, ◌<◌, ◌==◌, length, [], if◌then◌else◌};
ghost use Rattle.std.specs.List.{list_all};
ghost use Rattle.pox_outcomes.specs.Language.{Reads};
ghost use Rattle.pox_outcomes.specs.Markup as spec;
ghost use Rattle.pox_outcomes.specs.Markup.{IsMarkup, IsOneOf, BeginsOtherwise, word_at, behind, is_plain, after_white};
ghost use Rattle.pox_outcomes.specs.Stops.{IsStop};

use crate::stops::Left;

pub fn is_white(b: u8) -> bool
    ensures { result ≡ spec.is_white b }
{
    b == b' ' || b == b'\t' || b == b'\r' || b == b'\n'
}

/// What stands behind the white bytes in front.
pub fn skip_white(bytes: &[u8]) -> &[u8]
    ensures { result.now ≡ after_white bytes.now }
{
    let mut rest = bytes;
    while let [first, others @ ..] = rest
        && is_white(*first)
    {
        rest = others;
    }
    rest
}

/// What stands behind the byte, where the bytes begin with it.
pub fn after_byte(bytes: &[u8], byte: u8) -> Option<&[u8]>
    ensures { MatchOption result (BeginsOtherwise byte bytes.now) (λ rest. bytes.now ≡ byte ∷ rest.now) }
{
    match bytes {
        [first, rest @ ..] if *first == byte => Some(rest),
        _ => None,
    }
}

/// Whether no byte is left.
pub fn is_end(dark: &[u8]) -> bool
    ensures { result ≡ (length dark.now == 0) }
{
    dark.is_empty()
}

/// What stands behind the bytes that the markup stands for. In it a space stands for any number of white bytes,
/// and any other byte for itself.
pub fn follow<'a>(bytes: &'a [u8], markup: &[u8]) -> Result<&'a [u8], Left>
    requires { is_plain markup.now ≡ true }
    ensures reads { IfOk result (λ rest. Reads (IsMarkup markup.now) bytes.now rest.now) }
    ensures stops { IfErr result (IsStop (IsMarkup markup.now) bytes.now) }
{
    let mut rest = bytes;
    for piece in markup {
        if *piece == b' ' {
            rest = skip_white(rest);
            continue;
        }
        let Some(others) = after_byte(rest, *piece) else {
            return Err(Left { left: rest.len() });
        };
        rest = others;
    }
    Ok(rest)
}

/// Which of the words the bytes begin with, and what stands behind it.
pub fn one_of<'a>(bytes: &'a [u8], words: &[&[u8]]) -> Result<(usize, &'a [u8]), Left>
    requires plain { list_all is_plain (behind words.now) ≡ true }
    requires one { 0 < length words.now }
    ensures place { IfOk result (λ found. found.0 < length words.now) }
    ensures reads { IfOk result (λ found. Reads (IsMarkup (word_at (behind words.now) found.0)) bytes.now found.1.now) }
    ensures stops { IfErr result (IsStop (IsOneOf (behind words.now) (length words.now)) bytes.now) }
{
    let mut left = bytes.len();
    for (place, word) in words.iter().enumerate() {
        match follow(bytes, word) {
            Ok(rest) => return Ok((place, rest)),
            Err(stop) => left = left.min(stop.left),
        }
    }
    Err(Left { left })
}
