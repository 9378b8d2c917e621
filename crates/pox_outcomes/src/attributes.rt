// The attributes of the root element (XML 1.0, sections 2.3 and 3.1).
ghost use Rattle.std.specs.Prelude.{◌≡◌, ◌⊎◌, ◌||◌, ◌∷◌, true, false, List, ℕ, IfOk, IfErr, MatchOption};
ghost use Rattle.pox_outcomes.specs.Language.{Any, Reads};
ghost use Rattle.pox_outcomes.specs.Attributes as spec;
ghost use Rattle.pox_outcomes.specs.Attributes.{IsValue, IsAttribute, IsAttributes, ReadsAttribute};
ghost use Rattle.pox_outcomes.specs.Characters.{begins, IsCharacterBy};
ghost use Rattle.pox_outcomes.specs.Markup.{BeginsOtherwise};
ghost use Rattle.pox_outcomes.specs.Stops.{IsStop};

use crate::characters::after_character;
use crate::markup::{after_byte, follow, one_of, skip_white};
use crate::stops::Left;

// A quote, with white bytes in front.
const QUOTES: [&[u8]; 2] = [b" \"", b" '"];

// The quote of the place.
fn quote_at(place: usize) -> u8
    ensures { result ≡ spec.quote_at place }
{
    if place == 0 { b'"' } else { b'\'' }
}

fn is_name_byte(b: u8) -> bool
    ensures { result ≡ spec.is_name_byte b }
{
    b.is_ascii_alphanumeric() || b == b'_' || b == b'-' || b == b'.' || b == b':'
}

fn begins_name(bytes: &[u8]) -> bool
    ensures { result ≡ begins spec.is_name_start bytes.now }
{
    match bytes {
        [first, ..] => first.is_ascii_alphabetic() || *first == b'_',
        [] => false,
    }
}

// What stands behind the bytes of a name in front.
fn after_name(bytes: &[u8]) -> &[u8]
    ensures { result.now ≡ spec.after_name bytes.now }
{
    let mut rest = bytes;
    while let [first, others @ ..] = rest
        && is_name_byte(*first)
    {
        rest = others;
    }
    rest
}

fn begins_value(bytes: &[u8], quote: u8) -> bool
    ensures { result ≡ begins (spec.is_value_byte quote) bytes.now }
{
    match bytes {
        [first, ..] => *first != b'<' && *first != b'&' && *first != quote,
        [] => false,
    }
}

// What stands behind a character of a value.
fn after_value_character(bytes: &[u8], quote: u8) -> Result<&[u8], Left>
    requires { (quote ≡ 34) ⊎ (quote ≡ 39) }
    ensures reads { IfOk result (λ rest. Reads (IsCharacterBy (spec.is_value_byte quote)) bytes.now rest.now) }
    ensures stops { IfErr result (IsStop (IsCharacterBy (spec.is_value_byte quote)) bytes.now) }
{
    if !begins_value(bytes, quote) {
        return Err(Left { left: bytes.len() });
    }
    after_character(bytes)
}

// What stands behind a value and its second quote.
fn after_value(bytes: &[u8], quote: u8) -> Result<&[u8], Left>
    requires { (quote ≡ 34) ⊎ (quote ≡ 39) }
    ensures reads { IfOk result (λ rest. Reads (IsValue quote) bytes.now rest.now) }
    ensures stops { IfErr result (IsStop (IsValue quote) bytes.now) }
{
    let mut rest = bytes;
    'characters: loop {
        if let Some(behind) = after_byte(rest, quote) {
            return Ok(behind);
        }
        rest = after_value_character(rest, quote)?;
    }
}

fn is_xmlns(name: &[u8]) -> bool
    ensures { result ≡ spec.is_xmlns name.now }
{
    name == b"xmlns".as_slice()
}

// What stands behind an attribute, and whether its name is `xmlns`.
fn after_attribute(bytes: &[u8]) -> Result<(bool, &[u8]), Left>
    ensures reads { IfOk result (λ found. ReadsAttribute bytes.now found.0 found.1.now) }
    ensures stops { IfErr result (IsStop (Any IsAttribute) bytes.now) }
{
    if !begins_name(bytes) {
        return Err(Left { left: bytes.len() });
    }
    let behind = after_name(bytes);
    let namespace = is_xmlns(&bytes[..bytes.len() - behind.len()]);
    let rest = follow(behind, b" =")?;
    let (place, rest) = one_of(rest, &QUOTES)?;
    let rest = after_value(rest, quote_at(place))?;
    Ok((namespace, rest))
}

fn either(first: bool, second: bool) -> bool
    ensures { result ≡ (first || second) }
{
    first || second
}

// What stands behind the end of the tag, where the tag may end.
fn after_end(seen: bool, dark: &[u8]) -> Option<&[u8]>
    ensures { MatchOption result (seen ≡ true → BeginsOtherwise 62 dark.now) (λ behind. (seen ≡ true) × (dark.now ≡ 62 ∷ behind.now)) }
{
    if seen { after_byte(dark, b'>') } else { None }
}

/// What stands behind the attributes of a tag and its `>`. One of them is `xmlns`.
pub fn after_attributes(bytes: &[u8]) -> Result<&[u8], Left>
    ensures reads { IfOk result (λ rest. Reads (IsAttributes false) bytes.now rest.now) }
    ensures stops { IfErr result (IsStop (IsAttributes false) bytes.now) }
{
    let mut seen = false;
    let mut rest = bytes;
    'attributes: loop {
        let dark = skip_white(rest);
        if let Some(behind) = after_end(seen, dark) {
            return Ok(behind);
        }
        if dark.len() == rest.len() {
            return Err(Left { left: rest.len() });
        }
        let (namespace, behind) = after_attribute(dark)?;
        seen = either(seen, namespace);
        rest = behind;
    }
}
