// The reading of one item of a header's value.
ghost use Rattle.std.specs.Prelude.{◌≡◌, ◌≢◌, ◌==◌, ◌≤◌, true, false, ℕ, [], ◌∷◌, length, IsUtf8, IfOk, IfErr, OnOk, OnErr, MatchOption, filter, not};
ghost use Rattle.std.specs.List.{list_all, position, position_or_len};
ghost use Rattle.std.specs.Option.{option_to_list};
ghost use Rattle.std.specs.Cow.{cow_str_bytes};
ghost use Rattle.percent_encoding.specs.Percent as percent;
ghost use Rattle.oauth_header.specs.Item as spec;
ghost use Rattle.oauth_header.specs.Item.{IsEncoded, IsWritten, IsItem};
ghost use Rattle.oauth_header.specs.Faults.{IsFaultAt};

use crate::HeaderFault;
use lti_outside::{Pair, Text};
use oauth_text::first_place;
use percent_encoding::{DecodeError, percent_decode};
use std::alloc::Global;
use std::borrow::CowStr;

/// An item as it is written: its name before the first `=`, and its value between the quotation marks behind it.
#[derive(Clone, Copy)]
struct Parts<'a> {
    name: &'a [u8],
    value: &'a [u8],
}

fn is_name_byte(b: u8) -> bool
    ensures { result ≡ spec.is_name_byte b }
{
    b.is_ascii_alphanumeric() || b == b'-' || b == b'.' || b == b'_' || b == b'~' || b == b'%'
}

fn is_value_byte(b: u8) -> bool
    ensures { result ≡ spec.is_value_byte b }
{
    b' ' <= b && b <= b'~' && b != b'"' && b != b'\\'
}

fn all_name_bytes(text: &[u8]) -> bool
    ensures { result ≡ list_all spec.is_name_byte text.now }
{
    text.iter().all(|b| is_name_byte(*b))
}

fn are_name_bytes(text: &[u8]) -> bool
    ensures { result ≡ spec.are_name_bytes text.now }
{
    !text.is_empty() && all_name_bytes(text)
}

fn are_value_bytes(text: &[u8]) -> bool
    ensures { result ≡ list_all spec.is_value_byte text.now }
{
    text.iter().all(|b| is_value_byte(*b))
}

fn begins_with_digits(text: &[u8]) -> bool
    ensures { result ≡ spec.begins_with_digits text.now }
{
    match text {
        [high, low, ..] => high.is_ascii_hexdigit() && low.is_ascii_hexdigit(),
        _ => false,
    }
}

// Whether two hexadecimal digits stand behind each `%`.
fn are_escapes(text: &[u8]) -> bool
    ensures { result ≡ spec.are_escapes text.now }
{
    let mut rest = text;
    while let [first, others @ ..] = rest {
        if *first == b'%' && !begins_with_digits(others) {
            return false;
        }
        rest = others;
    }
    true
}

// What stands between quotation marks, where the text does.
fn unquoted(text: &[u8]) -> Option<&[u8]>
    ensures { MatchOption result (spec.is_quoted text.now ≡ false)
        (λ inner. (spec.is_quoted text.now ≡ true) × (inner.now ≡ spec.unquoted text.now)) }
{
    match text {
        [b'"', inner @ .., b'"'] => Some(inner),
        _ => None,
    }
}

// The written name and value of an item.
fn split_item(item: &[u8]) -> Option<Parts<'_>>
    ensures { MatchOption result (spec.is_quoted (spec.assigned item.now) ≡ false)
        (λ parts. (spec.is_quoted (spec.assigned item.now) ≡ true)
        × (parts.name.now ≡ spec.raw_name item.now) × (parts.value.now ≡ spec.raw_value item.now)) }
{
    let len = first_place(b'=', item)?;
    let value = unquoted(&item[len + 1..])?;
    Some(Parts {
        name: &item[..len],
        value,
    })
}

// The text that `encoded`, which stands in the item at the place, decodes to.
fn decoded(alloc: Global, at: u64, encoded: &[u8]) -> Result<CowStr<'_, Global>, HeaderFault>
    ensures value { IfOk result (λ text. cow_str_bytes text ≡ percent.percent_decode encoded.now) }
    ensures encoded { OnOk result (IsEncoded encoded.now) }
    ensures bad { IfErr result (IsFaultAt at (¬ IsEncoded encoded.now)) }
{
    if !are_escapes(encoded) {
        return Err(HeaderFault::BadAuthorization { at });
    }
    match percent_decode(encoded).decode_utf8(alloc) {
        Ok(text) => Ok(text),
        Err(DecodeError::Utf8(_)) => Err(HeaderFault::BadAuthorization { at }),
        Err(DecodeError::OutOfMemory) => Err(HeaderFault::NoMemory),
    }
}

// The item's name and value as they are written, where their bytes may stand there.
fn parts_of(item: &[u8]) -> Option<Parts<'_>>
    ensures { MatchOption result (IsWritten item.now → ⊥)
        (λ parts. IsWritten item.now
        × (parts.name.now ≡ spec.raw_name item.now) × (parts.value.now ≡ spec.raw_value item.now)) }
{
    let parts = split_item(item)?;
    if !are_name_bytes(parts.name) || !are_value_bytes(parts.value) {
        return None;
    }
    Some(parts)
}

/// The pair of the item that begins at the place, or none for `realm`, whose value isn't decoded.
pub(crate) fn read_item(alloc: Global, at: u64, item: &[u8]) -> Result<Option<Pair>, HeaderFault>
    ensures pair { IfOk result (λ pair. option_to_list pair
        ≡ filter (λ pair. not (spec.is_realm pair)) (spec.pair_of item.now ∷ [])) }
    ensures item { OnOk result (IsItem item.now) }
    ensures bad { IfErr result (IsFaultAt at (¬ IsItem item.now)) }
{
    let Some(parts) = parts_of(item) else {
        return Err(HeaderFault::BadAuthorization { at });
    };
    let name = decoded(alloc, at, parts.name)?;
    if name.as_str() == "realm" {
        return Ok(None);
    }
    let value = decoded(alloc, at, parts.value)?;
    Ok(Some(Pair {
        name: Text::from_string(name.into_owned(alloc)?),
        value: Text::from_string(value.into_owned(alloc)?),
    }))
}
