//! Percent-encoding of a text (RFC 5849, section 3.6).
ghost use Rattle.std.specs.Prelude.{◌≡◌, ◌++◌, IfOk, OnOk, OnErr};
ghost use Rattle.std.specs.Cow.{cow_str_bytes};
ghost use Rattle.std.specs.String.{string_bytes};
ghost use Rattle.oauth_text.specs.Escape as spec;

use lti_outside::{NoMemory, Text};
use percent_encoding::{AsciiSet, NON_ALPHANUMERIC, ascii_set, utf8_percent_encode};
use std::alloc::{AllocError, Global};
use std::borrow::CowStr;

/// The ASCII bytes that are escaped.
const RESERVED: AsciiSet = ascii_set!(
    NON_ALPHANUMERIC
        .remove(b'-')
        .remove(b'.')
        .remove(b'_')
        .remove(b'~')
);

// Which bytes are unreserved, so that one look tells.
const UNRESERVED: [bool; 256] = [
    false, false, false, false, false, false, false, false, false, false, false, false, false,
    false, false, false, false, false, false, false, false, false, false, false, false, false,
    false, false, false, false, false, false, false, false, false, false, false, false, false,
    false, false, false, false, false, false, true, true, false, true, true, true, true, true,
    true, true, true, true, true, false, false, false, false, false, false, false, true, true,
    true, true, true, true, true, true, true, true, true, true, true, true, true, true, true, true,
    true, true, true, true, true, true, true, true, false, false, false, false, true, false, true,
    true, true, true, true, true, true, true, true, true, true, true, true, true, true, true, true,
    true, true, true, true, true, true, true, true, true, false, false, false, true, false, false,
    false, false, false, false, false, false, false, false, false, false, false, false, false,
    false, false, false, false, false, false, false, false, false, false, false, false, false,
    false, false, false, false, false, false, false, false, false, false, false, false, false,
    false, false, false, false, false, false, false, false, false, false, false, false, false,
    false, false, false, false, false, false, false, false, false, false, false, false, false,
    false, false, false, false, false, false, false, false, false, false, false, false, false,
    false, false, false, false, false, false, false, false, false, false, false, false, false,
    false, false, false, false, false, false, false, false, false, false, false, false, false,
    false, false, false, false, false, false, false, false, false, false, false, false, false,
    false, false, false, false, false, false, false, false, false, false,
];

/// Whether the byte is a letter, a digit, `-`, `.`, `_` or `~`, which an escape leaves as it is (RFC 5849, section 3.6).
pub fn is_unreserved(byte: u8) -> bool
    ensures { result ≡ spec.is_unreserved byte }
{
    UNRESERVED[byte as usize]
}

/// A number that orders bytes as their escapes stand in byte order.
pub(crate) fn rank(byte: u8) -> u16
    ensures { result ≡ spec.rank byte }
{
    if is_unreserved(byte) {
        256 + u16::from(byte)
    } else {
        u16::from(byte)
    }
}

/// Appends the escaped text to `out`. On an error nothing is appended.
pub fn escape_into(out: &mut String, text: &str) -> Result<(), AllocError>
    ensures ok { OnOk result (string_bytes out.new ≡ string_bytes out.old ++ spec.escape text.now) }
    ensures err { OnErr result (string_bytes out.new ≡ string_bytes out.old) }
{
    utf8_percent_encode(text, RESERVED).append_to(out)
}

/// The escaped text, borrowed where nothing needs an escape.
pub(crate) fn escaped(alloc: Global, text: &str) -> Result<CowStr<'_, Global>, AllocError>
    ensures { IfOk result (λ escaped. cow_str_bytes escaped ≡ spec.escape text.now) }
{
    utf8_percent_encode(text, RESERVED).into_cow(alloc)
}

/// The text with each byte but letters, digits, `-`, `.`, `_` and `~` written as `%` and two upper-case
/// hexadecimal digits (RFC 5849, section 3.6).
pub fn escape(alloc: Global, text: &str) -> Result<Text, NoMemory>
    ensures { IfOk result (λ t. t ≡ spec.escape text.now) }
{
    let escaped = escaped(alloc, text)?;
    Ok(Text::from_string(escaped.into_owned(alloc)?))
}
