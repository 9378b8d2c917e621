// The values of headers (RFC 9110, section 5.5).
ghost use Rattle.std.specs.Prelude.{◌≡◌, ◌==◌, ◌≤◌, ◌<◌, ℕ, length, take, slice_index, IfOk, MatchOption, IsAscii, All, true, false};
ghost use Rattle.std.specs.List.{list_all};
ghost use Rattle.std.specs.Char.{is_ascii_digit};
ghost use Rattle.std.specs.Str.Parse.{digits_value};
ghost use Rattle.httparse.specs.Grammar.{trim_ows};
ghost use Rattle.http_wire.specs.Headers as spec;

use lti_outside::{NoMemory, Text};
use memchr::memchr;
use oauth_text::{place_of, trim_end, trim_front};
use percent_encoding::ascii_str;
use std::alloc::Global;

pub(crate) fn is_same_text(one: &[u8], other: &[u8]) -> bool
    ensures { result ≡ spec.is_same_text one.now other.now }
{
    one.eq_ignore_ascii_case(other)
}

pub(crate) fn is_text_byte(b: u8) -> bool
    ensures { result ≡ spec.is_text_byte b }
{
    b == b'\t' || (b' '..=b'~').contains(&b)
}

/// Whether each byte is one of a value.
pub(crate) fn are_text_bytes(value: &[u8]) -> bool
    ensures { result ≡ list_all spec.is_text_byte value.now }
{
    value.iter().all(|b| is_text_byte(*b))
}

fn is_close(item: &[u8]) -> bool
    ensures { result ≡ spec.is_close item.now }
{
    is_same_text(trim(item), b"close")
}

// The place of the first comma.
fn comma(text: &[u8]) -> Option<usize>
    ensures { MatchOption result (All (λ b. (b == 44) ≡ false) text.now)
        (λ end. (end < length text.now) × All (λ b. (b == 44) ≡ false) (take end text.now) × (slice_index text.now end ≡ 44)) }
{
    memchr(b',', text)
}

pub(crate) fn has_close(value: &[u8]) -> bool
    ensures { result ≡ spec.has_close value.now }
{
    let mut rest = value;
    while let Some(end) = comma(rest) {
        if is_close(&rest[..end]) {
            return true;
        }
        rest = &rest[end + 1..];
    }
    is_close(rest)
}

fn trim(text: &[u8]) -> &[u8]
    ensures { result.now ≡ trim_ows text.now }
{
    trim_end(trim_front(text))
}

fn are_digits(value: &[u8]) -> bool
    ensures { result ≡ list_all is_ascii_digit value.now }
{
    value.iter().all(|b| b.is_ascii_digit())
}

pub(crate) fn is_length(value: &[u8]) -> bool
    ensures { result ≡ spec.is_length value.now }
{
    1 <= value.len() && value.len() <= 19 && are_digits(value)
}

pub(crate) fn number(value: &[u8]) -> u64
    requires { spec.is_length value.now ≡ true }
    ensures { result ≡ digits_value 10 value.now }
{
    match ascii_str(value).parse() {
        Ok(number) => number,
        Err(_) => unreachable!(),
    }
}

pub(crate) fn text_of(alloc: Global, bytes: &[u8]) -> Result<Text, NoMemory>
    requires { IsAscii bytes.now }
    ensures { IfOk result (λ text. text ≡ bytes.now) }
{
    Text::new(alloc, ascii_str(bytes))
}

/// The media type of a value of `Content-Type`.
pub(crate) fn media_of(alloc: Global, value: &[u8]) -> Result<Text, NoMemory>
    requires { IsAscii value.now }
    ensures { IfOk result (λ media. media ≡ spec.media_in value.now) }
{
    let front = &value[..place_of(b';', value)];
    let mut media = String::from_str(alloc, ascii_str(trim_end(front)))?;
    media.make_ascii_lowercase();
    Ok(Text::from_string(media))
}
