// Requests whose text is read as they are.
ghost use Rattle.std.specs.Prelude.{◌≡◌, ◌<◌, ◌^◌, ◌↔◌, ◌&&◌, IsTrue};
ghost use Rattle.std.specs.List.{list_all};
ghost use Rattle.httparse.specs.Grammar as token;
ghost use Rattle.http_wire.specs.Head as target;
ghost use Rattle.http_wire.specs.Message.{parts_of};
ghost use Rattle.http_wire.specs.Written as spec;
ghost use Rattle.http_wire.specs.Written.{IsSoundRequest};

use crate::message::Request;
use crate::target::{are_target_bytes, is_target};
use crate::values::{are_text_bytes, is_text_byte};
use oauth_text::{trim_end, trim_front};

fn is_token_byte(b: u8) -> bool
    ensures { result ≡ token.is_token_byte b }
{
    b.is_ascii_alphanumeric() || b"!#$%&'*+-.^_`|~".contains(&b)
}

fn are_token_bytes(bytes: &[u8]) -> bool
    ensures { result ≡ list_all token.is_token_byte bytes.now }
{
    bytes.iter().all(|b| is_token_byte(*b))
}

fn is_token(bytes: &[u8]) -> bool
    ensures { result ≡ token.is_token bytes.now }
{
    0 < bytes.len() && are_token_bytes(bytes)
}

fn is_path(path: &[u8]) -> bool
    ensures { result ≡ spec.is_path path.now }
{
    is_target(path) && !path.contains(&b'?')
}

fn is_trimmed(text: &[u8]) -> bool
    ensures { result ≡ spec.is_trimmed text.now }
{
    trim_front(text) == text && trim_end(text) == text
}

fn is_value(value: &[u8]) -> bool
    ensures { result ≡ spec.is_value value.now }
{
    are_text_bytes(value) && is_trimmed(value)
}

fn is_media_byte(b: u8) -> bool
    ensures { result ≡ spec.is_media_byte b }
{
    is_text_byte(b) && b != b';' && !b.is_ascii_uppercase()
}

fn are_media_bytes(media: &[u8]) -> bool
    ensures { result ≡ list_all spec.is_media_byte media.now }
{
    media.iter().all(|b| is_media_byte(*b))
}

fn is_media(media: &[u8]) -> bool
    ensures { result ≡ spec.is_media media.now }
{
    are_media_bytes(media) && is_trimmed(media)
}

fn is_line(method: &[u8], path: &[u8], query: &[u8]) -> bool
    ensures { result ≡ (token.is_token method.now && spec.is_path path.now && list_all target.is_target_byte query.now) }
{
    is_token(method) && is_path(path) && are_target_bytes(query)
}

fn are_values(media: &[u8], authorization: &[u8]) -> bool
    ensures { result ≡ (spec.is_media media.now && spec.is_value authorization.now) }
{
    is_media(media) && is_value(authorization)
}

impl Request {
    /// Whether the written request is read as this one, where no limit is in the way: the method is a token; path and
    /// query are bytes from 0x21 to 0x7E but `#`, and the path begins with `/` and has no `?`; the media type is in
    /// lower case and has no `;`; no value has another byte than tab and 0x20 to 0x7E, or a space or tab at an end;
    /// `encoded` is false; and the body's length has at most 19 digits.
    pub fn sound(&self) -> bool
        ensures { IsTrue result ↔ IsSoundRequest (parts_of self.now) }
    {
        let line = is_line(
            self.method.get().as_bytes(),
            self.path.get().as_bytes(),
            self.query.get().as_bytes(),
        );
        let values = are_values(
            self.media.get().as_bytes(),
            self.authorization.get().as_bytes(),
        );
        let short = (self.body.get().len() as u64) < 10_000_000_000_000_000_000;
        line && values && !self.encoded && short
    }
}
