//! Signatures by HMAC-SHA1 (RFC 5849, section 3.4.2).
ghost use Rattle.std.specs.Prelude.{◌≡◌, IfOk};
ghost use Rattle.std.specs.String.{string_bytes};
ghost use Rattle.oauth_sign.specs.Signature.{signature_text, signing_key};

use crate::mac::Mac;
use base64::engine::general_purpose::STANDARD;
use lti_outside::{NoMemory, Text};
use oauth_text::escape_into;
use std::alloc::{AllocError, Global};

/// The two escaped secrets with `&` between them.
pub(crate) fn key_text(
    alloc: Global,
    secret: &str,
    token_secret: &str,
) -> Result<String, AllocError>
    ensures { IfOk result (λ key. string_bytes key ≡ signing_key secret.now token_secret.now) }
{
    let room = secret
        .len()
        .saturating_add(token_secret.len())
        .saturating_add(1);
    let mut key = String::with_capacity(alloc, room)?;
    escape_into(&mut key, secret)?;
    key.push_str("&")?;
    escape_into(&mut key, token_secret)?;
    Ok(key)
}

/// The signature of a base string (RFC 5849, section 3.4.2): the base64 text, with padding, of its HMAC-SHA1 under
/// the two escaped secrets joined by `&`. Either secret may be empty; the `&` stays.
pub fn signature(
    alloc: Global,
    base: &str,
    secret: &str,
    token_secret: &str,
) -> Result<Text, NoMemory>
    ensures { IfOk result (λ text. text ≡ signature_text base.now secret.now token_secret.now) }
{
    let key = key_text(alloc, secret, token_secret)?;
    let mut mac = Mac::start(key.as_bytes());
    mac.feed(base.as_bytes());
    Ok(Text::from_string(STANDARD.encode(alloc, &mac.finish())?))
}
