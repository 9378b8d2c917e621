//! Signatures of requests whose base strings are never built (RFC 5849, sections 3.4.1 and 3.4.2).
ghost use Rattle.std.specs.Prelude.{◌≡◌, ℕ, List, [], map, IfOk};
ghost use Rattle.oauth_text.specs.Normal.{joined};
ghost use Rattle.oauth_text.specs.Order.{escaped_parameter};
ghost use Rattle.oauth_sign.specs.Hmac.{Holds, hmac};
ghost use Rattle.oauth_sign.specs.Signature.{base_text, signing_key, IsSignature};

use crate::feed::Feed;
use crate::mac::Mac;
use crate::signatures::key_text;
use base64::engine::general_purpose::STANDARD;
use lti_outside::{NoMemory, Pairs, Text};
use oauth_text::{Parameter, ordered};
use std::alloc::Global;

// The code of the base string of a method, a base string URI and parameters in order.
fn code_of(mac: Mac, method: &str, uri: &str, order: &[Parameter<'_>]) -> [u8; 20]
    ensures { (key : List ℕ) → Holds mac key [] → result ≡ hmac key (base_text method.now uri.now (joined (map escaped_parameter order.now))) }
{
    let mut feed = Feed::start(mac);
    feed.push_upper_case(method);
    feed.push(b'&');
    feed.push_escaped_text(uri);
    feed.push(b'&');
    feed.push_parameters(order);
    feed.finish()
}

// The signature, where the code was started with the signing key.
fn signature_by(
    alloc: Global,
    mac: Mac,
    method: &str,
    uri: &str,
    pairs: &Pairs,
) -> Result<Text, NoMemory>
    ensures { (secret token_secret : List ℕ) → Holds mac (signing_key secret token_secret) [] → IfOk result (IsSignature method.now uri.now pairs.now secret token_secret) }
{
    let order = ordered(alloc, pairs)?;
    let code = code_of(mac, method, uri, &order);
    Ok(Text::from_string(STANDARD.encode(alloc, &code)?))
}

// The signature under the two secrets.
fn signature_under(
    alloc: Global,
    method: &str,
    uri: &str,
    pairs: &Pairs,
    secret: &str,
    token_secret: &str,
) -> Result<Text, NoMemory>
    ensures { IfOk result (IsSignature method.now uri.now pairs.now secret.now token_secret.now) }
{
    let key = key_text(alloc, secret, token_secret)?;
    let text = signature_by(alloc, Mac::start(key.as_bytes()), method, uri, pairs)?;
    Ok(text)
}

/// The signature of a request (RFC 5849, section 3.4.2), of which there is only one: that of its base string, which is
/// spelt into the code as the parameters come in order, so that neither it nor an escaped text takes memory. `pairs`
/// are all parameters that are signed, so `oauth_signature` and `realm` aren't among them. Either secret may be empty.
pub fn signature_of(
    alloc: Global,
    method: &str,
    uri: &str,
    pairs: &Pairs,
    secret: &str,
    token_secret: &str,
) -> Result<Text, NoMemory>
    ensures signature { IfOk result (IsSignature method.now uri.now pairs.now secret.now token_secret.now) }
    ensures only { IfOk result (λ text. (other : List ℕ) → IsSignature method.now uri.now pairs.now secret.now token_secret.now other → other ≡ text) }
{
    let text = signature_under(alloc, method, uri, pairs, secret, token_secret)?;
    Ok(text)
}
