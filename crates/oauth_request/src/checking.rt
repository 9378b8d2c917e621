// Whether a request is well signed.
ghost use Rattle.std.specs.Prelude.{◌≡◌, ◌↔◌, ◌<◌, ◌≤◌, false, [], length, bytes_eq, IsTrue, IfOk, IfErr, OnOk};
ghost use Rattle.sha1.specs.Sha1.{sha1};
ghost use Rattle.lti_outside.specs.Limits.{IsSound};
ghost use Rattle.oauth_sign.specs.BaseUri.{base_uri_of};
ghost use Rattle.oauth_sign.specs.Signature.{IsSignature};
ghost use Rattle.http_wire.specs.Message.{parts_of};
ghost use Rattle.oauth_request.specs.Checked as spec;
ghost use Rattle.oauth_request.specs.Checked.{IsWellSigned, IsAuthFault, Says};

use crate::credentials::read_credentials;
use crate::parameters::all_pairs;
use crate::{AuthFault, Field, Keys};
use http_wire::Request;
use lti_outside::{Limits, NoMemory, Pairs, Text};
use oauth_sign::{base_uri, signature_of};
use oauth_text::Scheme;
use std::alloc::Global;

/// What a well signed request says of itself.
#[derive(Drop)]
pub struct Signed {
    /// The consumer key, of 1 to `Limits::field` bytes.
    pub key: Text,
    /// Seconds since 1970-01-01 00:00:00 UTC, as the other end counts them, from 1 to 999,999,999,999,999.
    pub timestamp: u64,
    /// The nonce, of 1 to `Limits::field` bytes.
    pub nonce: Text,
    /// All parameters, without `realm` and `oauth_signature`: those of the query, of the header and of a form.
    pub pairs: Pairs,
}

// Whether the text is the one that was sent, byte for byte.
fn is_same(text: &Text, sent: &str) -> bool
    ensures { result ≡ bytes_eq text.now sent.now }
{
    text.get() == sent
}

// Whether the text is the request's signature under the secret, without a token.
fn is_signature(
    alloc: Global,
    request: &Request,
    scheme: Scheme,
    pairs: &Pairs,
    secret: &str,
    sent: &str,
) -> Result<bool, NoMemory>
    ensures { IfOk result (λ holds. IsTrue holds ↔ IsSignature request.now.method
        (base_uri_of scheme request.now.host.name request.now.host.port request.now.path) pairs.now secret.now [] sent.now) }
{
    let uri = base_uri(alloc, scheme, &request.host, request.path.get())?;
    let text = signature_of(alloc, request.method.get(), uri.get(), pairs, secret, "")?;
    let holds = is_same(&text, sent);
    Ok(holds)
}

/// What a request says of itself, where it is well signed (RFC 5849, section 3.2), or the first fault that it has.
///
/// `scheme` is the one by which this end is reached. `body_sum` is the SHA-1 of the body; where the body is a form it
/// isn't looked at, since the signature covers the form. A key or nonce has at most `limits.field` bytes.
pub fn check(
    alloc: Global,
    request: &Request,
    body_sum: &[u8; 20],
    keys: &Keys,
    scheme: Scheme,
    limits: &Limits,
) -> Result<Signed, AuthFault>
    requires sum { spec.is_form (parts_of request.now) ≡ false → body_sum.now ≡ sha1 request.now.body.list }
    requires sound { IsSound limits.now }
    ensures well_signed { OnOk result (IsWellSigned (record { keys = keys.now; scheme = scheme; field = limits.now.field }) (parts_of request.now)) }
    ensures says { IfOk result (Says (parts_of request.now)) }
    ensures key { IfOk result (λ signed. (0 < length signed.key) × (length signed.key ≤ limits.now.field)) }
    ensures nonce { IfOk result (λ signed. (0 < length signed.nonce) × (length signed.nonce ≤ limits.now.field)) }
    ensures timestamp { IfOk result (λ signed. (0 < signed.timestamp) × (signed.timestamp ≤ 999_999_999_999_999)) }
    ensures fault { IfErr result (IsAuthFault (record { keys = keys.now; scheme = scheme; field = limits.now.field }) (parts_of request.now)) }
{
    let all = all_pairs(alloc, request)?;
    let given = read_credentials(alloc, request, &all, body_sum, keys, limits.field)?;
    let pairs = all.without(Field::Signature.name());
    if !is_signature(
        alloc,
        request,
        scheme,
        &pairs,
        given.secret,
        given.signature.get(),
    )? {
        return Err(AuthFault::SignatureMismatch);
    }
    Ok(Signed {
        key: given.key,
        timestamp: given.timestamp,
        nonce: given.nonce,
        pairs,
    })
}
