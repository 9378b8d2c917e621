// Requests that this end signs.
ghost use Rattle.std.specs.Prelude.{◌≡◌, ◌++◌, ◌∷◌, [], false, bytes_eq, IfOk, OnOk};
ghost use Rattle.http_wire.specs.Message as message;
ghost use Rattle.oauth_text.specs.UrlView.{parts_of};
ghost use Rattle.oauth_request.specs.Checked as spec;
ghost use Rattle.oauth_request.specs.Signing.{CanSign, HoldsNone, IsSignatureOf, IsSignedForm, IsSignedBody, pair, protocol_pairs};
ghost use Rattle.oauth_request.specs.Protocol.{name_of};

use crate::Field;
use crate::fields::{SIGNATURE_METHOD, VERSION};
use http_wire::Request;
use itoa::Buffer;
use lti_outside::{Bytes, NoMemory, Pair, Pairs, Tap, Text};
use oauth_sign::{BodyHash, base_uri, hash_text, signature_of};
use oauth_text::{FormFault, Url, pairs};
use std::alloc::Global;

// Appends a pair.
fn push(list: &mut Pairs, alloc: Global, name: &str, value: &str) -> Result<(), NoMemory>
    ensures { OnOk result (list.new ≡ list.old ++ pair name.now value.now ∷ []) }
{
    list.push(Pair {
        name: Text::new(alloc, name)?,
        value: Text::new(alloc, value)?,
    })
}

// Appends a parameter of the protocol.
fn push_field(list: &mut Pairs, alloc: Global, field: Field, value: &str) -> Result<(), NoMemory>
    ensures { OnOk result (list.new ≡ list.old ++ pair (name_of field) value.now ∷ []) }
{
    push(list, alloc, field.name(), value)
}

// Appends the parameters of the protocol that every signed request has, besides the signature.
#[tactic(auto, unfolding(crate::specs::Signing::protocol_pairs))]
fn push_protocol(
    list: &mut Pairs,
    alloc: Global,
    key: &str,
    moment: u64,
    nonce: &str,
) -> Result<(), NoMemory>
    ensures { OnOk result (list.new ≡ list.old ++ protocol_pairs key.now moment nonce.now) }
{
    let mut digits = Buffer::new();
    push_field(list, alloc, Field::ConsumerKey, key)?;
    push_field(list, alloc, Field::SignatureMethod, SIGNATURE_METHOD)?;
    push_field(list, alloc, Field::Timestamp, digits.format(moment))?;
    push_field(list, alloc, Field::Nonce, nonce)?;
    push_field(list, alloc, Field::Version, VERSION)
}

// The signature of a POST to the URL with these parameters besides those of its query.
fn sign(alloc: Global, url: &Url, list: &Pairs, secret: &str) -> Result<Text, NoMemory>
    ensures { IfOk result (IsSignatureOf (parts_of url.now) list.now secret.now) }
{
    let mut all = match pairs(alloc, url.query.get().as_bytes()) {
        Ok(query) => query,
        Err(FormFault::BadForm) => unreachable!(),
        Err(FormFault::NoMemory) => return Err(NoMemory),
    };
    all.append(list.copy()?)?;
    let uri = base_uri(alloc, url.scheme, &url.host, url.path.get())?;
    signature_of(alloc, "POST", uri.get(), &all, secret, "")
}

/// The pairs of a signed form that is posted to the URL (RFC 5849, section 3.5.2): the fields, then the parameters of the
/// protocol, `oauth_callback` as `about:blank`, and the signature, which covers the URL's query too. `moment` is in seconds
/// since 1970-01-01 00:00:00 UTC.
///
/// What it signs is well signed, by `signed_is_believed`.
pub fn sign_form(
    alloc: Global,
    url: &Url,
    fields: &Pairs,
    key: &str,
    secret: &str,
    moment: u64,
    nonce: &str,
) -> Result<Pairs, NoMemory>
    requires signer { CanSign key.now moment nonce.now }
    requires fields { HoldsNone fields.now }
    ensures { IfOk result (IsSignedForm (parts_of url.now) fields.now key.now secret.now moment nonce.now) }
{
    let mut list = fields.copy()?;
    push_protocol(&mut list, alloc, key, moment, nonce)?;
    push(&mut list, alloc, "oauth_callback", "about:blank")?;
    let text = sign(alloc, url, &list, secret)?;
    push_field(&mut list, alloc, Field::Signature, text.get())?;
    Ok(list)
}

/// The request that posts a body to the URL, which isn't a form: its Authorization header has the parameters of the
/// protocol, the hash of the body, and the signature (OAuth Request Body Hash 1.0, draft 4). It asks for the end of the
/// connection. `moment` is in seconds since 1970-01-01 00:00:00 UTC.
///
/// What it signs is well signed, by `signed_is_believed`.
pub fn sign_body(
    alloc: Global,
    url: &Url,
    media: &str,
    body: Bytes,
    key: &str,
    secret: &str,
    moment: u64,
    nonce: &str,
) -> Result<Request, NoMemory>
    requires signer { CanSign key.now moment nonce.now }
    requires media { bytes_eq media.now spec.form_type ≡ false }
    ensures { IfOk result (λ request. IsSignedBody (parts_of url.now) media.now body.list key.now secret.now moment nonce.now (message.parts_of request)) }
{
    let mut hash = BodyHash::start();
    hash.feed(body.get());
    let sum = hash_text(alloc, &hash.finish())?;
    let mut list = Pairs::new(alloc);
    push_protocol(&mut list, alloc, key, moment, nonce)?;
    push_field(&mut list, alloc, Field::BodyHash, sum.get())?;
    let text = sign(alloc, url, &list, secret)?;
    push_field(&mut list, alloc, Field::Signature, text.get())?;
    Ok(Request {
        method: Text::new(alloc, "POST")?,
        path: url.path.copy()?,
        query: url.query.copy()?,
        host: url.host.copy()?,
        media: Text::new(alloc, media)?,
        encoded: false,
        authorization: oauth_header::write(alloc, &list)?,
        body,
        close: true,
    })
}
