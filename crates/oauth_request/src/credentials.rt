// Whose request it is, and whether its body is the one that was signed.
ghost use Rattle.std.specs.Prelude.{◌≡◌, ℕ, List, false, not, ◌&&◌, None, bytes_eq, IfOk, IfErr, OnOk};
ghost use Rattle.std.specs.List.{list_any};
ghost use Rattle.base64.specs.Engines.{standard};
ghost use Rattle.base64.specs.GeneralPurpose.{encode_of};
ghost use Rattle.sha1.specs.Sha1.{sha1};
ghost use Rattle.http_wire.specs.Message.{parts_of};
ghost use Rattle.oauth_request.specs.Checked as spec;
ghost use Rattle.oauth_request.specs.Checked.{conditions_of};
ghost use Rattle.http_wire.specs.Conditions.{first_fault};
ghost use Rattle.oauth_request.specs.Conditions.{IsFirstOf};
ghost use Rattle.oauth_request.specs.Found.{IsSingle};
ghost use Rattle.oauth_request.specs.Given.{AreCredentials};

use crate::parameters::is_form;
use crate::protocol::found_in;
use crate::{AuthFault, Keys};
use http_wire::Request;
use lti_outside::{NoMemory, Pairs, Text};
use oauth_sign::hash_text;
use std::alloc::Global;

/// What a request gives to be believed, and the secret of its key.
#[derive(Drop)]
pub struct Credentials<'a> {
    pub key: Text,
    pub timestamp: u64,
    pub nonce: Text,
    pub signature: Text,
    pub secret: &'a str,
}

// Whether the body isn't a form, and a hash stands that isn't this sum's.
fn has_other_hash(
    alloc: Global,
    form: bool,
    sum: &[u8; 20],
    hash: Option<&str>,
) -> Result<bool, NoMemory>
    ensures { IfOk result (λ other. (values : List (List ℕ)) → IsSingle hash.entry values
        → other ≡ (not form && list_any (λ text. not (bytes_eq text (encode_of standard sum.now))) values)) }
{
    match hash {
        Some(hash) if !form => {
            let text = hash_text(alloc, sum)?;
            Ok(hash != text.get())
        }
        _ => Ok(false),
    }
}

/// What the request gives, or the first fault of its parameters. `body_sum` is the digest of a body that isn't a form.
pub fn read_credentials<'a>(
    alloc: Global,
    request: &Request,
    all: &Pairs,
    body_sum: &[u8; 20],
    keys: &'a Keys,
    field_limit: u32,
) -> Result<Credentials<'a>, AuthFault>
    requires { spec.is_form (parts_of request.now) ≡ false → body_sum.now ≡ sha1 request.now.body.list }
    ensures fine { OnOk result (first_fault (conditions_of keys.now field_limit (spec.is_form (parts_of request.now)) request.now.body.list all.now) ≡ None) }
    ensures given { IfOk result (AreCredentials keys.now field_limit all.now) }
    ensures fault { IfErr result (IsFirstOf (conditions_of keys.now field_limit (spec.is_form (parts_of request.now)) request.now.body.list all.now)) }
{
    let form = is_form(request);
    let found = found_in(all.as_slice());
    found.check_single()?;
    let stated = found.stated(form)?;
    let timestamp = stated.timestamp(field_limit)?;
    let Some(secret) = keys.secret(stated.key) else {
        return Err(AuthFault::UnknownKey);
    };
    if has_other_hash(alloc, form, body_sum, stated.body_hash)? {
        return Err(AuthFault::BodyHashMismatch);
    }
    Ok(Credentials {
        key: Text::new(alloc, stated.key)?,
        timestamp,
        nonce: Text::new(alloc, stated.nonce)?,
        signature: Text::new(alloc, stated.signature)?,
        secret,
    })
}
