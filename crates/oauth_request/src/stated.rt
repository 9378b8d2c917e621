// What the parameters of the protocol say of a request.
ghost use Rattle.std.specs.Prelude.{◌≡◌, true, false, MatchOption};
ghost use Rattle.oauth_request.specs.Protocol as spec;

use crate::fields::{SIGNATURE_METHOD, VERSION};
use crate::protocol::Protocol;
use crate::{AuthFault, Field};
use lti_outside::read_decimal;

/// The values of the parameters that are needed, and of the others where they stand.
#[derive(Clone, Copy)]
pub struct Stated<'a> {
    pub key: &'a str,
    pub method: &'a str,
    pub timestamp: &'a str,
    pub nonce: &'a str,
    pub signature: &'a str,
    pub version: Option<&'a str>,
    pub token: Option<&'a str>,
    pub body_hash: Option<&'a str>,
}

impl<'a> Protocol<'a> {
    ghost use Rattle.std.specs.Prelude.{◌≡◌, List, None, Some, MatchResult};
    ghost use Rattle.lti_outside.specs.declared.pairs.Pair.{Pair};
    ghost use Rattle.http_wire.specs.Conditions.{first_fault};
    ghost use Rattle.oauth_request.specs.Conditions.{missing_conditions};
    ghost use Rattle.oauth_request.specs.Found.{AreSingle, IsStated};

    /// What is said, where no name stands twice, or the first name that is missing, by whether the body is a form.
    #[tactic(auto, unfolding(crate::specs::Conditions::missing_conditions))]
    pub fn stated(&self, form: bool) -> Result<Stated<'a>, AuthFault>
        ensures { (pairs : List Pair) → AreSingle self.now pairs → MatchResult result
            (λ stated. (first_fault (missing_conditions form pairs) ≡ None) × IsStated stated pairs)
            (λ fault. first_fault (missing_conditions form pairs) ≡ Some fault) }
    {
        let key = self.needed(Field::ConsumerKey)?;
        let method = self.needed(Field::SignatureMethod)?;
        let timestamp = self.needed(Field::Timestamp)?;
        let nonce = self.needed(Field::Nonce)?;
        let signature = self.needed(Field::Signature)?;
        let body_hash = self.value(Field::BodyHash);
        if !form && body_hash.is_none() {
            return Err(AuthFault::Missing(Field::BodyHash));
        }
        Ok(Stated {
            key,
            method,
            timestamp,
            nonce,
            signature,
            version: self.value(Field::Version),
            token: self.value(Field::Token),
            body_hash,
        })
    }
}

fn is_other_version(version: Option<&str>) -> bool
    ensures { MatchOption version.entry (result ≡ false) (λ value. result ≡ spec.is_other_version value.now) }
{
    match version {
        Some(version) => version != VERSION,
        None => false,
    }
}

fn is_token(token: Option<&str>) -> bool
    ensures { MatchOption token.entry (result ≡ false) (λ value. result ≡ spec.is_token value.now) }
{
    match token {
        Some(token) => !token.is_empty(),
        None => false,
    }
}

fn is_long(text: &str, field_limit: u32) -> bool
    ensures { result ≡ spec.is_long field_limit text.now }
{
    text.len() > field_limit as usize
}

// The number that a timestamp spells.
fn timestamp_of(text: &str) -> Option<u64>
    ensures { MatchOption result (spec.is_bad_timestamp text.now ≡ true) (spec.IsTimestamp text.now) }
{
    match read_decimal(text.as_bytes(), 15) {
        Some(number) if number != 0 => Some(number),
        _ => None,
    }
}

impl Stated<'_> {
    ghost use Rattle.std.specs.Prelude.{◌≡◌, ◌<◌, ◌≤◌, length, List, None, Some, MatchResult};
    ghost use Rattle.lti_outside.specs.declared.pairs.Pair.{Pair};
    ghost use Rattle.http_wire.specs.Conditions.{first_fault};
    ghost use Rattle.oauth_request.specs.Conditions.{text_conditions};
    ghost use Rattle.oauth_request.specs.Protocol.{IsTimestamp};
    ghost use Rattle.oauth_request.specs.Found.{IsStated};

    /// The number of the timestamp, or the first value that is refused. A key or nonce has at most `field_limit` bytes.
    #[tactic(auto, unfolding(crate::specs::Conditions::text_conditions))]
    pub fn timestamp(&self, field_limit: u32) -> Result<u64, AuthFault>
        ensures { (pairs : List Pair) → IsStated self.now pairs → MatchResult result
            (λ number. (first_fault (text_conditions field_limit pairs) ≡ None) × IsTimestamp self.now.timestamp.now number
            × (length self.now.key.now ≤ field_limit) × (0 < length self.now.nonce.now) × (length self.now.nonce.now ≤ field_limit))
            (λ fault. first_fault (text_conditions field_limit pairs) ≡ Some fault) }
    {
        if self.method != SIGNATURE_METHOD {
            return Err(AuthFault::UnsupportedMethod);
        }
        if is_other_version(self.version) {
            return Err(AuthFault::BadVersion);
        }
        if is_token(self.token) {
            return Err(AuthFault::TokenNotSupported);
        }
        let Some(number) = timestamp_of(self.timestamp) else {
            return Err(AuthFault::BadTimestamp);
        };
        if self.nonce.is_empty() {
            return Err(AuthFault::BadNonce);
        }
        if is_long(self.key, field_limit) || is_long(self.nonce, field_limit) {
            return Err(AuthFault::TooLong);
        }
        Ok(number)
    }
}
