// The names of the protocol's parameters.
ghost use Rattle.std.specs.Prelude.{◌≡◌, ◌<◌, false, codes, nat_eq, bytes_eq, MatchOption, find};
ghost use Rattle.std.specs.List.{starts_with};
ghost use Rattle.std.specs.Option.{option_copied};
ghost use Rattle.oauth_request.specs.declared.fields.Field.{Field};
ghost use Rattle.oauth_request.specs.Protocol.{name_of, place_of};

/// A parameter of the protocol (RFC 5849, section 3.1), or the body hash of the OAuth Request Body Hash draft, in the
/// order in which faults name them.
#[derive(Clone, Copy, Debug, PartialEq, Eq)]
pub enum Field {
    ConsumerKey,
    SignatureMethod,
    Timestamp,
    Nonce,
    Signature,
    Version,
    Token,
    BodyHash,
}

impl Field {
    /// The parameter's name, as `oauth_consumer_key`.
    #[tactic(auto, unfolding(crate::specs::Protocol::key_name, crate::specs::Protocol::method_name, crate::specs::Protocol::timestamp_name, crate::specs::Protocol::nonce_name, crate::specs::Protocol::signature_name, crate::specs::Protocol::version_name, crate::specs::Protocol::token_name, crate::specs::Protocol::body_hash_name))]
    pub fn name(self) -> &'static str
        ensures { result.now ≡ name_of self }
    {
        match self {
            Field::ConsumerKey => "oauth_consumer_key",
            Field::SignatureMethod => "oauth_signature_method",
            Field::Timestamp => "oauth_timestamp",
            Field::Nonce => "oauth_nonce",
            Field::Signature => "oauth_signature",
            Field::Version => "oauth_version",
            Field::Token => "oauth_token",
            Field::BodyHash => "oauth_body_hash",
        }
    }

    /// Its place among `FIELDS`.
    pub(crate) fn place(self) -> usize
        ensures place { result ≡ place_of self }
        ensures bound { result < 8 }
    {
        self as usize
    }

    /// The parameter of this name, where there is one.
    pub(crate) fn with_name(name: &str) -> Option<Field>
        ensures { MatchOption result ((field : Field) → bytes_eq name.now (name_of field) ≡ false) (λ field. name.now ≡ name_of field) }
    {
        if !is_prefixed(name) {
            return None;
        }
        field_named(name)
    }
}

/// The one signature method that is signed with and taken (RFC 5849, section 3.4.2).
pub(crate) const SIGNATURE_METHOD: &str = "HMAC-SHA1";

/// The one version that a request may state (RFC 5849, section 3.1).
pub(crate) const VERSION: &str = "1.0";

/// All parameters, in order.
pub(crate) const FIELDS: [Field; 8] = [
    Field::ConsumerKey,
    Field::SignatureMethod,
    Field::Timestamp,
    Field::Nonce,
    Field::Signature,
    Field::Version,
    Field::Token,
    Field::BodyHash,
];

// Whether the name begins as all of them do.
fn is_prefixed(name: &str) -> bool
    ensures { result ≡ starts_with nat_eq name.now (codes "oauth_") }
{
    name.as_bytes().starts_with(b"oauth_")
}

fn find_name(name: &str) -> Option<&'static Field>
    ensures { option_copied result ≡ find (λ field. bytes_eq name.now (name_of field)) FIELDS }
{
    FIELDS.iter().find(|field| name == field.name())
}

fn field_named(name: &str) -> Option<Field>
    ensures { MatchOption result ((field : Field) → bytes_eq name.now (name_of field) ≡ false) (λ field. name.now ≡ name_of field) }
{
    let field = find_name(name)?;
    Some(*field)
}
