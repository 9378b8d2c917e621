// What a pair of another name is.
ghost use Rattle.std.specs.Prelude.{◌≡◌, true, false, MatchOption};
ghost use Rattle.lti_launch.specs.Parameters as spec;

use crate::LaunchField;
use lti_outside::Pair;

/// The parameter whose name the pair has.
pub fn field_of(pair: &Pair) -> Option<LaunchField>
    ensures { MatchOption result (spec.is_field pair.now ≡ false)
        (λ field. (spec.is_field pair.now ≡ true) × (spec.is_named field pair.now ≡ true)) }
{
    LaunchField::from_name(pair.name.get())
}

/// Whether the pair is a custom parameter.
#[tactic(auto, unfolding(crate::specs::Parameters::is_custom))]
pub fn is_custom(pair: &Pair) -> bool
    ensures { result ≡ spec.is_custom pair.now }
{
    pair.name.get().as_bytes().starts_with(b"custom_")
}

/// Whether the pair is an extension.
#[tactic(auto, unfolding(crate::specs::Parameters::is_ext))]
pub fn is_ext(pair: &Pair) -> bool
    ensures { result ≡ spec.is_ext pair.now }
{
    pair.name.get().as_bytes().starts_with(b"ext_")
}

/// Whether the pair is a parameter of the signature.
#[tactic(auto, unfolding(crate::specs::Parameters::is_oauth))]
pub fn is_oauth(pair: &Pair) -> bool
    ensures { result ≡ spec.is_oauth pair.now }
{
    pair.name.get().as_bytes().starts_with(b"oauth_")
}
