//! The pairs of a form text (URL Standard, section 5.1).
ghost use Rattle.std.specs.Prelude.{◌≡◌, IsUtf8, map, IfOk, OnOk, OnErr};
ghost use Rattle.form_urlencoded.specs.Form.{decode, plus_to_space};
ghost use Rattle.percent_encoding.specs.Percent as spec;
ghost use Rattle.oauth_text.specs.Form.{IsForm, pairs_of};

use form_urlencoded::raw_pairs;
use lti_outside::{NoMemory, Pair, Pairs, Text};
use percent_encoding::{DecodeError, percent_decode};
use std::alloc::{AllocError, Global};
use std::borrow::CowSlice;

/// Why a form text gave no pairs.
#[derive(Clone, Copy, Debug, PartialEq, Eq)]
pub enum FormFault {
    /// Whoever wrote the form encoded a name or a value whose bytes aren't UTF-8.
    BadForm,
    /// There was no memory for the pairs, and the form may be good.
    NoMemory,
}

impl From<AllocError> for FormFault {
    ghost use Rattle.std.specs.Prelude.{◌≡◌};
    ghost use Rattle.oauth_text.specs.declared.forms.FormFault.TheVariants as fault;

    ghost from_gives = { λ _ made. made ≡ fault.NoMemory };

    fn from(_error: AllocError) -> FormFault {
        FormFault::NoMemory
    }
}

impl From<NoMemory> for FormFault {
    ghost use Rattle.std.specs.Prelude.{◌≡◌};
    ghost use Rattle.oauth_text.specs.declared.forms.FormFault.TheVariants as fault;

    ghost from_gives = { λ _ made. made ≡ fault.NoMemory };

    fn from(_error: NoMemory) -> FormFault {
        FormFault::NoMemory
    }
}

// The bytes with each `+` made a space.
fn spaced(alloc: Global, raw: &[u8]) -> Result<Vec<u8>, AllocError>
    ensures { IfOk result (λ bytes. bytes.items ≡ map plus_to_space raw.now) }
{
    raw.iter()
        .map(|byte| if *byte == b'+' { b' ' } else { *byte })
        .collect(alloc)
}

// The text of these bytes.
fn text_of(bytes: Vec<u8>) -> Result<Text, FormFault>
    ensures value { IfOk result (λ text. text ≡ bytes.items) }
    ensures text { OnOk result (IsUtf8 bytes.items) }
    ensures bad { OnErr result (¬ IsUtf8 bytes.items) }
{
    match String::from_utf8(bytes) {
        Ok(text) => Ok(Text::from_string(text)),
        Err(_) => Err(FormFault::BadForm),
    }
}

// The text that an encoded name or value with a `+` stands for.
fn spaced_text(alloc: Global, raw: &[u8]) -> Result<Text, FormFault>
    ensures value { IfOk result (λ text. text ≡ decode raw.now) }
    ensures text { OnOk result (IsUtf8 (decode raw.now)) }
    ensures bad { result ≡ Err FormFault.BadForm → ¬ IsUtf8 (decode raw.now) }
{
    let spaced = spaced(alloc, raw)?;
    match percent_decode(&spaced).into_cow(alloc)? {
        CowSlice::Owned(decoded) => text_of(decoded),
        CowSlice::Borrowed(_) => text_of(spaced),
    }
}

// The text that percent-encoded bytes stand for.
fn unescaped_text(alloc: Global, bytes: &[u8]) -> Result<Text, FormFault>
    ensures value { IfOk result (λ text. text ≡ spec.percent_decode bytes.now) }
    ensures text { OnOk result (IsUtf8 (spec.percent_decode bytes.now)) }
    ensures bad { result ≡ Err FormFault.BadForm → ¬ IsUtf8 (spec.percent_decode bytes.now) }
{
    match percent_decode(bytes).decode_utf8(alloc) {
        Ok(text) => Ok(Text::from_string(text.into_owned(alloc)?)),
        Err(DecodeError::Utf8(_)) => Err(FormFault::BadForm),
        Err(DecodeError::OutOfMemory) => Err(FormFault::NoMemory),
    }
}

// The text that an encoded name or value stands for.
fn decoded_text(alloc: Global, raw: &[u8]) -> Result<Text, FormFault>
    ensures value { IfOk result (λ text. text ≡ decode raw.now) }
    ensures text { OnOk result (IsUtf8 (decode raw.now)) }
    ensures bad { result ≡ Err FormFault.BadForm → ¬ IsUtf8 (decode raw.now) }
{
    if raw.contains(&b'+') {
        spaced_text(alloc, raw)
    } else {
        unescaped_text(alloc, raw)
    }
}

/// The pairs of a form text (URL Standard, section 5.1, `application/x-www-form-urlencoded`), in order: cut at
/// each `&`, each piece but an empty one cut at its first `=`, with `+` read as a space and `%HH` as a byte.
/// A `%` without two hexadecimal digits behind it stands for itself.
pub fn pairs(alloc: Global, form: &[u8]) -> Result<Pairs, FormFault>
    ensures value { IfOk result (λ pairs. pairs ≡ pairs_of form.now) }
    ensures form { OnOk result (IsForm form.now) }
    ensures bad { result ≡ Err FormFault.BadForm → ¬ IsForm form.now }
{
    let mut pairs = Pairs::new(alloc);
    for (raw_name, raw_value) in raw_pairs(form) {
        let name = decoded_text(alloc, raw_name)?;
        let value = decoded_text(alloc, raw_value)?;
        pairs.push(Pair { name, value })?;
    }
    Ok(pairs)
}
