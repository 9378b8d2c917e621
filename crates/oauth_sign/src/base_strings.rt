//! Base strings (RFC 5849, section 3.4.1.1).
ghost use Rattle.std.specs.Prelude.{◌≡◌, ◌++◌, ◌∷◌, ℕ, List, IfOk};
ghost use Rattle.std.specs.String.{string_bytes};
ghost use Rattle.oauth_sign.specs.Signature.{IsBaseString, base_text};

use lti_outside::{NoMemory, Pairs, Text};
use oauth_text::{escape_into, normalised};
use std::alloc::{AllocError, Global};

// The method in upper case, the escaped URI and the escaped normal form, with `&` between them.
fn joined(alloc: Global, method: &str, uri: &str, normal: &str) -> Result<String, AllocError>
    ensures { IfOk result (λ base. string_bytes base ≡ base_text method.now uri.now normal.now) }
{
    let room = normal
        .len()
        .saturating_add(uri.len())
        .saturating_mul(2)
        .saturating_add(method.len());
    let mut base = String::with_capacity(alloc, room)?;
    base.push_str(method)?;
    base.make_ascii_uppercase();
    base.push_str("&")?;
    escape_into(&mut base, uri)?;
    base.push_str("&")?;
    escape_into(&mut base, normal)?;
    Ok(base)
}

// The text that is signed.
fn base_of(alloc: Global, method: &str, uri: &str, pairs: &Pairs) -> Result<Text, NoMemory>
    ensures { IfOk result (IsBaseString method.now uri.now pairs.now) }
{
    let normal = normalised(alloc, pairs)?;
    Ok(Text::from_string(joined(alloc, method, uri, normal.get())?))
}

/// The signature base string (RFC 5849, section 3.4.1.1), of which there is only one: the method in upper case,
/// the escaped base string URI and the escaped normal form of the parameters, with `&` between them. `pairs` are
/// all parameters that are signed, so `oauth_signature` and `realm` aren't among them.
pub fn base_string(alloc: Global, method: &str, uri: &str, pairs: &Pairs) -> Result<Text, NoMemory>
    ensures base { IfOk result (IsBaseString method.now uri.now pairs.now) }
    ensures only { IfOk result (λ text. (other : List ℕ) → IsBaseString method.now uri.now pairs.now other → other ≡ text) }
{
    let text = base_of(alloc, method, uri, pairs)?;
    Ok(text)
}
