//! The form text of pairs (URL Standard, section 5.2).
ghost use Rattle.std.specs.Prelude.{◌≡◌, IfOk, OnOk};
ghost use Rattle.form_urlencoded.specs.Form.{append_pair};
ghost use Rattle.oauth_text.specs.Form.{IsForm, AreText, pairs_of};

use form_urlencoded::Serializer;
use lti_outside::{Bytes, NoMemory, Pair, Pairs};
use std::alloc::{AllocError, Global};

// Appends a pair, whose name and value are texts.
fn append(form: &mut Serializer<Global>, name: &str, value: &str) -> Result<(), AllocError>
    ensures ok { OnOk result (form.new ≡ record form.old { form = append_pair form.old.form name.now value.now }) }
    ensures texts { AreText (record { name = name.now; value = value.now }) }
{
    form.append_pair(name, value)
}

/// A form text of the pairs (URL Standard, section 5.2, `application/x-www-form-urlencoded`): `pairs` of it gives
/// the same list. A space is written as `+`.
pub fn form_text(alloc: Global, pairs: &Pairs) -> Result<Bytes, NoMemory>
    ensures form { IfOk result (λ form. IsForm form.list) }
    ensures pairs { IfOk result (λ form. pairs_of form.list ≡ pairs.now) }
{
    let mut form = Serializer::new(String::new(alloc));
    for pair in pairs.as_slice() {
        append(&mut form, pair.name.get(), pair.value.get())?;
    }
    let mut bytes = Bytes::new(alloc);
    bytes.push(form.finish().as_bytes())?;
    Ok(bytes)
}
