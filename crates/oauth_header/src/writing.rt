//! The Authorization header of pairs (RFC 5849, section 3.5.1).
ghost use Rattle.std.specs.Prelude.{◌≡◌, ◌++◌, true, codes, IfOk, OnOk};
ghost use Rattle.std.specs.String.{string_bytes};
ghost use Rattle.oauth_text.specs.Form.{AreText};
ghost use Rattle.oauth_header.specs.Header.{IsHeader, header_pairs};
ghost use Rattle.oauth_header.specs.Written as spec;
ghost use Rattle.oauth_header.specs.Written.{header_text, can_be_written};

use lti_outside::{NoMemory, Pairs, Text};
use oauth_text::escape_into;
use std::alloc::{AllocError, Global};

// Appends the escaped name, `=`, and the escaped value between quotation marks. Both are texts.
fn push_item(text: &mut String, name: &str, value: &str) -> Result<(), AllocError>
    ensures text { OnOk result (string_bytes text.new
        ≡ string_bytes text.old ++ spec.item_text (record { name = name.now; value = value.now })) }
    ensures texts { AreText (record { name = name.now; value = value.now }) }
{
    escape_into(text, name)?;
    text.push_str("=\"")?;
    escape_into(text, value)?;
    text.push_str("\"")
}

/// The header's value of the pairs (RFC 5849, section 3.5.1): `OAuth `, then each name and value escaped, as
/// `name="value"`, with a comma and a space between each two; `OAuth` alone for no pairs. `read` of it gives the
/// same pairs. No name may be empty or `realm`.
pub fn write(alloc: Global, pairs: &Pairs) -> Result<Text, NoMemory>
    requires { can_be_written pairs.now ≡ true }
    ensures text { IfOk result (λ text. text ≡ header_text pairs.now) }
    ensures header { IfOk result IsHeader }
    ensures back { IfOk result (λ text. header_pairs text ≡ pairs.now) }
{
    let mut text = String::from_str(alloc, "OAuth")?;
    let mut separator = " ";
    for pair in pairs.as_slice() {
        text.push_str(separator)?;
        push_item(&mut text, pair.name.get(), pair.value.get())?;
        separator = ", ";
    }
    Ok(Text::from_string(text))
}
