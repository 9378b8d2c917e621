// Names of elements (XML 1.0, sections 2.3 and 3.1).
ghost use Rattle.std.specs.Prelude.{◌≡◌, true, IfOk, IfErr};
ghost use Rattle.std.specs.Char.{is_ascii_alphabetic};
ghost use Rattle.pox_outcomes.specs.Language.{Reads};
ghost use Rattle.pox_outcomes.specs.Characters.{begins};
ghost use Rattle.pox_outcomes.specs.Elements as spec;
ghost use Rattle.pox_outcomes.specs.Elements.{IsEndTag};
ghost use Rattle.pox_outcomes.specs.Markup.{is_plain};
ghost use Rattle.pox_outcomes.specs.Stops.{IsStop};

use crate::markup::follow;
use crate::stops::Left;

fn is_element_byte(b: u8) -> bool
    ensures { result ≡ spec.is_element_byte b }
{
    b.is_ascii_alphanumeric() || b == b'_'
}

/// Whether the bytes begin with a letter.
pub fn begins_element(bytes: &[u8]) -> bool
    ensures { result ≡ begins is_ascii_alphabetic bytes.now }
{
    match bytes {
        [first, ..] => first.is_ascii_alphabetic(),
        [] => false,
    }
}

/// What stands behind the bytes of an element's name in front.
pub fn after_element_name(bytes: &[u8]) -> &[u8]
    ensures { result.now ≡ spec.after_element_name bytes.now }
{
    let mut rest = bytes;
    while let [first, others @ ..] = rest
        && is_element_byte(*first)
    {
        rest = others;
    }
    rest
}

/// What stands behind the end tag of the name, from behind its `<` on.
pub fn after_end_tag<'a>(bytes: &'a [u8], name: &[u8]) -> Result<&'a [u8], Left>
    requires { is_plain name.now ≡ true }
    ensures reads { IfOk result (λ rest. Reads (IsEndTag name.now) bytes.now rest.now) }
    ensures stops { IfErr result (IsStop (IsEndTag name.now) bytes.now) }
{
    let rest = follow(bytes, b"/")?;
    let last = follow(rest, name)?;
    let behind = follow(last, b" >")?;
    Ok(behind)
}
