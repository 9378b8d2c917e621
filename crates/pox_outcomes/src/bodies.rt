// Reading the body of an answer (LTI 1.1.1, section 6, and the schema imsoms_v1p0).
ghost use Rattle.std.specs.Prelude.{◌≡◌, true, ℕ, List, codes, IfOk, IfErr};
ghost use Rattle.std.specs.Str.{bytes_eq};
ghost use Rattle.pox_outcomes.specs.Language.{Any, Reads};
ghost use Rattle.pox_outcomes.specs.Body as spec;
ghost use Rattle.pox_outcomes.specs.Body.{IsInside, IsElement, IsContent, IsBody};
ghost use Rattle.pox_outcomes.specs.Elements.{IsTag};
ghost use Rattle.pox_outcomes.specs.Markup.{is_plain};
ghost use Rattle.pox_outcomes.specs.Stops.{IsHalt};

use crate::elements::{after_element_name, after_end_tag, begins_element};
use crate::markup::{after_byte, follow, one_of};
use crate::scores::score;
use crate::stops::{Halt, Left};
use lti_outside::Text;
use std::alloc::Global;

// How an element goes on behind its name.
const TAG_STARTS: [&[u8]; 2] = [b" />", b" > <"];

// From inside a readResultResponse up to the text string, with or without a language.
const RESULTS: [&[u8]; 2] = [
    b"result > <resultScore > <language",
    b"result > <resultScore > <textString",
];

const RESULT_END: &[u8] = b" </resultScore > </result > </readResultResponse >";

fn is_read_result(name: &[u8]) -> bool
    ensures { result ≡ bytes_eq name.now spec.read_result }
{
    name == b"readResultResponse".as_slice()
}

// The score inside of an element of the name, from behind a `<` on, and what stands behind the end tag.
fn inside<'a>(alloc: Global, bytes: &'a [u8], name: &[u8]) -> Result<(Text, &'a [u8]), Halt>
    requires { is_plain name.now ≡ true }
    ensures reads { IfOk result (λ found. Reads (IsInside name.now found.0) bytes.now found.1.now) }
    ensures stops { IfErr result (IsHalt (Any (IsInside name.now)) bytes.now) }
{
    if let Some(_) = after_byte(bytes, b'/') {
        let behind = after_end_tag(bytes, name)?;
        return Ok((Text::empty(alloc), behind));
    }
    if !is_read_result(name) {
        return Err(Halt::Stopped(Left { left: bytes.len() }));
    }
    score(alloc, bytes, &RESULTS, RESULT_END)
}

// The score of an element from behind its name on, and what stands behind the element.
fn behind_name<'a>(alloc: Global, bytes: &'a [u8], name: &[u8]) -> Result<(Text, &'a [u8]), Halt>
    requires { is_plain name.now ≡ true }
    ensures reads { IfOk result (λ found. Reads (IsTag (codes " > <") (IsInside name.now) found.0) bytes.now found.1.now) }
    ensures stops { IfErr result (IsHalt (Any (IsTag (codes " > <") (IsInside name.now))) bytes.now) }
{
    let (place, rest) = one_of(bytes, &TAG_STARTS)?;
    if place == 0 {
        return Ok((Text::empty(alloc), rest));
    }
    inside(alloc, rest, name)
}

// The score of an element from its name on, and what stands behind the element.
fn element(alloc: Global, bytes: &[u8]) -> Result<(Text, &[u8]), Halt>
    ensures reads { IfOk result (λ found. Reads (IsElement found.0) bytes.now found.1.now) }
    ensures stops { IfErr result (IsHalt (Any IsElement) bytes.now) }
{
    if !begins_element(bytes) {
        return Err(Halt::Stopped(Left { left: bytes.len() }));
    }
    let behind = after_element_name(bytes);
    behind_name(alloc, behind, &bytes[..bytes.len() - behind.len()])
}

// The score inside of the body, from behind its first `<` on, and what stands behind its end tag.
fn content(alloc: Global, bytes: &[u8]) -> Result<(Text, &[u8]), Halt>
    ensures reads { IfOk result (λ found. Reads (IsContent found.0) bytes.now found.1.now) }
    ensures stops { IfErr result (IsHalt (Any IsContent) bytes.now) }
{
    if let Some(_) = after_byte(bytes, b'/') {
        let behind = follow(bytes, b"/imsx_POXBody >")?;
        return Ok((Text::empty(alloc), behind));
    }
    let (score, rest) = element(alloc, bytes)?;
    let behind = follow(rest, b" </imsx_POXBody >")?;
    Ok((score, behind))
}

/// The score of the body from behind its name on, or an empty text, and what stands behind the body.
pub fn body(alloc: Global, bytes: &[u8]) -> Result<(Text, &[u8]), Halt>
    ensures reads { IfOk result (λ found. Reads (IsBody found.0) bytes.now found.1.now) }
    ensures stops { IfErr result (IsHalt (Any IsBody) bytes.now) }
{
    let (place, rest) = one_of(bytes, &TAG_STARTS)?;
    if place == 0 {
        return Ok((Text::empty(alloc), rest));
    }
    content(alloc, rest)
}
