// Elements that hold a text (XML 1.0, sections 3.1 and 4.1).
ghost use Rattle.std.specs.Prelude.{◌≡◌, ◌<◌, ℕ, List, length, true, IfOk, IfErr};
ghost use Rattle.pox_outcomes.specs.Language.{Any, Reads};
ghost use Rattle.pox_outcomes.specs.Leaves.{IsLeaf};
ghost use Rattle.pox_outcomes.specs.Markup.{is_plain, are_words, behind};
ghost use Rattle.pox_outcomes.specs.Optional.{ReadsOptional, IsOptionalFront};
ghost use Rattle.pox_outcomes.specs.Stops.{IsHalt};

use crate::markup::{follow, one_of};
use crate::stops::Halt;
use crate::texts::text;
use lti_outside::Text;
use std::alloc::Global;

// How a start tag ends.
const TAG_ENDS: [&[u8]; 2] = [b" />", b" >"];

/// The text of an element, from behind the name in its start tag on, and what stands behind its end tag. The closing
/// is the markup of the end tag behind its `<`.
pub fn leaf<'a>(alloc: Global, bytes: &'a [u8], closing: &[u8]) -> Result<(Text, &'a [u8]), Halt>
    requires { is_plain closing.now ≡ true }
    ensures reads { IfOk result (λ found. Reads (IsLeaf closing.now found.0) bytes.now found.1.now) }
    ensures stops { IfErr result (IsHalt (Any (IsLeaf closing.now)) bytes.now) }
{
    let (place, rest) = one_of(bytes, &TAG_ENDS)?;
    if place == 0 {
        return Ok((Text::empty(alloc), rest));
    }
    let (text, rest) = text(alloc, rest)?;
    let rest = follow(rest, closing)?;
    Ok((text, rest))
}

/// The text of an element that may be left out, and what stands behind it. The element begins with the first word,
/// and what may follow it with one of the others. Where it is left out, the text is empty and no byte is read.
pub fn optional_leaf<'a>(
    alloc: Global,
    bytes: &'a [u8],
    words: &[&[u8]],
    closing: &[u8],
) -> Result<(Text, &'a [u8]), Halt>
    requires words { are_words (behind words.now) ≡ true }
    requires one { 0 < length words.now }
    requires closing { is_plain closing.now ≡ true }
    ensures reads { IfOk result (λ found. ReadsOptional (behind words.now) closing.now found.0 bytes.now found.1.now) }
    ensures stops { IfErr result (IsHalt (IsOptionalFront (behind words.now) closing.now) bytes.now) }
{
    let (place, rest) = one_of(bytes, words)?;
    if place > 0 {
        return Ok((Text::empty(alloc), bytes));
    }
    let (text, behind) = leaf(alloc, rest, closing)?;
    Ok((text, behind))
}
