// A score's text with its language (LTI 1.1.1, section 6, and the schema imsoms_v1p0).
ghost use Rattle.std.specs.Prelude.{◌≡◌, true, ℕ, List, length, IfOk, IfErr};
ghost use Rattle.pox_outcomes.specs.Language.{Any, Reads};
ghost use Rattle.pox_outcomes.specs.Markup.{is_plain, are_words, behind};
ghost use Rattle.pox_outcomes.specs.Scores.{IsTextString, IsBehindLanguage, IsScored};
ghost use Rattle.pox_outcomes.specs.Stops.{IsHalt};

use crate::leaves::leaf;
use crate::markup::{follow, one_of};
use crate::stops::Halt;
use lti_outside::Text;
use std::alloc::Global;

// The text of a text string with the markup behind it, and what stands behind that.
fn text_string<'a>(alloc: Global, bytes: &'a [u8], closing: &[u8]) -> Result<(Text, &'a [u8]), Halt>
    requires { is_plain closing.now ≡ true }
    ensures reads { IfOk result (λ found. Reads (IsTextString closing.now found.0) bytes.now found.1.now) }
    ensures stops { IfErr result (IsHalt (Any (IsTextString closing.now)) bytes.now) }
{
    let (score, rest) = leaf(alloc, bytes, b"/textString >")?;
    let behind = follow(rest, closing)?;
    Ok((score, behind))
}

// The same behind a language.
fn behind_language<'a>(
    alloc: Global,
    bytes: &'a [u8],
    closing: &[u8],
) -> Result<(Text, &'a [u8]), Halt>
    requires { is_plain closing.now ≡ true }
    ensures reads { IfOk result (λ found. Reads (IsBehindLanguage closing.now found.0) bytes.now found.1.now) }
    ensures stops { IfErr result (IsHalt (Any (IsBehindLanguage closing.now)) bytes.now) }
{
    let (_, rest) = leaf(alloc, bytes, b"/language >")?;
    let last = follow(rest, b" <textString")?;
    let (score, behind) = text_string(alloc, last, closing)?;
    Ok((score, behind))
}

/// The text of a score behind one of two words, the first of which a language follows, and what stands behind the
/// closing markup.
pub fn score<'a>(
    alloc: Global,
    bytes: &'a [u8],
    words: &[&[u8]],
    closing: &[u8],
) -> Result<(Text, &'a [u8]), Halt>
    requires words { are_words (behind words.now) ≡ true }
    requires two { length words.now ≡ 2 }
    requires closing { is_plain closing.now ≡ true }
    ensures reads { IfOk result (λ found. Reads (IsScored (behind words.now) closing.now found.0) bytes.now found.1.now) }
    ensures stops { IfErr result (IsHalt (Any (IsScored (behind words.now) closing.now)) bytes.now) }
{
    let (place, rest) = one_of(bytes, words)?;
    if place == 0 {
        return behind_language(alloc, rest, closing);
    }
    text_string(alloc, rest, closing)
}
