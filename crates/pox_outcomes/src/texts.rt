// The text of an element (XML 1.0, sections 2.2, 2.4 and 4.1).
ghost use Rattle.std.specs.Prelude.{◌≡◌, ◌∷◌, ◌++◌, ℕ, List, [], true, IsUtf8, OnOk, IfOk, IfErr, MatchOption};
ghost use Rattle.std.specs.Char.{encode_utf8};
ghost use Rattle.std.specs.List.{list_all};
ghost use Rattle.std.specs.String.{string_bytes};
ghost use Rattle.pox_outcomes.specs.Language.{Any, Reads};
ghost use Rattle.pox_outcomes.specs.Markup.{after_white, BeginsOtherwise};
ghost use Rattle.pox_outcomes.specs.Characters.{begins, is_allowed};
ghost use Rattle.pox_outcomes.specs.Texts as spec;
ghost use Rattle.pox_outcomes.specs.Texts.{IsLiteral, IsUnit, IsRest, IsText, Pushes, PushesGap};
ghost use Rattle.pox_outcomes.specs.References.{IsReference};
ghost use Rattle.pox_outcomes.specs.Stops.{IsStop, IsHalt};

use crate::characters::after_character;
use crate::markup::{after_byte, is_white, skip_white};
use crate::references::reference;
use crate::stops::{Halt, Left};
use lti_outside::Text;
use std::alloc::{AllocError, Global};

// Whether the bytes begin with one that stands for itself outside of gaps.
fn begins_literally(bytes: &[u8]) -> bool
    ensures { result ≡ begins spec.is_literal bytes.now }
{
    match bytes {
        [first, ..] => !is_white(*first) && *first != b'<' && *first != b'&',
        [] => false,
    }
}

// What stands behind a character that stands for itself.
fn after_literal(bytes: &[u8]) -> Result<&[u8], Left>
    ensures reads { IfOk result (λ rest. Reads IsLiteral bytes.now rest.now) }
    ensures stops { IfErr result (IsStop IsLiteral bytes.now) }
{
    if !begins_literally(bytes) {
        return Err(Left { left: bytes.len() });
    }
    after_character(bytes)
}

// Appends bytes that are UTF-8.
fn push_bytes(text: &mut String, bytes: &[u8]) -> Result<(), AllocError>
    requires { IsUtf8 bytes.now }
    ensures { OnOk result (string_bytes text.new ≡ string_bytes text.old ++ bytes.now) }
{
    match str::from_utf8(bytes) {
        Ok(piece) => text.push_str(piece),
        Err(_) => unreachable!(),
    }
}

// Appends the character of the code.
fn push_code(text: &mut String, code: u32) -> Result<(), AllocError>
    requires { is_allowed code ≡ true }
    ensures { OnOk result (string_bytes text.new ≡ string_bytes text.old ++ encode_utf8 code) }
{
    match char::from_u32(code) {
        Some(character) => text.push(character),
        None => unreachable!(),
    }
}

// Appends what a reference spells, and answers what stands behind it.
fn push_reference<'a>(text: &mut String, bytes: &'a [u8]) -> Result<&'a [u8], Halt>
    ensures reads { IfOk result (λ rest. Pushes (string_bytes text.old) (string_bytes text.new) bytes.now rest.now) }
    ensures stops { IfErr result (IsHalt (Any IsReference) bytes.now) }
{
    let (code, rest) = reference(bytes)?;
    push_code(text, code)?;
    Ok(rest)
}

// Appends a character that stands for itself, and answers what stands behind it.
fn push_literal<'a>(text: &mut String, bytes: &'a [u8]) -> Result<&'a [u8], Halt>
    ensures reads { IfOk result (λ rest. Pushes (string_bytes text.old) (string_bytes text.new) bytes.now rest.now) }
    ensures stops { IfErr result (IsHalt IsLiteral bytes.now) }
{
    let rest = after_literal(bytes)?;
    push_bytes(text, &bytes[..bytes.len() - rest.len()])?;
    Ok(rest)
}

// What stands behind an `&`, where the bytes begin with one.
fn after_ampersand(bytes: &[u8]) -> Option<&[u8]>
    ensures { MatchOption result (BeginsOtherwise 38 bytes.now) (λ rest. bytes.now ≡ 38 ∷ rest.now) }
{
    after_byte(bytes, b'&')
}

// Appends what the unit spells, and answers what stands behind it.
fn push_unit<'a>(text: &mut String, bytes: &'a [u8]) -> Result<&'a [u8], Halt>
    ensures reads { IfOk result (λ rest. Pushes (string_bytes text.old) (string_bytes text.new) bytes.now rest.now) }
    ensures stops { IfErr result (IsHalt (Any IsUnit) bytes.now) }
{
    match after_ampersand(bytes) {
        Some(_) => push_reference(text, bytes),
        None => push_literal(text, bytes),
    }
}

// Whether all of the bytes may stand in a gap.
fn is_gap(bytes: &[u8]) -> bool
    ensures { result ≡ list_all spec.is_gap bytes.now }
{
    bytes
        .iter()
        .all(|b| *b == b' ' || *b == b'\t' || *b == b'\n')
}

// Appends the white bytes in front, which stand in the middle of a text.
fn push_gap<'a>(text: &mut String, bytes: &'a [u8]) -> Result<&'a [u8], Halt>
    requires { BeginsOtherwise 60 (after_white bytes.now) }
    ensures reads { IfOk result (λ rest. (rest.now ≡ after_white bytes.now)
        × PushesGap (string_bytes text.old) (string_bytes text.new) bytes.now rest.now) }
    ensures stops { IfErr result (IsHalt (Any IsRest) bytes.now) }
{
    let rest = skip_white(bytes);
    let gap = &bytes[..bytes.len() - rest.len()];
    if !is_gap(gap) {
        return Err(Halt::Stopped(Left { left: rest.len() }));
    }
    push_bytes(text, gap)?;
    Ok(rest)
}

/// The text that the bytes spell up to the `<` of the end tag, and what stands behind it.
pub fn text(alloc: Global, bytes: &[u8]) -> Result<(Text, &[u8]), Halt>
    ensures reads { IfOk result (λ found. Reads (IsText found.0) bytes.now found.1.now) }
    ensures stops { IfErr result (IsHalt (Any IsText) bytes.now) }
{
    let mut text = String::new(alloc);
    let mut rest = skip_white(bytes);
    if let Some(behind) = after_byte(rest, b'<') {
        return Ok((Text::from_string(text), behind));
    }
    'units: loop {
        let end = push_unit(&mut text, rest)?;
        if let Some(behind) = after_byte(skip_white(end), b'<') {
            return Ok((Text::from_string(text), behind));
        }
        rest = push_gap(&mut text, end)?;
    }
}
