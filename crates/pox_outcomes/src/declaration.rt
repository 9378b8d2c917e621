// The XML declaration, and the start of the root element (XML 1.0, sections 2.8, 2.9 and 4.3.3).
ghost use Rattle.std.specs.Prelude.{◌≡◌, ◌∷◌, [], ℕ, true, codes, IfOk, IfErr, MatchOption};
ghost use Rattle.pox_outcomes.specs.Language.{Reads};
ghost use Rattle.pox_outcomes.specs.Declaration.{IsClosing, IsEncoding, IsAfterVersion, IsDeclaration, IsOpening};
ghost use Rattle.pox_outcomes.specs.Markup as markup;
ghost use Rattle.pox_outcomes.specs.Markup.{IsBehindWhite, BeginsDark, is_plain, are_words};
ghost use Rattle.pox_outcomes.specs.Stops.{IsStop};

use crate::markup::{follow, is_white, one_of};
use crate::stops::Left;

// How a declaration begins.
const DECLARATION: &[u8] = b"<?xml";

// `utf-8` in any case.
const ENCODINGS: [&[u8]; 8] = [
    b"UTF-8", b"utf-8", b"Utf-8", b"uTf-8", b"utF-8", b"UTf-8", b"UtF-8", b"uTF-8",
];

// The end of the declaration, with or without `standalone`.
const CLOSINGS: [&[u8]; 5] = [
    b" ?>",
    b" standalone = \"yes\" ?>",
    b" standalone = 'yes' ?>",
    b" standalone = \"no\" ?>",
    b" standalone = 'no' ?>",
];

// What may stand behind the version.
const PARTS: [&[u8]; 7] = [
    b" encoding = \"",
    b" encoding = '",
    b" ?>",
    b" standalone = \"yes\" ?>",
    b" standalone = 'yes' ?>",
    b" standalone = \"no\" ?>",
    b" standalone = 'no' ?>",
];

const VERSIONS: [&[u8]; 2] = [b" version = \"1.0\"", b" version = '1.0'"];

// What stands behind a white byte.
fn after_white(bytes: &[u8]) -> Option<&[u8]>
    ensures { MatchOption result (BeginsDark bytes.now) (λ rest. IsBehindWhite bytes.now rest.now) }
{
    match bytes {
        [first, rest @ ..] if is_white(*first) => Some(rest),
        _ => None,
    }
}

// What stands behind the end of the declaration.
fn after_closing(bytes: &[u8]) -> Result<&[u8], Left>
    ensures reads { IfOk result (λ rest. Reads IsClosing bytes.now rest.now) }
    ensures stops { IfErr result (IsStop IsClosing bytes.now) }
{
    let Some(rest) = after_white(bytes) else {
        return follow(bytes, b"?>");
    };
    let (_, behind) = one_of(rest, &CLOSINGS)?;
    Ok(behind)
}

// What stands behind the name of the encoding, its second quote and the end of the declaration.
fn after_encoding<'a>(bytes: &'a [u8], quote: &[u8]) -> Result<&'a [u8], Left>
    requires { is_plain quote.now ≡ true }
    ensures reads { IfOk result (λ rest. Reads (IsEncoding quote.now) bytes.now rest.now) }
    ensures stops { IfErr result (IsStop (IsEncoding quote.now) bytes.now) }
{
    let (_, rest) = one_of(bytes, &ENCODINGS)?;
    let last = follow(rest, quote)?;
    let behind = after_closing(last)?;
    Ok(behind)
}

// What stands behind the rest of the declaration, from behind the version on.
fn after_version(bytes: &[u8]) -> Result<&[u8], Left>
    ensures reads { IfOk result (λ rest. Reads IsAfterVersion bytes.now rest.now) }
    ensures stops { IfErr result (IsStop IsAfterVersion bytes.now) }
{
    let Some(rest) = after_white(bytes) else {
        return follow(bytes, b"?>");
    };
    let (place, last) = one_of(rest, &PARTS)?;
    if place == 0 {
        return after_encoding(last, b"\"");
    }
    if place == 1 {
        return after_encoding(last, b"'");
    }
    Ok(last)
}

// What stands behind a declaration, from behind `<?xml` on.
fn after_declaration(bytes: &[u8]) -> Result<&[u8], Left>
    ensures reads { IfOk result (λ rest. Reads IsDeclaration bytes.now rest.now) }
    ensures stops { IfErr result (IsStop IsDeclaration bytes.now) }
{
    let Some(rest) = after_white(bytes) else {
        return Err(Left { left: bytes.len() });
    };
    let (_, last) = one_of(rest, &VERSIONS)?;
    let behind = after_version(last)?;
    Ok(behind)
}

/// What stands behind a declaration, where there is one, and the start of the root element up to its name.
pub fn after_opening<'a>(bytes: &'a [u8], root: &[u8]) -> Result<&'a [u8], Left>
    requires { are_words (codes "<?xml" ∷ root.now ∷ []) ≡ true }
    ensures reads { IfOk result (λ rest. Reads (IsOpening root.now) bytes.now rest.now) }
    ensures stops { IfErr result (IsStop (IsOpening root.now) bytes.now) }
{
    let (place, rest) = one_of(bytes, &[DECLARATION, root])?;
    if place == 1 {
        return Ok(rest);
    }
    let last = after_declaration(rest)?;
    let behind = follow(last, root)?;
    Ok(behind)
}
