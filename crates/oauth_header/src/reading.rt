//! The pairs of an Authorization header (RFC 5849, section 3.5.1).
ghost use Rattle.std.specs.Prelude.{◌≡◌, ◌+◌, ◌≤◌, ◌<◌, ◌^◌, ◌++◌, ◌∷◌, [], length, IfOk, IfErr, OnOk};
ghost use Rattle.oauth_header.specs.Items as items;
ghost use Rattle.oauth_header.specs.Items.{items_in};
ghost use Rattle.oauth_header.specs.Header as spec;
ghost use Rattle.oauth_header.specs.Header.{AreItems, IsHeader, items_of, header_pairs, pairs_in};
ghost use Rattle.oauth_header.specs.Faults.{IsFaultOf};

use crate::HeaderFault;
use crate::items::read_item;
use crate::pieces::first_piece;
use lti_outside::Pairs;
use oauth_text::{is_blank, trim_end, trim_front};
use std::alloc::Global;

// Whether the scheme is OAuth.
fn is_oauth(value: &[u8]) -> bool
    ensures { result ≡ spec.is_oauth value.now }
{
    value.len() >= 5
        && value[..5].eq_ignore_ascii_case(b"oauth")
        && (value.len() == 5 || is_blank(value[5]))
}

// Appends the pair of the piece that begins at the place, where an item that isn't `realm` stands in it.
fn read_piece(alloc: Global, at: usize, piece: &[u8], pairs: &mut Pairs) -> Result<(), HeaderFault>
    requires { at + length piece.now < 2 ^ 64 }
    ensures pairs { OnOk result (pairs.new
        ≡ pairs.old ++ pairs_in (items_in (record { at = at; bytes = piece.now } ∷ []))) }
    ensures items { OnOk result (AreItems (items_in (record { at = at; bytes = piece.now } ∷ []))) }
    ensures bad { IfErr result (IsFaultOf (items_in (record { at = at; bytes = piece.now } ∷ []))) }
{
    let rest = trim_front(piece);
    let item = trim_end(rest);
    if item.is_empty() {
        return Ok(());
    }
    let at = at + (piece.len() - rest.len());
    if let Some(pair) = read_item(alloc, at as u64, item)? {
        pairs.push(pair)?;
    }
    Ok(())
}

/// The pairs of the header's value (RFC 5849, section 3.5.1) in order, without `realm`; none for another scheme
/// than OAuth.
///
/// Behind `OAuth`, in any case, and a space or a tab stand items, cut at each comma that has an even number of `"`
/// before it. An item loses spaces and tabs at both ends, and an empty one is skipped. An item is a name, `=`, `"`,
/// a value and `"`. A name is made of letters, digits, `-`, `.`, `_`, `~` and `%HH`, at least one; a value of
/// `%HH` and the bytes from 0x20 to 0x7E but `"`, `\` and `%`. Both are read with each `%HH` as a byte, and are then
/// UTF-8. The value of `realm`, in which a `%` may stand for itself, isn't read.
pub fn read(alloc: Global, value: &str) -> Result<Pairs, HeaderFault>
    ensures pairs { IfOk result (λ pairs. pairs ≡ header_pairs value.now) }
    ensures header { OnOk result (IsHeader value.now) }
    ensures bad { IfErr result (IsFaultOf (items_of value.now)) }
{
    let value = value.as_bytes();
    let mut pairs = Pairs::new(alloc);
    if !is_oauth(value) {
        return Ok(pairs);
    }
    let mut at = 5;
    while at < value.len() {
        let piece = first_piece(&value[at..]);
        read_piece(alloc, at, piece, &mut pairs)?;
        at += piece.len() + 1;
    }
    Ok(pairs)
}
