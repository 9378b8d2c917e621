// Pieces that are written where there is room for them.
ghost use Rattle.std.specs.Prelude.{◌≡◌, ◌+◌, ◌*◌, ◌<◌, ◌≤◌, ◌++◌, ◌||◌, ◌&&◌, ◌==◌, length};
ghost use Rattle.pox_outcomes.specs.Written as spec;
ghost use Rattle.pox_outcomes.specs.Written.{escape_part, escape_text};

use lti_outside::Bytes;

/// Appends the piece, for which there is room.
pub fn put(out: &mut Bytes, piece: &[u8])
    requires { length piece.now ≤ out.old.room }
    ensures list { out.new.list ≡ out.old.list ++ piece.now }
    ensures room { out.old.room ≤ out.new.room + length piece.now }
{
    match out.push(piece) {
        Ok(()) => {}
        Err(_) => unreachable!(),
    }
}

// Appends the byte as it is written at the edge of a text or inside of it.
fn put_byte(out: &mut Bytes, edge: bool, b: u8)
    requires { 5 ≤ out.old.room }
    ensures list { out.new.list ≡ out.old.list ++ spec.escape_byte edge b }
    ensures room { out.old.room ≤ out.new.room + 5 }
{
    match b {
        b'&' => put(out, b"&amp;"),
        b'<' => put(out, b"&lt;"),
        b'>' => put(out, b"&gt;"),
        b'\t' => put(out, b"&#9;"),
        b'\n' => put(out, b"&#10;"),
        b'\r' => put(out, b"&#13;"),
        b' ' if edge => put(out, b"&#32;"),
        _ => put(out, &[b]),
    }
}

// Whether the byte at the place is at an edge, where the part begins or ends the text.
fn is_edge(first: bool, last: bool, place: usize, len: usize) -> bool
    requires { place < len }
    ensures { result ≡ ((first && place == 0) || (last && place + 1 == len)) }
{
    (first && place == 0) || (last && place + 1 == len)
}

/// Appends part of a text as it is written, where `first` and `last` say whether the text begins and ends with it.
pub fn put_part(out: &mut Bytes, first: bool, last: bool, text: &[u8])
    requires { 5 * length text.now ≤ out.old.room }
    ensures list { out.new.list ≡ out.old.list ++ escape_part first last text.now }
    ensures room { out.old.room ≤ out.new.room + 5 * length text.now }
{
    for (place, b) in text.iter().enumerate() {
        put_byte(out, is_edge(first, last, place, text.len()), *b);
    }
}

/// Appends the text as it is written.
pub fn put_text(out: &mut Bytes, text: &[u8])
    requires { 5 * length text.now ≤ out.old.room }
    ensures list { out.new.list ≡ out.old.list ++ escape_text text.now }
    ensures room { out.old.room ≤ out.new.room + 5 * length text.now }
{
    put_part(out, true, true, text);
}
