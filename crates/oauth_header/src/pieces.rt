// Pieces of a header's value.
ghost use Rattle.std.specs.Prelude.{◌≡◌, ◌≤◌, false, length, take};
ghost use Rattle.oauth_header.specs.Pieces.{piece_len};

// How many bytes stand before the first comma that has an even number of quotation marks before it.
fn first_piece_len(text: &[u8]) -> usize
    ensures len { result ≡ piece_len false text.now }
    ensures bound { result ≤ length text.now }
{
    let mut odd = false;
    for (place, b) in text.iter().enumerate() {
        if *b == b',' && !odd {
            return place;
        }
        if *b == b'"' {
            odd = !odd;
        }
    }
    text.len()
}

/// What stands before the first comma that has an even number of quotation marks before it.
pub(crate) fn first_piece(text: &[u8]) -> &[u8]
    ensures piece { result.now ≡ take (piece_len false text.now) text.now }
    ensures len { length result.now ≡ piece_len false text.now }
    ensures bound { length result.now ≤ length text.now }
{
    &text[..first_piece_len(text)]
}
