// The spaces and tabs at the ends of a text.
ghost use Rattle.std.specs.Prelude.{◌≡◌, ◌≤◌, ℕ, length, take};
ghost use Rattle.oauth_text.specs.Blanks as spec;

/// Whether the byte is a space or a tab.
pub fn is_blank(b: u8) -> bool
    ensures { result ≡ spec.is_blank b }
{
    b == b' ' || b == b'\t'
}

/// The text without the spaces and tabs in front.
pub fn trim_front(text: &[u8]) -> &[u8]
    ensures trimmed { result.now ≡ spec.trim_front text.now }
    ensures bound { length result.now ≤ length text.now }
{
    let mut rest = text;
    while let [first, others @ ..] = rest
        && is_blank(*first)
    {
        rest = others;
    }
    rest
}

/// The text without the spaces and tabs at the end, a front of it.
pub fn trim_end(text: &[u8]) -> &[u8]
    ensures trimmed { result.now ≡ spec.trim_end text.now }
    ensures front { (count : ℕ) × (result.now ≡ take count text.now) }
{
    let mut rest = text;
    while let [others @ .., last] = rest
        && is_blank(*last)
    {
        rest = others;
    }
    rest
}
