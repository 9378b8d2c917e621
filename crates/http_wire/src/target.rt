// The target of a request (RFC 9112, section 3.2.1).
ghost use Rattle.std.specs.Prelude.{◌≡◌, ◌==◌};
ghost use Rattle.std.specs.List.{list_all, before_first, after_first};
ghost use Rattle.http_wire.specs.Head as grammar;

use oauth_text::place_of;

fn is_target_byte(b: u8) -> bool
    ensures { result ≡ grammar.is_target_byte b }
{
    (b'!'..=b'~').contains(&b) && b != b'#'
}

/// Whether each byte is one of a target.
pub(crate) fn are_target_bytes(bytes: &[u8]) -> bool
    ensures { result ≡ list_all grammar.is_target_byte bytes.now }
{
    bytes.iter().all(|b| is_target_byte(*b))
}

/// Whether a target is in origin form, without a fragment.
pub(crate) fn is_target(target: &[u8]) -> bool
    ensures { result ≡ grammar.is_target target.now }
{
    match target {
        [first, others @ ..] => *first == b'/' && are_target_bytes(others),
        [] => false,
    }
}

/// The path, and the query.
pub(crate) fn split_target(target: &[u8]) -> (&[u8], &[u8])
    ensures path { result.0.now ≡ before_first (λ b. b == 63) target.now }
    ensures query { result.1.now ≡ after_first (λ b. b == 63) target.now }
{
    let end = place_of(b'?', target);
    if end < target.len() {
        (&target[..end], &target[end + 1..])
    } else {
        (target, &[])
    }
}
