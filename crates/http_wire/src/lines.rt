// The lines of a head (RFC 9112, section 2.2).
ghost use Rattle.std.specs.Prelude.{◌≡◌};
ghost use Rattle.http_wire.specs.Conditions.{first_fault, fault_in};
ghost use Rattle.http_wire.specs.Lines.{line_ends as ends_in, has_bare_line_feed as has_bare_in, line_conditions};

use crate::WireFault;
use lti_outside::Limits;

fn line_ends(head: &[u8]) -> usize
    ensures { result ≡ ends_in 0 head.now }
{
    let mut count: usize = 0;
    let mut before = 0;
    for byte in head {
        if before == b'\r' && *byte == b'\n' {
            count += 1;
        }
        before = *byte;
    }
    count
}

fn has_bare_line_feed(head: &[u8]) -> bool
    ensures { result ≡ has_bare_in 0 head.now }
{
    let mut before = 0;
    for byte in head {
        if *byte == b'\n' && before != b'\r' {
            return true;
        }
        before = *byte;
    }
    false
}

/// The first fault of the lines of a head.
pub(crate) fn check_lines(head: &[u8], limits: &Limits) -> Result<(), WireFault>
    ensures { fault_in result ≡ first_fault (line_conditions limits.now head.now) }
{
    if line_ends(head) > limits.headers as usize + 2 {
        return Err(WireFault::TooManyHeaders);
    }
    if has_bare_line_feed(head) {
        return Err(WireFault::BadHead);
    }
    if head.starts_with(b"\r\n") {
        return Err(WireFault::BadHead);
    }
    Ok(())
}
