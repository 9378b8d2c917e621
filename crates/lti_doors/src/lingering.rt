// How a connection on the network is ended.
ghost use Rattle.std.specs.Prelude.{◌≤◌};

use std::io::Read;
use std::net::{OpenStream, Shutdown};
use std::time::{Clock, Duration, Instant};

// How many bytes are read at most of a connection that ends.
const LINGER_BYTES: usize = 65_536;

// How many seconds are waited at most for these.
const LINGER_SECONDS: u64 = 1;

// How long a read may still wait. `None`: no longer.
fn time_left<C: Clock>(start: Instant, clock: &C) -> Option<Duration> {
    let elapsed = start.elapsed(clock).ok()?;
    Duration::from_secs(LINGER_SECONDS).checked_sub(elapsed)
}

// Reads what still comes, and answers how many bytes that were.
fn drain<S: Read + OpenStream, C: Clock>(stream: &mut S, clock: &C) -> usize
    ensures { result ≤ 65536 }
{
    let Ok(start) = Instant::now(clock) else {
        return 0;
    };
    let mut buf = [0; 4096];
    let mut count = 0;
    while count < LINGER_BYTES {
        let Some(wait) = time_left(start, clock) else {
            return count;
        };
        if stream.set_read_timeout(Some(wait)).is_err() {
            return count;
        }
        let room = buf.len().min(LINGER_BYTES - count);
        match stream.read(&mut buf[..room]) {
            Ok(more) if more > 0 => count += more,
            _ => return count,
        }
    }
    count
}

// Says that no more is written, and waits until the peer says so too: a connection that is dropped while bytes
// of the peer are unread is reset, and then the peer may lose what it was sent. It answers how many bytes came.
// The wait ends after 65,536 bytes, after a second, or where the connection or the clock fails.
pub(crate) fn linger<S: Read + OpenStream, C: Clock>(stream: &mut S, clock: &C) -> usize
    ensures { result ≤ 65536 }
{
    match stream.shutdown(Shutdown::Write) {
        Ok(()) => drain(stream, clock),
        Err(_) => 0,
    }
}
