// A door on the network.
ghost use Rattle.std.specs.Prelude.{◌≡◌, None, IfOk, IfSome, IfNone, IsSome, OnSome, OnOk, OnErr};
ghost use Rattle.lti_doors.specs.Accepting.{Makes, EndsInConnection, GivesUp};
ghost use Rattle.lti_doors.specs.Standing.{IsFresh, HandsOut, Fails};

use crate::accepting::{Accepting, tried_at_once, tried_later};
use crate::door::{Door, DoorFault};
use crate::lingering::linger;
use crate::tcp_end::TcpEnd;
use std::io;
use std::net::OpenStream;
use std::time::{Clock, Duration};

/// How many seconds a read or a write of a connection waits for its peer. A peer that falls silent holds a
/// worker no longer than that.
pub const SILENCE_SECONDS: u64 = 30;

// How often one call of `next` accepts at most.
const TRIES: u32 = 1_000_000;

// How many milliseconds it waits where no connection came, or there is no room for one.
const ROOM_MILLISECONDS: u64 = 10;

/// A door on the network. It tells nothing of what comes through it but its faults.
///
/// Each connection sends small pieces at once (`TCP_NODELAY`), and its reads and writes wait at most
/// `SILENCE_SECONDS`: one that waits longer is a fault of that connection alone. One that can't be set up so is
/// dropped, and the next one is accepted.
///
/// `next` waits for a connection, and never answers that no more come. It accepts again at once after an error
/// of a connection that was lost before it was accepted (`ConnectionAborted`, `ConnectionReset`, `TimedOut`,
/// `HostUnreachable`, `NetworkUnreachable`, `NetworkDown`, `EPROTO`, `ENOPROTOOPT`, `EHOSTDOWN`, `ENONET`,
/// `EOPNOTSUPP`) and of a call that was cut short (`Interrupted`), and 10 milliseconds later where no
/// connection came (`WouldBlock`), where no file descriptor is left (`EMFILE`, `ENFILE`) and where there is no
/// memory (`OutOfMemory`, `ENOBUFS`). Any other error is a fault of the door, as `EBADF`, `EINVAL` or `EPERM`,
/// and so are a million attempts in one call without a connection to hand out.
///
/// `back` ends the connection: it says that no more is written, reads for a second, or 65,536 bytes, what the
/// peer still sends, and drops it. So a peer that is still writing reads its answer before it learns of the end.
#[derive(Drop)]
pub struct TcpDoor<L: Accepting, C: Clock + Drop> {
    listener: L,
    clock: C,
    faults: u64,
}

impl<L: Accepting, C: Clock + Drop> TcpDoor<L, C> {
    ghost use Rattle.lti_doors.specs.Tcp.{tcp_standing};

    /// A door through which the listener's connections come. The clock measures and waits the times above.
    pub fn new(listener: L, clock: C) -> TcpDoor<L, C>
        ensures { tcp_standing result ≡ record { roll = None; faults = 0 } }
    {
        TcpDoor {
            listener,
            clock,
            faults: 0,
        }
    }
}

// Sets what each connection is to have.
fn set_up<S: OpenStream>(stream: &S) -> io::Result<()> {
    let silence = Some(Duration::from_secs(SILENCE_SECONDS));
    stream.set_nodelay(true)?;
    stream.set_read_timeout(silence)?;
    stream.set_write_timeout(silence)
}

// Accepts until a connection can be handed out, or none can be waited for any more.
fn accept_next<L: Accepting, C: Clock>(listener: &mut L, clock: &C) -> Option<L::Stream>
    ensures some { OnSome result (Makes (L.attempts listener.old) (L.attempts listener.new) EndsInConnection) }
    ensures none { IfNone result (Makes (L.attempts listener.old) (L.attempts listener.new) GivesUp) }
{
    for _ in 0..TRIES {
        match listener.accept() {
            Ok(stream) => {
                if set_up(&stream).is_ok() {
                    return Some(stream);
                }
            }
            Err(error) if tried_at_once(&error) => {}
            Err(error) if tried_later(&error) => {
                clock.sleep(Duration::from_millis(ROOM_MILLISECONDS))
            }
            Err(_) => return None,
        }
    }
    None
}

impl<L: Accepting, C: Clock + Drop> Door for TcpDoor<L, C>
where
    L::Stream: Send,
{
    ghost use Rattle.lti_doors.specs.Tcp.{tcp_traffic, tcp_standing};

    type End = TcpEnd<L::Stream>;

    ghost standing = { tcp_standing };

    fn next(&mut self) -> Result<Option<TcpEnd<L::Stream>>, DoorFault>
        ensures some { IfOk result (λ found. IfSome found (λ end. IsFresh (tcp_traffic end) × HandsOut (tcp_standing self.old) (tcp_standing self.new) (tcp_traffic end))) }
        ensures always { IfOk result (λ found. IsSome found) }
        ensures failed { OnErr result (Fails (tcp_standing self.old) (tcp_standing self.new)) }
        ensures came { OnOk result (Makes (L.attempts self.old.listener) (L.attempts self.new.listener) EndsInConnection) }
        ensures gave_up { OnErr result (Makes (L.attempts self.old.listener) (L.attempts self.new.listener) GivesUp) }
    {
        match accept_next(&mut self.listener, &self.clock) {
            Some(stream) => Ok(Some(TcpEnd::new(stream))),
            None => {
                self.faults = self.faults.saturating_add(1);
                Err(DoorFault)
            }
        }
    }

    fn back(&mut self, end: TcpEnd<L::Stream>) {
        linger(&mut end.into_stream(), &self.clock);
    }
}
