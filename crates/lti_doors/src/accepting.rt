// What a door on the network accepts connections from, and which of its errors are tried again.
ghost use Rattle.std.specs.Prelude.{◌≡◌, List, Option};
ghost use Rattle.lti_doors.specs.Accepting.{Attempt, Adds, attempt_of, is_tried_at_once, is_tried_later};

use std::io::{self, ErrorKind, Read, Write};
use std::net::{OpenStream, TcpListener, TcpStream};

/// Something that connections are accepted from, as a `TcpListener`, which tells nothing of them.
pub trait Accepting: Drop {
    /// A connection.
    type Stream: Read + Write + OpenStream + Drop;

    /// What came of the calls of `accept` so far, in order, where it tells that. It may stop telling.
    ghost attempts: { Self → Option (List Attempt) };

    /// Waits for the next connection.
    fn accept(&mut self) -> io::Result<Self::Stream>
        ensures { Adds (attempts self.old) (attempts self.new) (attempt_of result) };
}

impl Accepting for TcpListener {
    ghost use Rattle.std.specs.Prelude.{None};

    type Stream = TcpStream;

    ghost attempts = { λ _. None };

    fn accept(&mut self) -> io::Result<TcpStream> {
        let (stream, _) = TcpListener::accept(self)?;
        Ok(stream)
    }
}

// Errors of a connection that was lost before it was accepted, which have no kind of their own. accept(2) of
// Linux lists them among those after which to accept again.
const ENONET: i32 = 64;

const EPROTO: i32 = 71;

const ENOPROTOOPT: i32 = 92;

const EOPNOTSUPP: i32 = 95;

const EHOSTDOWN: i32 = 112;

// Want of file descriptors, of the system's and of this program's, and of room for another socket.
const ENFILE: i32 = 23;

const EMFILE: i32 = 24;

const ENOBUFS: i32 = 105;

// Whether the connection alone was lost, or the call was cut short.
pub(crate) fn tried_at_once(error: &io::Error) -> bool
    ensures { result ≡ is_tried_at_once error.now }
{
    match error.kind() {
        ErrorKind::ConnectionAborted
        | ErrorKind::ConnectionReset
        | ErrorKind::HostUnreachable
        | ErrorKind::NetworkUnreachable
        | ErrorKind::NetworkDown
        | ErrorKind::Interrupted
        | ErrorKind::TimedOut => true,
        _ => matches!(
            error.raw_os_error(),
            Some(ENONET | EPROTO | ENOPROTOOPT | EOPNOTSUPP | EHOSTDOWN)
        ),
    }
}

// Whether no connection came, or there is no room for one now.
pub(crate) fn tried_later(error: &io::Error) -> bool
    ensures { result ≡ is_tried_later error.now }
{
    match error.kind() {
        ErrorKind::WouldBlock | ErrorKind::OutOfMemory => true,
        _ => matches!(error.raw_os_error(), Some(ENFILE | EMFILE | ENOBUFS)),
    }
}
