// One end of a connection on the network.
ghost use Rattle.std.specs.Prelude.{◌≡◌, ◌≤◌, None};

use lti_outside::{Link, Outside, ReadFault, Sink, Source, WriteFault};
use std::io::{Read, Write};

/// One end of a connection on the network. A read or a write that fails, or that waits longer than its
/// time-out, is counted, and so is a write that writes nothing; it tells no bytes.
#[derive(Drop)]
pub struct TcpEnd<S: Read + Write> {
    stream: S,
    read_faults: u64,
    write_faults: u64,
}

impl<S: Read + Write> TcpEnd<S> {
    ghost use Rattle.lti_doors.specs.Tcp.{tcp_traffic};

    /// The end of a connection that nobody has used.
    pub fn new(stream: S) -> TcpEnd<S>
        ensures { tcp_traffic result ≡ record { told = None; read_faults = 0; write_faults = 0 } }
    {
        TcpEnd {
            stream,
            read_faults: 0,
            write_faults: 0,
        }
    }

    // The connection itself.
    pub(crate) fn into_stream(self) -> S
        ensures { result ≡ self.stream }
    {
        self.stream
    }
}

impl<S: Read + Write> Outside for TcpEnd<S> {
    ghost use Rattle.lti_doors.specs.Tcp.{tcp_traffic};

    ghost traffic = { tcp_traffic };
}

impl<S: Read + Write> Source for TcpEnd<S> {
    fn take(&mut self, buf: &mut [u8]) -> Result<usize, ReadFault> {
        match self.stream.read(buf) {
            Ok(count) => Ok(count),
            Err(_) => {
                self.read_faults = self.read_faults.saturating_add(1);
                Err(ReadFault)
            }
        }
    }
}

impl<S: Read + Write> Sink for TcpEnd<S> {
    fn give(&mut self, piece: &[u8]) -> Result<usize, WriteFault> {
        match self.stream.write(piece) {
            Ok(count) if count > 0 => Ok(count),
            _ => {
                self.write_faults = self.write_faults.saturating_add(1);
                Err(WriteFault)
            }
        }
    }
}

impl<S: Read + Write> Link for TcpEnd<S> {}
