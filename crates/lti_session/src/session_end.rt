// How a connection ended.
use http_wire::WireFault;

/// How a connection ended.
#[derive(Clone, Copy, Debug, PartialEq, Eq)]
pub enum SessionEnd {
    /// The input ended between two messages, or behind one whose answer ends the connection.
    Ended,
    /// As many messages were answered as `Limits::requests` allows on a connection.
    LimitReached,
    /// The input ended inside a message, which has no answer.
    CutShort,
    /// A read failed, and the message that was being read has no answer.
    ReadFault,
    /// A write failed, and a proper front of the answers was written.
    WriteFault,
    /// The bytes spell no request, and the fault was answered.
    Refused(WireFault),
    /// There was no memory for a message or its answer, which was said where the link took it.
    NoMemory,
}
