// What comes of a session's reading.
use crate::session_end::SessionEnd;
use lti_machine::Call;

/// What comes of an `ask`.
#[derive(Drop)]
pub enum Ask {
    /// The machine is asked this, and `tell` is to be given its reply.
    Call(Call),
    /// The connection has ended so.
    End(SessionEnd),
}

/// What comes of one message.
#[derive(Drop)]
pub enum Next {
    /// It was answered before the machine is asked.
    Refused,
    /// The machine is asked this.
    Asked(Call),
    /// The connection has ended so.
    Over(SessionEnd),
}
