// What the machine answers.
ghost use Rattle.std.specs.Prelude.{◌≡◌};
ghost use Rattle.lti_machine.specs.Rules as rules;

use score_decimal::Score;

/// The reply to a call. Only an acceptance adds an entry; every other reply leaves the list as it was.
#[derive(Clone, Copy, Debug, PartialEq, Eq)]
pub enum Reply {
    /// Accepted: the nonce is used up, and nothing else is changed.
    Noted,
    /// Accepted: the nonce is used up, and the launch is noted.
    Launched,
    /// Accepted: the nonce is used up, and the id has the score that was sent.
    Graded,
    /// Accepted: the nonce is used up. `score` is the grade of the id; it is `None` where the id has none.
    GradeRead { score: Option<Score> },
    /// Accepted: the nonce is used up, and the id has no grade. It may have had none before.
    Deleted,
    /// Accepted: the nonce is used up, but the id was never issued under this key, and no grade is changed.
    UnknownId,
    /// Accepted: the nonce is used up, but what was sent is no score, and no grade is changed.
    BadScore,
    /// Accepted: the id is issued under the key, and has no grade yet.
    Issued,
    /// The id is issued under the key already. It keeps its grade.
    AlreadyIssued,
    /// The timestamp is more than 5400 seconds before or after the moment that stands. `now` is that
    /// moment: the call's own, or the greatest that was accepted. One of the two clocks is wrong, or the
    /// call is old. The 5400 seconds are this project's own.
    Outside { now: u64 },
    /// The nonce was accepted before with this key and this timestamp: the call is a repetition (RFC 5849
    /// section 3.3).
    Used,
    /// The key has as many nonces that aren't forgotten yet as `Limits::window` gives each key; `live` is
    /// their number. A nonce is forgotten 91 minutes after its timestamp, counted by whole minutes since
    /// 1970. Forgetting and the limit are this project's own.
    WindowFull { live: u32 },
    /// The call would be accepted, but what is kept of it doesn't fit on the disk: `free` is how many bytes an entry may have.
    /// The nonce isn't used up.
    JournalFull { free: u64 },
    /// A call of the disk failed while the call was accepted; `faults` is how many have failed by now. The nonce isn't used up,
    /// unless a crash or the end of the run finds the call on the disk.
    DiskFault { faults: u64 },
    /// The run has answered as many calls as it may.
    RunFull,
    /// Accepting needs memory that was refused, or the list has 2^32 - 1 entries, which is its end. The
    /// nonce isn't used up, and the same call may be asked again.
    NoMemory,
}

impl Reply {
    /// Whether the call was accepted: its nonce, if it has one, is used up, and it has an entry.
    pub fn is_acceptance(&self) -> bool
        ensures { result ≡ rules.is_acceptance self.now }
    {
        match self {
            Reply::Noted
            | Reply::Launched
            | Reply::Graded
            | Reply::GradeRead { .. }
            | Reply::Deleted
            | Reply::UnknownId
            | Reply::BadScore
            | Reply::Issued => true,
            Reply::AlreadyIssued
            | Reply::Outside { .. }
            | Reply::Used
            | Reply::WindowFull { .. }
            | Reply::JournalFull { .. }
            | Reply::DiskFault { .. }
            | Reply::RunFull
            | Reply::NoMemory => false,
        }
    }
}
