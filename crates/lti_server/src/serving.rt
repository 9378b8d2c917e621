// The command `answer`: one connection, over the link.
ghost use Rattle.lti_outside.specs.Limits.{IsSound};
ghost use Rattle.lti_words.specs.Command.CommandValue.{answer as answer_command};
ghost use Rattle.std.specs.Prelude.{◌≡◌, ℕ, List, Option};
ghost use Rattle.lti_operator.specs.Ladder.{Ladder};
ghost use Rattle.lti_server.specs.Served.{OwnAnswer, end_status};

use lti_desk::a_run_serves;
use lti_operator::open;
use lti_outside::{Clock, Disk, Limits, Link, Source};
use lti_session::{SessionEnd, session};
use lti_words::Status;
use std::alloc::Global;

// How a run ends that served one connection, which ended so.
fn status_of(end: SessionEnd) -> Status
    ensures { result ≡ end_status end }
{
    match end {
        SessionEnd::Ended | SessionEnd::LimitReached => Status::Done,
        SessionEnd::ReadFault => Status::ReadFault,
        SessionEnd::WriteFault => Status::WriteFault,
        SessionEnd::NoMemory => Status::NoMemory,
        SessionEnd::CutShort => Status::CutShort,
        SessionEnd::Refused(_) => Status::Refused,
    }
}

/// Does what `answer` is asked: serves the link as one connection, by the settings that the source gives, over the journal of
/// the disk, which it hands back.
pub fn answer<S: Source, I: Link, D: Disk, C: Clock>(
    alloc: Global,
    settings: &mut S,
    ends: &mut I,
    disk: D,
    clock: &C,
    limits: &Limits,
) -> (Status, D)
    requires { IsSound limits.now }
    ensures { (random : Option (List ℕ)) → Ladder ⟦<D as Disk>⟧ limits.now answer_command
        (record { before = record { source = S.traffic settings.old; link = I.traffic ends.old; random = random; disk = disk }; after = record { source = S.traffic settings.new; link = I.traffic ends.new; random = random; disk = result.1 } })
        (λ p read secret office status. OwnAnswer ⟦<D as Disk>⟧ limits.now (C.tells clock.now) p read office status) result.0 }
{
    let (read, mut office) = match open(alloc, settings, disk, limits) {
        Err(unopened) => return unopened,
        Ok(opened) => opened,
    };
    a_run_serves::<D>();
    let end = session(alloc, ends, &mut office, &read, clock, limits);
    (status_of(end), office.close())
}
