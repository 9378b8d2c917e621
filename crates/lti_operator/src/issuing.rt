// The command `issue`: an id whose grades are taken from now on.
ghost use Rattle.std.specs.Prelude.{◌≡◌, IfOk};
ghost use Rattle.lti_words.specs.Command.{IsKey};
ghost use Rattle.lti_words.specs.CommandView.{issue_of};
ghost use Rattle.lti_operator.specs.Issuing as spec;
ghost use Rattle.lti_operator.specs.Issuing.{IsIssued, issued_by};

use lti_desk::Office;
use lti_machine::{Action, Call, Reply};
use lti_outside::{Clock, Disk, NoMemory, Text};
use lti_words::{Issue, Status};
use std::alloc::Global;

// The operator's call that issues the id.
fn issue_call(alloc: Global, issue: &Issue<'_>, moment: u64) -> Result<Call, NoMemory>
    ensures { IfOk result (λ call. call ≡ spec.issue_call (issue_of issue.now) moment) }
{
    Ok(Call {
        caller: 0,
        moment,
        key: Text::new(alloc, issue.key)?,
        timestamp: 0,
        nonce: Text::empty(alloc),
        action: Action::Issue {
            id: Text::new(alloc, issue.id)?,
        },
    })
}

// How the command ends, by the office's reply.
fn issued(reply: &Reply) -> Status
    ensures { result ≡ issued_by reply.now }
{
    match reply {
        Reply::Issued => Status::Done,
        Reply::AlreadyIssued => Status::AlreadyIssued,
        Reply::JournalFull { .. } => Status::JournalFull,
        Reply::DiskFault { .. } => Status::DiskFault,
        _ => Status::NoMemory,
    }
}

/// Has the office issue an id at a moment of the clock: it takes grades of the id from now on (`sourcedId`, LTI 1.1.1, section
/// 6).
pub fn issue_id<D: Disk, C: Clock>(
    alloc: Global,
    issue: &Issue<'_>,
    office: &mut Office<D>,
    clock: &C,
) -> Status
    requires { IsKey issue.now.key.now }
    ensures { IsIssued ⟦<D as Disk>⟧ (issue_of issue.now) (C.tells clock.now) office.old office.new result }
{
    let Ok(call) = issue_call(alloc, issue, clock.now()) else {
        return Status::NoMemory;
    };
    issued(&office.answer(call))
}
