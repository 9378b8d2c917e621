// The verdict of one line.
ghost use Rattle.std.specs.Prelude.{◌≡◌, ◌++◌, OnOk, OnErr, string_bytes};
ghost use Rattle.lti_check.specs.Verdicts.{verdict_line, reply_line};

use lti_machine::Reply;
use lti_outside::NoMemory;
use std::alloc::Global;

/// What is said of a line.
#[derive(Clone, Copy, Debug, PartialEq, Eq)]
pub enum Verdict {
    /// A fault of status 400: the form isn't one of a signed request.
    BadForm,
    /// A fault of status 401: another key, or another signature than the form's.
    BadSignature,
    /// The form is well signed, and the machine answered so.
    Replied(Reply),
}

// Appends what is written for an answer of the machine.
fn push_reply(out: &mut String, alloc: Global, reply: &Reply) -> Result<(), NoMemory>
    ensures ok { OnOk result (string_bytes out.new ≡ string_bytes out.old ++ reply_line reply.now) }
    ensures err { OnErr result (string_bytes out.new ≡ string_bytes out.old) }
{
    match reply {
        Reply::Outside { now } => out.push_str(format!(in alloc; "outside {now}\n")?.as_str())?,
        Reply::Used => out.push_str("used\n")?,
        Reply::WindowFull { .. } => out.push_str("window full\n")?,
        Reply::JournalFull { .. } | Reply::DiskFault { .. } | Reply::RunFull | Reply::NoMemory =>
            return Err(NoMemory),
        _ => out.push_str("accepted\n")?,
    }
    Ok(())
}

/// Appends the line that is written for a verdict. On `NoMemory` nothing was appended.
pub fn push_verdict(out: &mut String, alloc: Global, verdict: &Verdict) -> Result<(), NoMemory>
    ensures ok { OnOk result (string_bytes out.new ≡ string_bytes out.old ++ verdict_line verdict.now) }
    ensures err { OnErr result (string_bytes out.new ≡ string_bytes out.old) }
{
    match verdict {
        Verdict::BadForm => out.push_str("bad form\n")?,
        Verdict::BadSignature => out.push_str("bad signature\n")?,
        Verdict::Replied(reply) => push_reply(out, alloc, reply)?,
    }
    Ok(())
}
