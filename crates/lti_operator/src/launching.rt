// The command `launch`: a launch as a signed form.
ghost use Rattle.std.specs.Prelude.{List, IfOk};
ghost use Rattle.lti_machine.specs.declared.entry.Entry.{Entry};
ghost use Rattle.gradebook.specs.Book.{Holds};
ghost use Rattle.lti_words.specs.CommandView.{launch_of};
ghost use Rattle.lti_words.specs.Command.{IsKey, IsName};
ghost use Rattle.lti_operator.specs.Launching.{IsFormOf, IsLaunched};

use crate::making::{made_moment, made_nonce};
use gradebook::{Gradebook, Standing};
use lti_consumer::{Terms, launch_form};
use lti_outside::{Bytes, Clock, Link, NoMemory, Random, Text, give_all};
use lti_words::{LaunchForm, Status};
use oauth_text::form_text;
use std::alloc::Global;

// The launch as a signed form, and LF.
fn form_of<C: Clock, R: Random>(
    alloc: Global,
    launch: &LaunchForm<'_>,
    secret: &str,
    clock: &C,
    random: &mut R,
) -> Result<Bytes, NoMemory>
    requires key { IsKey launch.now.key.now }
    requires link { IsName launch.now.link.now }
    ensures { IfOk result (λ text. IsFormOf (launch_of launch.now) secret.now (C.tells clock.now) (R.tells random.old) (R.tells random.new) text.list) }
{
    let terms = Terms {
        link: Text::new(alloc, launch.link)?,
        user: Text::new(alloc, launch.user)?,
        sourced_id: Text::new(alloc, launch.id)?,
        service: Text::new(alloc, launch.service)?,
    };
    let nonce = made_nonce(alloc, random)?;
    let moment = made_moment(clock);
    let signed = launch_form(
        alloc,
        &launch.url,
        &terms,
        launch.key,
        secret,
        moment,
        nonce.as_str(),
    )?;
    let mut text = form_text(alloc, &signed)?;
    text.push(b"\n")?;
    Ok(text)
}

/// Writes a launch as a signed form (LTI 1.1.1, section 3), and LF, for a sourcedId that is issued under the key. The form
/// has a nonce of two random words and the clock's moment. Whoever posts it to the command's URL starts the tool.
pub fn write_launch<I: Link, C: Clock, R: Random>(
    alloc: Global,
    launch: &LaunchForm<'_>,
    secret: &str,
    book: &Gradebook,
    ends: &mut I,
    clock: &C,
    random: &mut R,
) -> Status
    requires key { IsKey launch.now.key.now }
    requires link { IsName launch.now.link.now }
    ensures { (entries : List Entry) → Holds book.now entries → IsLaunched (launch_of launch.now) secret.now entries (C.tells clock.now)
        (R.tells random.old) (R.tells random.new) (I.traffic ends.old) (I.traffic ends.new) result }
{
    if let Standing::Unknown = book.grade(launch.key, launch.id) {
        return Status::NotIssued;
    }
    let Ok(text) = form_of(alloc, launch, secret, clock, random) else {
        return Status::NoMemory;
    };
    match give_all(ends, text.get()) {
        Ok(()) => Status::Done,
        Err(_) => Status::WriteFault,
    }
}
