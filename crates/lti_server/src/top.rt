// The top call.
ghost use Rattle.std.specs.Prelude.{◌≡◌, ◌⊎◌, ◌<◌, ◌*◌, ℕ, length, true};
ghost use Rattle.lti_outside.specs.Faults.{Rose};
ghost use Rattle.lti_outside.specs.Limits.{IsSound};
ghost use Rattle.gate_journal.specs.Half.{IsDamagedAt};
ghost use Rattle.lti_desk.specs.Reading.{IsUnreadAt};
ghost use Rattle.lti_words.specs.Command.{CommandValue, IsCommand, IsUsage, UsesNoSettings, UsesNoJournal, SignsNothing, texts};
ghost use Rattle.lti_words.specs.Status.{number_of, IsNumber};
ghost use Rattle.lti_words.specs.declared.status.Status.{Status};
ghost use Rattle.lti_server.specs.Doing.{Does, Ran, Survives, is_early};

use crate::serving::answer;
use lti_check::check;
use lti_desk::a_run_serves;
use lti_operator::{Scales, grades, issue, launch, passback};
use lti_outside::{Clock, Disk, Limits, Link, Random, Source};
use lti_words::{Command, Status, read_command};
use std::alloc::Global;

// Does what the words ask, and answers how the run ends, with the disk.
fn perform<S: Source, I: Link, D: Disk, C: Clock, R: Random>(
    alloc: Global,
    words: &[String],
    settings: &mut S,
    ends: &mut I,
    disk: D,
    clock: &C,
    random: &mut R,
    scales: &Scales,
    limits: &Limits,
) -> (Status, D)
    requires { IsSound limits.now }
    ensures ran { Ran ⟦<D as Disk>⟧ (texts words.now) limits.now (C.tells clock.now)
        (record { before = record { source = S.traffic settings.old; link = I.traffic ends.old; random = R.tells random.old; disk = disk }; after = record { source = S.traffic settings.new; link = I.traffic ends.new; random = R.tells random.new; disk = result.1 } }) result.0 }
    ensures random { SignsNothing (texts words.now) → random.new ≡ random.old }
{
    match read_command(alloc, words) {
        Err(_) => (Status::NoMemory, disk),
        Ok(None) => (Status::Usage, disk),
        Ok(Some(Command::Check(asked))) => (check(alloc, &asked, ends, limits), disk),
        Ok(Some(Command::Answer)) => answer(alloc, settings, ends, disk, clock, limits),
        Ok(Some(Command::Issue(asked))) => issue(alloc, &asked, settings, disk, clock, limits),
        Ok(Some(Command::Launch(asked))) => {
            launch(alloc, &asked, settings, ends, disk, clock, random, limits)
        }
        Ok(Some(Command::Passback(asked))) => {
            passback(alloc, &asked, settings, ends, disk, clock, random, limits)
        }
        Ok(Some(Command::Grades(asked))) => grades(alloc, &asked, ends, disk, scales, limits),
    }
}

/// Does what the words ask, over the link and the disk, and answers the number of `Status`, by which the run ends, with the
/// disk. `check` and `grades` read no settings; `check` alone needs no journal, and leaves the disk; `launch` and `passback`
/// alone draw random words; `grades` alone asks a scale.
///
/// - 0: the work was done: `check` read its input to the end; the connection of `answer` has ended, or reached the limit of
///   its requests; the id is issued; the form or the report is written; the grade that was sent back is taken.
/// - 2: the words are no command. Nothing was read or written.
/// - 3: the settings are over 1,048,576 bytes, or have no reading.
/// - 4, 5: a read of the link or of the settings, or a write of the link, failed in this call.
/// - 6: a call of the disk failed, while the journal was mounted or in `issue`. A call of the disk that fails for a request of
///   `answer` is that request's answer, and changes no status.
/// - 7: the journal is damaged, and was left as it was.
/// - 8: memory ran out.
/// - 9: the input of `answer` ended inside a message, or what came back to `passback` before it was whole.
/// - 10: the journal has no room for the id of `issue`.
/// - 11: the id of `issue` was issued before.
/// - 13: the disk is below two halves of `limits.half` bytes.
/// - 14: `check` met a line of more than `limits.body` bytes, or a byte after `limits.calls` lines; `answer` met bytes that
///   spell no request, and has answered so; or what came back to `passback` has no reading.
/// - 15: what came back to `passback` says that the grade wasn't taken.
/// - 16: no launch of the user from the link says where the grade of `passback` goes, or what it says is no URL or no text
///   of XML.
/// - 17: the key isn't in the settings.
/// - 18: the id of `launch` isn't issued under the key.
///
/// A run goes up one ladder: its words, its settings, its journal, its key, and then what is the command's own. With 2, 3, 6,
/// 7, 13 and 17 nothing of the link was read or written. Of `check`, the bytes written are at every status a front of the
/// verdict lines of the lines read whole; with 14 all verdicts before the refused line were written. What was accepted in
/// earlier runs over the disk counts in this one, but for `check`, which begins with no accepted call.
pub fn run<S: Source, I: Link, D: Disk, C: Clock, R: Random>(
    alloc: Global,
    words: &[String],
    settings: &mut S,
    ends: &mut I,
    disk: D,
    clock: &C,
    random: &mut R,
    scales: &Scales,
    limits: &Limits,
) -> (u8, D)
    requires { IsSound limits.now }

    // 2 exactly where the words are no command, unless memory ran out. Then the link is as before.
    ensures usage { result.0 ≡ 2 → IsUsage (texts words.now) }
    ensures no_command { IsUsage (texts words.now) → (result.0 ≡ 2) ⊎ (result.0 ≡ 8) }
    ensures untouched { IsUsage (texts words.now) → (I.traffic ends.new ≡ I.traffic ends.old) }
    ensures settings { UsesNoSettings (texts words.now) → (S.traffic settings.new ≡ S.traffic settings.old) }
    ensures journal { UsesNoJournal (texts words.now) → result.1 ≡ disk }
    ensures random { SignsNothing (texts words.now) → random.new ≡ random.old }

    // With these nothing of the link was read or written.
    ensures early { is_early result.0 ≡ true → I.traffic ends.new ≡ I.traffic ends.old }

    // Each status has its word.
    ensures known { IsNumber result.0 }

    // A fault is told only where it was counted in this call.
    ensures read { result.0 ≡ 4 → Rose (S.traffic settings.old).read_faults (S.traffic settings.new).read_faults
        ⊎ Rose (I.traffic ends.old).read_faults (I.traffic ends.new).read_faults }
    ensures write { result.0 ≡ 5 → Rose (I.traffic ends.old).write_faults (I.traffic ends.new).write_faults }
    ensures disk_fault { result.0 ≡ 6 → Rose (D.faults disk) (D.faults result.1) }

    // 7 only where the journal is damaged, and 13 only where the disk is too small for one.
    ensures damaged { D.tells → result.0 ≡ 7 → (at : ℕ) × (IsDamagedAt (D.seen disk) limits.now.half at ⊎ IsUnreadAt (D.seen disk) limits.now.half at) }
    ensures too_small { result.0 ≡ 13 → length (D.seen disk) < 2 * limits.now.half }

    // Until the journal is mounted a crash leaves what it left before. From then on all that was asked is one legal history,
    // and a crash at each moment leaves what was accepted before that moment, and at most the entry that is in flight or in
    // doubt.
    ensures lasts { Survives ⟦<D as Disk>⟧ limits.now disk result.1 }

    // What the command did, rung by rung: which bytes were read and written, by what the status says.
    ensures done { (command : CommandValue) → IsCommand (texts words.now) command → (status : Status) × (result.0 ≡ number_of status)
        × Does ⟦<D as Disk>⟧ limits.now (C.tells clock.now) command
        (record { before = record { source = S.traffic settings.old; link = I.traffic ends.old; random = R.tells random.old; disk = disk }; after = record { source = S.traffic settings.new; link = I.traffic ends.new; random = R.tells random.new; disk = result.1 } }) status }
{
    a_run_serves::<D>();
    let (status, disk) = perform(
        alloc, words, settings, ends, disk, clock, random, scales, limits,
    );
    (status.number(), disk)
}
