// The commands on grades, from the settings and the journal to their end.
ghost use Rattle.std.specs.Prelude.{◌≡◌, ◌≤◌, ℕ, List, Option};
ghost use Rattle.lti_outside.specs.Traffic.{Traffic};
ghost use Rattle.lti_outside.specs.Limits.{IsSound};
ghost use Rattle.lti_words.specs.Command.{IsKey, IsName};
ghost use Rattle.lti_words.specs.Command.CommandValue.{issue as issue_command, launch as launch_command, passback as passback_command, grades as grades_command};
ghost use Rattle.lti_words.specs.CommandView.{issue_of, launch_of, passback_of, grades_of};
ghost use Rattle.lti_operator.specs.Ladder.{Ladder};
ghost use Rattle.lti_operator.specs.Own.{OwnIssue, OwnLaunch, OwnPassback, OwnGrades, report_status};

use crate::issuing::issue_id;
use crate::launching::write_launch;
use crate::opening::{open, open_journal};
use crate::passing::send_score;
use crate::reports::{ReportFault, report};
use crate::scales::Scales;
use lti_outside::{Clock, Disk, Limits, Link, Random, Source};
use lti_words::{Grades, Issue, LaunchForm, Passback, Status};
use std::alloc::Global;

/// Does what `issue` is asked: takes grades of an id from now on, under a key of the settings (`sourcedId`, LTI 1.1.1, section
/// 6), and keeps that in the journal of the disk, which it hands back.
pub fn issue<S: Source, D: Disk, C: Clock>(
    alloc: Global,
    asked: &Issue<'_>,
    settings: &mut S,
    disk: D,
    clock: &C,
    limits: &Limits,
) -> (Status, D)
    requires sound { IsSound limits.now }
    requires key { IsKey asked.now.key.now }
    ensures { (link : Traffic) (random : Option (List ℕ)) → Ladder ⟦<D as Disk>⟧ limits.now (issue_command (issue_of asked.now))
        (record { before = record { source = S.traffic settings.old; link = link; random = random; disk = disk }; after = record { source = S.traffic settings.new; link = link; random = random; disk = result.1 } })
        (λ p read secret office status. OwnIssue ⟦<D as Disk>⟧ (C.tells clock.now) (issue_of asked.now) p office status) result.0 }
{
    let (read, mut office) = match open(alloc, settings, disk, limits) {
        Err(unopened) => return unopened,
        Ok(opened) => opened,
    };
    let Some(_secret) = read.keys.secret(asked.key) else {
        return (Status::UnknownKey, office.close());
    };
    let status = issue_id(alloc, asked, &mut office, clock);
    (status, office.close())
}

/// Does what `launch` is asked: writes a launch as a signed form (LTI 1.1.1, section 3), and LF, for an id that is issued under
/// a key of the settings. It hands the disk back.
pub fn launch<S: Source, I: Link, D: Disk, C: Clock, R: Random>(
    alloc: Global,
    asked: &LaunchForm<'_>,
    settings: &mut S,
    ends: &mut I,
    disk: D,
    clock: &C,
    random: &mut R,
    limits: &Limits,
) -> (Status, D)
    requires sound { IsSound limits.now }
    requires key { IsKey asked.now.key.now }
    requires link { IsName asked.now.link.now }
    ensures { Ladder ⟦<D as Disk>⟧ limits.now (launch_command (launch_of asked.now))
        (record { before = record { source = S.traffic settings.old; link = I.traffic ends.old; random = R.tells random.old; disk = disk }; after = record { source = S.traffic settings.new; link = I.traffic ends.new; random = R.tells random.new; disk = result.1 } })
        (λ p read secret office status. OwnLaunch (C.tells clock.now) (launch_of asked.now) secret p office status) result.0 }
{
    let (read, office) = match open(alloc, settings, disk, limits) {
        Err(unopened) => return unopened,
        Ok(opened) => opened,
    };
    let Some(secret) = read.keys.secret(asked.key) else {
        return (Status::UnknownKey, office.close());
    };
    let status = write_launch(alloc, asked, secret, office.book(), ends, clock, random);
    (status, office.close())
}

/// Does what `passback` is asked: sends a score back to where the last launch of the user from the link says (LTI 1.1.1,
/// section 6), signed under a key of the settings. It hands the disk back.
pub fn passback<S: Source, I: Link, D: Disk, C: Clock, R: Random>(
    alloc: Global,
    asked: &Passback<'_>,
    settings: &mut S,
    ends: &mut I,
    disk: D,
    clock: &C,
    random: &mut R,
    limits: &Limits,
) -> (Status, D)
    requires sound { IsSound limits.now }
    requires key { IsKey asked.now.key.now }
    ensures { Ladder ⟦<D as Disk>⟧ limits.now (passback_command (passback_of asked.now))
        (record { before = record { source = S.traffic settings.old; link = I.traffic ends.old; random = R.tells random.old; disk = disk }; after = record { source = S.traffic settings.new; link = I.traffic ends.new; random = R.tells random.new; disk = result.1 } })
        (λ p read secret office status. OwnPassback limits.now (C.tells clock.now) (passback_of asked.now) secret p office status) result.0 }
{
    let (read, office) = match open(alloc, settings, disk, limits) {
        Err(unopened) => return unopened,
        Ok(opened) => opened,
    };
    let Some(secret) = read.keys.secret(asked.key) else {
        return (Status::UnknownKey, office.close());
    };
    let status = send_score(
        alloc,
        asked,
        secret,
        office.book(),
        ends,
        clock,
        random,
        limits,
    );
    (status, office.close())
}

// How a run ends whose report ended so.
fn status_of(ended: Result<(), ReportFault>) -> Status
    ensures { result ≡ report_status ended }
{
    match ended {
        Ok(()) => Status::Done,
        Err(ReportFault::WriteFault) => Status::WriteFault,
        Err(ReportFault::NoMemory) => Status::NoMemory,
    }
}

/// Does what `grades` is asked: writes the report of all grades in the journal of the disk, by the scale of its word. It hands
/// the disk back.
pub fn grades<I: Link, D: Disk>(
    alloc: Global,
    asked: &Grades,
    ends: &mut I,
    disk: D,
    scales: &Scales,
    limits: &Limits,
) -> (Status, D)
    requires sound { IsSound limits.now }
    requires least { 1 ≤ asked.now.most }
    requires greatest { asked.now.most ≤ 1000000 }
    ensures { (source : Traffic) (random : Option (List ℕ)) → Ladder ⟦<D as Disk>⟧ limits.now (grades_command (grades_of asked.now))
        (record { before = record { source = source; link = I.traffic ends.old; random = random; disk = disk }; after = record { source = source; link = I.traffic ends.new; random = random; disk = result.1 } })
        (λ p read secret office status. OwnGrades (grades_of asked.now) p office status) result.0 }
{
    let office = match open_journal(alloc, disk, limits) {
        Err(unmounted) => return unmounted,
        Ok(office) => office,
    };
    let ended = report(
        alloc,
        office.book(),
        scales.of(asked.rounding),
        asked.most,
        ends,
    );
    (status_of(ended), office.close())
}
