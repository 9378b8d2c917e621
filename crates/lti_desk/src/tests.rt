//! Offices over disks in memory: what the next mounting finds, a full journal, a fault at each call of a commit, and
//! what a crash leaves.
use super::*;
use gate_journal::{Journal, MountFault, frame};
use lti_machine::{Action, Call, Reply, Standing};
use lti_outside::{Bytes, Limits, MemoryDisk, Text};
use score_decimal::Score;
use std::alloc::Global;
use std::process::Abort;
use std::test::Fail;

// A disk of zero bytes whose calls of these numbers fail.
fn zeros(alloc: Global, size: usize, failing: &[u64]) -> Result<MemoryDisk, Fail> {
    let bytes = Bytes::from_vec(vec![in alloc; 0u8; size]?);
    Ok(MemoryDisk::new(alloc, bytes, failing.to_vec(alloc)?))
}

// Halves of so many bytes, and so many calls.
fn limits(half: u64, calls: u32) -> Limits {
    Limits {
        half,
        calls,
        ..Limits::usual()
    }
}

fn mounted(
    rt: &impl Abort,
    alloc: Global,
    disk: MemoryDisk,
    limits: &Limits,
) -> Result<Office<MemoryDisk>, Fail> {
    assert!(rt; limits.sound());
    match Office::mount(alloc, disk, limits) {
        Ok(office) => Ok(office),
        Err(_) => Err("not mounted".into()),
    }
}

fn signed(alloc: Global, nonce: &str, action: Action) -> Result<Call, Fail> {
    Ok(Call {
        caller: 0,
        moment: 1_400_000_000,
        key: Text::new(alloc, "12345")?,
        timestamp: 1_400_000_000,
        nonce: Text::new(alloc, nonce)?,
        action,
    })
}

// The call that issues an id.
fn issue_of(alloc: Global, id: &str) -> Result<Call, Fail> {
    Ok(Call {
        timestamp: 0,
        ..signed(
            alloc,
            "",
            Action::Issue {
                id: Text::new(alloc, id)?,
            },
        )?
    })
}

fn issue(alloc: Global) -> Result<Call, Fail> {
    issue_of(alloc, "3124567")
}

// The call that gives the id 3124567 a score.
fn score(alloc: Global, nonce: &str, score: &str) -> Result<Call, Fail> {
    signed(
        alloc,
        nonce,
        Action::Replace {
            id: Text::new(alloc, "3124567")?,
            score: Score::read(score),
        },
    )
}

fn grade(alloc: Global, nonce: &str) -> Result<Call, Fail> {
    score(alloc, nonce, "0.92")
}

fn launch(alloc: Global, nonce: &str) -> Result<Call, Fail> {
    signed(
        alloc,
        nonce,
        Action::Launch {
            link: Text::new(alloc, "1")?,
            user: Text::new(alloc, "2")?,
            sourced_id: Text::new(alloc, "3124567")?,
            service: Text::new(alloc, "https://lms.example/lti/outcomes")?,
        },
    )
}

// Whether the office gives the call this reply.
fn replies(rt: &impl Abort, office: &mut Office<MemoryDisk>, call: Call, want: Reply) -> bool {
    assert!(rt; call.sound());
    office.answer(call) == want
}

// Whether an id is issued and graded, and a launch accepted.
fn fills(rt: &impl Abort, alloc: Global, office: &mut Office<MemoryDisk>) -> Result<bool, Fail> {
    let is_issued = replies(rt, office, issue(alloc)?, Reply::Issued);
    let is_graded = replies(rt, office, grade(alloc, "n1")?, Reply::Graded);
    let is_launched = replies(rt, office, launch(alloc, "n2")?, Reply::Launched);
    let is_counted = office.calls() == 3 && office.accepted() == 3;
    Ok(is_issued && is_graded && is_launched && is_counted)
}

// A disk on which an id was issued and graded, and a launch accepted.
fn filled(rt: &impl Abort, alloc: Global) -> Result<MemoryDisk, Fail> {
    let mut office = mounted(rt, alloc, zeros(alloc, 2_000, &[])?, &limits(1_000, 10))?;
    let is_filled = fills(rt, alloc, &mut office)?;
    assert!(rt; is_filled);
    Ok(office.close())
}

// Whether the nonces are used, the id is issued and its grade is told.
fn remembers(
    rt: &impl Abort,
    alloc: Global,
    office: &mut Office<MemoryDisk>,
) -> Result<bool, Fail> {
    let read = Action::Read {
        id: Text::new(alloc, "3124567")?,
    };
    let told = Reply::GradeRead {
        score: Score::read("0.92"),
    };
    let is_graded = replies(rt, office, grade(alloc, "n1")?, Reply::Used);
    let is_launched = replies(rt, office, launch(alloc, "n2")?, Reply::Used);
    let is_issued = replies(rt, office, issue(alloc)?, Reply::AlreadyIssued);
    let is_told = replies(rt, office, signed(alloc, "n3", read)?, told);
    let is_counted = office.calls() == 4 && office.accepted() == 1;
    Ok(is_graded && is_launched && is_issued && is_told && is_counted)
}

// Whether the grade of the launch goes to its service.
fn is_placed(office: &Office<MemoryDisk>) -> bool {
    match office.book().placement("12345", "1", "2") {
        Some(placement) => placement.service == "https://lms.example/lti/outcomes",
        None => false,
    }
}

#[test]
fn what_was_accepted_is_found_by_the_next_mounting(rt: HostRuntime) -> Result<(), Fail> {
    let alloc = rt.alloc();
    let mut office = mounted(&rt, alloc, filled(&rt, alloc)?, &limits(1_000, 10))?;
    let remembers = remembers(&rt, alloc, &mut office)?;
    assert!(rt; remembers && is_placed(&office));
    Ok(())
}

// Whether five ids have room, and the sixth has not.
fn is_tight(rt: &impl Abort, alloc: Global, office: &mut Office<MemoryDisk>) -> Result<bool, Fail> {
    let mut are_issued = true;
    for id in ["3124567", "3124568", "3124569", "3124570", "3124571"] {
        are_issued = are_issued && replies(rt, office, issue_of(alloc, id)?, Reply::Issued);
    }
    let sixth = issue_of(alloc, "3124572")?;
    let is_full = replies(rt, office, sixth, Reply::JournalFull { free: 6 });
    Ok(are_issued && is_full && office.calls() == 6 && office.accepted() == 5)
}

#[test]
fn an_entry_that_finds_no_room_is_refused(rt: HostRuntime) -> Result<(), Fail> {
    let alloc = rt.alloc();
    let mut office = mounted(&rt, alloc, zeros(alloc, 512, &[])?, &limits(256, 10))?;
    let is_tight = is_tight(&rt, alloc, &mut office)?;
    assert!(rt; is_tight);
    Ok(())
}

// Whether a grade is accepted, and a launch 5,401 seconds later.
fn ages(rt: &impl Abort, alloc: Global, office: &mut Office<MemoryDisk>) -> Result<bool, Fail> {
    let late = Call {
        moment: 1_400_005_401,
        timestamp: 1_400_005_401,
        ..launch(alloc, "n2")?
    };
    let is_issued = replies(rt, office, issue(alloc)?, Reply::Issued);
    let is_graded = replies(rt, office, grade(alloc, "n1")?, Reply::Graded);
    let is_launched = replies(rt, office, late, Reply::Launched);
    Ok(is_issued && is_graded && is_launched)
}

// A disk on which they are.
fn aged(rt: &impl Abort, alloc: Global) -> Result<MemoryDisk, Fail> {
    let mut office = mounted(rt, alloc, zeros(alloc, 2_000, &[])?, &limits(1_000, 10))?;
    let ages = ages(rt, alloc, &mut office)?;
    assert!(rt; ages);
    Ok(office.close())
}

// Whether the grade is outside at the moment of the launch.
fn is_outside(
    rt: &impl Abort,
    alloc: Global,
    office: &mut Office<MemoryDisk>,
) -> Result<bool, Fail> {
    let outside = Reply::Outside { now: 1_400_005_401 };
    Ok(replies(rt, office, grade(alloc, "n1")?, outside))
}

#[test]
fn a_clock_that_goes_back_brings_no_nonce_back(rt: HostRuntime) -> Result<(), Fail> {
    let alloc = rt.alloc();
    let mut office = mounted(&rt, alloc, aged(&rt, alloc)?, &limits(1_000, 10))?;
    let is_outside = is_outside(&rt, alloc, &mut office)?;
    assert!(rt; is_outside);
    Ok(())
}

// Whether the third call finds that the run is full.
fn ends(rt: &impl Abort, alloc: Global, office: &mut Office<MemoryDisk>) -> Result<bool, Fail> {
    let is_issued = replies(rt, office, issue(alloc)?, Reply::Issued);
    let is_refused = replies(rt, office, issue(alloc)?, Reply::AlreadyIssued);
    let is_full = replies(rt, office, grade(alloc, "n1")?, Reply::RunFull);
    Ok(is_issued && is_refused && is_full && office.calls() == 2)
}

#[test]
fn a_run_answers_so_many_calls(rt: HostRuntime) -> Result<(), Fail> {
    let alloc = rt.alloc();
    let mut office = mounted(&rt, alloc, zeros(alloc, 2_000, &[])?, &limits(1_000, 2))?;
    let ends = ends(&rt, alloc, &mut office)?;
    assert!(rt; ends);
    Ok(())
}

// How many calls of the disk a mounting of zero bytes makes.
fn mounting_calls(rt: &impl Abort, alloc: Global) -> Result<u64, Fail> {
    let office = mounted(rt, alloc, zeros(alloc, 2_000, &[])?, &limits(1_000, 10))?;
    Ok(office.close().calls().len() as u64)
}

// Whether a fault is told and leaves this doubt, and the same call is accepted then.
fn recovers(
    rt: &impl Abort,
    alloc: Global,
    office: &mut Office<MemoryDisk>,
    is_doubtful: bool,
) -> Result<bool, Fail> {
    let has_failed = replies(rt, office, issue(alloc)?, Reply::DiskFault { faults: 1 });
    let is_as_told = office.doubtful() == is_doubtful && office.book().rows() == 0;
    let is_issued = replies(rt, office, issue(alloc)?, Reply::Issued);
    Ok(has_failed && is_as_told && is_issued && !office.doubtful())
}

// Whether an office does so where the call of the disk with this number, counted from the mounting's last, fails.
fn recovers_at(rt: &impl Abort, alloc: Global, call: u64, is_doubtful: bool) -> Result<bool, Fail> {
    let failing = mounting_calls(rt, alloc)?.saturating_add(call);
    let disk = zeros(alloc, 2_000, &[failing])?;
    let mut office = mounted(rt, alloc, disk, &limits(1_000, 10))?;
    recovers(rt, alloc, &mut office, is_doubtful)
}

#[test]
fn a_fault_before_the_gate_is_opened_leaves_no_doubt(rt: HostRuntime) -> Result<(), Fail> {
    let alloc = rt.alloc();
    assert!(rt; recovers_at(&rt, alloc, 0, false)?);
    assert!(rt; recovers_at(&rt, alloc, 1, false)?);
    Ok(())
}

#[test]
fn a_fault_while_the_gate_is_opened_is_in_doubt_until_it_is_repaired(
    rt: HostRuntime,
) -> Result<(), Fail> {
    let alloc = rt.alloc();
    assert!(rt; recovers_at(&rt, alloc, 2, true)?);
    assert!(rt; recovers_at(&rt, alloc, 3, true)?);
    Ok(())
}

// A disk as it was synced with a grade of 0.92, whose calls from this one on fail.
fn graded(rt: &impl Abort, alloc: Global, stop: u64) -> Result<MemoryDisk, Fail> {
    let mut disk = filled(rt, alloc)?.image(0)?;
    disk.stop_at(stop);
    Ok(disk)
}

// How many calls a mounting of such a disk makes.
fn graded_calls(rt: &impl Abort, alloc: Global) -> Result<u64, Fail> {
    let office = mounted(rt, alloc, graded(rt, alloc, u64::MAX)?, &limits(1_000, 10))?;
    Ok(office.close().calls().len() as u64)
}

// Whether the call that makes the grade 0.5 gets this reply.
fn regrades(
    rt: &impl Abort,
    alloc: Global,
    office: &mut Office<MemoryDisk>,
    want: Reply,
) -> Result<bool, Fail> {
    Ok(replies(rt, office, score(alloc, "n3", "0.5")?, want))
}

// The disk after that call got this reply, where the disk's calls from this one on fail, counted from the mounting's
// last.
fn stopped(rt: &impl Abort, alloc: Global, call: u64, want: Reply) -> Result<MemoryDisk, Fail> {
    let stop = graded_calls(rt, alloc)?.saturating_add(call);
    let mut office = mounted(rt, alloc, graded(rt, alloc, stop)?, &limits(1_000, 10))?;
    let is_as_told = regrades(rt, alloc, &mut office, want)?;
    assert!(rt; is_as_told);
    Ok(office.close())
}

// The grade that a mounting of an image of the disk finds.
fn grade_of(
    rt: &impl Abort,
    alloc: Global,
    disk: &MemoryDisk,
    pick: u64,
) -> Result<Standing, Fail> {
    let office = mounted(rt, alloc, disk.image(pick)?, &limits(1_000, 10))?;
    Ok(office.book().grade("12345", "3124567"))
}

// How many of 64 images have the grade of before, and how many have the one of after.
fn grades(rt: &impl Abort, alloc: Global, disk: &MemoryDisk) -> Result<(u32, u32), Fail> {
    let mut before: u32 = 0;
    let mut after: u32 = 0;
    for pick in 0..64 {
        let standing = grade_of(rt, alloc, disk, pick)?;
        before = before.saturating_add(u32::from(standing == scored("0.92")));
        after = after.saturating_add(u32::from(standing == scored("0.5")));
    }
    Ok((before, after))
}

fn scored(text: &str) -> Standing {
    match Score::read(text) {
        Some(score) => Standing::Scored(score),
        None => Standing::Empty,
    }
}

#[test]
fn a_commit_that_stops_leaves_the_grade_of_before_or_after(rt: HostRuntime) -> Result<(), Fail> {
    let alloc = rt.alloc();
    let fault = Reply::DiskFault { faults: 1 };
    let rows = [
        (0, fault, true, false),
        (1, fault, true, false),
        (2, fault, true, true),
        (3, fault, true, true),
        (4, Reply::Graded, false, true),
    ];
    for (call, reply, has_before, has_after) in rows {
        let disk = stopped(&rt, alloc, call, reply)?;
        let (before, after) = grades(&rt, alloc, &disk)?;
        assert!(rt; before.saturating_add(after) == 64);
        assert!(rt; (before > 0) == has_before && (after > 0) == has_after);
    }
    Ok(())
}

// Whether the payload is committed.
fn commits(alloc: Global, journal: &mut Journal<MemoryDisk>, payload: &[u8]) -> Result<bool, Fail> {
    if journal.doubtful() || payload.is_empty() || payload.len() > 1000 {
        return Ok(false);
    }
    let framed = frame(alloc, payload)?;
    Ok(journal.commit(&framed).is_ok())
}

// A disk whose journal has one piece with this payload.
fn with_payload(rt: &impl Abort, alloc: Global, payload: &[u8]) -> Result<MemoryDisk, Fail> {
    let Ok((mut journal, _)) = Journal::mount(alloc, zeros(alloc, 2_000, &[])?, 1_000) else {
        return Err("not mounted".into());
    };
    let is_kept = commits(alloc, &mut journal, payload)?;
    assert!(rt; is_kept);
    Ok(journal.close())
}

// Why a disk isn't mounted.
fn fault_of(rt: &impl Abort, alloc: Global, disk: MemoryDisk) -> Option<MountFault> {
    let limits = limits(1_000, 10);
    assert!(rt; limits.sound());
    match Office::mount(alloc, disk, &limits) {
        Ok(_) => None,
        Err(unmounted) => Some(unmounted.fault),
    }
}

#[test]
fn a_payload_that_is_no_entry_is_damaged(rt: HostRuntime) -> Result<(), Fail> {
    let alloc = rt.alloc();
    let disk = with_payload(&rt, alloc, b"no entry")?;
    assert_eq!(rt;
        fault_of(&rt, alloc, disk),
        Some(MountFault::Damaged { at: 9 })
    );
    Ok(())
}

#[test]
fn a_disk_below_two_halves_is_too_small(rt: HostRuntime) -> Result<(), Fail> {
    let alloc = rt.alloc();
    for size in [0, 1_999] {
        let disk = zeros(alloc, size, &[])?;
        let too_small = MountFault::TooSmall { size: size as u64 };
        assert_eq!(rt; fault_of(&rt, alloc, disk), Some(too_small));
    }
    Ok(())
}

#[test]
fn a_disk_of_zero_bytes_is_empty(rt: HostRuntime) -> Result<(), Fail> {
    let alloc = rt.alloc();
    let office = mounted(&rt, alloc, zeros(alloc, 2_000, &[])?, &limits(1_000, 10))?;
    assert!(rt; office.calls() == 0 && office.accepted() == 0 && !office.doubtful());
    assert_eq!(rt; office.book().rows(), 0);
    Ok(())
}
