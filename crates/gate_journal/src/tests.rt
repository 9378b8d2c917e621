//! Pieces and lengths by the layout's tables, and a stop or a fault at each call of the disk.
ghost use Rattle.std.specs.Prelude.{◌^◌, ◌<◌, length, IfOk};
ghost use Rattle.gate_journal.specs.Half.{IsPacked};

use super::*;
use lti_outside::{Bytes, Disk, DiskCall, FileDisk, MemoryDisk, NoMemory};
use std::alloc::Global;
use std::fs::{self, OpenOptions};
use std::test::Fail;

// Which call is tried, on a journal that has been through what comes before it.
#[derive(Clone, Copy, PartialEq, Eq, Debug)]
enum Act {
    Commit,
    Compact,
    CompactAgain,
    Adopt,
    RepairPiece,
    RepairHalf,
}

// A disk of zero bytes whose calls of these numbers fail.
fn zeros(alloc: Global, size: usize, failing: &[u64]) -> Result<MemoryDisk, Fail> {
    let bytes = Bytes::from_vec(vec![in alloc; 0u8; size]?);
    Ok(MemoryDisk::new(alloc, bytes, failing.to_vec(alloc)?))
}

fn mounted<D: Disk + Drop>(alloc: Global, disk: D) -> Result<(Journal<D>, Vec<Piece>), Fail> {
    match Journal::mount(alloc, disk, 64) {
        Ok(mounted) => Ok(mounted),
        Err(_) => Err(Fail::from("not mounted")),
    }
}

// Each payload followed by a semicolon.
fn joined(alloc: Global, pieces: &[Piece]) -> Result<Vec<u8>, Fail> {
    let mut made = Vec::new(alloc);
    for piece in pieces {
        made.extend_from_slice(piece.payload.get())?;
        made.push(b';')?;
    }
    Ok(made)
}

// Whether the payload was committed.
fn commit(alloc: Global, journal: &mut Journal<MemoryDisk>, payload: &[u8]) -> bool {
    if journal.doubtful() || payload.is_empty() || payload.len() > 1000 {
        return false;
    }
    match frame(alloc, payload) {
        Ok(framed) => journal.commit(&framed).is_ok(),
        Err(_) => false,
    }
}

// One piece, packed for a generation.
fn packed(alloc: Global, generation: u64, payload: &[u8]) -> Result<Bytes, NoMemory>
    requires { length payload.now < 2 ^ 32 }
    ensures { IfOk result (λ bytes. IsPacked generation bytes.list) }
{
    let mut piece = Bytes::new(alloc);
    piece.push(payload)?;
    let packed = pack(alloc, generation, &[piece])?;
    Ok(packed)
}

// Whether the journal was compacted to the payload.
fn compact(alloc: Global, journal: &mut Journal<MemoryDisk>, payload: &[u8]) -> bool {
    let generation = journal.generation();
    if journal.doubtful() || payload.len() > 1000 || generation > 1000 {
        return false;
    }
    match packed(alloc, generation + 1, payload) {
        Ok(packed) => journal.compact(&packed).is_ok(),
        Err(_) => false,
    }
}

// Whether the journal adopted the payload.
fn adopt(alloc: Global, journal: &mut Journal<MemoryDisk>, payload: &[u8]) -> bool {
    let generation = journal.generation();
    if journal.doubtful() || payload.len() > 1000 || generation > 1000 {
        return false;
    }
    match packed(alloc, generation + 7, payload) {
        Ok(packed) => journal.adopt(&packed).is_ok(),
        Err(_) => false,
    }
}

// A journal of one piece `old`, or one that is doubtful about `new` beside it.
fn prepared(alloc: Global, act: Act) -> Result<Journal<MemoryDisk>, Fail> {
    let failing: &[u64] = match act {
        Act::RepairPiece => &[10],
        Act::RepairHalf => &[10],
        _ => &[],
    };
    let (mut journal, pieces) = mounted(alloc, zeros(alloc, 128, failing)?)?;
    let is_old = pieces.is_empty() && commit(alloc, &mut journal, b"old");
    let is_ready = match act {
        Act::CompactAgain => {
            compact(alloc, &mut journal, b"mid") && compact(alloc, &mut journal, b"old")
        }
        Act::RepairPiece => !commit(alloc, &mut journal, b"new"),
        Act::RepairHalf => !compact(alloc, &mut journal, b"new"),
        _ => true,
    };
    if is_old && is_ready {
        Ok(journal)
    } else {
        Err(Fail::from("not prepared"))
    }
}

fn tried(alloc: Global, journal: &mut Journal<MemoryDisk>, act: Act) -> bool {
    match act {
        Act::Commit => commit(alloc, journal, b"new"),
        Act::Compact => compact(alloc, journal, b"new"),
        Act::CompactAgain => compact(alloc, journal, b"new"),
        Act::Adopt => adopt(alloc, journal, b"new"),
        Act::RepairPiece => journal.repair().is_ok(),
        Act::RepairHalf => journal.repair().is_ok(),
    }
}

// Whether some image stands for the first list and whether some stands for the second. Each must stand for
// one of them.
fn found(
    alloc: Global,
    disk: &MemoryDisk,
    first: &[u8],
    second: &[u8],
) -> Result<(bool, bool), Fail> {
    let mut is_first = false;
    let mut is_second = false;
    for pick in 0..64 {
        let (journal, pieces) = mounted(alloc, disk.image(pick)?)?;
        let read = joined(alloc, &pieces)?;
        if journal.doubtful() || journal.faults() > 0 {
            return Err(Fail::from("an image in doubt"));
        } else if read.as_slice() == first {
            is_first = true;
        } else if read.as_slice() == second {
            is_second = true;
        } else {
            return Err(Fail::from("neither list"));
        }
    }
    Ok((is_first, is_second))
}

// A call by one letter.
fn letter(call: &DiskCall) -> u8 {
    match call {
        DiskCall::Read { .. } => b'r',
        DiskCall::Write { .. } => b'w',
        DiskCall::Sync { .. } => b's',
    }
}

// The calls of the disk from a number on, by one letter each.
fn letters(alloc: Global, disk: &MemoryDisk, from: usize) -> Result<Vec<u8>, Fail> {
    let mut made = Vec::new(alloc);
    for call in disk.calls().iter().skip(from) {
        made.push(letter(call))?;
    }
    Ok(made)
}

const CASES: [(Act, &[u8], &[u8], &[u8]); 6] = [
    (Act::Commit, b"old;", b"old;new;", b"wsws"),
    (Act::Compact, b"old;", b"new;", b"wsws"),
    (Act::CompactAgain, b"old;", b"new;", b"wswsws"),
    (Act::Adopt, b"old;", b"new;", b"wsws"),
    (Act::RepairPiece, b"old;new;", b"old;", b"ws"),
    (Act::RepairHalf, b"new;", b"old;", b"ws"),
];

// What a call leaves that was stopped: whether it answered Ok, whether the journal is doubtful, which lists
// its images stand for, and its calls of the disk.
#[derive(Drop)]
struct Stopped {
    is_done: bool,
    is_doubtful: bool,
    is_before: bool,
    is_after: bool,
    calls: Vec<u8>,
}

fn stop_at_call(
    alloc: Global,
    act: Act,
    stop: u64,
    before: &[u8],
    after: &[u8],
) -> Result<Stopped, Fail> {
    let mut journal = prepared(alloc, act)?;
    let from = journal.disk.calls().len();
    journal.disk.stop_at((from as u64).saturating_add(stop));
    let is_done = tried(alloc, &mut journal, act);
    let is_doubtful = journal.doubtful();
    let disk = journal.close();
    let (is_before, is_after) = found(alloc, &disk, before, after)?;
    Ok(Stopped {
        is_done,
        is_doubtful,
        is_before,
        is_after,
        calls: letters(alloc, &disk, from)?,
    })
}

#[test]
fn a_stop_at_each_call_leaves_one_list_or_the_other(rt: HostRuntime) -> Result<(), Fail> {
    for (act, before, after, calls) in CASES {
        let count = calls.len() as u64;
        for stop in 0..7u64 {
            if stop > count {
                break;
            }
            let left = stop_at_call(rt.alloc(), act, stop, before, after)?;
            let may_be_both = stop < count && (count == 2 || stop + 2 >= count);
            assert_eq!(rt; left.is_done, stop == count, "{act:?} stopped at {stop}");
            assert_eq!(rt; left.is_doubtful, may_be_both, "{act:?} stopped at {stop}");
            assert_eq!(rt; left.is_before, stop < count, "{act:?} stopped at {stop}");
            assert_eq!(rt;
                left.is_after,
                stop == count || may_be_both,
                "{act:?} stopped at {stop}"
            );
            if left.is_done {
                assert_eq!(rt; left.calls.as_slice(), calls, "{act:?}");
            }
        }
    }
    Ok(())
}

#[test]
fn one_fault_is_mended_by_a_repair(rt: HostRuntime) -> Result<(), Fail> {
    let alloc = rt.alloc();
    for call in 4..8u64 {
        let (mut journal, _pieces) = mounted(alloc, zeros(alloc, 128, &[call])?)?;
        assert!(rt; !commit(alloc, &mut journal, b"lost"), "at {call}");
        assert_eq!(rt; journal.faults(), 1);
        assert_eq!(rt; journal.doubtful(), call >= 6);
        assert!(rt; journal.repair().is_ok() && !journal.doubtful());
        assert!(rt; commit(alloc, &mut journal, b"kept"));
        assert_eq!(rt;
            found(alloc, &journal.close(), b"kept;", b"lost;")?,
            (true, false)
        );
    }
    Ok(())
}

#[test]
fn a_mounting_writes_nothing(rt: HostRuntime) -> Result<(), Fail> {
    let alloc = rt.alloc();
    for stop in 0..8 {
        let mut disk = prepared(alloc, Act::Commit)?.close();
        let from = disk.calls().len();
        disk.stop_at((from as u64).saturating_add(stop));
        let disk = match Journal::mount(alloc, disk, 64) {
            Ok((journal, _pieces)) => {
                assert_eq!(rt; stop, 7);
                journal.close()
            }
            Err(unmounted) => {
                assert_eq!(rt; unmounted.fault, MountFault::DiskFault);
                assert_eq!(rt; unmounted.disk.faults(), 1);
                unmounted.disk
            }
        };
        assert_eq!(rt; found(alloc, &disk, b"old;", b"")?, (true, false));
        let calls = letters(alloc, &disk, from)?;
        assert!(rt;
            b"srrrrrr".starts_with(calls.as_slice()),
            "stopped at {stop}"
        );
        assert_eq!(rt; calls.len() as u64, (stop + 1).min(7));
    }
    Ok(())
}

#[test]
fn what_is_read_is_kept_by_the_mounting(rt: HostRuntime) -> Result<(), Fail> {
    let alloc = rt.alloc();
    let doubtful = prepared(alloc, Act::RepairPiece)?;
    let (journal, pieces) = mounted(alloc, doubtful.close())?;
    assert_eq!(rt; joined(alloc, &pieces)?.as_slice(), b"old;new;".as_slice());
    let disk = journal.close();
    assert_eq!(rt; found(alloc, &disk, b"old;new;", b"old;")?, (true, false));
    Ok(())
}

// An entry of a journal of acceptances: 42 bytes.
const ENTRY: &[u8] =
    b"\x01\x05\0\0\0\0\0\0\x03\xe8\0\0\0\0\0\0\0\0\0\0\0\x0512345\0\0\0\0\0\0\0\x073124567";

#[test]
fn a_half_of_256_bytes(rt: HostRuntime) -> Result<(), Fail> {
    let alloc = rt.alloc();
    let (mut journal, pieces) = match Journal::mount(alloc, zeros(alloc, 512, &[])?, 256) {
        Ok(mounted) => mounted,
        Err(_) => return Err(Fail::from("not mounted")),
    };
    assert!(rt; pieces.is_empty());
    let at_first = Position {
        half: 256,
        second: false,
        generation: 0,
        gate: 9,
    };
    assert_eq!(rt; journal.position(), at_first);
    let framed = frame(alloc, ENTRY)?;
    for free in [241, 194, 147, 100, 53] {
        assert_eq!(rt; journal.free(), free);
        assert!(rt; !journal.doubtful());
        assert!(rt; journal.commit(&framed) == Ok(()));
    }
    assert!(rt; !journal.doubtful());
    assert_eq!(rt;
        journal.position(),
        Position {
            gate: 244,
            ..at_first
        }
    );
    assert!(rt; journal.commit(&framed) == Err(CommitFault::Full { free: 6 }));
    let disk = journal.close();
    let calls = disk.calls();
    assert_eq!(rt; calls.len(), 24);
    match &calls[4] {
        DiskCall::Write { place, piece } => {
            assert_eq!(rt; *place, 10);
            assert_eq!(rt; piece.get().len(), 47);
            assert!(rt; piece.get().starts_with(b"\0\0\0\x2a\x01\x05"));
            assert!(rt; piece.get().ends_with(b"3124567\0"));
        }
        _ => return Err(Fail::from("no write")),
    }
    assert!(rt; matches!(calls[5], DiskCall::Sync { done: true }));
    assert!(rt;
        matches!(&calls[6], DiskCall::Write { place: 9, piece } if piece.get() == b"\x01".as_slice())
    );
    Ok(())
}

// What is mounted of two halves of 64 bytes that begin with these: the pieces, or the fault.
fn read_of(
    alloc: Global,
    first: &[u8],
    second: &[u8],
) -> Result<Result<Vec<u8>, MountFault>, Fail> {
    let mut bytes = vec![in alloc; 0u8; 128]?;
    if first.len() > 64 || second.len() > 64 || bytes.len() != 128 {
        return Err(Fail::from("too long"));
    }
    bytes[..first.len()].copy_from_slice(first);
    bytes[64..64 + second.len()].copy_from_slice(second);
    let disk = MemoryDisk::new(alloc, Bytes::from_vec(bytes), Vec::new(alloc));
    match Journal::mount(alloc, disk, 64) {
        Ok((_journal, pieces)) => Ok(Ok(joined(alloc, &pieces)?)),
        Err(unmounted) => Ok(Err(unmounted.fault)),
    }
}

#[test]
fn small_and_damaged_disks(rt: HostRuntime) -> Result<(), Fail> {
    let alloc = rt.alloc();
    let piece = b"\0\0\0\0\0\0\0\0\0\x01\0\0\0\x01a";
    let newer = b"\x01\0\0\0\0\0\0\0\x02\x01\0\0\0\x01b\x02";
    let older = b"\x01\0\0\0\0\0\0\0\x01\x01\0\0\0\x01c";
    let longest = b"\0\0\0\0\0\0\0\0\0\x01\0\0\0\x31";
    let too_long = b"\0\0\0\0\0\0\0\0\0\x01\0\0\0\x32";
    let much_too_long = b"\0\0\0\0\0\0\0\0\0\x01\xff\xff\xff\xff";
    let damaged = b"\x01\0\0\0\0\0\0\0\x02\x01\0\0\0\x01b\x01\0\0\0\x2c";
    let cases: [(&[u8], &[u8], Result<&[u8], u64>); 10] = [
        (b"", b"", Ok(b"")),
        (piece, b"", Ok(b"a;")),
        (piece, newer, Ok(b"b;")),
        (older, newer, Ok(b"b;")),
        (newer, older, Ok(b"b;")),
        (newer, newer, Ok(b"b;")),
        (newer, damaged, Ok(b"b;")),
        (older, damaged, Err(79)),
        (too_long, b"", Err(9)),
        (much_too_long, b"", Err(9)),
    ];
    for (first, second, want) in cases {
        match (read_of(alloc, first, second)?, want) {
            (Ok(read), Ok(want)) => assert_eq!(rt; read.as_slice(), want, "{first:?} {second:?}"),
            (Err(fault), Err(at)) => assert_eq!(rt; fault, MountFault::Damaged { at }),
            _ => return Err(Fail::from("the other answer")),
        }
    }
    match read_of(alloc, longest, b"")? {
        Ok(read) => assert_eq!(rt; read.len(), 50),
        Err(_) => return Err(Fail::from("not mounted")),
    }
    match Journal::mount(alloc, zeros(alloc, 511, &[])?, 256) {
        Ok(_) => return Err(Fail::from("mounted")),
        Err(unmounted) => {
            assert_eq!(rt; unmounted.fault, MountFault::TooSmall { size: 511 });
            assert!(rt; unmounted.disk.calls().is_empty());
        }
    }
    Ok(())
}

#[test]
fn packed_bytes(rt: HostRuntime) -> Result<(), Fail> {
    let alloc = rt.alloc();
    let mut piece = Bytes::new(alloc);
    piece.push(b"a")?;
    let packed = pack(alloc, 1, &[piece])?;
    assert_eq!(rt;
        packed.get(),
        b"\0\0\0\0\0\0\0\x01\x01\0\0\0\x01a\0".as_slice()
    );
    assert_eq!(rt;
        pack(alloc, 1, &[])?.get(),
        b"\0\0\0\0\0\0\0\x01\0".as_slice()
    );
    let (mut journal, _pieces) = mounted(alloc, zeros(alloc, 128, &[])?)?;
    let mut longer = Bytes::new(alloc);
    longer.push(&[7; 50])?;
    let packed = pack(alloc, 1, &[longer])?;
    assert_eq!(rt; packed.get().len(), 64);
    assert!(rt; !journal.doubtful());
    assert_eq!(rt; journal.generation(), 0);
    assert!(rt; journal.compact(&packed) == Err(CommitFault::Full { free: 49 }));
    assert_eq!(rt; journal.close().calls().len(), 4);
    Ok(())
}

const PATH: &str = "gate_journal_test";

#[test]
fn a_journal_in_a_file(rt: HostRuntime) -> Result<(), Fail> {
    let alloc = rt.alloc();
    fs::write(&rt, PATH, [0; 128].as_slice())?;
    let mut options = OpenOptions::new();
    options.read(true).write(true);
    let (mut journal, pieces) = mounted(alloc, FileDisk::new(options.open(&rt, PATH)?)?)?;
    assert!(rt; pieces.is_empty());
    let framed = frame(alloc, b"kept")?;
    assert!(rt; !journal.doubtful());
    assert!(rt; journal.commit(&framed) == Ok(()));
    drop(journal);
    let (_journal, pieces) = mounted(alloc, FileDisk::new(options.open(&rt, PATH)?)?)?;
    assert_eq!(rt; joined(alloc, &pieces)?.as_slice(), b"kept;".as_slice());
    fs::remove_file(&rt, PATH)?;
    Ok(())
}
