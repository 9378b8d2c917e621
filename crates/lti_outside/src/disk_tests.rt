//! The disks, each call once and each fault once.
use super::*;
use std::alloc::Global;
use std::fs::{self, File, OpenOptions};
use std::test::Fail;

// The bytes from a place on.
fn read<D: Disk>(disk: &mut D, place: u64) -> Result<[u8; 2], Fail> {
    if disk.size() < 2 || place > disk.size() - 2 {
        return Err(Fail::from("past the end"));
    }
    let mut buf = [9; 2];
    disk.read_at(place, &mut buf).map_err(|_| "disk fault")?;
    Ok(buf)
}

// A disk of eight bytes 7 with the bytes 5 and 6 written at place 3, not synced.
fn written(alloc: Global, failing: &[u64]) -> Result<MemoryDisk, Fail> {
    let bytes = Bytes::from_vec([7; 8].to_vec(alloc)?);
    let mut disk = MemoryDisk::new(alloc, bytes, failing.to_vec(alloc)?);
    if disk.size() != 8 {
        return Err(Fail::from("size"));
    }
    let _ = disk.write_at(3, &[5, 6]);
    Ok(disk)
}

#[test]
fn a_crash_leaves_any_bytes_where_nothing_was_synced(rt: HostRuntime) -> Result<(), Fail> {
    let alloc = rt.alloc();
    let mut disk = written(alloc, &[])?;
    assert_eq!(rt; read(&mut disk, 3)?, [5, 6]);
    assert_eq!(rt; read(&mut disk.image(0)?, 3)?, [7, 7]);
    assert_eq!(rt; read(&mut disk.image(1)?, 3)?, [5, 6]);
    let mut is_mixed = false;
    for pick in 2..64 {
        let mut image = disk.image(pick)?;
        assert_eq!(rt; read(&mut image, 1)?, [7, 7]);
        assert_eq!(rt; read(&mut image, 5)?, [7, 7]);
        let torn = read(&mut image, 3)?;
        assert!(rt; [7, 5, 0, 1, 255].contains(&torn[0]));
        assert!(rt; [7, 6, 0, 1, 255].contains(&torn[1]));
        if torn != [7, 7] && torn != [5, 6] {
            is_mixed = true;
        }
    }
    assert!(rt; is_mixed);
    assert!(rt; disk.sync() == Ok(()));
    for pick in 0..64 {
        assert_eq!(rt; read(&mut disk.image(pick)?, 3)?, [5, 6]);
    }
    Ok(())
}

#[test]
fn a_record_of_the_calls(rt: HostRuntime) -> Result<(), Fail> {
    let mut disk = written(rt.alloc(), &[2])?;
    assert_eq!(rt; read(&mut disk, 3)?, [5, 6]);
    assert!(rt; disk.sync() == Err(DiskFault));
    assert_eq!(rt; disk.faults(), 1);
    assert_eq!(rt; read(&mut disk.image(0)?, 3)?, [7, 7]);
    assert!(rt; disk.size() == 8 && write_synced(&mut disk, 0, &[4]) == Ok(()));
    disk.stop_at(5);
    assert!(rt; disk.size() == 8 && write_synced(&mut disk, 0, &[3]) == Err(DiskFault));
    assert!(rt; disk.size() == 8 && disk.read_at(0, &mut [0; 2]) == Err(DiskFault));
    assert_eq!(rt; disk.faults(), 3);
    let calls = disk.calls();
    assert_eq!(rt; calls.len(), 7);
    assert!(rt;
        matches!(&calls[0], DiskCall::Write { place: 3, piece } if piece.get() == [5, 6].as_slice())
    );
    assert!(rt; matches!(calls[1], DiskCall::Read { place: 3, len: 2 }));
    assert!(rt; matches!(calls[2], DiskCall::Sync { done: false }));
    assert!(rt;
        matches!(&calls[3], DiskCall::Write { place: 0, piece } if piece.get() == [4].as_slice())
    );
    assert!(rt; matches!(calls[4], DiskCall::Sync { done: true }));
    assert!(rt; matches!(&calls[5], DiskCall::Write { place: 0, .. }));
    assert!(rt; matches!(calls[6], DiskCall::Read { place: 0, len: 2 }));
    Ok(())
}

const PATH: &str = "file_disk_test";

#[test]
fn a_file_keeps_what_was_written(rt: HostRuntime) -> Result<(), Fail> {
    fs::write(&rt, PATH, [7; 8].as_slice())?;
    let file = OpenOptions::new().read(true).write(true).open(&rt, PATH)?;
    let mut disk = FileDisk::new(file)?;
    assert!(rt; disk.size() == 8 && write_synced(&mut disk, 3, &[5, 6]) == Ok(()));
    assert_eq!(rt; disk.faults(), 0);
    drop(disk);
    let mut disk = FileDisk::new(File::open(&rt, PATH)?)?;
    assert_eq!(rt; read(&mut disk, 2)?, [7, 5]);
    assert_eq!(rt; read(&mut disk, 4)?, [6, 7]);
    assert!(rt; disk.size() == 8 && disk.write_at(3, &[1]) == Err(DiskFault));
    assert_eq!(rt; disk.faults(), 1);
    assert_eq!(rt; read(&mut disk, 2)?, [7, 5]);
    fs::remove_file(&rt, PATH)?;
    Ok(())
}
