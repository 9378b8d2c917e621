//! The file of the journal: made where it is absent, and open in one program at a time.
use lti_outside::{Disk, FileDisk};
use std::fmt::{Display, Formatter};
use std::fs::{self, File, TryLockError};
use std::os::unix::fs::FileExt;
use std::{fmt, io};

/// The file of the journal, in the directory of the run.
pub const JOURNAL: &str = "lti.journal";

// The file while it is being made.
const UNFINISHED: &str = "lti.journal.new";

/// What is wrong with the journal's file, as it is told beside the word of the status.
#[derive(Clone, Copy, Debug, PartialEq, Eq)]
pub enum NoJournal {
    /// The system refused a call: the file can't be made, opened or locked.
    Refused,
    /// Another program has it open.
    Taken,
    /// It has another number of bytes than the two halves of a journal of this program.
    WrongSize { size: u64, wanted: u64 },
    /// What stands at this byte is no piece of a journal.
    Damaged { at: u64 },
}

impl Display for NoJournal {
    fn fmt<W: fmt::Write>(&self, out: &mut Formatter<W>) -> fmt::Result {
        match self {
            NoJournal::Refused => write!(out, "{JOURNAL} can't be made, opened or locked"),
            NoJournal::Taken => write!(out, "another program has {JOURNAL} open"),
            NoJournal::WrongSize { size, wanted } => {
                write!(out, "{JOURNAL} has {size} bytes, not {wanted}")
            }
            NoJournal::Damaged { at } => write!(out, "{JOURNAL} can't be read at byte {at}"),
        }
    }
}

impl From<io::Error> for NoJournal {
    fn from(_: io::Error) -> NoJournal {
        NoJournal::Refused
    }
}

// Locks a file for this program alone, as long as it is open.
fn lock(file: &File) -> Result<(), NoJournal> {
    match file.try_lock() {
        Ok(()) => Ok(()),
        Err(TryLockError::WouldBlock) => Err(NoJournal::Taken),
        Err(TryLockError::Error(_)) => Err(NoJournal::Refused),
    }
}

// Writes zero bytes over the whole of a file of this size: a hole would cost time at each first write.
fn fill(file: &File, size: u64) -> io::Result<()> {
    let zeros = [0; 4_096];
    let rest = size % 4_096;
    for block in 0..size / 4_096 {
        file.write_all_at(&zeros, block * 4_096)?;
    }
    file.write_all_at(&zeros[..rest as usize], size - rest)
}

// Makes the file under another name, and gives it its own once all of it is on the disk. So whoever finds the file finds it
// whole, also after a crash in between.
fn make(rt: &HostRuntime, size: u64) -> Result<(), NoJournal> {
    let file = File::options()
        .read(true)
        .write(true)
        .create(true)
        .open(rt, UNFINISHED)?;
    lock(&file)?;
    if fs::exists(rt, JOURNAL)? {
        let _ = fs::remove_file(rt, UNFINISHED);
        return Ok(());
    }
    fill(&file, size)?;
    file.set_len(size)?;
    file.sync_all()?;
    fs::rename(rt, UNFINISHED, JOURNAL)?;
    File::open(rt, ".")?.sync_all()?;
    Ok(())
}

/// The disk of the journal's file, of `size` bytes, which no other program may open meanwhile. Where the file is absent it is
/// made, of zero bytes. One that is smaller is handed on as it is.
pub fn open_disk(rt: &HostRuntime, size: u64) -> Result<FileDisk, NoJournal> {
    if !fs::exists(rt, JOURNAL)? {
        make(rt, size)?;
    }
    let file = File::options().read(true).write(true).open(rt, JOURNAL)?;
    lock(&file)?;
    let disk = FileDisk::new(file)?;
    let found = disk.size();
    if size < found {
        return Err(NoJournal::WrongSize {
            size: found,
            wanted: size,
        });
    }
    Ok(disk)
}
