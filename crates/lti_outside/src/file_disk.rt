// A disk in a file, which tells nothing but its size.
ghost use Rattle.std.specs.Prelude.{◌≡◌, IfOk, OnOk, OnErr, length, replicate};
ghost use Rattle.lti_outside.specs.Faults.{Rose};

use crate::{Disk, DiskFault};
use std::fs::File;
use std::io;
use std::os::unix::fs::FileExt;

/// A disk in a file that is as long as the disk is large. A call that the system refuses is counted. It
/// tells no bytes: what the file holds after a crash is the system's word.
#[derive(Drop)]
pub struct FileDisk {
    file: File,
    size: u64,
    faults: u64,
}

impl FileDisk {
    /// A disk of the bytes that the file has now. The file must be open for reading and for writing, and
    /// its bytes should have been written, since a hole costs time at each first write.
    pub fn new(file: File) -> io::Result<FileDisk>
        ensures { IfOk result (λ disk. disk.faults ≡ 0) }
    {
        let size = file.metadata()?.len();
        Ok(FileDisk {
            file,
            size,
            faults: 0,
        })
    }
}

// Counts a call that failed.
fn counted(faults: &mut u64, done: io::Result<()>) -> Result<(), DiskFault>
    ensures failed { OnErr result (Rose faults.old faults.new) }
    ensures faults { OnOk result (faults.new ≡ faults.old) }
{
    match done {
        Ok(()) => Ok(()),
        Err(_) => {
            *faults = faults.saturating_add(1);
            Err(DiskFault)
        }
    }
}

impl Disk for FileDisk {
    ghost use Rattle.std.proofs.Common.{refl, ap};

    ghost tells = { ⊥ };

    ghost seen = { λ d. replicate d.size 0 };

    ghost may_leave = { λ d image. image ≡ replicate d.size 0 };

    ghost moment = { λ d. 0 };

    ghost left_since = { λ d t image. image ≡ replicate d.size 0 };

    ghost faults = { λ d. d.faults };

    ghost current = { λ d. refl };

    ghost sized = { λ d image is. ap length is };

    ghost counts_now = { λ d t image le is. is };

    ghost only_now = { λ d image is. is };

    fn size(&self) -> u64 {
        self.size
    }

    fn faults(&self) -> u64 {
        self.faults
    }

    fn read_at(&mut self, place: u64, buf: &mut [u8]) -> Result<(), DiskFault> {
        counted(&mut self.faults, self.file.read_exact_at(buf, place))
    }

    fn write_at(&mut self, place: u64, piece: &[u8]) -> Result<(), DiskFault> {
        counted(&mut self.faults, self.file.write_all_at(piece, place))
    }

    fn sync(&mut self) -> Result<(), DiskFault> {
        counted(&mut self.faults, self.file.sync_data())
    }
}
