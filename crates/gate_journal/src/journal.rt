// A journal that was mounted.
ghost use Rattle.std.specs.Prelude.{◌≡◌, ◌+◌, ◌*◌, ◌^◌, ◌<◌, ◌≤◌, length};
ghost use Rattle.gate_journal.specs.Half.{base_of, other_base, free_of};
ghost use Rattle.gate_journal.specs.Doubt.{doubt_place};

use crate::Position;
use crate::doubt::Doubt;
use lti_outside::Disk;

/// The journal on a disk of two halves. Nobody else may write the disk.
#[derive(Drop)]
pub struct Journal<D: Disk> {
    pub(crate) disk: D,
    pub(crate) half: u64,
    pub(crate) is_second: bool,
    pub(crate) generation: u64,
    // the place of the end gate in the current half
    pub(crate) gate: u64,
    // whether the gate of the current half is open, and whether that of the other may be
    pub(crate) is_open: bool,
    pub(crate) may_open: bool,
    pub(crate) doubt: Doubt,
    ghost some: { 64 ≤ half },
    ghost small: { half < 2 ^ 32 },
    ghost inside: { gate < half },
    ghost room: { 2 * half ≤ length (D.seen disk) },
}

impl<D: Disk> Journal<D> {
    ghost use Rattle.gate_journal.specs.Journal.{disk_of, place_of, doubts};
    ghost use Rattle.gate_journal.specs.Position.{place_at};

    /// How many calls of the disk have failed.
    pub fn faults(&self) -> u64
        ensures { result ≡ D.faults (disk_of self.now) }
    {
        self.disk.faults()
    }

    /// Where the journal stands. A commit moves the end gate behind its piece, a compaction goes over to the
    /// other half, and no other call moves it.
    pub fn position(&self) -> Position
        ensures { place_at result ≡ place_of self.now }
    {
        Position {
            half: self.half,
            second: self.is_second,
            generation: self.generation,
            gate: self.gate,
        }
    }

    /// The generation of the current half, which counts compactions.
    pub fn generation(&self) -> u64
        ensures { result ≡ (place_of self.now).generation }
    {
        self.generation
    }

    /// How many bytes a further payload may have.
    pub fn free(&self) -> u64
        ensures { result ≡ free_of (place_of self.now) }
    {
        (self.half - self.gate).saturating_sub(6)
    }

    /// Whether a crash may leave the pieces of the last call or those from before it.
    pub fn doubtful(&self) -> bool
        ensures { result ≡ doubts self.now }
    {
        !matches!(self.doubt, Doubt::Nothing)
    }

    /// Hands the disk back.
    pub fn close(self) -> D
        ensures { result ≡ disk_of self }
    {
        let Journal { disk, .. } = self;
        disk
    }

    // Where the end gate stands on the disk.
    pub(crate) fn gate_place(&self) -> u64
        ensures { result ≡ base_of (place_of self.now) + self.now.gate }
    {
        if self.is_second {
            self.half + self.gate
        } else {
            self.gate
        }
    }

    // Where the other half begins.
    pub(crate) fn other_place(&self) -> u64
        ensures { result ≡ other_base (place_of self.now) }
    {
        if self.is_second { 0 } else { self.half }
    }

    // Where the gate in doubt stands on the disk.
    pub(crate) fn doubtful_place(&self) -> u64
        ensures { result ≡ doubt_place self.now.doubt (place_of self.now) }
    {
        match self.doubt {
            Doubt::Nothing => 0,
            Doubt::Piece => self.gate_place(),
            Doubt::Half => self.other_place(),
        }
    }
}
