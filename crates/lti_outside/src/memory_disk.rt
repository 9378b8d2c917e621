// A disk in memory, which keeps a record of its calls.
ghost use Rattle.std.specs.Prelude.{◌≡◌, ◌+◌, ◌≤◌, [], ◌∷◌, ◌++◌, length, vec_len, true, false, IfOk, OnOk, OnErr};
ghost use Rattle.lti_outside.specs.Held.{Held};
ghost use Rattle.lti_outside.specs.Disk.{Torn};
ghost use Rattle.lti_outside.specs.Faults.{Rose};
ghost use Rattle.lti_outside.specs.DiskLog.{State, state_of, pushed, settled, after, put, IsMixed, IsImage};
ghost use Rattle.lti_outside.specs.declared.disk_call.DiskCall.TheVariants.{Read, Write, Sync};

use crate::{Bytes, Disk, DiskCall, DiskFault, NoMemory};
use std::alloc::Global;

/// A disk in memory. The calls that `failing` names, counted from 0 and without `size` and `faults`, fail,
/// and so does one that finds no memory for its bytes or for its record.
#[derive(Drop)]
pub struct MemoryDisk {
    alloc: Global,
    first: Bytes,
    calls: Vec<DiskCall>,
    failing: Vec<u64>,
    stop: Option<u64>,
    turn: u64,
    faults: u64,
    is_ready: bool,
    bytes: Vec<u8>,
    ghost cached: { is_ready ≡ true → bytes.items ≡ (state_of (record { first = first.list; calls = calls.items })).reads },
    ghost untouched: { is_ready ≡ false → calls.items ≡ [] },
}

impl MemoryDisk {
    ghost use Rattle.lti_outside.specs.MemoryDisk.{log_of, calls_of, disk_state, disk_faults};

    /// A disk of these bytes, all of which a crash leaves.
    pub fn new(alloc: Global, bytes: Bytes, failing: Vec<u64>) -> MemoryDisk
        ensures state { disk_state result ≡ settled bytes.list }
        ensures calls { calls_of result ≡ [] }
        ensures faults { disk_faults result ≡ 0 }
    {
        MemoryDisk {
            alloc,
            first: bytes,
            calls: Vec::new(alloc),
            failing,
            stop: None,
            turn: 0,
            faults: 0,
            is_ready: false,
            bytes: Vec::new(alloc),
        }
    }

    /// Each call from that number on fails.
    pub fn stop_at(&mut self, call: u64)
        ensures state { disk_state self.new ≡ disk_state self.old }
        ensures calls { calls_of self.new ≡ calls_of self.old }
        ensures faults { disk_faults self.new ≡ disk_faults self.old }
    {
        self.stop = Some(call);
    }

    /// The calls so far, in order, but for those that found no memory.
    pub fn calls(&self) -> &[DiskCall]
        ensures { result.now ≡ calls_of self.now }
    {
        self.calls.as_slice()
    }

    // Whether the next call is to fail.
    fn next_turn(&mut self) -> bool
        ensures log { log_of self.new ≡ log_of self.old }
        ensures faults { self.new.faults ≡ self.old.faults }
    {
        let turn = self.turn;
        self.turn = turn.saturating_add(1);
        self.stop.is_some_and(|stop| stop <= turn) || self.failing.contains(&turn)
    }

    // Counts a call that failed.
    fn raise(&mut self) -> DiskFault
        ensures log { log_of self.new ≡ log_of self.old }
        ensures rose { Rose self.old.faults self.new.faults }
    {
        self.faults = self.faults.saturating_add(1);
        DiskFault
    }

    // Keeps the bytes that reads give beside the calls.
    fn make_ready(&mut self) -> Result<(), NoMemory>
        ensures log { log_of self.new ≡ log_of self.old }
        ensures faults { self.new.faults ≡ self.old.faults }
        ensures ok { OnOk result (self.new.is_ready ≡ true) }
    {
        if !self.is_ready {
            self.bytes = self.first.get().to_vec(self.alloc)?;
            self.is_ready = true;
        }
        Ok(())
    }

    // Keeps a read.
    fn note_read(&mut self, place: u64, len: u64) -> Result<(), NoMemory>
        ensures log { OnOk result (log_of self.new ≡ pushed (log_of self.old) (Read place len)) }
        ensures log_err { OnErr result (log_of self.new ≡ log_of self.old) }
        ensures faults { self.new.faults ≡ self.old.faults }
        ensures ready { OnOk result (self.new.is_ready ≡ true) }
    {
        self.make_ready()?;
        match self.calls.push(DiskCall::Read { place, len }) {
            Ok(()) => Ok(()),
            Err(_) => Err(NoMemory),
        }
    }

    // Keeps a sync.
    fn note_sync(&mut self, done: bool) -> Result<(), NoMemory>
        ensures log { OnOk result (log_of self.new ≡ pushed (log_of self.old) (Sync done)) }
        ensures log_err { OnErr result (log_of self.new ≡ log_of self.old) }
        ensures faults { self.new.faults ≡ self.old.faults }
    {
        self.make_ready()?;
        match self.calls.push(DiskCall::Sync { done }) {
            Ok(()) => Ok(()),
            Err(_) => Err(NoMemory),
        }
    }

    // Keeps a write, and puts its bytes.
    fn note_write(&mut self, place: u64, piece: &[u8]) -> Result<(), NoMemory>
        requires { place + length piece.now ≤ length self.old.first.list }
        ensures log { OnOk result ((held : Held) × (held.list ≡ piece.now)
            × (log_of self.new ≡ pushed (log_of self.old) (Write place held))) }
        ensures log_err { OnErr result (log_of self.new ≡ log_of self.old) }
        ensures faults { self.new.faults ≡ self.old.faults }
    {
        self.make_ready()?;
        let mut copy = Bytes::new(self.alloc);
        copy.push(piece)?;
        match self.calls.push(DiskCall::Write { place, piece: copy }) {
            Ok(()) => {
                put_bytes(&mut self.bytes, place as usize, piece);
                Ok(())
            }
            Err(_) => Err(NoMemory),
        }
    }

    /// A disk without failing calls that reads as an image which a crash now may leave: as last synced for
    /// the pick 0, as written since for 1, and else, where nothing was synced since, a mixture of both and of
    /// the bytes 0, 1 and 255 that begins with the pick.
    pub fn image(&self, pick: u64) -> Result<MemoryDisk, NoMemory>
        ensures image { IfOk result (λ disk. IsImage (disk_state self.now) (disk_state disk).reads) }
        ensures settled { IfOk result (λ disk. disk_state disk ≡ settled (disk_state disk).reads) }
        ensures synced { pick ≡ 0 → IfOk result (λ disk. (disk_state disk).reads ≡ (disk_state self.now).synced) }
        ensures written { pick ≡ 1 → IfOk result (λ disk. (disk_state disk).reads ≡ (disk_state self.now).reads) }
        ensures calls { IfOk result (λ disk. calls_of disk ≡ []) }
        ensures faults { IfOk result (λ disk. disk_faults disk ≡ 0) }
    {
        let mixed = image_of(self.alloc, self.first.get(), self.calls.as_slice(), pick)?;
        let mut bytes = Bytes::new(self.alloc);
        bytes.push(&mixed)?;
        Ok(MemoryDisk::new(self.alloc, bytes, Vec::new(self.alloc)))
    }
}

// Puts a piece over what is there.
fn put_bytes(bytes: &mut Vec<u8>, place: usize, piece: &[u8])
    requires { place + length piece.now ≤ vec_len bytes.old }
    ensures { bytes.new.items ≡ put bytes.old.items place piece.now }
{
    bytes[place..place + piece.len()].copy_from_slice(piece);
}

// One byte of an image: what stood there, what was written, or another.
fn mixed_byte(pick: u64, seed: u64, old: u8, new: u8) -> u8
    ensures synced { pick ≡ 0 → result ≡ old }
    ensures written { pick ≡ 1 → result ≡ new }
{
    match pick {
        0 => old,
        1 => new,
        _ => match (seed >> 33) % 5 {
            0 => old,
            1 => new,
            2 => 0,
            3 => 1,
            _ => 255,
        },
    }
}

// The next number of a linear congruential generator (Knuth's MMIX).
fn next_seed(seed: u64) -> u64 {
    seed.wrapping_mul(6364136223846793005)
        .wrapping_add(1442695040888963407)
}

// Mixes a piece into what is there, up to the end of it.
fn mix(bytes: &mut Vec<u8>, place: u64, piece: &[u8], pick: u64, seed: u64) -> u64
    ensures torn { Torn place (length piece.now) bytes.old.items bytes.new.items }
    ensures synced { pick ≡ 0 → bytes.new.items ≡ bytes.old.items }
    ensures written { pick ≡ 1 → bytes.new.items ≡ put bytes.old.items place piece.now }
{
    let mut seed = seed;
    let mut at = place;
    for byte in piece {
        if at >= bytes.len() as u64 {
            return seed;
        }
        seed = next_seed(seed);
        let old = bytes[at as usize];
        bytes[at as usize] = mixed_byte(pick, seed, old, *byte);
        at += 1;
    }
    seed
}

// One call on, both of what reads give and of an image.
fn mix_call(
    reads: &mut Vec<u8>,
    image: &mut Vec<u8>,
    call: &DiskCall,
    pick: u64,
    seed: u64,
) -> Result<u64, NoMemory>
    ensures { OnOk result ((s : State) → IsMixed pick s reads.old.items image.old.items
        → IsMixed pick (after s call.now) reads.new.items image.new.items) }
{
    match call {
        DiskCall::Read { .. } => Ok(seed),
        DiskCall::Write { place, piece } => {
            let seed = mix(image, *place, piece.get(), pick, seed);
            mix(reads, *place, piece.get(), 1, 0);
            Ok(seed)
        }
        DiskCall::Sync { done: true } => {
            image.clear();
            image.extend_from_slice(reads)?;
            Ok(seed)
        }
        DiskCall::Sync { done: false } => Ok(seed),
    }
}

// An image that a crash may leave after these calls.
fn image_of(alloc: Global, first: &[u8], calls: &[DiskCall], pick: u64) -> Result<Vec<u8>, NoMemory>
    ensures image { IfOk result (λ image. IsImage (state_of (record { first = first.now; calls = calls.now })) image.items) }
    ensures synced { pick ≡ 0 → IfOk result (λ image. image.items ≡ (state_of (record { first = first.now; calls = calls.now })).synced) }
    ensures written { pick ≡ 1 → IfOk result (λ image. image.items ≡ (state_of (record { first = first.now; calls = calls.now })).reads) }
{
    let mut reads = first.to_vec(alloc)?;
    let mut image = first.to_vec(alloc)?;
    let mut seed = pick;
    for call in calls {
        seed = mix_call(&mut reads, &mut image, call, pick, seed)?;
    }
    Ok(image)
}

impl Disk for MemoryDisk {
    ghost use Rattle.std.specs.Prelude.{length};
    ghost use Rattle.lti_outside.specs.DiskLog.{IsImage, LeftSince};
    ghost use Rattle.lti_outside.specs.MemoryDisk.{log_of, calls_of, disk_state, disk_faults};
    ghost use Rattle.lti_outside.specs.DiskLaws.{reads_are_image, image_size, left_now, only_left_now};

    ghost tells = { Unit {0} };

    ghost seen = { λ m. (disk_state m).reads };

    ghost may_leave = { λ m image. IsImage (disk_state m) image };

    ghost moment = { λ m. length (calls_of m) };

    ghost left_since = { λ m t image. LeftSince (log_of m) t image };

    ghost faults = { disk_faults };

    ghost current = { λ m. reads_are_image (log_of m) };

    ghost sized = { λ m image is. image_size (log_of m) image is };

    ghost counts_now = { λ m t image le is. left_now (log_of m) t image le is };

    ghost only_now = { λ m image left. only_left_now (log_of m) image left };

    fn size(&self) -> u64 {
        self.first.get().len() as u64
    }

    fn faults(&self) -> u64 {
        self.faults
    }

    fn read_at(&mut self, place: u64, buf: &mut [u8]) -> Result<(), DiskFault> {
        let fails = self.next_turn();
        let len = buf.len();
        if let Err(NoMemory) = self.note_read(place, len as u64) {
            return Err(self.raise());
        }
        if fails {
            return Err(self.raise());
        }
        buf.copy_from_slice(&self.bytes[place as usize..place as usize + len]);
        Ok(())
    }

    fn write_at(&mut self, place: u64, piece: &[u8]) -> Result<(), DiskFault> {
        let fails = self.next_turn();
        if let Err(NoMemory) = self.note_write(place, piece) {
            return Err(self.raise());
        }
        if fails {
            return Err(self.raise());
        }
        Ok(())
    }

    fn sync(&mut self) -> Result<(), DiskFault> {
        let fails = self.next_turn();
        if let Err(NoMemory) = self.note_sync(!fails) {
            return Err(self.raise());
        }
        if fails {
            return Err(self.raise());
        }
        Ok(())
    }
}
