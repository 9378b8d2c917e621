// Putting other pieces in the place of those that stand.
ghost use Rattle.std.specs.Prelude.{◌≡◌, ◌↔◌, ◌+◌, ◌-◌, ◌^◌, ◌<◌, ◌≤◌, ℕ, false, List, length, OnOk, OnErr};
ghost use Rattle.lti_outside.specs.Faults.{Rose};
ghost use Rattle.lti_outside.specs.DiskMoments.{LeavesOnly};
ghost use Rattle.gate_journal.specs.Half.{free_of, packed_generation, IsPacked, StandsFor};
ghost use Rattle.gate_journal.specs.declared.commit_fault.CommitFault.TheVariants.{Full, DiskFault};

use crate::doubt::Doubt;
use crate::frames::read_generation;
use crate::write::write_step;
use crate::{CommitFault, Journal};
use lti_outside::{Bytes, Disk, DiskFault};

impl<D: Disk> Journal<D> {
    ghost use Rattle.gate_journal.specs.Journal.{disk_of, place_of, doubts, Keeps};
    ghost use Rattle.gate_journal.specs.Changes.{Repacks};

    /// Puts the pieces that `pack` packed, with the generation after `generation`, in the place of those
    /// that stand: closes the gate of the other half where it may be open, and syncs; writes the pieces
    /// behind it, and syncs; then opens it, and syncs. The journal mustn't be doubtful; it is after a fault
    /// of the last write or sync. On `Full` nothing has changed.
    pub fn compact(&mut self, packed: &Bytes) -> Result<(), CommitFault>
        requires settled { doubts self.old ≡ false }
        requires packed { IsPacked ((place_of self.old).generation + 1) packed.now.list }
        ensures repacks { Repacks self.old self.new result ((place_of self.old).generation + 1) packed.now.list }
        ensures full { (result ≡ Err (CommitFault.Full (free_of (place_of self.old)))) ↔ ((place_of self.old).half ≤ length packed.now.list) }
        ensures full_alone { (free : ℕ) → result ≡ Err (CommitFault.Full free) → self.new ≡ self.old }
        ensures full_free { (free : ℕ) → result ≡ Err (CommitFault.Full free) → free ≡ free_of (place_of self.old) }
        ensures failed { result ≡ Err CommitFault.DiskFault → Rose (D.faults (disk_of self.old)) (D.faults (disk_of self.new)) }
        ensures faults { OnOk result (D.faults (disk_of self.new) ≡ D.faults (disk_of self.old)) }
    {
        let generation = self.generation + 1;
        self.replace(packed.get(), generation)
    }

    /// As `compact`, but the pieces were packed with any generation above that of the journal.
    pub fn adopt(&mut self, packed: &Bytes) -> Result<(), CommitFault>
        requires settled { doubts self.old ≡ false }
        requires packed { (generation : ℕ) × ((place_of self.old).generation < generation) × IsPacked generation packed.now.list }
        ensures repacks { Repacks self.old self.new result (packed_generation packed.now.list) packed.now.list }
        ensures full { (result ≡ Err (CommitFault.Full (free_of (place_of self.old)))) ↔ ((place_of self.old).half ≤ length packed.now.list) }
        ensures full_alone { (free : ℕ) → result ≡ Err (CommitFault.Full free) → self.new ≡ self.old }
        ensures full_free { (free : ℕ) → result ≡ Err (CommitFault.Full free) → free ≡ free_of (place_of self.old) }
        ensures failed { result ≡ Err CommitFault.DiskFault → Rose (D.faults (disk_of self.old)) (D.faults (disk_of self.new)) }
        ensures faults { OnOk result (D.faults (disk_of self.new) ≡ D.faults (disk_of self.old)) }
    {
        let bytes = packed.get();
        self.replace(bytes, read_generation(bytes))
    }

    // Puts packed pieces in the place of those that stand.
    fn replace(&mut self, packed: &[u8], generation: u64) -> Result<(), CommitFault>
        requires settled { doubts self.old ≡ false }
        requires long { 9 ≤ length packed.now }
        requires above { self.old.generation < generation }
        ensures repacks { Repacks self.old self.new result generation packed.now }
        ensures full { (result ≡ Err (CommitFault.Full (free_of (place_of self.old)))) ↔ (self.old.half ≤ length packed.now) }
        ensures full_alone { (free : ℕ) → result ≡ Err (CommitFault.Full free) → self.new ≡ self.old }
        ensures full_free { (free : ℕ) → result ≡ Err (CommitFault.Full free) → free ≡ free_of (place_of self.old) }
        ensures failed { result ≡ Err CommitFault.DiskFault → Rose (D.faults (disk_of self.old)) (D.faults (disk_of self.new)) }
        ensures faults { OnOk result (D.faults (disk_of self.new) ≡ D.faults (disk_of self.old)) }
    {
        if packed.len() as u64 >= self.half {
            return Err(CommitFault::Full { free: self.free() });
        }
        if let Err(DiskFault) = self.shut_other() {
            return Err(CommitFault::DiskFault);
        }
        self.open_packed(packed, generation)
    }

    // Closes the gate of the other half, unless it is known to be closed.
    fn shut_other(&mut self) -> Result<(), DiskFault>
        ensures place { place_of self.new ≡ place_of self.old }
        ensures doubt { self.new.doubt ≡ self.old.doubt }
        ensures shut { OnOk result (self.new.may_open ≡ false) }
        ensures crash { (payloads : List (List ℕ)) → Keeps self.old payloads
            → Keeps self.new payloads × LeavesOnly ⟦<D as Disk>⟧ self.old.disk self.new.disk (λ image. StandsFor image self.old.half payloads) }
        ensures failed { OnErr result (Rose (D.faults self.old.disk) (D.faults self.new.disk)) }
        ensures faults { OnOk result (D.faults self.new.disk ≡ D.faults self.old.disk) }
    {
        if !self.may_open {
            return Ok(());
        }
        let place = self.other_place();
        write_step(&mut self.disk, place, &[0])?;
        self.may_open = false;
        Ok(())
    }

    // Writes packed pieces behind the closed gate of the other half, and opens it.
    fn open_packed(&mut self, packed: &[u8], generation: u64) -> Result<(), CommitFault>
        requires shut { self.old.may_open ≡ false }
        requires settled { doubts self.old ≡ false }
        requires long { 9 ≤ length packed.now }
        requires fits { length packed.now < self.old.half }
        requires above { self.old.generation < generation }
        ensures repacks { Repacks self.old self.new result generation packed.now }
        ensures never_full { (free : ℕ) → result ≡ Err (CommitFault.Full free) → ⊥ }
        ensures failed { OnErr result (Rose (D.faults self.old.disk) (D.faults self.new.disk)) }
        ensures faults { OnOk result (D.faults self.new.disk ≡ D.faults self.old.disk) }
    {
        let place = self.other_place();
        write_step(&mut self.disk, place + 1, packed)?;
        self.doubt = Doubt::Half;
        write_step(&mut self.disk, place, &[1])?;
        self.doubt = Doubt::Nothing;
        self.may_open = self.is_open;
        self.is_open = true;
        self.is_second = !self.is_second;
        self.generation = generation;
        self.gate = packed.len() as u64;
        Ok(())
    }
}
