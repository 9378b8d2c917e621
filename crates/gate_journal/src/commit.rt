// Adding a piece.
ghost use Rattle.std.specs.Prelude.{◌≡◌, ◌↔◌, ◌<◌, ◌≤◌, ℕ, false, List, [], ◌∷◌, ◌++◌, length, OnOk, OnErr};
ghost use Rattle.lti_outside.specs.Faults.{Rose};
ghost use Rattle.gate_journal.specs.Half.{free_of, next_place, payload_of, IsFrame};
ghost use Rattle.gate_journal.specs.declared.commit_fault.CommitFault.TheVariants.{Full, DiskFault};

use crate::doubt::Doubt;
use crate::write::write_step;
use crate::{CommitFault, Journal};
use lti_outside::{Bytes, Disk};

impl<D: Disk> Journal<D> {
    ghost use Rattle.gate_journal.specs.Journal.{disk_of, place_of, doubts, Keeps};
    ghost use Rattle.gate_journal.specs.Changes.{Changes};

    /// Adds the piece that `frame` framed: writes the piece behind the closed end gate, with a closed gate
    /// behind it, and syncs; then opens the gate, and syncs. The journal mustn't be doubtful; it is after a
    /// fault of the last write or sync. On `Full` nothing has changed.
    pub fn commit(&mut self, framed: &Bytes) -> Result<(), CommitFault>
        requires settled { doubts self.old ≡ false }
        requires frame { IsFrame framed.now.list }
        ensures place { OnOk result (place_of self.new ≡ next_place (place_of self.old) (length (payload_of framed.now.list))) }
        ensures place_err { OnErr result (place_of self.new ≡ place_of self.old) }
        ensures settled { OnOk result (doubts self.new ≡ false) }

        // A crash leaves the pieces from before, or these and the new one.
        ensures crash { (payloads : List (List ℕ)) → Keeps self.old payloads → Changes self.old self.new result payloads (payloads ++ payload_of framed.now.list ∷ []) }

        ensures full { (result ≡ Err (CommitFault.Full (free_of (place_of self.old)))) ↔ (free_of (place_of self.old) < length (payload_of framed.now.list)) }
        ensures full_alone { (free : ℕ) → result ≡ Err (CommitFault.Full free) → self.new ≡ self.old }
        ensures full_free { (free : ℕ) → result ≡ Err (CommitFault.Full free) → free ≡ free_of (place_of self.old) }
        ensures failed { result ≡ Err CommitFault.DiskFault → Rose (D.faults (disk_of self.old)) (D.faults (disk_of self.new)) }
        ensures faults { OnOk result (D.faults (disk_of self.new) ≡ D.faults (disk_of self.old)) }
    {
        let bytes = framed.get();
        let free = self.free();
        if bytes.len() as u64 - 5 > free {
            return Err(CommitFault::Full { free });
        }
        self.open_piece(bytes)
    }

    // Writes a framed piece that fits behind the end gate, and opens the gate.
    fn open_piece(&mut self, framed: &[u8]) -> Result<(), CommitFault>
        requires settled { doubts self.old ≡ false }
        requires frame { IsFrame framed.now }
        requires fits { length (payload_of framed.now) ≤ free_of (place_of self.old) }
        ensures place { OnOk result (place_of self.new ≡ next_place (place_of self.old) (length (payload_of framed.now))) }
        ensures place_err { OnErr result (place_of self.new ≡ place_of self.old) }
        ensures settled { OnOk result (doubts self.new ≡ false) }
        ensures crash { (payloads : List (List ℕ)) → Keeps self.old payloads → Changes self.old self.new result payloads (payloads ++ payload_of framed.now ∷ []) }
        ensures never_full { (free : ℕ) → result ≡ Err (CommitFault.Full free) → ⊥ }
        ensures failed { OnErr result (Rose (D.faults self.old.disk) (D.faults self.new.disk)) }
        ensures faults { OnOk result (D.faults self.new.disk ≡ D.faults self.old.disk) }
    {
        let gate = self.gate_place();
        write_step(&mut self.disk, gate + 1, framed)?;
        self.doubt = Doubt::Piece;
        write_step(&mut self.disk, gate, &[1])?;
        self.doubt = Doubt::Nothing;
        self.gate += framed.len() as u64;
        Ok(())
    }
}
