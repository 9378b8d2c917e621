// Closing a gate that is in doubt.
ghost use Rattle.std.specs.Prelude.{◌≡◌, true, false, List, ℕ, IsOk, OnOk, OnErr};
ghost use Rattle.lti_outside.specs.Faults.{Rose};
ghost use Rattle.lti_outside.specs.DiskMoments.{LeavesOnly};
ghost use Rattle.gate_journal.specs.Half.{IsEither};

use crate::Journal;
use crate::doubt::Doubt;
use crate::write::write_step;
use lti_outside::{Disk, DiskFault};

impl<D: Disk> Journal<D> {
    ghost use Rattle.gate_journal.specs.Journal.{disk_of, place_of, doubts, Keeps, MayKeep};

    /// Closes the gate that is in doubt, by a write and a sync. Where none is, it makes no call of the disk.
    /// After a fault the doubt stays.
    pub fn repair(&mut self) -> Result<(), DiskFault>
        ensures place { place_of self.new ≡ place_of self.old }
        ensures none { doubts self.old ≡ false → self.new ≡ self.old }
        ensures none_ok { doubts self.old ≡ false → IsOk result }

        // A crash at any moment leaves the pieces from before the doubt, or those in doubt.
        ensures any_moment { (payloads others : List (List ℕ)) → MayKeep self.old payloads others
            → LeavesOnly ⟦<D as Disk>⟧ (disk_of self.old) (disk_of self.new) (IsEither (place_of self.old).half payloads others) }

        // From then on those from before.
        ensures kept { OnOk result ((payloads others : List (List ℕ)) → MayKeep self.old payloads others → Keeps self.new payloads) }
        ensures settled { OnOk result (doubts self.new ≡ false) }

        ensures doubt { OnErr result (doubts self.new ≡ true) }
        ensures doubt_kept { OnErr result ((payloads others : List (List ℕ)) → MayKeep self.old payloads others → MayKeep self.new payloads others) }
        ensures failed { OnErr result (Rose (D.faults (disk_of self.old)) (D.faults (disk_of self.new))) }
        ensures faults { OnOk result (D.faults (disk_of self.new) ≡ D.faults (disk_of self.old)) }
    {
        if !self.doubtful() {
            return Ok(());
        }
        let gate = self.doubtful_place();
        write_step(&mut self.disk, gate, &[0])?;
        self.doubt = Doubt::Nothing;
        Ok(())
    }
}
