// One step of the journal.
ghost use Rattle.std.specs.Prelude.{◌≡◌, ◌+◌, ◌≤◌, length, OnOk, OnErr};
ghost use Rattle.lti_outside.specs.Faults.{Rose};
ghost use Rattle.gate_journal.specs.Writes.{Wrote, Synced};

use lti_outside::{Disk, DiskFault, write_synced};

/// Writes bytes at a place, and syncs.
pub fn write_step<D: Disk>(disk: &mut D, place: u64, bytes: &[u8]) -> Result<(), DiskFault>
    requires { place + length bytes.now ≤ length (D.seen disk.old) }
    ensures wrote { Wrote ⟦<D as Disk>⟧ place bytes.now disk.old disk.new }
    ensures synced { D.tells → OnOk result (Synced ⟦<D as Disk>⟧ place bytes.now disk.old disk.new) }
    ensures failed { OnErr result (Rose (D.faults disk.old) (D.faults disk.new)) }
    ensures faults { OnOk result (D.faults disk.new ≡ D.faults disk.old) }
{
    write_synced(disk, place, bytes)
}
