// A write that is on the disk before anything else happens.
ghost use Rattle.std.specs.Prelude.{◌≡◌, ◌+◌, ◌≤◌, ℕ, List, length, OnOk, OnErr};
ghost use Rattle.lti_outside.specs.Faults.{Rose};
ghost use Rattle.lti_outside.specs.Disk.{Holds, Torn, TornFrom, Only};
ghost use Rattle.lti_outside.specs.DiskMoments.{LeavesOnly};

use crate::{Disk, DiskFault};

/// Writes `piece` over what stands from a place on, and syncs. At each moment of it, and after a fault, a
/// crash may leave any bytes in the range, and nothing else that it might not have left before.
pub fn write_synced<D: Disk>(disk: &mut D, place: u64, piece: &[u8]) -> Result<(), DiskFault>
    requires { place + length piece.now ≤ length (D.seen disk.old) }
    ensures written { D.tells → OnOk result (Holds (D.seen disk.old) place piece.now (D.seen disk.new)) }
    ensures torn { Torn place (length piece.now) (D.seen disk.old) (D.seen disk.new) }
    ensures durable { OnOk result (Only (D.seen disk.new) (D.may_leave disk.new)) }
    ensures crash { (image : List ℕ) → D.may_leave disk.new image → TornFrom place (length piece.now) (D.may_leave disk.old) image }
    ensures moments { LeavesOnly ⟦<D as Disk>⟧ disk.old disk.new (TornFrom place (length piece.now) (D.may_leave disk.old)) }
    ensures failed { OnErr result (Rose (D.faults disk.old) (D.faults disk.new)) }
    ensures faults { OnOk result (D.faults disk.new ≡ D.faults disk.old) }
{
    disk.write_at(place, piece)?;
    disk.sync()?;
    Ok(())
}
