// Keeping one more payload.
ghost use Rattle.std.specs.Prelude.{◌≡◌, ◌≤◌, ℕ, List, [], ◌∷◌, ◌++◌, length, Option, None, false, OnOk, OnErr};
ghost use Rattle.lti_outside.specs.Faults.{Rose};
ghost use Rattle.lti_outside.specs.DiskMoments.{LeavesOnly};
ghost use Rattle.gate_journal.specs.Half.{free_of, next_place, payload_of, IsFrame};
ghost use Rattle.gate_journal.specs.Journal.{disk_of, place_of, doubts};
ghost use Rattle.lti_desk.specs.Keeping.{IsKept, IsOneOf, IsInDoubtAfter};

use gate_journal::{CommitFault, Journal};
use lti_outside::{Bytes, Disk, DiskFault};

/// Closes the gate that is in doubt, if one is, and adds the piece that `framed` frames, which has room.
pub fn keep<D: Disk>(journal: &mut Journal<D>, framed: &Bytes) -> Result<(), DiskFault>
    requires frame { IsFrame framed.now.list }
    requires room { length (payload_of framed.now.list) ≤ free_of (place_of journal.old) }

    // A crash at any moment leaves what was kept, what was in doubt, or what was kept with the new payload.
    ensures any_moment { (payloads : List (List ℕ)) (doubt : Option (List (List ℕ))) → IsKept journal.old payloads doubt
        → LeavesOnly ⟦<D as Disk>⟧ (disk_of journal.old) (disk_of journal.new)
        (IsOneOf (place_of journal.old).half payloads doubt (payloads ++ payload_of framed.now.list ∷ [])) }

    // From then on it leaves the new one too, or after a fault what was kept, and what is in doubt then.
    ensures kept { OnOk result ((payloads : List (List ℕ)) (doubt : Option (List (List ℕ))) → IsKept journal.old payloads doubt
        → IsKept journal.new (payloads ++ payload_of framed.now.list ∷ []) None) }
    ensures doubt { OnErr result ((payloads : List (List ℕ)) (doubt : Option (List (List ℕ))) → IsKept journal.old payloads doubt
        → (after : Option (List (List ℕ))) × IsKept journal.new payloads after × IsInDoubtAfter doubt (payloads ++ payload_of framed.now.list ∷ []) after) }

    ensures place { OnOk result (place_of journal.new ≡ next_place (place_of journal.old) (length (payload_of framed.now.list))) }
    ensures place_err { OnErr result (place_of journal.new ≡ place_of journal.old) }
    ensures settled { OnOk result (doubts journal.new ≡ false) }
    ensures half { (place_of journal.new).half ≡ (place_of journal.old).half }
    ensures failed { OnErr result (Rose (D.faults (disk_of journal.old)) (D.faults (disk_of journal.new))) }
    ensures faults { OnOk result (D.faults (disk_of journal.new) ≡ D.faults (disk_of journal.old)) }
{
    journal.repair()?;
    match journal.commit(framed) {
        Ok(()) => Ok(()),
        Err(CommitFault::DiskFault) => Err(DiskFault),
        Err(CommitFault::Full { .. }) => unreachable!(),
    }
}
