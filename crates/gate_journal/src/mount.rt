// Mounting: what stands on a disk.
ghost use Rattle.std.specs.Prelude.{◌≡◌, ◌⊎◌, ◌+◌, ◌*◌, ◌^◌, ◌<◌, ◌≤◌, ℕ, List, false, length, map, if◌then◌else◌, IfOk, IfErr, IsErr, IsErrAnd, OnOk, OnErr};
ghost use Rattle.lti_outside.specs.Faults.{Rose};
ghost use Rattle.lti_outside.specs.Disk.{Only};
ghost use Rattle.lti_outside.specs.DiskMoments.{LeavesOnly, OnlyReads};
ghost use Rattle.gate_journal.specs.Half.{base_of, Recovers, StandsFor, IsDamagedAt};
ghost use Rattle.gate_journal.specs.Doubt.{HasHeads, Stands};
ghost use Rattle.gate_journal.specs.Pieces.{payloads_of, places_from};
ghost use Rattle.gate_journal.specs.Read.{place_read, IsHindrance};
ghost use Rattle.gate_journal.specs.declared.mount_fault.MountFault.TheVariants.{TooSmall, Damaged, DiskFault};

use crate::doubt::Doubt;
use crate::heads::{Current, current_of, read_head};
use crate::reading::read_pieces;
use crate::{Journal, MountFault, Piece, Unmounted};
use lti_outside::{Disk, DiskFault};
use std::alloc::Global;

// Which half is current, by the heads of both.
fn read_current<D: Disk>(disk: &mut D, half: u64) -> Result<Current, DiskFault>
    requires low { 64 ≤ half }
    requires high { half < 2 ^ 32 }
    requires room { 2 * half ≤ length (D.seen disk.old) }
    ensures heads { D.tells → (gate : ℕ) → IfOk result (λ current. HasHeads (D.seen disk.old) (place_read half current gate) current.is_open current.may_open) }
    ensures reads { OnlyReads ⟦<D as Disk>⟧ disk.old disk.new }
    ensures failed { OnErr result (Rose (D.faults disk.old) (D.faults disk.new)) }
    ensures faults { OnOk result (D.faults disk.new ≡ D.faults disk.old) }
{
    let first = read_head(disk, 0)?;
    let second = read_head(disk, half)?;
    Ok(current_of(first, second))
}

// What stands on a disk, after a sync: from then on a crash leaves what is read.
fn read_synced<D: Disk>(
    alloc: Global,
    disk: &mut D,
    half: u64,
) -> Result<(Current, u64, Vec<Piece>), MountFault>
    requires low { 64 ≤ half }
    requires high { half < 2 ^ 32 }
    requires room { 2 * half ≤ length (D.seen disk.old) }
    ensures stands { D.tells → IfOk result (λ read. Stands (D.seen disk.old) (place_read half read.0 read.1) read.0.is_open read.0.may_open (payloads_of read.2.items)) }
    ensures inside { IfOk result (λ read. read.1 < half) }
    ensures places { IfOk result (λ read. map (λ piece. piece.at) read.2.items ≡ places_from (base_of (place_read half read.0 read.1) + 9) (payloads_of read.2.items)) }
    ensures durable { OnOk result (Only (D.seen disk.old) (D.may_leave disk.new)) }
    ensures damaged { D.tells → (at : ℕ) → result ≡ Err (MountFault.Damaged at) → IsDamagedAt (D.seen disk.old) half at }
    ensures never_small { (size : ℕ) → result ≡ Err (MountFault.TooSmall size) → ⊥ }
    ensures reads { OnlyReads ⟦<D as Disk>⟧ disk.old disk.new }
    ensures failed { result ≡ Err MountFault.DiskFault → Rose (D.faults disk.old) (D.faults disk.new) }
    ensures faults { OnOk result (D.faults disk.new ≡ D.faults disk.old) }
{
    disk.sync()?;
    let current = read_current(disk, half)?;
    let (gate, pieces) = read_pieces(alloc, disk, current.base(half), half)?;
    Ok((current, gate, pieces))
}

impl<D: Disk> Journal<D> {
    ghost use Rattle.gate_journal.specs.Journal.{disk_of, place_of, doubts, Keeps};

    /// Mounts a disk of two halves of `half` bytes, as a crash may have left it, and gives the pieces of its
    /// current half in order. It writes nothing: it begins with a sync, and then reads.
    pub fn mount(
        alloc: Global,
        disk: D,
        half: u64,
    ) -> Result<(Journal<D>, Vec<Piece>), Unmounted<D>>
        requires low { 64 ≤ half }
        requires high { half < 2 ^ 32 }

        // The disk as it reads stands for the pieces, and so does each of its images from then on.
        ensures recovers { D.tells → IfOk result (λ m. Recovers (D.seen disk) (place_of m.0) (payloads_of m.1.items)) }
        ensures half { IfOk result (λ m. (place_of m.0).half ≡ half) }
        ensures places { IfOk result (λ m. map (λ piece. piece.at) m.1.items ≡ places_from (base_of (place_of m.0) + 9) (payloads_of m.1.items)) }
        ensures keeps { D.tells → IfOk result (λ m. Keeps m.0 (payloads_of m.1.items)) }
        ensures settled { IfOk result (λ m. doubts m.0 ≡ false) }
        ensures seen { IfOk result (λ m. D.seen (disk_of m.0) ≡ D.seen disk) }
        ensures faults { IfOk result (λ m. D.faults (disk_of m.0) ≡ D.faults disk) }

        // Each image at each moment was one at the start.
        ensures any_moment { IfOk result (λ m. LeavesOnly ⟦<D as Disk>⟧ disk (disk_of m.0) (D.may_leave disk)) }
        ensures any_moment_err { IfErr result (λ u. LeavesOnly ⟦<D as Disk>⟧ disk u.disk (D.may_leave disk)) }
        ensures seen_err { IfErr result (λ u. D.seen u.disk ≡ D.seen disk) }

        ensures small { length (D.seen disk) < 2 * half → IsErrAnd result (λ u. (u.fault ≡ MountFault.TooSmall (length (D.seen disk))) × (u.disk ≡ disk)) }
        ensures small_only { IfErr result (λ u. (size : ℕ) → u.fault ≡ MountFault.TooSmall size → length (D.seen disk) < 2 * half) }
        ensures damaged { D.tells → IfErr result (λ u. (at : ℕ) → u.fault ≡ MountFault.Damaged at → IsDamagedAt (D.seen disk) half at) }
        ensures refused { D.tells → (at : ℕ) → IsDamagedAt (D.seen disk) half at → IsErr result }

        // Where no call of the disk failed and memory sufficed, a disk that stands for payloads is mounted,
        // and a damaged one is answered by the place of its damage.
        ensures mounted { D.tells → 2 * half ≤ length (D.seen disk) → (payloads : List (List ℕ)) → StandsFor (D.seen disk) half payloads
            → IfErr result (λ u. IsHindrance u.fault) }
        ensures damaged_at { D.tells → 2 * half ≤ length (D.seen disk) → (at : ℕ) → IsDamagedAt (D.seen disk) half at
            → IfErr result (λ u. (u.fault ≡ MountFault.Damaged at) ⊎ IsHindrance u.fault) }
        ensures failed { IfErr result (λ u. u.fault ≡ MountFault.DiskFault → Rose (D.faults disk) (D.faults u.disk)) }
    {
        let mut disk = disk;
        let size = disk.size();
        if size < 2 * half {
            return Err(Unmounted {
                fault: MountFault::TooSmall { size },
                disk,
            });
        }
        match read_synced(alloc, &mut disk, half) {
            Ok((current, gate, pieces)) => Ok((
                Journal {
                    disk,
                    half,
                    is_second: current.is_second,
                    generation: current.generation,
                    gate,
                    is_open: current.is_open,
                    may_open: current.may_open,
                    doubt: Doubt::Nothing,
                },
                pieces,
            )),
            Err(fault) => Err(Unmounted { fault, disk }),
        }
    }
}
