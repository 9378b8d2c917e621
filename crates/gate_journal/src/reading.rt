// Reading the pieces of a half.
ghost use Rattle.std.specs.Prelude.{◌≡◌, ◌↔◌, ◌+◌, ◌-◌, ◌*◌, ◌^◌, ◌<◌, ◌≤◌, ℕ, List, ◌++◌, length, map, take, drop, slice_index, IsTrue, IfOk, OnOk, OnErr};
ghost use Rattle.std.specs.Int.{w32, from_be_bytes};
ghost use Rattle.lti_outside.specs.Faults.{Rose};
ghost use Rattle.lti_outside.specs.DiskMoments.{OnlyReads};
ghost use Rattle.gate_journal.specs.Half.{length_bytes, IsFilled, IsPassed};
ghost use Rattle.gate_journal.specs.Pieces.{payloads_of, places_from};
ghost use Rattle.gate_journal.specs.declared.mount_fault.MountFault.TheVariants.{TooSmall, Damaged, DiskFault};

use crate::{MountFault, Piece};
use lti_outside::{Bytes, Disk, DiskFault};
use std::alloc::Global;

// Whether an open gate stands at a place.
fn is_open<D: Disk>(disk: &mut D, place: u64) -> Result<bool, DiskFault>
    requires { place < length (D.seen disk.old) }
    ensures gate { D.tells → IfOk result (λ is_open. IsTrue is_open ↔ (slice_index (D.seen disk.old) place ≡ 1)) }
    ensures reads { OnlyReads ⟦<D as Disk>⟧ disk.old disk.new }
    ensures failed { OnErr result (Rose (D.faults disk.old) (D.faults disk.new)) }
    ensures faults { OnOk result (D.faults disk.new ≡ D.faults disk.old) }
{
    let mut gate = [0u8; 1];
    disk.read_at(place, &mut gate)?;
    Ok(gate[0] == 1)
}

// The length at a place.
fn read_length<D: Disk>(disk: &mut D, place: u64) -> Result<u32, DiskFault>
    requires { place + 4 ≤ length (D.seen disk.old) }
    ensures value { D.tells → IfOk result (λ len. len ≡ from_be_bytes w32 (take 4 (drop place (D.seen disk.old)))) }
    ensures bytes { D.tells → IfOk result (λ len. length_bytes len ≡ take 4 (drop place (D.seen disk.old))) }
    ensures reads { OnlyReads ⟦<D as Disk>⟧ disk.old disk.new }
    ensures failed { OnErr result (Rose (D.faults disk.old) (D.faults disk.new)) }
    ensures faults { OnOk result (D.faults disk.new ≡ D.faults disk.old) }
{
    let mut bytes = [0u8; 4];
    disk.read_at(place, &mut bytes)?;
    Ok(length_of(&bytes))
}

// The length that 4 bytes spell.
fn length_of(bytes: &[u8]) -> u32
    requires { length bytes.now ≡ 4 }
    ensures value { result ≡ from_be_bytes w32 bytes.now }
    ensures bytes { length_bytes result ≡ bytes.now }
{
    u32::from_be_bytes([bytes[0], bytes[1], bytes[2], bytes[3]])
}

// Some bytes at a place.
fn read_bytes<D: Disk>(
    alloc: Global,
    disk: &mut D,
    place: u64,
    len: u64,
) -> Result<Vec<u8>, MountFault>
    requires { place + len ≤ length (D.seen disk.old) }
    ensures bytes { D.tells → IfOk result (λ bytes. bytes.items ≡ take len (drop place (D.seen disk.old))) }
    ensures len { IfOk result (λ bytes. length bytes.items ≡ len) }
    ensures never_small { (size : ℕ) → result ≡ Err (MountFault.TooSmall size) → ⊥ }
    ensures never_damaged { (at : ℕ) → result ≡ Err (MountFault.Damaged at) → ⊥ }
    ensures reads { OnlyReads ⟦<D as Disk>⟧ disk.old disk.new }
    ensures failed { result ≡ Err MountFault.DiskFault → Rose (D.faults disk.old) (D.faults disk.new) }
    ensures faults { OnOk result (D.faults disk.new ≡ D.faults disk.old) }
{
    let mut bytes = vec![in alloc; 0u8; len as usize]?;
    disk.read_at(place, bytes.as_mut_slice())?;
    Ok(bytes)
}

// The payload behind the open gate at a place, in a half that ends at another.
fn read_payload<D: Disk>(
    alloc: Global,
    disk: &mut D,
    end: u64,
    at: u64,
) -> Result<Vec<u8>, MountFault>
    requires inside { at < end }
    requires room { end ≤ length (D.seen disk.old) }
    requires small { end < 2 ^ 33 }
    ensures fits { IfOk result (λ payload. at + 5 + length payload.items < end) }
    ensures bytes { D.tells → IfOk result (λ payload. drop (at + 1) (D.seen disk.old)
        ≡ length_bytes (length payload.items) ++ payload.items ++ drop (at + 5 + length payload.items) (D.seen disk.old)) }
    ensures damaged { (place : ℕ) → result ≡ Err (MountFault.Damaged place) → place ≡ at }
    ensures passes { D.tells → (place : ℕ) → result ≡ Err (MountFault.Damaged place) → end < at + 6 + from_be_bytes w32 (take 4 (drop (at + 1) (D.seen disk.old))) }
    ensures never_small { (size : ℕ) → result ≡ Err (MountFault.TooSmall size) → ⊥ }
    ensures reads { OnlyReads ⟦<D as Disk>⟧ disk.old disk.new }
    ensures failed { result ≡ Err MountFault.DiskFault → Rose (D.faults disk.old) (D.faults disk.new) }
    ensures faults { OnOk result (D.faults disk.new ≡ D.faults disk.old) }
{
    if end - at < 6 {
        return Err(MountFault::Damaged { at });
    }
    let len = u64::from(read_length(disk, at + 1)?);
    if len > end - at - 6 {
        return Err(MountFault::Damaged { at });
    }
    read_bytes(alloc, disk, at + 5, len)
}

/// The pieces of the half that begins at `base`, and the place in it of the gate behind them.
pub fn read_pieces<D: Disk>(
    alloc: Global,
    disk: &mut D,
    base: u64,
    half: u64,
) -> Result<(u64, Vec<Piece>), MountFault>
    requires low { 64 ≤ half }
    requires room { base + half ≤ length (D.seen disk.old) }
    requires small { base + half < 2 ^ 33 }
    ensures filled { D.tells → IfOk result (λ read. IsFilled (D.seen disk.old) base half read.0 (payloads_of read.1.items)) }
    ensures inside { IfOk result (λ read. read.0 < half) }
    ensures places { IfOk result (λ read. map (λ piece. piece.at) read.1.items ≡ places_from (base + 9) (payloads_of read.1.items)) }
    ensures damaged { D.tells → (at : ℕ) → result ≡ Err (MountFault.Damaged at) → (gate : ℕ) × (at ≡ base + gate) × IsPassed (D.seen disk.old) base half gate }
    ensures never_small { (size : ℕ) → result ≡ Err (MountFault.TooSmall size) → ⊥ }
    ensures reads { OnlyReads ⟦<D as Disk>⟧ disk.old disk.new }
    ensures failed { result ≡ Err MountFault.DiskFault → Rose (D.faults disk.old) (D.faults disk.new) }
    ensures faults { OnOk result (D.faults disk.new ≡ D.faults disk.old) }
{
    let end = base + half;
    let mut pieces = Vec::new(alloc);
    let mut at = base + 9;
    while is_open(disk, at)? {
        let payload = read_payload(alloc, disk, end, at)?;
        let next = at + 5 + payload.len() as u64;
        pieces.push(Piece {
            at,
            payload: Bytes::from_vec(payload),
        })?;
        at = next;
    }
    Ok((at - base, pieces))
}
