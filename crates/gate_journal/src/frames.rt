// The bytes that are written behind a gate.
ghost use Rattle.std.specs.Prelude.{◌≡◌, ◌^◌, ◌<◌, ◌≤◌, ◌∷◌, ◌++◌, [], length, map, All, IfOk, OnOk};
ghost use Rattle.gate_journal.specs.Half.{framed, payload_of, packed_of, packed_generation, blocks, IsFrame, IsPacked};

use lti_outside::{Bytes, NoMemory};
use std::alloc::Global;

/// What a commit writes behind the end gate: the length of the payload in 4 bytes, big-endian, the payload
/// and a closed gate.
pub fn frame(alloc: Global, payload: &[u8]) -> Result<Bytes, NoMemory>
    requires not_empty { 1 ≤ length payload.now }
    requires short { length payload.now < 2 ^ 32 }
    ensures bytes { IfOk result (λ bytes. bytes.list ≡ framed payload.now) }
    ensures frame { IfOk result (λ bytes. IsFrame bytes.list) }
    ensures payload { IfOk result (λ bytes. payload_of bytes.list ≡ payload.now) }
{
    let mut framed = Bytes::new(alloc);
    let len = payload.len() as u32;
    framed.reserve(payload.len() + 5)?;
    framed.push(&len.to_be_bytes())?;
    framed.push(payload)?;
    framed.push(&[0])?;
    Ok(framed)
}

/// What a compaction writes behind the gate of the other half: the generation in 8 bytes, big-endian, each
/// piece behind an open gate, and a closed gate.
pub fn pack(alloc: Global, generation: u64, pieces: &[Bytes]) -> Result<Bytes, NoMemory>
    requires { All (λ piece. length piece.list < 2 ^ 32) pieces.now }
    ensures bytes { IfOk result (λ bytes. bytes.list ≡ packed_of generation (map (λ piece. piece.list) pieces.now)) }
    ensures packed { IfOk result (λ bytes. IsPacked generation bytes.list) }
{
    let mut packed = Bytes::new(alloc);
    packed.push(&generation.to_be_bytes())?;
    for piece in pieces {
        push_piece(&mut packed, piece.get())?;
    }
    packed.push(&[0])?;
    Ok(packed)
}

// Appends an open piece.
fn push_piece(bytes: &mut Bytes, payload: &[u8]) -> Result<(), NoMemory>
    requires { length payload.now < 2 ^ 32 }
    ensures { OnOk result (bytes.new.list ≡ bytes.old.list ++ blocks (payload.now ∷ [])) }
{
    let len = payload.len() as u32;
    bytes.push(&[1])?;
    bytes.push(&len.to_be_bytes())?;
    bytes.push(payload)?;
    Ok(())
}

// The generation of packed pieces.
pub(crate) fn read_generation(packed: &[u8]) -> u64
    requires { 8 ≤ length packed.now }
    ensures { result ≡ packed_generation packed.now }
{
    let mut generation = [0; 8];
    generation.copy_from_slice(&packed[..8]);
    u64::from_be_bytes(generation)
}
