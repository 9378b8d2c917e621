// The heads of the two halves, and which of them is current.
ghost use Rattle.std.specs.Prelude.{◌≡◌, ◌+◌, ◌≤◌, length, if◌then◌else◌, IfOk, OnOk, OnErr};
ghost use Rattle.lti_outside.specs.Faults.{Rose};
ghost use Rattle.lti_outside.specs.DiskMoments.{OnlyReads};
ghost use Rattle.gate_journal.specs.Half.{opens, generation_at, picks_second, picked};

use crate::frames::read_generation;
use lti_outside::{Disk, DiskFault};

/// The gate and the generation of a half.
#[derive(Clone, Copy)]
pub struct Head {
    pub is_open: bool,
    pub generation: u64,
}

/// The current half: which it is, its generation, whether its gate is open and whether that of the other is.
#[derive(Clone, Copy)]
pub struct Current {
    pub is_second: bool,
    pub generation: u64,
    pub is_open: bool,
    pub may_open: bool,
}

impl Current {
    /// Where the current half begins.
    pub fn base(self, half: u64) -> u64
        ensures base { result ≡ (if self.is_second then half else 0) }
        ensures within { result ≤ half }
    {
        if self.is_second { half } else { 0 }
    }
}

// The head that nine bytes spell.
fn head_of(bytes: &[u8]) -> Head
    requires { length bytes.now ≡ 9 }
    ensures gate { result.is_open ≡ opens bytes.now 0 }
    ensures generation { result.generation ≡ generation_at bytes.now 0 }
{
    Head {
        is_open: bytes[0] == 1,
        generation: read_generation(&bytes[1..]),
    }
}

/// The head of the half that begins at a place.
pub fn read_head<D: Disk>(disk: &mut D, base: u64) -> Result<Head, DiskFault>
    requires { base + 9 ≤ length (D.seen disk.old) }
    ensures gate { D.tells → IfOk result (λ head. head.is_open ≡ opens (D.seen disk.old) base) }
    ensures generation { D.tells → IfOk result (λ head. head.generation ≡ generation_at (D.seen disk.old) base) }
    ensures reads { OnlyReads ⟦<D as Disk>⟧ disk.old disk.new }
    ensures failed { OnErr result (Rose (D.faults disk.old) (D.faults disk.new)) }
    ensures faults { OnOk result (D.faults disk.new ≡ D.faults disk.old) }
{
    let mut bytes = [0u8; 9];
    disk.read_at(base, &mut bytes)?;
    Ok(head_of(&bytes))
}

/// The open half of greater generation, half 0 where they are equal, and half 0 with generation 0 where
/// none is open.
pub fn current_of(first: Head, second: Head) -> Current
    ensures second { result.is_second ≡ picks_second first.is_open second.is_open first.generation second.generation }
    ensures generation { result.generation ≡ picked first.is_open second.is_open first.generation second.generation }
    ensures open { result.is_open ≡ (if result.is_second then second.is_open else first.is_open) }
    ensures may_open { result.may_open ≡ (if result.is_second then first.is_open else second.is_open) }
{
    if second.is_open && (!first.is_open || first.generation < second.generation) {
        return Current {
            is_second: true,
            generation: second.generation,
            is_open: second.is_open,
            may_open: first.is_open,
        };
    }
    Current {
        is_second: false,
        generation: if first.is_open { first.generation } else { 0 },
        is_open: first.is_open,
        may_open: second.is_open,
    }
}
