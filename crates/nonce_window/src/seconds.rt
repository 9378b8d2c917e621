// Some seconds of a minute.
ghost use Rattle.std.specs.Prelude.{◌≡◌, ◌<◌, ◌+◌, [], ◌∷◌, ◌++◌, nat_eq, false, IfOk, OnOk, if◌then◌else◌};
ghost use Rattle.std.specs.Int.{bit_at};
ghost use Rattle.std.specs.List.{list_any, sum_by};
ghost use Rattle.nonce_window.specs.Added.{IsAdded};
ghost use Rattle.nonce_window.specs.Sizes.{capped};

use lti_outside::NoMemory;
use std::alloc::Global;
use std::marker::Model;

/// Some of the 60 seconds of a minute, in eight bytes.
#[derive(Drop)]
pub(crate) struct Seconds {
    bits: u64,
}

impl Model for Seconds {
    ghost use Rattle.std.specs.Prelude.{ℕ, List};
    ghost use Rattle.nonce_window.specs.Minutes.{seconds_of};

    ghost Value = { List ℕ };

    ghost view = { λ s. seconds_of s.bits };
}

// Whether the bit of a second is set.
fn is_set(bits: u64, second: u64) -> bool
    requires { second < 60 }
    ensures { result ≡ nat_eq (bit_at bits second) 1 }
{
    bits >> second & 1 == 1
}

// Appends a second, where it is asked to.
fn push_where(wanted: bool, seconds: &mut Vec<u64>, second: u64) -> Result<(), NoMemory>
    ensures { OnOk result (seconds.new.items ≡ seconds.old.items ++ (if wanted then second ∷ [] else [])) }
{
    if !wanted {
        return Ok(());
    }
    seconds.push(second)?;
    Ok(())
}

impl Seconds {
    /// No second.
    pub(crate) fn none() -> Seconds
        ensures { result ≡ [] }
    {
        Seconds { bits: 0 }
    }

    /// Whether the second is among them.
    pub(crate) fn has(&self, second: u64) -> bool
        requires { second < 60 }
        ensures { result ≡ list_any (nat_eq second) self.now }
    {
        is_set(self.bits, second)
    }

    /// They, in order.
    pub(crate) fn list(&self, alloc: Global) -> Result<Vec<u64>, NoMemory>
        ensures { IfOk result (λ seconds. seconds.items ≡ self.now) }
    {
        let bits = self.bits;
        let mut seconds = Vec::new(alloc);
        for second in 0..60 {
            push_where(is_set(bits, second), &mut seconds, second)?;
        }
        Ok(seconds)
    }

    /// `size` with `each` more for each of them, or 2^64 - 1 where that is more.
    pub(crate) fn size(&self, each: u64, size: u64) -> u64
        ensures { result ≡ capped (size + sum_by (λ _. each) self.now) }
    {
        let bits = self.bits;
        let mut total = size;
        for second in 0..60 {
            if is_set(bits, second) {
                total = total.saturating_add(each);
            }
        }
        total
    }

    /// Adds a second that isn't among them.
    pub(crate) fn add(&mut self, second: u64)
        requires within { second < 60 }
        requires new { list_any (nat_eq second) self.old ≡ false }
        ensures { IsAdded self.old second self.new }
    {
        self.bits |= 1 << second;
    }
}
