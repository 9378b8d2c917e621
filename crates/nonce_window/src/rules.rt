// When a nonce is forgotten, and the entry that stands for one.
ghost use Rattle.std.specs.Prelude.{◌≡◌, ◌-◌, ◌/◌, ℕ, IfOk};
ghost use Rattle.lti_machine.specs.Nonces as nonces;
ghost use Rattle.nonce_window.specs.Fresh.{signed, staying};
ghost use Rattle.nonce_window.specs.Sizes.{capped, used_size};

use lti_machine::{Effect, Entry};
use lti_outside::{NoMemory, Text};
use std::alloc::Global;

/// The first minute since 1970 whose nonces aren't forgotten at the moment `now`.
pub(crate) fn first_minute(now: u64) -> u64
    ensures { result ≡ now / 60 - 90 }
{
    (now / 60).saturating_sub(90)
}

// The bytes that a digest has for a nonce besides its texts: the entry's form and effect in one each, its moment and timestamp
// in 8 each, the lengths of its key and nonce in 4 each, and the five before it.
const BESIDES_TEXTS: u64 = 31;

/// How many bytes a digest has for this nonce of this key, whatever its timestamp, or 2^64 - 1 where they are more.
pub(crate) fn nonce_size(key: &str, nonce: &str) -> u64
    ensures { (timestamp : ℕ) → result ≡ capped (used_size (record { key = key.now; stamp = record { timestamp = timestamp; nonce = nonce.now } })) }
{
    (key.len() as u64)
        .saturating_add(nonce.len() as u64)
        .saturating_add(BESIDES_TEXTS)
}

/// An entry of this nonce. No rule of the window reads an entry's moment or its effect.
pub(crate) fn entry(
    alloc: Global,
    key: &str,
    timestamp: u64,
    nonce: &str,
) -> Result<Entry, NoMemory>
    ensures key { IfOk result (λ made. made.key ≡ key.now) }
    ensures stamp { IfOk result (λ made. nonces.stamp_of made ≡ record { timestamp = timestamp; nonce = nonce.now }) }
{
    Ok(Entry {
        moment: 0,
        key: Text::new(alloc, key)?,
        timestamp,
        nonce: Text::new(alloc, nonce)?,
        effect: Effect::Nothing,
    })
}

/// The entry, if it has a nonce.
pub(crate) fn with_nonce(entry: Option<Entry>) -> Option<Entry>
    ensures { result ≡ signed entry }
{
    match entry {
        Some(entry) if !entry.nonce.get().is_empty() => Some(entry),
        _ => None,
    }
}

/// The entry, if its timestamp is in the minute `first` or later.
pub(crate) fn from_minute(entry: Option<Entry>, first: u64) -> Option<Entry>
    ensures { result ≡ staying first entry }
{
    match entry {
        Some(entry) if first <= entry.timestamp / 60 => Some(entry),
        _ => None,
    }
}
