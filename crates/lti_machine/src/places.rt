// Where in the list a nonce may stand.
ghost use Rattle.std.specs.Prelude.{◌≡◌, nat_eq, true, List, is_some, OnOk};
ghost use Rattle.std.specs.List.{fold};
ghost use Rattle.std.specs.HashMap.{get};
ghost use Rattle.lti_machine.specs.declared.entry.Entry.{Entry};
ghost use Rattle.lti_machine.specs.Places.{IsIndexed, mixed, hash_of};

use lti_outside::{NoMemory, Text};
use std::collections::HashMap;

/// From the hash of a key, a timestamp and a nonce to the place of the last entry that has it. Each
/// entry's hash is there. The place is only where to look first, since entries may share a hash.
pub(crate) type Places = HashMap<u64, u32>;

// An odd number whose bits are well mixed: the prime of the FNV hashes at 64 bits.
const FACTOR: u64 = 1_099_511_628_211;

/// The hash of a key, a timestamp and a nonce.
pub(crate) fn hash_of(key: &Text, timestamp: u64, nonce: &Text) -> u64
    ensures { result ≡ hash_of key.now (record { timestamp = timestamp; nonce = nonce.now }) }
{
    hash_with(hash_with(timestamp, key), nonce)
}

// The hash with the bytes of a text.
fn hash_with(hash: u64, text: &Text) -> u64
    ensures { result ≡ fold mixed hash text.now }
{
    let mut mixed = hash;
    for byte in text.get().as_bytes() {
        mixed = mixed.wrapping_mul(FACTOR).wrapping_add(u64::from(*byte));
    }
    mixed
}

/// Gives the hash a place. On `NoMemory` no place is lost.
pub(crate) fn set_place(places: &mut Places, hash: u64, place: u32) -> Result<(), NoMemory>
    ensures placed { OnOk result (is_some (get nat_eq places.new hash) ≡ true) }
    ensures stay { (entries : List Entry) → IsIndexed (get nat_eq places.old) entries
        → IsIndexed (get nat_eq places.new) entries }
{
    if places.insert(hash, place).is_err() {
        return Err(NoMemory);
    }
    Ok(())
}
