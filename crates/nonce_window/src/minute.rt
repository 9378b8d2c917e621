// The nonces of one key in one minute.
ghost use Rattle.std.specs.Prelude.{◌≡◌, ◌<◌, ◌^◌, ◌+◌, ◌-◌, ◌++◌, ℕ, [], map, length, false, IsSome, OnOk, OnErr};
ghost use Rattle.std.specs.BTreeMap.{get_by_text};
ghost use Rattle.std.specs.List.{list_any, sum_by, AllByRecursion};
ghost use Rattle.std.specs.List.Sorted.{IsStrictlySortedBy};
ghost use Rattle.std.specs.Map.{keys_of};
ghost use Rattle.std.specs.String.{string_cmp};
ghost use Rattle.lti_machine.specs.Nonces.{same_stamp};
ghost use Rattle.nonce_window.specs.Added.{IsAdded};
ghost use Rattle.nonce_window.specs.Minutes.{stamps_at, stamps_of};
ghost use Rattle.nonce_window.specs.Nonces.{plain_in, IsWithin};
ghost use Rattle.nonce_window.specs.Sizes.{capped, entry_size};
ghost use Rattle.nonce_window.specs.Triples.{plain_of};

use crate::rules;
use crate::seconds::Seconds;
use crate::triple::Triple;
use lti_outside::NoMemory;
use std::alloc::Global;
use std::collections::BTreeMap;
use std::marker::Model;

/// The nonces of one key whose timestamps lie in one minute, each with the seconds of the minute at which it was used. A
/// look-up compares texts in an ordered tree, so that whoever chooses the nonces can't make it slow.
#[derive(Drop)]
pub(crate) struct Minute {
    nonces: BTreeMap<String, Seconds>,
    count: u32,
}

impl Model for Minute {
    ghost use Rattle.std.specs.Prelude.{List};
    ghost use Rattle.lti_machine.specs.Nonces.{Stamp};
    ghost use Rattle.nonce_window.specs.Minutes.{stamps_of};

    ghost Value = { List Stamp };

    ghost view = { λ m. stamps_of m.nonces.entries };

    ghost use Rattle.nonce_window.specs.InsideMinute.{IsMinute};

    ghost invariant = { λ m. IsMinute m.nonces.entries m.count };
}

// Adds a second at which a nonce wasn't used. On `NoMemory` there are the same stamps.
fn add_second(
    nonces: &mut BTreeMap<String, Seconds>,
    alloc: Global,
    second: u64,
    nonce: &str,
) -> Result<(), NoMemory>
    requires within { second < 60 }
    requires ordered { IsStrictlySortedBy string_cmp (keys_of nonces.old.entries) }
    requires new { list_any (same_stamp (record { timestamp = second; nonce = nonce.now })) (stamps_of nonces.old.entries) ≡ false }
    ensures added { OnOk result (IsAdded (stamps_of nonces.old.entries) (record { timestamp = second; nonce = nonce.now }) (stamps_of nonces.new.entries)) }
    ensures err { OnErr result (stamps_of nonces.new.entries ≡ stamps_of nonces.old.entries) }
    ensures ordered { IsStrictlySortedBy string_cmp (keys_of nonces.new.entries) }
{
    if nonces.contains_key(nonce) {
        add_to(nonces, second, nonce);
        return Ok(());
    }
    let mut seconds = Seconds::none();
    seconds.add(second);
    let nonce = String::from_str(alloc, nonce)?;
    nonces.insert(nonce, seconds)?;
    Ok(())
}

// Adds a second to those of a nonce that is there.
fn add_to(nonces: &mut BTreeMap<String, Seconds>, second: u64, nonce: &str)
    requires within { second < 60 }
    requires ordered { IsStrictlySortedBy string_cmp (keys_of nonces.old.entries) }
    requires there { IsSome (get_by_text nonces.old nonce.now) }
    requires new { list_any (same_stamp (record { timestamp = second; nonce = nonce.now })) (stamps_of nonces.old.entries) ≡ false }
    ensures added { IsAdded (stamps_of nonces.old.entries) (record { timestamp = second; nonce = nonce.now }) (stamps_of nonces.new.entries) }
    ensures ordered { IsStrictlySortedBy string_cmp (keys_of nonces.new.entries) }
{
    if let Some(seconds) = nonces.get_mut(nonce) {
        seconds.add(second);
    }
}

// Appends nonces with their seconds.
fn list_nonces(
    nonces: &BTreeMap<String, Seconds>,
    alloc: Global,
    key: &str,
    minute: u64,
    triples: &mut Vec<Triple>,
) -> Result<(), NoMemory>
    requires { AllByRecursion (IsWithin minute) (stamps_of nonces.now.entries) }
    ensures { OnOk result (map plain_of triples.new.items ≡ map plain_of triples.old.items ++ map (plain_in key.now minute) (stamps_of nonces.now.entries)) }
{
    for (nonce, seconds) in nonces {
        list_nonce(alloc, key, minute, nonce, seconds, triples)?;
    }
    Ok(())
}

// Appends a nonce at each of its seconds.
fn list_nonce(
    alloc: Global,
    key: &str,
    minute: u64,
    nonce: &String,
    seconds: &Seconds,
    triples: &mut Vec<Triple>,
) -> Result<(), NoMemory>
    requires { AllByRecursion (IsWithin minute) (stamps_at (nonce.now, seconds.now)) }
    ensures { OnOk result (map plain_of triples.new.items ≡ map plain_of triples.old.items ++ map (plain_in key.now minute) (stamps_at (nonce.now, seconds.now))) }
{
    let seconds = seconds.list(alloc)?;
    for second in seconds {
        let timestamp = minute * 60 + second;
        triples.push(Triple::new(alloc, key, timestamp, nonce.as_str())?)?;
    }
    Ok(())
}

// `size` with the bytes that a digest has for nonces of a key, or 2^64 - 1 where that is more.
fn size_with(nonces: &BTreeMap<String, Seconds>, key: &str, size: u64) -> u64
    ensures { (minute : ℕ) → result ≡ capped (size + sum_by entry_size (map (plain_in key.now minute) (stamps_of nonces.now.entries))) }
{
    let mut total = size;
    for (nonce, seconds) in nonces {
        total = seconds.size(rules::nonce_size(key, nonce.as_str()), total);
    }
    total
}

impl Minute {
    /// A minute without nonces.
    pub(crate) fn new(alloc: Global) -> Minute
        ensures { result ≡ [] }
    {
        Minute {
            nonces: BTreeMap::new(alloc),
            count: 0,
        }
    }

    /// Whether the nonce was used at this second of the minute.
    pub(crate) fn holds(&self, second: u64, nonce: &str) -> bool
        requires { second < 60 }
        ensures { result ≡ list_any (same_stamp (record { timestamp = second; nonce = nonce.now })) self.now }
    {
        match self.nonces.get(nonce) {
            Some(seconds) => seconds.has(second),
            None => false,
        }
    }

    /// Adds a nonce at a second of the minute at which it wasn't used. On `NoMemory` nothing has changed.
    pub(crate) fn add(&mut self, alloc: Global, second: u64, nonce: &str) -> Result<(), NoMemory>
        requires within { second < 60 }
        requires new { list_any (same_stamp (record { timestamp = second; nonce = nonce.now })) self.old ≡ false }
        requires room { length self.old < 2 ^ 32 - 1 }
        ensures added { OnOk result (IsAdded self.old (record { timestamp = second; nonce = nonce.now }) self.new) }
        ensures err { OnErr result (self.new ≡ self.old) }
    {
        add_second(&mut self.nonces, alloc, second, nonce)?;
        self.count += 1;
        Ok(())
    }

    /// Appends its nonces under a key, where `minute` is its own number.
    pub(crate) fn list(
        &self,
        alloc: Global,
        key: &str,
        minute: u64,
        triples: &mut Vec<Triple>,
    ) -> Result<(), NoMemory>
        requires { AllByRecursion (IsWithin minute) self.now }
        ensures { OnOk result (map plain_of triples.new.items ≡ map plain_of triples.old.items ++ map (plain_in key.now minute) self.now) }
    {
        list_nonces(&self.nonces, alloc, key, minute, triples)
    }

    /// `size` with the bytes that a digest has for its nonces under a key, or 2^64 - 1 where that is more.
    pub(crate) fn size(&self, key: &str, size: u64) -> u64
        ensures { (minute : ℕ) → result ≡ capped (size + sum_by entry_size (map (plain_in key.now minute) self.now)) }
    {
        size_with(&self.nonces, key, size)
    }

    /// How many nonces it has, each counted at each of its seconds.
    pub(crate) fn count(&self) -> u32
        ensures { result ≡ length self.now }
    {
        self.count
    }
}
