// The nonces that may still be used again.
ghost use Rattle.std.specs.Prelude.{◌≡◌, ◌<◌, ◌≤◌, ◌^◌, ◌-◌, ◌/◌, ◌&&◌, [], length, false, nat_le, filter, count_by, map, IfOk, OnOk, OnErr};
ghost use Rattle.std.specs.List.{sum_by, AllByRecursion};
ghost use Rattle.lti_machine.specs.Nonces.{stands, is_live, is_of_key};
ghost use Rattle.nonce_window.specs.Added.{IsAdded};
ghost use Rattle.nonce_window.specs.Nonces.{plain};
ghost use Rattle.nonce_window.specs.Sizes.{capped, entry_size};
ghost use Rattle.nonce_window.specs.Triples.{plain_of};

use crate::keys::Keys;
use crate::table::{self, Table};
use crate::triple::Triple;
use lti_outside::NoMemory;
use std::alloc::Global;
use std::collections::BTreeMap;
use std::marker::Model;

/// Nonces with their keys and timestamps, each once. They lie by minute and key, so that whole minutes are forgotten at
/// once; beside each key stands how many it has, and beside each minute how many the key has in it.
#[derive(Drop)]
pub(crate) struct Nonces {
    keys: Keys,
    counts: Vec<u32>,
    table: Table,
}

impl Model for Nonces {
    ghost use Rattle.std.specs.Prelude.{List};
    ghost use Rattle.lti_machine.specs.declared.entry.Entry.{Entry};
    ghost use Rattle.nonce_window.specs.Nonces.{entries_of};

    ghost Value = { List Entry };

    ghost view = { λ n. entries_of n.keys n.table.entries };

    ghost use Rattle.nonce_window.specs.InsideNonces.{IsSound};

    ghost invariant = { IsSound };
}

impl Nonces {
    pub(crate) fn new(alloc: Global) -> Nonces
        ensures { result ≡ [] }
    {
        Nonces {
            keys: Keys::new(alloc),
            counts: Vec::new(alloc),
            table: BTreeMap::new(alloc),
        }
    }

    /// Whether the nonce was used with this timestamp and this key.
    pub(crate) fn uses(&self, key: &str, timestamp: u64, nonce: &str) -> bool
        ensures { result ≡ stands self.now key.now (record { timestamp = timestamp; nonce = nonce.now }) }
    {
        let Some(number) = self.keys.number(key) else {
            return false;
        };
        match self.table.get(&(timestamp / 60, number)) {
            Some(minute) => minute.holds(timestamp % 60, nonce),
            None => false,
        }
    }

    /// How many nonces of the key have a timestamp in the minute `last` or later, where all have one in the minute `first`
    /// or later: a look-up of the key and one for each minute from `first` to `last`.
    pub(crate) fn count(&self, key: &str, first: u64, last: u64) -> u32
        requires range { first ≤ last }
        requires from { AllByRecursion (λ e. first ≤ e.timestamp / 60) self.now }
        ensures { result ≡ count_by (λ e. is_of_key key.now e && nat_le last (e.timestamp / 60)) self.now }
    {
        let Some(number) = self.keys.number(key) else {
            return 0;
        };
        table::count_from(
            &self.table,
            self.counts[number as usize],
            number,
            first,
            last,
        )
    }

    /// Adds a nonce that wasn't used. On `NoMemory` nothing has changed.
    pub(crate) fn add(
        &mut self,
        alloc: Global,
        key: &str,
        timestamp: u64,
        nonce: &str,
    ) -> Result<(), NoMemory>
        requires signed { 0 < length nonce.now }
        requires new { stands self.old key.now (record { timestamp = timestamp; nonce = nonce.now }) ≡ false }
        requires room { count_by (is_of_key key.now) self.old < 2 ^ 32 - 1 }
        ensures added { OnOk result (IsAdded self.old (plain key.now (record { timestamp = timestamp; nonce = nonce.now })) self.new) }
        ensures err { OnErr result (self.new ≡ self.old) }
    {
        let number = table::number_for(&mut self.keys, &mut self.counts, key)?;
        table::add_at(
            &mut self.table,
            alloc,
            (timestamp / 60, number),
            timestamp % 60,
            nonce,
        )?;
        self.counts[number as usize] += 1;
        Ok(())
    }

    /// Those whose timestamp is in the minute `first` or later.
    pub(crate) fn list(&self, alloc: Global, first: u64) -> Result<Vec<Triple>, NoMemory>
        ensures { IfOk result (λ triples. map plain_of triples.items ≡ filter (λ e. nat_le first (e.timestamp / 60)) self.now) }
    {
        let mut triples = Vec::new(alloc);
        table::list(&self.table, &self.keys, alloc, first, &mut triples)?;
        Ok(triples)
    }

    /// How many bytes a digest has for those whose timestamp is in the minute `first` or later, or 2^64 - 1 where they are
    /// more.
    pub(crate) fn size(&self, first: u64) -> u64
        ensures { result ≡ capped (sum_by entry_size (filter (λ e. nat_le first (e.timestamp / 60)) self.now)) }
    {
        table::size(&self.table, &self.keys, first)
    }

    /// Forgets all whose timestamp is in an earlier minute than `first`.
    pub(crate) fn forget(&mut self, first: u64)
        ensures { self.new ≡ filter (λ e. nat_le first (e.timestamp / 60)) self.old }
    {
        table::forget(&mut self.table, &mut self.counts, first);
    }
}
