// The minutes in which keys have nonces, in an ordered tree.
ghost use Rattle.std.specs.Prelude.{◌≡◌, ◌<◌, ◌≤◌, ◌^◌, ◌+◌, ◌-◌, ◌∷◌, ◌++◌, ℕ, map, true, slice_get, length, filter, nat_le, false, Some, IfSome, IfNone, IfOk, OnOk, OnErr, IsSome};
ghost use Rattle.std.specs.List.{list_any, sum_by, All, AllByRecursion};
ghost use Rattle.std.specs.Map.{keys_of};
ghost use Rattle.std.specs.BTreeMap.{get, IsOrdered};
ghost use Rattle.lti_machine.specs.Nonces.{same_stamp};
ghost use Rattle.nonce_window.specs.Keys.{IsNumber};
ghost use Rattle.nonce_window.specs.Nonces as nonces;
ghost use Rattle.nonce_window.specs.Nonces.{IsTable, AreCounted, entries_of, place_cmp, total, AreWithin};
ghost use Rattle.nonce_window.specs.Placed.{IsPlaced};
ghost use Rattle.nonce_window.specs.Sizes.{capped, entry_size};
ghost use Rattle.nonce_window.specs.Triples.{plain_of};

use crate::keys::Keys;
use crate::minute::Minute;
use crate::triple::Triple;
use lti_outside::NoMemory;
use std::alloc::Global;
use std::collections::BTreeMap;

/// The nonces of each key in each minute, by the minute since 1970 and the number of the key.
pub(crate) type Table = BTreeMap<(u64, u32), Minute>;

/// The number of a key, which gets one if it has none, with a count of no nonces. On `NoMemory` nothing has changed.
pub(crate) fn number_for(keys: &mut Keys, counts: &mut Vec<u32>, key: &str) -> Result<u32, NoMemory>
    requires { length counts.old.items ≡ length keys.old }
    ensures number { IfOk result (λ number. IsNumber keys.new key.now (Some number)) }
    ensures long { length counts.new.items ≡ length keys.new }
    ensures counted { (entries : nonces.Table) → AreCounted counts.old.items entries → AreCounted counts.new.items entries }
    ensures same { (entries : nonces.Table) → AreCounted counts.old.items entries → entries_of keys.new entries ≡ entries_of keys.old entries }
{
    if let Some(number) = keys.number(key) {
        return Ok(number);
    }
    counts.reserve(1)?;
    let number = keys.add(key)?;
    counts.push_reserved(0);
    Ok(number)
}

/// Adds a nonce at a second of a minute of a key at which it wasn't used. On `NoMemory` nothing has changed.
pub(crate) fn add_at(
    table: &mut Table,
    alloc: Global,
    place: (u64, u32),
    second: u64,
    nonce: &str,
) -> Result<(), NoMemory>
    requires ordered { IsOrdered place_cmp table.old }
    requires within { second < 60 }
    requires new { IfSome (get place_cmp table.old place) (λ stamps. list_any (same_stamp (record { timestamp = second; nonce = nonce.now })) stamps ≡ false) }
    requires room { IfSome (get place_cmp table.old place) (λ stamps. length stamps < 2 ^ 32 - 1) }
    ensures placed { OnOk result (IsPlaced table.old.entries place (record { timestamp = second; nonce = nonce.now }) table.new.entries) }
    ensures ordered { IsOrdered place_cmp table.new }
    ensures err { OnErr result (table.new.entries ≡ table.old.entries) }
{
    if table.contains_key(&place) {
        return add_to(table, alloc, place, second, nonce);
    }
    let mut minute = Minute::new(alloc);
    minute.add(alloc, second, nonce)?;
    table.insert(place, minute)?;
    Ok(())
}

// Adds a nonce to a minute of a key that is there.
fn add_to(
    table: &mut Table,
    alloc: Global,
    place: (u64, u32),
    second: u64,
    nonce: &str,
) -> Result<(), NoMemory>
    requires ordered { IsOrdered place_cmp table.old }
    requires within { second < 60 }
    requires there { IsSome (get place_cmp table.old place) }
    requires new { IfSome (get place_cmp table.old place) (λ stamps. list_any (same_stamp (record { timestamp = second; nonce = nonce.now })) stamps ≡ false) }
    requires room { IfSome (get place_cmp table.old place) (λ stamps. length stamps < 2 ^ 32 - 1) }
    ensures placed { OnOk result (IsPlaced table.old.entries place (record { timestamp = second; nonce = nonce.now }) table.new.entries) }
    ensures ordered { IsOrdered place_cmp table.new }
    ensures err { OnErr result (table.new.entries ≡ table.old.entries) }
{
    match table.get_mut(&place) {
        Some(minute) => {
            minute.add(alloc, second, nonce)?;
            Ok(())
        }
        None => Ok(()),
    }
}

/// Forgets the minutes before `first`, with their counts.
pub(crate) fn forget(table: &mut Table, counts: &mut Vec<u32>, first: u64)
    requires ordered { IsOrdered place_cmp table.old }
    requires counted { AreCounted counts.old.items table.old.entries }
    ensures entries { table.new.entries ≡ filter (λ e. nat_le first e.0.0) table.old.entries }
    ensures counted { AreCounted counts.new.items table.new.entries }
    ensures long { length counts.new.items ≡ length counts.old.items }
    ensures ordered { IsOrdered place_cmp table.new }
{
    while let Some((place, minute)) = pop_before(table, first) {
        counts[place.1 as usize] -= minute.count();
    }
}

// Takes the first minute of a key out, where it is before `first`.
fn pop_before(table: &mut Table, first: u64) -> Option<((u64, u32), Minute)>
    requires { IsOrdered place_cmp table.old }
    ensures popped { IfSome result (λ p. table.old.entries ≡ p ∷ table.new.entries) }
    ensures before { IfSome result (λ p. p.0.0 < first) }
    ensures unchanged { IfNone result (table.new.entries ≡ table.old.entries) }
    ensures none { IfNone result (All (λ q. first ≤ q.0) (keys_of table.new.entries)) }
    ensures ordered { IsOrdered place_cmp table.new }
{
    if !begins_before(table, first) {
        return None;
    }
    table.pop_first()
}

// Whether the first minute is before this one.
fn begins_before(table: &Table, first: u64) -> bool
    ensures yes { result ≡ true → IfSome (slice_get table.now.entries 0) (λ e. e.0.0 < first) }
    ensures some { result ≡ true → IsSome (slice_get table.now.entries 0) }
    ensures no { result ≡ false → All (λ q. first ≤ q.0) (keys_of table.now.entries) }
{
    match table.first_key_value() {
        Some((place, _)) => place.0 < first,
        None => false,
    }
}

/// Appends the nonces from the minute `first` on.
pub(crate) fn list(
    table: &Table,
    keys: &Keys,
    alloc: Global,
    first: u64,
    triples: &mut Vec<Triple>,
) -> Result<(), NoMemory>
    requires numbered { AllByRecursion (λ e. e.0.1 < length keys.now) table.now.entries }
    requires within { AllByRecursion AreWithin table.now.entries }
    ensures { OnOk result (map plain_of triples.new.items ≡ map plain_of triples.old.items ++ entries_of keys.now (filter (λ e. nat_le first e.0.0) table.now.entries)) }
{
    for (place, minute) in table {
        if first <= place.0 {
            minute.list(alloc, keys.key(place.1), place.0, triples)?;
        }
    }
    Ok(())
}

/// How many bytes a digest has for the nonces from the minute `first` on, or 2^64 - 1 where they are more.
pub(crate) fn size(table: &Table, keys: &Keys, first: u64) -> u64
    requires { AllByRecursion (λ e. e.0.1 < length keys.now) table.now.entries }
    ensures { result ≡ capped (sum_by entry_size (entries_of keys.now (filter (λ e. nat_le first e.0.0) table.now.entries))) }
{
    let mut total = 0;
    for (place, minute) in table {
        if first <= place.0 {
            total = minute.size(keys.key(place.1), total);
        }
    }
    total
}

/// How many of the `count` nonces of a key lie in the minute `last` or later, where all lie in the minute `first` or later.
pub(crate) fn count_from(table: &Table, count: u32, number: u32, first: u64, last: u64) -> u32
    requires ordered { IsOrdered place_cmp table.now }
    requires range { first ≤ last }
    requires all { count ≡ total number first table.now.entries }
    ensures { result ≡ total number last table.now.entries }
{
    if ends_before(table, last) {
        return 0;
    }
    let mut left = count;
    for minute in first..last {
        left -= count_in(table, minute, number);
    }
    left
}

// How many nonces a key has in a minute.
fn count_in(table: &Table, minute: u64, number: u32) -> u32
    requires { IsOrdered place_cmp table.now }
    ensures { result + total number (minute + 1) table.now.entries ≡ total number minute table.now.entries }
{
    match table.get(&(minute, number)) {
        Some(minute) => minute.count(),
        None => 0,
    }
}

// Whether all minutes are before this one.
fn ends_before(table: &Table, last: u64) -> bool
    ensures { result ≡ true → (number : ℕ) → total number last table.now.entries ≡ 0 }
{
    match table.last_key_value() {
        Some((place, _)) => place.0 < last,
        None => true,
    }
}
