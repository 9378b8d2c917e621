// The rules over the list of accepted entries.
ghost use Rattle.std.specs.Prelude.{◌≡◌, ◌≤◌, nat_eq, IsTrue, true, max, [], ◌∷◌, ◌++◌, false, length, count_by, OnOk, OnErr};
ghost use Rattle.lti_machine.specs.Rules.{high};
ghost use Rattle.lti_machine.specs.Nonces as nonces;
ghost use Rattle.std.specs.HashMap.{get};
ghost use Rattle.lti_machine.specs.Kept.{IsKept};
ghost use Rattle.lti_machine.specs.Places.{IsIndexed};

use crate::call::Call;
use crate::entry::Entry;
use crate::nonces::is_inside;
use crate::places::{Places, hash_of, set_place};
use crate::verdict::Verdict;
use lti_outside::NoMemory;

/// What the list says of the call's nonce at the moment `now`, where each key may have `window` nonces.
pub(crate) fn judge(
    entries: &[Entry],
    places: &Places,
    call: &Call,
    now: u64,
    window: u32,
) -> Verdict
    requires kept { IsKept entries.now }
    requires indexed { IsIndexed (get nat_eq places.now) entries.now }
    ensures { result ≡ nonces.verdict entries.now call.now.key (nonces.stamp_of_call call.now) now window }
{
    if !is_inside(call.timestamp, now) {
        return Verdict::Outside;
    }
    if stands(entries, places, call) {
        return Verdict::Used;
    }
    // a list shorter than the window can't be full, and isn't counted
    if entries.len() < window as usize {
        return Verdict::New;
    }
    let live = live_count(entries, call.key.get(), now);
    if window <= live {
        return Verdict::WindowFull { live };
    }
    Verdict::New
}

// Whether the call's key, timestamp and nonce stand in an entry. Where its hash has no place they don't;
// where it has one, that entry is looked at first, and all the others only where another key, timestamp and nonce have this hash.
fn stands(entries: &[Entry], places: &Places, call: &Call) -> bool
    requires { IsIndexed (get nat_eq places.now) entries.now }
    ensures { result ≡ nonces.stands entries.now call.now.key (nonces.stamp_of_call call.now) }
{
    match places.get(&hash_of(&call.key, call.timestamp, &call.nonce)) {
        Some(place) => stands_at(entries, *place, call) || stands_anywhere(entries, call),
        None => false,
    }
}

// Whether the entry at this place uses up the call's nonce.
fn stands_at(entries: &[Entry], place: u32, call: &Call) -> bool
    ensures { IsTrue result → nonces.stands entries.now call.now.key (nonces.stamp_of_call call.now) ≡ true }
{
    match entries.get(place as usize) {
        Some(entry) => uses(entry, call),
        None => false,
    }
}

// Whether some entry uses up the call's nonce.
fn stands_anywhere(entries: &[Entry], call: &Call) -> bool
    ensures { result ≡ nonces.stands entries.now call.now.key (nonces.stamp_of_call call.now) }
{
    entries.iter().any(|entry| uses(entry, call))
}

// Whether an entry uses up the call's nonce.
fn uses(entry: &Entry, call: &Call) -> bool
    ensures { result ≡ nonces.uses call.now.key (nonces.stamp_of_call call.now) entry.now }
{
    entry.uses(call.key.get(), call.timestamp, call.nonce.get())
}

// How many nonces of this key aren't forgotten.
fn live_count(entries: &[Entry], key: &str, now: u64) -> u32
    requires { IsKept entries.now }
    ensures { result ≡ length (nonces.live entries.now key.now now) }
{
    live_entries(entries, key, now) as u32
}

// How many entries of this key aren't forgotten.
fn live_entries(entries: &[Entry], key: &str, now: u64) -> usize
    ensures count { result ≡ count_by (nonces.is_live key.now now) entries.now }
    ensures bound { result ≤ length entries.now }
{
    entries
        .iter()
        .filter(|entry| entry.is_live(key, now))
        .count()
}

/// Adds an entry whose key, timestamp and nonce don't stand in the list, and its place. On `NoMemory` the
/// list is as before; the list's end, 2^32 - 1 entries, counts as want of memory.
pub(crate) fn keep(
    entries: &mut Vec<Entry>,
    places: &mut Places,
    entry: Entry,
) -> Result<(), NoMemory>
    requires kept { IsKept entries.old.items }
    requires indexed { IsIndexed (get nat_eq places.old) entries.old.items }
    requires new { nonces.stands entries.old.items entry.key (nonces.stamp_of entry) ≡ false }
    ensures kept { IsKept entries.new.items }
    ensures indexed { IsIndexed (get nat_eq places.new) entries.new.items }
    ensures high { OnOk result (high entries.new.items ≡ max (high entries.old.items) entry.moment) }
    ensures ok { OnOk result (entries.new.items ≡ entries.old.items ++ entry ∷ []) }
    ensures err { OnErr result (entries.new.items ≡ entries.old.items) }
{
    if entries.len() == u32::MAX as usize {
        return Err(NoMemory);
    }
    let place = entries.len() as u32;
    if set_place(
        places,
        hash_of(&entry.key, entry.timestamp, &entry.nonce),
        place,
    )
    .is_err()
    {
        return Err(NoMemory);
    }
    if entries.push(entry).is_err() {
        return Err(NoMemory);
    }
    Ok(())
}
