// The window of nonces.
ghost use Rattle.std.specs.Prelude.{◌≡◌, ◌<◌, ◌≤◌, ◌^◌, ◌+◌, ◌-◌, ◌/◌, ℕ, max, map, filter, nat_le, length, [], ◌++◌, false, None, IfSome, IfOk, OnOk, OnErr};
ghost use Rattle.std.specs.List.{sum_by};
ghost use Rattle.lti_machine.specs.Nonces as nonces;
ghost use Rattle.lti_machine.specs.Used.{lives, used, used_of};
ghost use Rattle.nonce_window.specs.Changes.{IsPut, IsAddedAt, IsSettled, passed};
ghost use Rattle.nonce_window.specs.Fresh.{IsNext};
ghost use Rattle.nonce_window.specs.Last.{with_last};
ghost use Rattle.nonce_window.specs.Sizes.{capped, entry_size, size_of};
ghost use Rattle.nonce_window.specs.Triples.{used_of_triple};
ghost use Rattle.nonce_window.specs.Window.{Holds, IsReady};
ghost use Rattle.nonce_window.specs.Words.{Says, Counts, HasRoom, Adds, Keeps, SameContents};

use crate::nonces::Nonces;
use crate::rules;
use crate::triple::{self, Triple};
use lti_machine::{Entry, Verdict, is_inside};
use lti_outside::NoMemory;
use std::alloc::Global;
use std::marker::Model;

/// The nonces that were used, so far as they may still be used again.
///
/// Moments and timestamps are seconds since 1970-01-01 00:00:00 UTC. A nonce belongs to a key and a timestamp
/// (RFC 5849 section 3.3). It is forgotten 91 minutes after its timestamp, counted by whole minutes since 1970.
/// No call but `live` and `live_size` walks over the nonces: they are looked up in ordered trees, and counts stand beside
/// them. A minute that has passed is taken out whole, once.
#[derive(Drop)]
pub struct NonceWindow {
    alloc: Global,
    nonces: Nonces,
    // the nonce that was admitted last, until the next `prepare` puts it into the tables: so `admit` takes no memory
    last: Option<Entry>,
    ready: Option<Entry>,
    highest: u64,
    limit: u32,
}

impl Model for NonceWindow {
    ghost use Rattle.nonce_window.specs.Window.{WindowValue};

    ghost Value = { WindowValue };

    ghost use Rattle.nonce_window.specs.Inside.{value_of, IsSound};

    ghost view = { value_of };

    ghost invariant = { IsSound };
}

impl NonceWindow {
    /// The window that holds nothing, where a key may have `limit` nonces that aren't forgotten.
    pub fn new(alloc: Global, limit: u32) -> Result<NonceWindow, NoMemory>
        ensures holds { IfOk result (λ window. Holds window []) }
        ensures high { IfOk result (λ window. window.high ≡ 0) }
        ensures limit { IfOk result (λ window. window.limit ≡ limit) }
    {
        Ok(NonceWindow {
            alloc,
            nonces: Nonces::new(alloc),
            last: None,
            ready: None,
            highest: 0,
            limit,
        })
    }

    /// What all nonces that were admitted and loaded say of a nonce at the moment `now`, which is at least `high`. It costs a
    /// look-up of the nonce, one of its key, and one for each minute that is forgotten at `now` and wasn't yet at `high`.
    pub fn judge(&self, now: u64, key: &str, timestamp: u64, nonce: &str) -> Verdict
        requires { self.now.high ≤ now }
        ensures { Says self.now key.now (record { timestamp = timestamp; nonce = nonce.now }) now result }
    {
        self.verdict(now, key, timestamp, nonce)
    }

    // What is known says.
    fn verdict(&self, now: u64, key: &str, timestamp: u64, nonce: &str) -> Verdict
        requires { self.now.high ≤ now }
        ensures { result ≡ nonces.verdict self.now.known key.now (record { timestamp = timestamp; nonce = nonce.now }) now self.now.limit }
    {
        if !is_inside(timestamp, now) {
            return Verdict::Outside;
        }
        if self.stands(key, timestamp, nonce) {
            return Verdict::Used;
        }
        let live = self.live_count(key, now);
        if self.limit <= live {
            return Verdict::WindowFull { live };
        }
        Verdict::New
    }

    // Whether the nonce is known.
    fn stands(&self, key: &str, timestamp: u64, nonce: &str) -> bool
        ensures { result ≡ nonces.stands self.now.known key.now (record { timestamp = timestamp; nonce = nonce.now }) }
    {
        if self.nonces.uses(key, timestamp, nonce) {
            return true;
        }
        match &self.last {
            Some(last) => last.uses(key, timestamp, nonce),
            None => false,
        }
    }

    // How many nonces of the key aren't forgotten at the moment `now`.
    fn live_count(&self, key: &str, now: u64) -> u32
        requires { self.now.high ≤ now }
        ensures { result ≡ length (nonces.live self.now.known key.now now) }
    {
        let first = rules::first_minute(self.highest);
        let count = self.nonces.count(key, first, rules::first_minute(now));
        match &self.last {
            Some(last) if last.is_live(key, now) => count + 1,
            _ => count,
        }
    }

    /// Makes room for one nonce, so that `admit` of it takes no memory. The room is for this nonce alone, and
    /// lasts until the next call that changes the window. On `NoMemory` nothing has changed.
    pub fn prepare(&mut self, key: &str, timestamp: u64, nonce: &str) -> Result<(), NoMemory>
        ensures contents { SameContents self.old self.new }
        ensures ready { OnOk result (IsReady self.new key.now (record { timestamp = timestamp; nonce = nonce.now })) }
        ensures err { OnErr result (self.new ≡ self.old) }
    {
        let entry = rules::entry(self.alloc, key, timestamp, nonce)?;
        settle(&mut self.nonces, &mut self.last, self.alloc)?;
        self.ready = Some(entry);
        Ok(())
    }

    /// Uses up a nonce that is new at the moment `now`, for which room was made. It takes no memory.
    pub fn admit(&mut self, now: u64, key: &str, timestamp: u64, nonce: &str)
        requires moment { self.old.high ≤ now }
        requires ready { IsReady self.old key.now (record { timestamp = timestamp; nonce = nonce.now }) }
        requires new { Says self.old key.now (record { timestamp = timestamp; nonce = nonce.now }) now Verdict.New }
        ensures adds { Adds self.old self.new key.now (record { timestamp = timestamp; nonce = nonce.now }) }
        ensures high { self.new.high ≡ max self.old.high now }
        ensures limit { self.new.limit ≡ self.old.limit }
    {
        self.pass(now);
        let ready = self.ready.take();
        self.last = rules::with_nonce(ready);
    }

    /// Adds a nonce that was accepted at `moment` in an earlier run, without judging it. It isn't empty; it may
    /// repeat another one, and may be forgotten already. `kept` of the key is below 2^32 - 1 before. On `NoMemory`
    /// nothing has changed.
    pub fn load(
        &mut self,
        moment: u64,
        key: &str,
        timestamp: u64,
        nonce: &str,
    ) -> Result<(), NoMemory>
        requires nonce { 0 < length nonce.now }
        requires room { HasRoom self.old key.now }
        ensures adds { OnOk result (Adds self.old self.new key.now (record { timestamp = timestamp; nonce = nonce.now })) }
        ensures high { OnOk result (self.new.high ≡ max self.old.high moment) }
        ensures limit { self.new.limit ≡ self.old.limit }
        ensures err { OnErr result (self.new ≡ self.old) }
    {
        self.add_once(moment, key, timestamp, nonce)?;
        self.pass(moment);
        Ok(())
    }

    // Adds a nonce, unless it is known or will be forgotten at the moment.
    fn add_once(
        &mut self,
        moment: u64,
        key: &str,
        timestamp: u64,
        nonce: &str,
    ) -> Result<(), NoMemory>
        requires nonce { 0 < length nonce.now }
        requires room { HasRoom self.old key.now }
        ensures added { OnOk result (IsAddedAt self.old moment key.now (record { timestamp = timestamp; nonce = nonce.now }) self.new) }
        ensures err { OnErr result (self.new ≡ self.old) }
    {
        if timestamp / 60 < rules::first_minute(moment.max(self.highest)) {
            return Ok(());
        }
        if self.stands(key, timestamp, nonce) {
            return Ok(());
        }
        self.put(key, timestamp, nonce)?;
        Ok(())
    }

    // Adds a nonce that isn't known to what is known.
    fn put(&mut self, key: &str, timestamp: u64, nonce: &str) -> Result<(), NoMemory>
        requires nonce { 0 < length nonce.now }
        requires room { HasRoom self.old key.now }
        requires fresh { self.old.high / 60 - 90 ≤ timestamp / 60 }
        requires new { nonces.stands self.old.known key.now (record { timestamp = timestamp; nonce = nonce.now }) ≡ false }
        ensures put { OnOk result (IsPut self.old key.now (record { timestamp = timestamp; nonce = nonce.now }) self.new) }
        ensures err { OnErr result (self.new ≡ self.old) }
    {
        self.nonces.add(self.alloc, key, timestamp, nonce)?;
        Ok(())
    }

    /// Raises the moment of the window to `moment`, if that is greater.
    pub fn raise(&mut self, moment: u64)
        ensures keeps { Keeps self.old self.new }
        ensures high { self.new.high ≡ max self.old.high moment }
        ensures limit { self.new.limit ≡ self.old.limit }
    {
        self.pass(moment);
    }

    // Raises the moment, and forgets the minutes that have passed.
    fn pass(&mut self, moment: u64)
        ensures { self.new ≡ passed self.old moment }
    {
        self.highest = self.highest.max(moment);
        let first = rules::first_minute(self.highest);
        self.nonces.forget(first);
        let last = self.last.take();
        self.last = rules::from_minute(last, first);
    }

    /// How many nonces of the key aren't forgotten at the window's moment. A nonce that was loaded twice counts
    /// once.
    pub fn kept(&self, key: &str) -> u32
        ensures { Counts self.now key.now result }
    {
        self.live_count(key, self.highest)
    }

    /// The nonces of all keys that aren't forgotten at the moment `n`, which is at least `high`: ordered by key, timestamp and
    /// nonce, texts in byte order. It copies them all.
    pub fn live(&self, n: u64) -> Result<Vec<Triple>, NoMemory>
        requires { self.now.high ≤ n }
        ensures { IfOk result (λ triples. map used_of_triple triples.items ≡ used self.now.known n) }
    {
        let ordered = triple::in_order(self.list(n)?)?;
        Ok(ordered)
    }

    // The nonces of all keys that aren't forgotten at the moment `n`, in some order.
    fn list(&self, n: u64) -> Result<Vec<Triple>, NoMemory>
        ensures { IfOk result (λ triples. map used_of_triple triples.items ≡ map used_of (filter (lives n) self.now.known)) }
    {
        let first = rules::first_minute(n);
        let mut triples = self.nonces.list(self.alloc, first)?;
        list_last(&mut triples, &self.last, self.alloc, first)?;
        Ok(triples)
    }

    /// How many bytes a digest has for the nonces of all keys that aren't forgotten at the moment `n`, which is at least `high`:
    /// for each what `lti_machine::entry_len` gives of an entry of it that changes nothing, and five bytes more. It is
    /// 2^64 - 1 where they are more. A nonce that was loaded twice counts once. It takes no memory, walks over all nonces
    /// and reads only the lengths of their texts.
    pub fn live_size(&self, n: u64) -> u64
        requires { self.now.high ≤ n }
        ensures { result ≡ size_of (used self.now.known n) }
    {
        let first = rules::first_minute(n);
        size_with_last(&self.last, first, self.nonces.size(first))
    }

    /// The greatest moment at which a nonce was admitted or loaded or to which the window was raised, or 0.
    pub fn high(&self) -> u64
        ensures { result ≡ self.now.high }
    {
        self.highest
    }
}

// Appends the last nonce, if its timestamp is in the minute `first` or later.
fn list_last(
    triples: &mut Vec<Triple>,
    last: &Option<Entry>,
    alloc: Global,
    first: u64,
) -> Result<(), NoMemory>
    ensures { OnOk result (map used_of_triple triples.new.items ≡ map used_of_triple triples.old.items ++ map used_of (filter (λ e. nat_le first (e.timestamp / 60)) (with_last [] last.now))) }
{
    let Some(last) = last else {
        return Ok(());
    };
    if last.timestamp / 60 < first {
        return Ok(());
    }
    let triple = Triple::new(alloc, last.key.get(), last.timestamp, last.nonce.get())?;
    triples.push(triple)?;
    Ok(())
}

// `size` with the bytes that a digest has for the last nonce, if its timestamp is in the minute `first` or later; or 2^64 - 1
// where that is more.
fn size_with_last(last: &Option<Entry>, first: u64, size: u64) -> u64
    ensures { result ≡ capped (size + sum_by entry_size (filter (λ e. nat_le first (e.timestamp / 60)) (with_last [] last.now))) }
{
    match last {
        Some(last) if first <= last.timestamp / 60 => {
            size.saturating_add(rules::nonce_size(last.key.get(), last.nonce.get()))
        }
        _ => size,
    }
}

// Puts the last nonce into the tables. On `NoMemory` nothing has changed.
fn settle(nonces: &mut Nonces, last: &mut Option<Entry>, alloc: Global) -> Result<(), NoMemory>
    requires { (high : ℕ) × IfSome last.old (IsNext nonces.old high) }
    ensures settled { OnOk result (IsSettled nonces.old last.old nonces.new) }
    ensures none { OnOk result (last.new ≡ None) }
    ensures err { OnErr result ((nonces.new ≡ nonces.old) × (last.new ≡ last.old)) }
{
    if let Some(entry) = last {
        nonces.add(alloc, entry.key.get(), entry.timestamp, entry.nonce.get())?;
    }
    *last = None;
    Ok(())
}
