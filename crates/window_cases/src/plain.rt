// A window that keeps a list of all its entries and walks over it at each call, as the rules are written.
use lti_machine::{Effect, Entry, Verdict, entry_len, is_inside};
use lti_outside::{NoMemory, Text};
use nonce_window::Triple;
use std::alloc::Global;

#[derive(Drop)]
pub(crate) struct PlainWindow {
    alloc: Global,
    entries: Vec<Entry>,
    highest: u64,
    limit: u32,
}

impl PlainWindow {
    pub(crate) fn new(alloc: Global, limit: u32) -> PlainWindow {
        PlainWindow {
            alloc,
            entries: Vec::new(alloc),
            highest: 0,
            limit,
        }
    }

    pub(crate) fn judge(&self, now: u64, key: &str, timestamp: u64, nonce: &str) -> Verdict {
        if !is_inside(timestamp, now) {
            return Verdict::Outside;
        }
        if self.stands(key, timestamp, nonce) {
            return Verdict::Used;
        }
        let live = self.live_count(key, now);
        if self.limit <= live {
            return Verdict::WindowFull { live };
        }
        Verdict::New
    }

    fn stands(&self, key: &str, timestamp: u64, nonce: &str) -> bool {
        self.entries
            .iter()
            .any(|entry| entry.uses(key, timestamp, nonce))
    }

    fn live_count(&self, key: &str, now: u64) -> u32 {
        let count = self
            .entries
            .iter()
            .filter(|entry| entry.is_live(key, now))
            .count();
        u32::try_from(count).unwrap_or(u32::MAX)
    }

    /// Adds a nonce, unless it stands already, and raises the moment.
    pub(crate) fn add(
        &mut self,
        moment: u64,
        key: &str,
        timestamp: u64,
        nonce: &str,
    ) -> Result<(), NoMemory> {
        if !self.stands(key, timestamp, nonce) {
            self.entries.push(Entry {
                moment: 0,
                key: Text::new(self.alloc, key)?,
                timestamp,
                nonce: Text::new(self.alloc, nonce)?,
                effect: Effect::Nothing,
            })?;
        }
        self.raise(moment);
        Ok(())
    }

    pub(crate) fn raise(&mut self, moment: u64) {
        self.highest = self.highest.max(moment);
    }

    pub(crate) fn kept(&self, key: &str) -> u32 {
        self.live_count(key, self.highest)
    }

    /// The nonces that aren't forgotten at a moment, in order.
    pub(crate) fn live(&self, now: u64) -> Result<Vec<Triple>, NoMemory> {
        let mut triples = Vec::new(self.alloc);
        for entry in &self.entries {
            if entry.is_live(entry.key.get(), now) {
                triples.push(Triple {
                    key: entry.key.copy()?,
                    timestamp: entry.timestamp,
                    nonce: entry.nonce.copy()?,
                })?;
            }
        }
        triples.sort()?;
        Ok(triples)
    }

    /// How many bytes their entries have, with five more for each.
    pub(crate) fn live_size(&self, now: u64) -> u64 {
        let mut size: u64 = 0;
        for entry in &self.entries {
            if entry.is_live(entry.key.get(), now) {
                size = size.saturating_add(entry_len(entry)).saturating_add(5);
            }
        }
        size
    }

    pub(crate) fn high(&self) -> u64 {
        self.highest
    }
}
