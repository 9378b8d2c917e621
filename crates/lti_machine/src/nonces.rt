// What one entry says of a nonce. Every keeper of nonces asks these, whatever it keeps them in.
ghost use Rattle.std.specs.Prelude.{◌≡◌};
ghost use Rattle.lti_machine.specs.Nonces as nonces;

use crate::entry::Entry;

// How far a timestamp may be from the moment, in seconds.
const REACH: u64 = 5400;

// For how many whole minutes after its timestamp a nonce is kept.
const KEPT_MINUTES: u64 = 90;

/// Whether a timestamp is at most 5400 seconds before or after the moment `now`; both are seconds. The 5400
/// seconds are this project's own.
pub fn is_inside(timestamp: u64, now: u64) -> bool
    ensures { result ≡ nonces.is_inside timestamp now }
{
    now.saturating_sub(REACH) <= timestamp && timestamp.saturating_sub(REACH) <= now
}

// Whether a signed entry has this key.
fn is_of_key(entry: &Entry, key: &str) -> bool
    ensures { result ≡ nonces.is_of_key key.now entry.now }
{
    !entry.nonce.get().is_empty() && entry.key.get() == key
}

impl Entry {
    ghost use Rattle.std.specs.Prelude.{◌≡◌};
    ghost use Rattle.lti_machine.specs.Nonces as nonces;

    /// Whether the entry uses up this nonce of this key (RFC 5849 section 3.3). An entry without a nonce uses
    /// up none.
    pub fn uses(&self, key: &str, timestamp: u64, nonce: &str) -> bool
        ensures { result ≡ nonces.uses key.now (record { timestamp = timestamp; nonce = nonce.now }) self.now }
    {
        // the timestamps come first, since they differ most often and are compared at once
        timestamp == self.timestamp && self.nonce.get() == nonce && is_of_key(self, key)
    }

    /// Whether the entry's nonce is this key's and isn't forgotten at the moment `now`, in seconds: by whole
    /// minutes since 1970, the moment is at most 90 behind the timestamp. The 90 minutes are this project's own.
    pub fn is_live(&self, key: &str, now: u64) -> bool
        ensures { result ≡ nonces.is_live key.now now self.now }
    {
        let timestamp = self.timestamp;
        now / 60 <= timestamp / 60 + KEPT_MINUTES && is_of_key(self, key)
    }
}
