// What the list says of a nonce.

/// What the accepted entries say of a nonce, its timestamp and its key at a moment.
#[derive(Clone, Copy, Debug, PartialEq, Eq)]
pub enum Verdict {
    /// The nonce may be used.
    New,
    /// The timestamp is more than 5400 seconds away from the moment.
    Outside,
    /// The nonce stands in the list already, with this timestamp and this key.
    Used,
    /// The key has `live` nonces that aren't forgotten, and no more are taken.
    WindowFull { live: u32 },
}
