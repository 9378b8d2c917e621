// A nonce with its key and its timestamp.
ghost use Rattle.std.specs.Prelude.{◌≡◌, map, IfOk};
ghost use Rattle.lti_machine.specs.Used.{used_cmp, in_order};
ghost use Rattle.nonce_window.specs.Nonces.{plain};
ghost use Rattle.nonce_window.specs.Triples.{plain_of, used_of_triple};

use lti_outside::{NoMemory, Text};
use std::alloc::Global;

/// A nonce that was used, with its key and its timestamp in seconds since 1970-01-01 00:00:00 UTC (RFC 5849 section 3.3).
/// Ordered by key, timestamp and nonce, texts in byte order.
#[derive(PartialEq, Eq, PartialOrd, Ord, Drop)]
pub struct Triple {
    /// The consumer key.
    pub key: Text,
    /// The timestamp.
    pub timestamp: u64,
    /// The nonce, which isn't empty.
    pub nonce: Text,
}

impl Triple {
    pub(crate) fn new(
        alloc: Global,
        key: &str,
        timestamp: u64,
        nonce: &str,
    ) -> Result<Triple, NoMemory>
        ensures { IfOk result (λ made. plain_of made ≡ plain key.now (record { timestamp = timestamp; nonce = nonce.now })) }
    {
        Ok(Triple {
            key: Text::new(alloc, key)?,
            timestamp,
            nonce: Text::new(alloc, nonce)?,
        })
    }
}

/// The triples in order, each once.
pub(crate) fn in_order(mut triples: Vec<Triple>) -> Result<Vec<Triple>, NoMemory>
    ensures { IfOk result (λ ordered. map used_of_triple ordered.items ≡ in_order used_cmp (map used_of_triple triples.items)) }
{
    triples.sort()?;
    triples.dedup();
    Ok(triples)
}
