//! The hash of a body that comes in pieces (OAuth Request Body Hash 1.0, draft 4).
ghost use Rattle.std.specs.Prelude.{◌≡◌, IfOk};
ghost use Rattle.base64.specs.Engines.{standard};
ghost use Rattle.base64.specs.GeneralPurpose.{encode_of};

use base64::engine::general_purpose::STANDARD;
use lti_outside::{NoMemory, Tap, Text};
use sha1::Sha1;
use std::alloc::Global;

/// SHA-1 of a body: `start`, a `feed` for each piece, and `finish`. It takes no memory.
#[derive(Drop)]
pub struct BodyHash {
    hasher: Sha1,
}

impl BodyHash {
    ghost use Rattle.std.specs.Prelude.{◌≡◌, ℕ, List, []};
    ghost use Rattle.sha1.specs.Sha1.{sha1};
    ghost use Rattle.oauth_sign.specs.Body.{IsFed};

    /// The hash of the empty body.
    pub fn start() -> BodyHash
        ensures { IsFed result [] }
    {
        BodyHash {
            hasher: Sha1::new(),
        }
    }

    /// The digest of the body that was fed.
    pub fn finish(self) -> [u8; 20]
        ensures { (fed : List ℕ) → IsFed self fed → result ≡ sha1 fed }
    {
        self.hasher.finalize()
    }
}

impl Tap for BodyHash {
    ghost use Rattle.oauth_sign.specs.Body.{IsFed};

    ghost holds = { IsFed };

    fn feed(&mut self, piece: &[u8]) {
        self.hasher.update(piece);
    }
}

/// The base64 text of a digest, with padding: 28 bytes, the value of `oauth_body_hash`.
pub fn hash_text(alloc: Global, sum: &[u8; 20]) -> Result<Text, NoMemory>
    ensures { IfOk result (λ text. text ≡ encode_of standard sum.now) }
{
    Ok(Text::from_string(STANDARD.encode(alloc, sum)?))
}
