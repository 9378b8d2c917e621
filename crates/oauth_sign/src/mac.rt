//! HMAC-SHA1 (RFC 2104) over a message that comes in pieces.
ghost use Rattle.std.specs.Prelude.{◌≡◌, ℕ, List, [], ◌++◌, ◌≤◌, map, drop, length, bit_xor};
ghost use Rattle.oauth_sign.specs.Hmac as spec;
ghost use Rattle.sha1.specs.Sha1 as digest;

use sha1::Sha1;

const BLOCK_LEN: usize = 64;

const INNER_PAD: u8 = 0x36;

const OUTER_PAD: u8 = 0x5C;

/// A code under way: `start` with a key, a `feed` for each piece of the message, and `finish`. It takes no memory.
#[derive(Drop)]
pub struct Mac {
    inner: Sha1,
    outer: Sha1,
}

// Writes bytes over the front of a block.
fn put_front(block: &mut [u8], bytes: &[u8])
    requires { length bytes.now ≤ length block.old }
    ensures { block.new ≡ bytes.now ++ drop (length bytes.now) block.old }
{
    block[..bytes.len()].copy_from_slice(bytes);
}

// The key, or its digest where it is longer than a block, filled up with zeros to a block.
fn key_block(key: &[u8]) -> [u8; BLOCK_LEN]
    ensures { result ≡ spec.key_block key.now }
{
    let mut block = [0u8; BLOCK_LEN];
    if key.len() > BLOCK_LEN {
        put_front(&mut block, &Sha1::digest(key));
    } else {
        put_front(&mut block, key);
    }
    block
}

// Each byte becomes its exclusive or with these bits.
fn exclusive_or(bytes: &mut [u8], bits: u8)
    ensures { bytes.new ≡ map (bit_xor bits) bytes.old }
{
    for byte in bytes.iter_mut() {
        *byte = bits ^ *byte;
    }
}

// A digest under way that was fed the exclusive or of the block with these bits.
fn begun(block: &[u8; BLOCK_LEN], bits: u8) -> Sha1
    ensures { digest.Holds result (map (bit_xor bits) block.now) }
{
    let mut padded = *block;
    exclusive_or(&mut padded, bits);
    let mut hasher = Sha1::new();
    hasher.update(&padded);
    hasher
}

impl Mac {
    ghost use Rattle.std.specs.Prelude.{◌≡◌, ℕ, List, [], ◌++◌};
    ghost use Rattle.oauth_sign.specs.Hmac as spec;

    /// The code of the empty message under a key of any length.
    pub fn start(key: &[u8]) -> Mac
        ensures { spec.Holds result key.now [] }
    {
        let block = key_block(key);
        let inner = begun(&block, INNER_PAD);
        let outer = begun(&block, OUTER_PAD);
        Mac { inner, outer }
    }

    /// Adds a piece to the message. Where pieces end makes no difference to the code.
    pub fn feed(&mut self, piece: &[u8])
        ensures { spec.Feeds self.old self.new piece.now }
    {
        self.inner.update(piece);
    }

    /// The code of the message that was fed.
    pub fn finish(self) -> [u8; 20]
        ensures { (k m : List ℕ) → spec.Holds self k m → result ≡ spec.hmac k m }
    {
        let Mac { inner, mut outer } = self;
        outer.update(&inner.finalize());
        outer.finalize()
    }
}
