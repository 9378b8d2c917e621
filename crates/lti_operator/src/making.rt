// Moments and nonces for what this end signs.
ghost use Rattle.std.specs.Prelude.{◌≡◌, ◌≤◌, length, string_bytes, IfOk};
ghost use Rattle.lti_operator.specs.Made.{IsMadeMoment, IsMadeNonce};

use lti_outside::{Clock, NoMemory, Random};
use std::alloc::Global;

/// A moment to sign with, in seconds since 1970-01-01 00:00:00 UTC: the clock's, or 1 where that is 0 (RFC 5849, section
/// 3.3: a timestamp is positive).
pub fn made_moment<C: Clock>(clock: &C) -> u64
    ensures made { IsMadeMoment (C.tells clock.now) result }
    ensures some { 1 ≤ result }
    ensures bound { result ≤ 999999999999999 }
{
    clock.now().max(1)
}

/// A nonce to sign with: the next two random words, as 32 hexadecimal digits.
pub fn made_nonce<R: Random>(alloc: Global, random: &mut R) -> Result<String, NoMemory>
    ensures made { IfOk result (λ nonce. IsMadeNonce (R.tells random.old) (R.tells random.new) (string_bytes nonce)) }
    ensures length { IfOk result (λ nonce. length (string_bytes nonce) ≡ 32) }
{
    let first = random.word();
    let second = random.word();
    let mut nonce = hex::encode(alloc, first.to_be_bytes())?;
    nonce.push_str(hex::encode(alloc, second.to_be_bytes())?.as_str())?;
    Ok(nonce)
}
