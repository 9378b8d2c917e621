// What requests and answers have in common (LTI 1.1.1, section 6, and the schema imsoms_v1p0).
ghost use Rattle.std.specs.Prelude.{◌≡◌, ◌∷◌, [], true, ℕ, List, codes, IfOk, IfErr, MatchResult};
ghost use Rattle.pox_outcomes.specs.Language.{Any, Reads, IsOnce};
ghost use Rattle.pox_outcomes.specs.Markup.{is_plain, are_words};
ghost use Rattle.pox_outcomes.specs.Document.{IsHead, DocumentOf};
ghost use Rattle.pox_outcomes.specs.BadRequest.{IsFaultOf};
ghost use Rattle.pox_outcomes.specs.Stops.{IsHalt};

use crate::EnvelopeFault;
use crate::attributes::after_attributes;
use crate::declaration::after_opening;
use crate::leaves::leaf;
use crate::markup::{follow, is_end, skip_white};
use crate::stops::Halt;
use lti_outside::Text;
use std::alloc::Global;

/// The message identifier of a document, from the document's first byte on, and what stands behind its end tag. The
/// root is the markup up to the root's name, and the header is the markup from behind the root's start tag up to the
/// identifier's name.
pub fn head<'a>(
    alloc: Global,
    bytes: &'a [u8],
    root: &[u8],
    header: &[u8],
) -> Result<(Text, &'a [u8]), Halt>
    requires root { are_words (codes "<?xml" ∷ root.now ∷ []) ≡ true }
    requires header { is_plain header.now ≡ true }
    ensures reads { IfOk result (λ found. Reads (IsHead root.now header.now found.0) bytes.now found.1.now) }
    ensures stops { IfErr result (IsHalt (Any (IsHead root.now header.now)) bytes.now) }
{
    let opened = after_opening(bytes, root)?;
    let named = after_attributes(opened)?;
    let headed = follow(named, header)?;
    let (message, behind) = leaf(alloc, headed, b"/imsx_messageIdentifier >")?;
    Ok((message, behind))
}

/// What a document says: a request or an answer.
pub trait Document: Sized {
    // How each value is spelled, up to the end tag of the root.
    ghost spelled: { Self → List ℕ → Type 0 };

    /// The value of a document, and what stands behind the end tag of its root.
    fn read_root(alloc: Global, bytes: &[u8]) -> Result<(Self, &[u8]), Halt>
        ensures reads { IfOk result (λ found. Reads (spelled found.0) bytes.now found.1.now) }
        ensures stops { IfErr result (IsHalt (Any spelled) bytes.now) }
        ensures once { IsOnce spelled };
}

/// The value of a document, behind whose root only white bytes stand.
pub fn read<D: Document + Drop>(alloc: Global, bytes: &[u8]) -> Result<D, EnvelopeFault>
    ensures document { IfOk result (DocumentOf D.spelled bytes.now) }
    ensures only { (v : D) → DocumentOf D.spelled bytes.now v → MatchResult result (λ found. found ≡ v) (λ fault. fault ≡ EnvelopeFault.NoMemory) }
    ensures bad { IfErr result (IsFaultOf (DocumentOf D.spelled) bytes.now) }
{
    match D::read_root(alloc, bytes) {
        Ok((value, rest)) => {
            let dark = skip_white(rest);
            if !is_end(dark) {
                return Err(EnvelopeFault::BadEnvelope {
                    at: (bytes.len() - dark.len()) as u64,
                });
            }
            Ok(value)
        }
        Err(Halt::Stopped(stop)) => Err(EnvelopeFault::BadEnvelope {
            at: (bytes.len() - stop.left) as u64,
        }),
        Err(Halt::NoMemory) => Err(EnvelopeFault::NoMemory),
    }
}
