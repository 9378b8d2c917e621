// Laws of what a disk stands for. They make no call.
ghost use Rattle.std.specs.Prelude.{◌≡◌, ◌^◌, ◌<◌, ℕ, List};
ghost use Rattle.gate_journal.specs.Half.{Place, Recovers, StandsFor, IsEither, IsDamagedAt};
ghost use Rattle.gate_journal.specs.Journal.{disk_of, place_of, Keeps, MayKeep};

use crate::Journal;
use lti_outside::Disk;

/// A disk stands for one list of payloads, and in one place.
pub fn one_reading()
    ensures payloads { (image : List ℕ) (half : ℕ) (payloads others : List (List ℕ)) → half < 2 ^ 32
        → StandsFor image half payloads → StandsFor image half others → payloads ≡ others }
    ensures place { (image : List ℕ) (j k : Place) (payloads others : List (List ℕ)) → j.half ≡ k.half → j.half < 2 ^ 32
        → Recovers image j payloads → Recovers image k others → j ≡ k }
{}

/// A disk that stands for payloads isn't damaged, and a damaged one is damaged in one place.
pub fn one_damage()
    ensures none { (image : List ℕ) (half at : ℕ) (payloads : List (List ℕ)) → half < 2 ^ 32
        → StandsFor image half payloads → IsDamagedAt image half at → ⊥ }
    ensures place { (image : List ℕ) (half at other : ℕ) → half < 2 ^ 32 → IsDamagedAt image half at → IsDamagedAt image half other → at ≡ other }
{}

/// What a journal keeps is what each image of its disk stands for; where it is doubtful, each stands for
/// the one list or for the other.
pub fn kept_images<D: Disk>(journal: &Journal<D>)
    ensures keeps { (payloads : List (List ℕ)) (image : List ℕ) → Keeps journal.now payloads
        → D.may_leave (disk_of journal.now) image → StandsFor image (place_of journal.now).half payloads }
    ensures may_keep { (payloads others : List (List ℕ)) (image : List ℕ) → MayKeep journal.now payloads others
        → D.may_leave (disk_of journal.now) image → IsEither (place_of journal.now).half payloads others image }
{
    let _ = journal;
}
