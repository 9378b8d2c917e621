// A disk, by what reads give and by what a crash may leave.
ghost use Rattle.std.specs.Prelude.{◌≡◌, ◌+◌, ◌≤◌, ℕ, List, length, take, drop, OnOk, OnErr};
ghost use Rattle.lti_outside.specs.Faults.{Rose};
ghost use Rattle.lti_outside.specs.Disk.{Holds, Torn, TornFrom, Only, SameImages, Elapses};

/// A call of a disk that failed. What it may have changed is said at the call.
#[derive(Clone, Copy, Debug, PartialEq, Eq)]
pub struct DiskFault;

/// A disk of fixed size, which nobody else writes. Between two syncs a crash may leave any bytes in each
/// range that was written, and leaves the bytes outside as they were.
pub trait Disk {
    /// Whether it tells what it holds. Where it doesn't, what is said of its bytes and images says nothing
    /// of a real disk.
    ghost tells: { Type 0 };

    /// All bytes, as reads give them.
    ghost seen: { Self → List ℕ };

    /// The images that a crash at this moment may leave.
    ghost may_leave: { Self → List ℕ → Type 0 };

    /// The moment, as a number that doesn't fall.
    ghost moment: { Self → ℕ };

    /// The images that a crash at a moment from that one on might have left, during a call or between two.
    ghost left_since: { Self → ℕ → List ℕ → Type 0 };

    /// How many calls have failed, up to the end of a `u64`.
    ghost faults: { Self → ℕ };

    /// How many bytes there are.
    fn size(&self) -> u64
        ensures { result ≡ length (seen self.now) };

    /// How many calls have failed, up to the end of a `u64`.
    fn faults(&self) -> u64
        ensures { result ≡ faults self.now };

    /// Fills `buf` with the bytes from a place on. A read that fails changes nothing but the count.
    fn read_at(&mut self, place: u64, buf: &mut [u8]) -> Result<(), DiskFault>
        requires { place + length buf.old ≤ length (seen self.old) }
        ensures bytes { tells → OnOk result (buf.new ≡ take (length buf.old) (drop place (seen self.old))) }
        ensures seen { seen self.new ≡ seen self.old }
        ensures crash { SameImages (may_leave self.old) (may_leave self.new) }
        ensures time { Elapses (moment self.old) (moment self.new) (left_since self.old) (left_since self.new) (may_leave self.new) }
        ensures failed { OnErr result (Rose (faults self.old) (faults self.new)) }
        ensures faults { OnOk result (faults self.new ≡ faults self.old) };

    /// Writes `piece` over what stands from a place on. A write that fails may have left any bytes in the
    /// range; so may a crash until a sync is done, whether or not the write failed.
    fn write_at(&mut self, place: u64, piece: &[u8]) -> Result<(), DiskFault>
        requires { place + length piece.now ≤ length (seen self.old) }
        ensures written { tells → OnOk result (Holds (seen self.old) place piece.now (seen self.new)) }
        ensures torn { Torn place (length piece.now) (seen self.old) (seen self.new) }
        ensures crash { (image : List ℕ) → may_leave self.new image → TornFrom place (length piece.now) (may_leave self.old) image }
        ensures time { Elapses (moment self.old) (moment self.new) (left_since self.old) (left_since self.new) (may_leave self.new) }
        ensures failed { OnErr result (Rose (faults self.old) (faults self.new)) }
        ensures faults { OnOk result (faults self.new ≡ faults self.old) };

    /// After it a crash leaves what reads give, until the next write. A sync that fails changes nothing but
    /// the count.
    fn sync(&mut self) -> Result<(), DiskFault>
        ensures durable { OnOk result (Only (seen self.old) (may_leave self.new)) }
        ensures seen { seen self.new ≡ seen self.old }
        ensures fewer { (image : List ℕ) → may_leave self.new image → may_leave self.old image }
        ensures crash { OnErr result (SameImages (may_leave self.old) (may_leave self.new)) }
        ensures time { Elapses (moment self.old) (moment self.new) (left_since self.old) (left_since self.new) (may_leave self.new) }
        ensures failed { OnErr result (Rose (faults self.old) (faults self.new)) }
        ensures faults { OnOk result (faults self.new ≡ faults self.old) };

    /// The disk as it reads is one of its images.
    ghost current: { (disk : Self) → may_leave disk (seen disk) };

    /// Each image has the disk's size.
    ghost sized: { (disk : Self) (image : List ℕ) → may_leave disk image → length image ≡ length (seen disk) };

    /// This moment is one of those since an earlier one.
    ghost counts_now: { (disk : Self) (t : ℕ) (image : List ℕ) → t ≤ moment disk → may_leave disk image → left_since disk t image };

    /// Since this moment there is no other.
    ghost only_now: { (disk : Self) (image : List ℕ) → left_since disk (moment disk) image → may_leave disk image };
}
