// What connections come through.
ghost use Rattle.std.specs.Prelude.{◌≡◌, IfOk, IfSome, IfNone, OnErr};
ghost use Rattle.lti_doors.specs.Standing.{Standing, IsFresh, HandsOut, TakesBack, HasNoMore, Fails, IsOut};

use lti_outside::Link;

/// A call of a door that failed. Nothing was handed out by it, and the door stands as before but for its count
/// of faults.
#[derive(Clone, Copy, Debug, PartialEq, Eq)]
pub struct DoorFault;

/// Hands out the ends of connections, and takes them back.
pub trait Door: Drop {
    /// One end of a connection.
    type End: Link + Send;

    /// Which connections came back and which are left, where the door tells it, and how often a call has
    /// failed, up to the end of a `u64`.
    ghost standing: { Self → Standing };

    /// The end of the next connection, from which nothing was taken and to which nothing was given yet. `None`:
    /// no more come, and the door stands as before.
    fn next(&mut self) -> Result<Option<Self::End>, DoorFault>
        ensures some { IfOk result (λ found. IfSome found (λ end. IsFresh (Self.End.traffic end) × HandsOut (standing self.old) (standing self.new) (Self.End.traffic end))) }
        ensures none { IfOk result (λ found. IfNone found (HasNoMore (standing self.old) × (standing self.new ≡ standing self.old))) }
        ensures failed { OnErr result (Fails (standing self.old) (standing self.new)) };

    /// Takes back an end that is out, whichever was handed out first. What passed over it joins the list.
    fn back(&mut self, end: Self::End)
        requires { IsOut (standing self.old) }
        ensures { TakesBack (standing self.old) (standing self.new) (Self.End.traffic end) };
}
