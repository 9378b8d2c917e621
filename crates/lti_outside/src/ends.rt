// The ends of a connection, by what was taken from them and given to them.
ghost use Rattle.std.specs.Prelude.{◌≡◌, ◌<◌, ◌≤◌, ℕ, List, [], length, take, OnOk, OnErr, IfOk};
ghost use Rattle.lti_outside.specs.Traffic.{Traffic, Moves, no_fault, read_fault, write_fault, IsAtEnd, GivesFront};

/// A read that failed. Nothing was taken by it.
#[derive(Clone, Copy, Debug, PartialEq, Eq)]
pub struct ReadFault;

/// A write that failed. Nothing was given by it, or by `give_all` a proper front of its piece.
#[derive(Clone, Copy, Debug, PartialEq, Eq)]
pub struct WriteFault;

/// Something outside the program that bytes are taken from or given to.
pub trait Outside {
    /// All bytes so far, where they are told, and how often a read and a write have failed, each count up
    /// to the end of a `u64`.
    ghost traffic: { Self → Traffic };
}

/// An end that gives bytes.
pub trait Source: Outside {
    /// Takes the next bytes into `buf`: as many as it answers, and none only at the end of input.
    fn take(&mut self, buf: &mut [u8]) -> Result<usize, ReadFault>
        requires { 0 < length buf.old }
        ensures bound { IfOk result (λ n. n ≤ length buf.new) }
        ensures taken { IfOk result (λ n. Moves (Self.traffic self.old) (Self.traffic self.new) (take n buf.new) [] no_fault) }
        ensures end { IfOk result (λ n. n ≡ 0 → IsAtEnd (Self.traffic self.new)) }
        ensures failed { OnErr result (Moves (Self.traffic self.old) (Self.traffic self.new) [] [] read_fault) };
}

/// An end that takes bytes.
pub trait Sink: Outside {
    /// Gives the first bytes of `piece`: as many as it answers, at least one.
    fn give(&mut self, piece: &[u8]) -> Result<usize, WriteFault>
        requires { 0 < length piece.now }
        ensures bound { IfOk result (λ n. n ≤ length piece.now) }
        ensures some { IfOk result (λ n. 0 < n) }
        ensures given { IfOk result (λ n. Moves (Self.traffic self.old) (Self.traffic self.new) [] (take n piece.now) no_fault) }
        ensures failed { OnErr result (Moves (Self.traffic self.old) (Self.traffic self.new) [] [] write_fault) };
}

/// Both ends of a connection.
pub trait Link: Source + Sink {}

/// Gives all of `piece`. At an `Err` a proper front of it was given.
pub fn give_all<O: Sink>(sink: &mut O, piece: &[u8]) -> Result<(), WriteFault>
    ensures given { OnOk result (Moves (O.traffic sink.old) (O.traffic sink.new) [] piece.now no_fault) }
    ensures failed { OnErr result (GivesFront (O.traffic sink.old) (O.traffic sink.new) piece.now) }
{
    let mut rest = piece;
    while !rest.is_empty() {
        let count = sink.give(rest)?;
        rest = &rest[count..];
    }
    Ok(())
}
