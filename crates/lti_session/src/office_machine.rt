// The machine over a journal, as a connection asks it.
use crate::machines::Machine;
use lti_desk::Office;
use lti_machine::{Call, Reply};
use lti_outside::Disk;

impl<D: Disk> Machine for Office<D> {
    ghost use Rattle.lti_desk.specs.Answering.{Answers};

    ghost step = { λ old call given new. Answers ⟦<D as Disk>⟧ old call given new };

    fn answer(&mut self, call: Call) -> Reply {
        Office::answer(self, call)
    }
}
