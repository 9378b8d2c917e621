// Why bytes gave no entry.
use lti_outside::NoMemory;

/// Why bytes gave no entry.
#[derive(Clone, Copy, Debug, PartialEq, Eq)]
pub enum EntryFault {
    /// The bytes are those of no entry.
    NoReading,
    /// There was no memory for the entry's texts.
    NoMemory,
}

impl From<NoMemory> for EntryFault {
    ghost use Rattle.std.specs.Prelude.{◌≡◌};
    ghost use Rattle.lti_machine.specs.declared.entry_fault.EntryFault.TheVariants.{NoMemory};

    ghost from_gives = { λ _ e. e ≡ NoMemory };

    fn from(_: NoMemory) -> Self {
        EntryFault::NoMemory
    }
}
