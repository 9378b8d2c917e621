// How a run ends.
ghost use Rattle.std.specs.Prelude.{◌≡◌};

/// How a run of the program ended. The number of an end is the exit status; its word is printed on standard error.
#[derive(Clone, Copy, Debug, PartialEq, Eq)]
pub enum Status {
    /// The work was done: 0, and no word.
    Done,
    /// The words are no command: 2.
    Usage,
    /// The settings are over 1,048,576 bytes, or have no reading: 3.
    Settings,
    /// A read of the settings or of the link failed: 4.
    ReadFault,
    /// A write of the link failed: 5.
    WriteFault,
    /// A call of the disk failed, while the journal was mounted or in `issue`; or the journal can't be opened: 6.
    DiskFault,
    /// A piece of the journal has no reading: 7.
    DamagedJournal,
    /// Memory ran out: 8.
    NoMemory,
    /// The input of `answer` ended inside a message, or what came back to `passback` before it was whole: 9.
    CutShort,
    /// The journal has no room for the id of `issue`: 10.
    JournalFull,
    /// The id of `issue` was issued before: 11.
    AlreadyIssued,
    /// A door of `serve` failed, or its address can't be taken: 12.
    DoorFault,
    /// The disk is smaller than the journal's two halves: 13.
    JournalTooSmall,
    /// Input that a command doesn't take, or an answer to `passback` without a reading: 14.
    Refused,
    /// What came back to `passback` says that the grade wasn't taken: 15.
    NotSuccess,
    /// No launch says where the grade of `passback` goes, or what it says is no URL or no text of XML: 16.
    NoPlacement,
    /// The key of the command isn't in the settings: 17.
    UnknownKey,
    /// The id of `launch` isn't issued under the key: 18.
    NotIssued,
}

impl Status {
    ghost use Rattle.std.specs.Prelude.{◌≡◌};
    ghost use Rattle.lti_words.specs.Status.{number_of, word_of, IsNumber};

    /// The exit status.
    pub fn number(self) -> u8
        ensures { result ≡ number_of self }
    {
        match self {
            Status::Done => 0,
            Status::Usage => 2,
            Status::Settings => 3,
            Status::ReadFault => 4,
            Status::WriteFault => 5,
            Status::DiskFault => 6,
            Status::DamagedJournal => 7,
            Status::NoMemory => 8,
            Status::CutShort => 9,
            Status::JournalFull => 10,
            Status::AlreadyIssued => 11,
            Status::DoorFault => 12,
            Status::JournalTooSmall => 13,
            Status::Refused => 14,
            Status::NotSuccess => 15,
            Status::NoPlacement => 16,
            Status::UnknownKey => 17,
            Status::NotIssued => 18,
        }
    }

    /// What is printed on standard error for the end; nothing where the work was done.
    pub fn word(self) -> &'static str
        ensures { result.now ≡ word_of self }
    {
        match self {
            Status::Done => "",
            Status::Usage => "usage",
            Status::Settings => "settings",
            Status::ReadFault => "read fault",
            Status::WriteFault => "write fault",
            Status::DiskFault => "disk fault",
            Status::DamagedJournal => "damaged journal",
            Status::NoMemory => "want of memory",
            Status::CutShort => "cut short",
            Status::JournalFull => "journal full",
            Status::AlreadyIssued => "already issued",
            Status::DoorFault => "door fault",
            Status::JournalTooSmall => "journal too small",
            Status::Refused => "refused message",
            Status::NotSuccess => "not a success",
            Status::NoPlacement => "no such placement",
            Status::UnknownKey => "unknown key",
            Status::NotIssued => "not issued",
        }
    }

    /// The end with this number.
    pub fn of(number: u8) -> Status
        requires { IsNumber number }
        ensures { number_of result ≡ number }
    {
        match number {
            0 => Status::Done,
            2 => Status::Usage,
            3 => Status::Settings,
            4 => Status::ReadFault,
            5 => Status::WriteFault,
            6 => Status::DiskFault,
            7 => Status::DamagedJournal,
            8 => Status::NoMemory,
            9 => Status::CutShort,
            10 => Status::JournalFull,
            11 => Status::AlreadyIssued,
            12 => Status::DoorFault,
            13 => Status::JournalTooSmall,
            14 => Status::Refused,
            15 => Status::NotSuccess,
            16 => Status::NoPlacement,
            17 => Status::UnknownKey,
            18 => Status::NotIssued,
            _ => unreachable!(),
        }
    }
}
