// What holds of all messages.
ghost use Rattle.http_wire.specs.Answer.{OneAnswer};
ghost use Rattle.http_wire.specs.Back.{OnlySoundIsRead, WrittenIsRead};
ghost use Rattle.http_wire.specs.Spelling.{OneSpelling, NoProperFront, FaultsAreFirst};

/// Bytes begin with one spelling of a request at most.
pub fn one_spelling()
    ensures { OneSpelling }
{}

/// No spelling of a request is a proper front of another.
pub fn no_proper_front()
    ensures { NoProperFront }
{}

/// A fault is the first one, whatever follows the bytes that show it.
pub fn faults_are_first()
    ensures { FaultsAreFirst }
{}

/// Bytes are an answer and a rest in one way at most, if the input ends behind them.
pub fn one_answer()
    ensures { OneAnswer }
{}

/// A written request is read back, where the limits hold its head, its header lines and its body.
pub fn written_is_read()
    ensures { WrittenIsRead }
{}

/// A request whose text is read as this request is sound, whatever the limits.
pub fn only_sound_is_read()
    ensures { OnlySoundIsRead }
{}
