// What holds of all envelopes.
ghost use Rattle.pox_outcomes.specs.Laws.{WrittenIsRead, ReadIsWritable, WrittenAnswerIsRead};

/// What `write_request` writes for an outcome is an envelope of this outcome, so that `read_request` answers it or
/// `NoMemory`: where the score text is empty unless the operation is `ReplaceResult`.
pub fn written_is_read()
    ensures { WrittenIsRead }
{}

/// The texts of an outcome that `read_request` answers are XML text, and the score text is empty unless the operation
/// is `ReplaceResult`. So each outcome that was read can be written again, and its answer can be read.
pub fn read_is_writable()
    ensures { ReadIsWritable }
{}

/// What `write_answer` writes says what it was told, so that `read_answer` answers this or `NoMemory`: where the
/// message identifier and the id are XML text.
pub fn written_answer_is_read()
    ensures { WrittenAnswerIsRead }
{}
