// Laws of the bytes of entries, of summaries, and of histories.
ghost use Rattle.lti_machine.specs.EntryBytes.{HasOneReading, AcceptedIsBounded};
ghost use Rattle.lti_machine.specs.History.{AnyGoesByRules, PlainGoesByRules, NoNonceThatStoodIsAccepted, NoNonceIsAcceptedTwice, GradeIsTold};
ghost use Rattle.lti_machine.specs.StandingLaws.{UnknownUntilIssued, EmptyUntilGraded, LastDecides};
ghost use Rattle.lti_machine.specs.SummaryLaws.{DigestServesAtMoment, DigestServes, SummaryDecides, SummaryGoesOn, SummaryGoesOnAfter, LiveIsPart, DigestIsInRange};

/// The same bytes are those of one entry at most.
pub fn an_entry_has_one_reading()
    ensures { HasOneReading }
{}

/// The entry of a sound call has the bounds that `entry_bytes` asks for what it writes to be read back, where the entries before
/// it have them.
pub fn an_accepted_call_is_in_its_bounds()
    ensures { AcceptedIsBounded }
{}

/// The digest at the moment of an entry serves in place of the list that the entry comes behind.
pub fn digest_serves_at_moment()
    ensures { DigestServesAtMoment }
{}

/// The digest at the greatest moment has the summary of the list.
pub fn digest_serves()
    ensures { DigestServes }
{}

/// Equal summaries give equal replies.
pub fn summary_decides()
    ensures { SummaryDecides }
{}

/// Equal summaries stay equal with the same entry behind them.
pub fn summary_goes_on()
    ensures { SummaryGoesOn }
{}

/// Equal summaries stay equal after the same call with the same reply.
pub fn summary_goes_on_after()
    ensures { SummaryGoesOnAfter }
{}

/// The live nonces of a key are those of all keys that are its own, in the same order.
pub fn live_is_part()
    ensures { LiveIsPart }
{}

/// The digest of entries that can be kept and read again can be, too.
pub fn digest_is_in_range()
    ensures { DigestIsInRange }
{}

/// What any machine was asked that goes by the rules, one call behind another, is a history by the rules: where each call that
/// is accepted is told what they decide over the machine's list, and the list gains an entry for each of these calls and no
/// other, all of the history does so, from its first list to its last. What the machine says to calls that it doesn't accept is
/// its own.
pub fn a_history_goes_by_the_rules()
    ensures { AnyGoesByRules }
{}

/// What a `Solo` was asked, one call behind another, is a history by the rules: each call that was accepted was told what they
/// decide over the entries before it, and the list has an entry for each of these calls and no other.
pub fn a_plain_history_goes_by_the_rules()
    ensures { PlainGoesByRules }
{}

/// In a history by the rules no signed call is accepted whose key, timestamp and nonce were accepted before it (RFC 5849,
/// section 3.3), be it in the history or in an entry that it began from, and whatever was asked between. So a launch that is
/// posted again isn't launched again.
pub fn no_nonce_is_accepted_twice()
    ensures stood { NoNonceThatStoodIsAccepted }
    ensures accepted { NoNonceIsAcceptedTwice }
{}

/// In a history by the rules a grade that was set is told to whoever asks for it (LTI 1.1.1, section 6), as long as no call that
/// is accepted sets it again or takes it away.
pub fn a_grade_is_told_as_it_was_set()
    ensures { GradeIsTold }
{}

/// The grade of an id stands as the last entry behind its first issue says, by which it was set or taken away (LTI 1.1.1, section
/// 6); where none does, the id has no grade; and before its first issue it is unknown.
pub fn a_grade_stands_by_its_last_entry()
    ensures unknown { UnknownUntilIssued }
    ensures empty { EmptyUntilGraded }
    ensures last { LastDecides }
{}
