// What entries change and calls ask, as it is written in a line.
use case_words::{Misread, Words};
use lti_machine::{Action, Effect};
use score_decimal::Score;
use std::alloc::Global;

/// What an entry changes: `launch LINK USER ID SERVICE`, `grade ID SCORE`, `clear ID` or `issue ID`.
pub fn read_effect(alloc: Global, words: &mut Words<'_>) -> Result<Effect, Misread> {
    match words.word()? {
        "launch" => Ok(Effect::Launch {
            link: words.text(alloc)?,
            user: words.text(alloc)?,
            sourced_id: words.text(alloc)?,
            service: words.text(alloc)?,
        }),
        "grade" => Ok(Effect::Grade {
            id: words.text(alloc)?,
            score: Score::read(words.word()?).ok_or(Misread::NoCase)?,
        }),
        "clear" => Ok(Effect::Cleared {
            id: words.text(alloc)?,
        }),
        "issue" => Ok(Effect::Issued {
            id: words.text(alloc)?,
        }),
        _ => Err(Misread::NoCase),
    }
}

/// What a call asks: `note`, `launch LINK USER ID SERVICE`, `grade ID SCORE`, `read ID`, `delete ID` or `issue ID`. A
/// score that is none is asked as such.
pub fn read_action(alloc: Global, words: &mut Words<'_>) -> Result<Action, Misread> {
    match words.word()? {
        "note" => Ok(Action::Note),
        "launch" => Ok(Action::Launch {
            link: words.text(alloc)?,
            user: words.text(alloc)?,
            sourced_id: words.text(alloc)?,
            service: words.text(alloc)?,
        }),
        "grade" => Ok(Action::Replace {
            id: words.text(alloc)?,
            score: Score::read(words.word()?),
        }),
        "read" => Ok(Action::Read {
            id: words.text(alloc)?,
        }),
        "delete" => Ok(Action::Delete {
            id: words.text(alloc)?,
        }),
        "issue" => Ok(Action::Issue {
            id: words.text(alloc)?,
        }),
        _ => Err(Misread::NoCase),
    }
}
