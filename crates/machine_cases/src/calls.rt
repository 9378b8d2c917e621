// Calls as they are written in a line.
use case_words::{Misread, Words};
use lti_machine::{Action, Call, Reply};
use score_decimal::Score;
use std::alloc::Global;

/// The call that the words spell: what is asked, and then its moment, key, timestamp and nonce, and what the action is about:
/// `note`, `launch LINK USER ID SERVICE`, `grade ID SCORE`, `read ID`, `delete ID` or `issue ID`.
pub fn read_call(alloc: Global, words: &mut Words<'_>) -> Result<Call, Misread> {
    let asked = words.word()?;
    Ok(Call {
        caller: 0,
        moment: words.number()?,
        key: words.text(alloc)?,
        timestamp: words.number()?,
        nonce: words.text(alloc)?,
        action: read_action(alloc, asked, words)?,
    })
}

fn read_action(alloc: Global, asked: &str, words: &mut Words<'_>) -> Result<Action, Misread> {
    Ok(match asked {
        "note" => Action::Note,
        "launch" => Action::Launch {
            link: words.text(alloc)?,
            user: words.text(alloc)?,
            sourced_id: words.text(alloc)?,
            service: words.text(alloc)?,
        },
        "grade" => Action::Replace {
            id: words.text(alloc)?,
            score: Score::read(words.word()?),
        },
        "read" => Action::Read {
            id: words.text(alloc)?,
        },
        "delete" => Action::Delete {
            id: words.text(alloc)?,
        },
        "issue" => Action::Issue {
            id: words.text(alloc)?,
        },
        _ => return Err(Misread::NoCase),
    })
}

/// The reply of this name.
pub fn read_reply(words: &mut Words<'_>) -> Result<Reply, Misread> {
    Ok(match words.word()? {
        "Noted" => Reply::Noted,
        "Graded" => Reply::Graded,
        "Deleted" => Reply::Deleted,
        "UnknownId" => Reply::UnknownId,
        _ => return Err(Misread::NoCase),
    })
}
