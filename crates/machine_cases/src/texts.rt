// Replies and entries as texts.
use case_words::Misread;
use lti_machine::{Effect, Entry, Reply};
use std::alloc::Global;

/// The text of a reply: its name, and what it tells.
pub fn reply_text(alloc: Global, reply: Reply) -> Result<String, Misread> {
    Ok(match reply {
        Reply::GradeRead { score: None } => String::from_str(alloc, "GradeRead none")?,
        Reply::GradeRead { score: Some(score) } => {
            format!(in alloc; "GradeRead {}", score.print(alloc)?)?
        }
        Reply::Outside { now } => format!(in alloc; "Outside {now}")?,
        Reply::WindowFull { live } => format!(in alloc; "WindowFull {live}")?,
        told => format!(in alloc; "{told:?}")?,
    })
}

/// The text of an entry: its moment, key, timestamp, nonce (`-` where it has none) and effect.
pub fn entry_text(alloc: Global, entry: &Entry) -> Result<String, Misread> {
    let effect = effect_text(alloc, &entry.effect)?;
    let nonce = match entry.nonce.get() {
        "" => "-",
        nonce => nonce,
    };
    Ok(format!(in alloc;
        "{} {} {} {nonce} {effect}",
        entry.moment,
        entry.key.get(),
        entry.timestamp
    )?)
}

fn effect_text(alloc: Global, effect: &Effect) -> Result<String, Misread> {
    Ok(match effect {
        Effect::Nothing => String::from_str(alloc, "nothing")?,
        Effect::Launch {
            link,
            user,
            sourced_id,
            service,
        } => {
            format!(in alloc;
                "launch {} {} {} {}",
                link.get(),
                user.get(),
                sourced_id.get(),
                service.get()
            )?
        }
        Effect::Grade { id, score } => {
            format!(in alloc; "grade {} {}", id.get(), score.print(alloc)?)?
        }
        Effect::Cleared { id } => format!(in alloc; "cleared {}", id.get())?,
        Effect::Issued { id } => format!(in alloc; "issued {}", id.get())?,
    })
}
