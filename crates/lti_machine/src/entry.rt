// What the machine keeps.
ghost use Rattle.std.specs.Prelude.{◌≡◌, IfOk};
ghost use Rattle.lti_machine.specs.Rules as rules;

use crate::call::{Action, Call};
use crate::reply::Reply;
use lti_outside::{NoMemory, Text};
use score_decimal::Score;

/// What an accepted call changed besides its nonce.
#[derive(Drop)]
pub enum Effect {
    /// Nothing.
    Nothing,
    /// A user started the tool from a resource link. The texts are those of `Action::Launch`.
    Launch {
        link: Text,
        user: Text,
        sourced_id: Text,
        service: Text,
    },
    /// The id has this grade.
    Grade {
        id: Text,
        score: Score,
    },
    /// The id has no grade any more.
    Cleared {
        id: Text,
    },
    /// Grades of the id are taken from now on.
    Issued {
        id: Text,
    },
}

/// What is kept of an accepted call.
#[derive(Drop)]
pub struct Entry {
    /// The moment that stood when the call was accepted, in seconds since 1970-01-01 00:00:00 UTC: the
    /// call's own, or the greatest before it where that is greater.
    pub moment: u64,
    /// The call's consumer key.
    pub key: Text,
    /// The call's timestamp, in seconds since 1970-01-01 00:00:00 UTC; 0 where it has no nonce.
    pub timestamp: u64,
    /// The call's nonce. Where it is empty the entry uses up no nonce.
    pub nonce: Text,
    /// What the call changed.
    pub effect: Effect,
}

impl Effect {
    /// The same effect in memory of its own.
    pub fn copy(&self) -> Result<Effect, NoMemory>
        ensures { IfOk result (λ copy. copy ≡ self.now) }
    {
        Ok(match self {
            Effect::Nothing => Effect::Nothing,
            Effect::Launch {
                link,
                user,
                sourced_id,
                service,
            } => Effect::Launch {
                link: link.copy()?,
                user: user.copy()?,
                sourced_id: sourced_id.copy()?,
                service: service.copy()?,
            },
            Effect::Grade { id, score } => Effect::Grade {
                id: id.copy()?,
                score: *score,
            },
            Effect::Cleared { id } => Effect::Cleared { id: id.copy()? },
            Effect::Issued { id } => Effect::Issued { id: id.copy()? },
        })
    }
}

impl Entry {
    /// The same entry in memory of its own.
    pub fn copy(&self) -> Result<Entry, NoMemory>
        ensures { IfOk result (λ copy. copy ≡ self.now) }
    {
        Ok(Entry {
            moment: self.moment,
            key: self.key.copy()?,
            timestamp: self.timestamp,
            nonce: self.nonce.copy()?,
            effect: self.effect.copy()?,
        })
    }
}

/// The entry of an accepted call with its reply, where `now` is the moment that stands, in seconds since
/// 1970-01-01 00:00:00 UTC. The reply is an acceptance that belongs to the call.
pub fn entry_of(call: &Call, reply: Reply, now: u64) -> Result<Entry, NoMemory>
    ensures { IfOk result (λ entry. entry ≡ rules.entry_of call.now reply now) }
{
    Ok(Entry {
        moment: now,
        key: call.key.copy()?,
        timestamp: call.timestamp,
        nonce: call.nonce.copy()?,
        effect: effect_of(call.action.copy()?, reply),
    })
}

/// What an accepted call changes besides its nonce, by its reply.
pub(crate) fn effect_of(action: Action, reply: Reply) -> Effect
    ensures { result ≡ rules.effect_of action reply }
{
    if let Reply::UnknownId = reply {
        return Effect::Nothing;
    }
    match action {
        Action::Note | Action::Read { .. } => Effect::Nothing,
        Action::Launch {
            link,
            user,
            sourced_id,
            service,
        } => Effect::Launch {
            link,
            user,
            sourced_id,
            service,
        },
        Action::Replace { id, score } => match score {
            Some(score) => Effect::Grade { id, score },
            None => Effect::Nothing,
        },
        Action::Delete { id } => Effect::Cleared { id },
        Action::Issue { id } => Effect::Issued { id },
    }
}
