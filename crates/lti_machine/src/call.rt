// What is asked of the machine.
ghost use Rattle.std.specs.Prelude.{◌≡◌, true, IsTrue, ◌↔◌, ◌⊎◌, IfOk};
ghost use Rattle.std.specs.Option.{option_map};
ghost use Rattle.lti_machine.specs.Rules as rules;
ghost use Rattle.lti_machine.specs.Belongs.{belongs};
ghost use Rattle.lti_machine.specs.Sound.{IsShort, IsSound, IsStamped, IsUnstamped};

use crate::reply::Reply;
use crate::standing::Standing;
use lti_outside::{NoMemory, Text};
use score_decimal::Score;

/// The greatest moment and the greatest timestamp, in seconds: fifteen decimal digits. This bound is this
/// project's own.
pub const GREATEST_MOMENT: u64 = 999_999_999_999_999;

/// What a call asks for besides the use of its nonce.
#[derive(Drop)]
pub enum Action {
    /// Nothing. The call leaves only its nonce behind.
    Note,
    /// To note that a user started the tool from a resource link (LTI 1.1.1, section 3).
    Launch {
        /// The link, as `resource_link_id` names it.
        link: Text,
        /// The user, as `user_id` names it; empty where the launch names none.
        user: Text,
        /// Where a grade of this user and link goes (`lis_result_sourcedid`, section 6); empty where the
        /// launch names no place.
        sourced_id: Text,
        /// The address of the service that takes grades (`lis_outcome_service_url`, section 6); empty where
        /// the launch names none.
        service: Text,
    },
    /// To give an id a grade (`replaceResult`, LTI 1.1.1 section 6). `score` is `None` where what was sent
    /// is no score.
    Replace {
        id: Text,
        score: Option<Score>,
    },
    /// To tell the grade of an id (`readResult`, section 6).
    Read {
        id: Text,
    },
    /// To take the grade of an id away (`deleteResult`, section 6).
    Delete {
        id: Text,
    },
    /// To take grades of an id from now on. It is the operator's own call, which nobody signs: it has no
    /// nonce, and its timestamp is 0.
    Issue {
        id: Text,
    },
}

impl Action {
    /// Whether the action is the operator's own, and has no nonce.
    pub fn is_issue(&self) -> bool
        ensures { result ≡ rules.is_issue self.now }
    {
        match self {
            Action::Issue { .. } => true,
            _ => false,
        }
    }

    /// The id whose grade the action asks for (`sourcedId`, LTI 1.1.1 section 6); `None` where it asks for none.
    pub fn id(&self) -> Option<&str>
        ensures { option_map (λ id. id.now) result ≡ rules.id_of self.now }
    {
        match self {
            Action::Note | Action::Launch { .. } => None,
            Action::Replace { id, .. }
            | Action::Read { id }
            | Action::Delete { id }
            | Action::Issue { id } => Some(id.get()),
        }
    }

    /// The reply to what is asked where its id stands so, and nothing speaks against the nonce. It is an
    /// acceptance, or `AlreadyIssued`.
    pub fn result(&self, standing: Standing) -> Reply
        ensures reply { result ≡ rules.result_of self.now standing }
        ensures belongs { belongs self.now result ≡ true }
    {
        match self {
            Action::Note => Reply::Noted,
            Action::Launch { .. } => Reply::Launched,
            Action::Replace { score, .. } => match (standing, score) {
                (Standing::Unknown, _) => Reply::UnknownId,
                (_, Some(_)) => Reply::Graded,
                (_, None) => Reply::BadScore,
            },
            Action::Read { .. } => match standing {
                Standing::Unknown => Reply::UnknownId,
                Standing::Empty => Reply::GradeRead { score: None },
                Standing::Scored(score) => Reply::GradeRead { score: Some(score) },
            },
            Action::Delete { .. } => match standing {
                Standing::Unknown => Reply::UnknownId,
                _ => Reply::Deleted,
            },
            Action::Issue { .. } => match standing {
                Standing::Unknown => Reply::Issued,
                _ => Reply::AlreadyIssued,
            },
        }
    }

    /// The same action in memory of its own.
    pub(crate) fn copy(&self) -> Result<Action, NoMemory>
        ensures { IfOk result (λ copy. copy ≡ self.now) }
    {
        Ok(match self {
            Action::Note => Action::Note,
            Action::Launch {
                link,
                user,
                sourced_id,
                service,
            } => Action::Launch {
                link: link.copy()?,
                user: user.copy()?,
                sourced_id: sourced_id.copy()?,
                service: service.copy()?,
            },
            Action::Replace { id, score } => Action::Replace {
                id: id.copy()?,
                score: *score,
            },
            Action::Read { id } => Action::Read { id: id.copy()? },
            Action::Delete { id } => Action::Delete { id: id.copy()? },
            Action::Issue { id } => Action::Issue { id: id.copy()? },
        })
    }
}

/// A call whose signature was found good, or an operator's own call.
///
/// Moments and timestamps are seconds since 1970-01-01 00:00:00 UTC.
#[derive(Drop)]
pub struct Call {
    /// The number of the connection that asks. No rule reads it.
    pub caller: u32,
    /// When the call is asked, by the clock of this end. A clock that went back does no harm: where the
    /// list has a greater moment, that one stands.
    pub moment: u64,
    /// The consumer key under which the call was signed (`oauth_consumer_key`).
    pub key: Text,
    /// When the call was signed, by the clock of the other end (`oauth_timestamp`, RFC 5849 section 3.3); 0
    /// for `Action::Issue`.
    pub timestamp: u64,
    /// The text that tells the call from others of its key and timestamp (`oauth_nonce`, RFC 5849
    /// section 3.3); empty for `Action::Issue`.
    pub nonce: Text,
    /// What is asked.
    pub action: Action,
}

impl Call {
    /// Whether the machine takes the call: the moment is at most `GREATEST_MOMENT`, the key has 1 to 255
    /// bytes, the timestamp is from 1 to `GREATEST_MOMENT` and the nonce has 1 to 255 bytes; for
    /// `Action::Issue` the timestamp is 0 and the nonce is empty. These ranges are this project's own; RFC
    /// 5849 section 3.3 has a positive timestamp.
    pub fn sound(&self) -> bool
        ensures { IsTrue result ↔ IsSound self.now }
    {
        self.moment <= GREATEST_MOMENT && is_short(&self.key) && self.has_stamp()
    }

    // Whether the timestamp and the nonce are those that the action needs.
    fn has_stamp(&self) -> bool
        ensures { IsTrue result ↔ (IsStamped self.now ⊎ IsUnstamped self.now) }
    {
        if self.action.is_issue() {
            return self.timestamp == 0 && self.nonce.get().is_empty();
        }
        1 <= self.timestamp && self.timestamp <= GREATEST_MOMENT && is_short(&self.nonce)
    }
}

// Whether a text has 1 to 255 bytes.
fn is_short(text: &Text) -> bool
    ensures { IsTrue result ↔ IsShort text.now }
{
    let length = text.get().len();
    1 <= length && length <= 255
}
