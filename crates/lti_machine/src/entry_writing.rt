// The bytes in which an entry is kept, and how many they are.
ghost use Rattle.std.specs.Prelude.{◌≡◌, ℕ, ◌+◌, ◌^◌, ◌<◌, ◌≤◌, ◌++◌, min, length, IfOk, OnOk};
ghost use Rattle.std.specs.Int.{w128, to_be_bytes};
ghost use Rattle.lti_machine.specs.Rules as rules;
ghost use Rattle.lti_machine.specs.EntryBytes as specs;
ghost use Rattle.lti_machine.specs.EntryBytes.{text_bytes, effect_parts, entry_text, length_of, IsText, AreParts, IsBounded, IsEntry};

use crate::call::{Action, Call};
use crate::entry::{Effect, Entry};
use crate::reply::Reply;
use lti_outside::{Bytes, NoMemory, Text};
use score_decimal::Score;
use std::alloc::Global;

// How many bytes a text takes, or the greatest number where that is less.
fn text_len(text: &Text) -> u64
    ensures { result ≡ min (length (text_bytes text.now)) 18446744073709551615 }
{
    (text.get().len() as u64).saturating_add(4)
}

// How many bytes a launch's parts take.
fn launch_len(link: &Text, user: &Text, sourced_id: &Text, service: &Text) -> u64
    ensures { result ≡ min (length (text_bytes link.now ++ (text_bytes user.now ++ (text_bytes sourced_id.now ++ text_bytes service.now)))) 18446744073709551615 }
{
    text_len(link)
        .saturating_add(text_len(user))
        .saturating_add(text_len(sourced_id))
        .saturating_add(text_len(service))
}

// How many bytes the parts of an effect take.
fn parts_len(effect: &Effect) -> u64
    ensures { result ≡ min (length (effect_parts effect.now)) 18446744073709551615 }
{
    match effect {
        Effect::Nothing => 0,
        Effect::Launch {
            link,
            user,
            sourced_id,
            service,
        } => launch_len(link, user, sourced_id, service),
        Effect::Grade { id, .. } => text_len(id).saturating_add(16),
        Effect::Cleared { id } | Effect::Issued { id } => text_len(id),
    }
}

// How many bytes the parts of the effect of an accepted call take, by its reply.
fn action_len(action: &Action, reply: Reply) -> u64
    ensures { result ≡ min (length (effect_parts (rules.effect_of action.now reply))) 18446744073709551615 }
{
    if let Reply::UnknownId = reply {
        return 0;
    }
    match action {
        Action::Note | Action::Read { .. } => 0,
        Action::Launch {
            link,
            user,
            sourced_id,
            service,
        } => launch_len(link, user, sourced_id, service),
        Action::Replace { id, score } => match score {
            Some(_) => text_len(id).saturating_add(16),
            None => 0,
        },
        Action::Delete { id } | Action::Issue { id } => text_len(id),
    }
}

// How many bytes an entry takes with parts of an effect of so many.
fn len_with(key: &Text, nonce: &Text, parts: u64) -> u64
    ensures { (n : ℕ) → parts ≡ min n 18446744073709551615 → result ≡ min (18 + length (text_bytes key.now) + length (text_bytes nonce.now) + n) 18446744073709551615 }
{
    text_len(key)
        .saturating_add(text_len(nonce))
        .saturating_add(parts)
        .saturating_add(18)
}

/// How many bytes the entry is kept in, or 2^64 - 1 where they are more. Takes no memory.
pub fn entry_len(entry: &Entry) -> u64
    ensures { result ≡ length_of entry.now }
{
    len_with(&entry.key, &entry.nonce, parts_len(&entry.effect))
}

/// How many bytes the entry of an accepted call with its reply is kept in, or 2^64 - 1 where they are more, whatever moment
/// stands. It makes no entry and takes no memory.
pub fn call_len(call: &Call, reply: Reply) -> u64
    ensures { (now : ℕ) → result ≡ length_of (rules.entry_of call.now reply now) }
{
    len_with(&call.key, &call.nonce, action_len(&call.action, reply))
}

// Appends a text.
fn push_text(bytes: &mut Bytes, text: &Text) -> Result<(), NoMemory>
    requires { length text.now < 2 ^ 32 }
    ensures bytes { OnOk result (bytes.new.list ≡ bytes.old.list ++ text_bytes text.now) }
    ensures text { IsText text.now }
{
    let text = text.get().as_bytes();
    bytes.push(&(text.len() as u32).to_be_bytes())?;
    bytes.push(text)
}

// Appends a score.
fn push_score(bytes: &mut Bytes, score: &Score) -> Result<(), NoMemory>
    ensures bytes { OnOk result (bytes.new.list ≡ bytes.old.list ++ to_be_bytes w128 score.now) }
    ensures range { score.now ≤ 10 ^ 30 }
{
    bytes.push(&score.parts().to_be_bytes())
}

// Appends the parts of an effect.
fn push_parts(bytes: &mut Bytes, effect: &Effect) -> Result<(), NoMemory>
    requires { length (effect_parts effect.now) < 2 ^ 32 }
    ensures bytes { OnOk result (bytes.new.list ≡ bytes.old.list ++ effect_parts effect.now) }
    ensures parts { OnOk result (AreParts effect.now) }
{
    match effect {
        Effect::Nothing => Ok(()),
        Effect::Launch {
            link,
            user,
            sourced_id,
            service,
        } => {
            push_text(bytes, link)?;
            push_text(bytes, user)?;
            push_text(bytes, sourced_id)?;
            push_text(bytes, service)
        }
        Effect::Grade { id, score } => {
            push_text(bytes, id)?;
            push_score(bytes, score)
        }
        Effect::Cleared { id } | Effect::Issued { id } => push_text(bytes, id),
    }
}

// The byte that stands for an effect.
fn effect_byte(effect: &Effect) -> u8
    ensures { result ≡ specs.effect_byte effect.now }
{
    match effect {
        Effect::Nothing => 0,
        Effect::Launch { .. } => 1,
        Effect::Grade { .. } => 3,
        Effect::Cleared { .. } => 4,
        Effect::Issued { .. } => 5,
    }
}

/// The bytes in which an entry is kept; they are fewer than 2^32. Where the entry is in its bounds, `read_entry` gives it back:
/// moment and timestamp are at most `GREATEST_MOMENT`, key and nonce have at most 255 bytes, and there is a nonce exactly where
/// the timestamp isn't 0.
pub fn entry_bytes(alloc: Global, entry: &Entry) -> Result<Bytes, NoMemory>
    requires short { length (entry_text entry.now) < 2 ^ 32 }
    ensures bytes { IfOk result (λ bytes. bytes.list ≡ entry_text entry.now) }
    ensures entry { IsBounded entry.now → IfOk result (λ bytes. IsEntry bytes.list entry.now) }
{
    let mut bytes = Bytes::new(alloc);
    bytes.reserve(entry_len(entry) as usize)?;
    bytes.push(&[1, effect_byte(&entry.effect)])?;
    bytes.push(&entry.moment.to_be_bytes())?;
    bytes.push(&entry.timestamp.to_be_bytes())?;
    push_text(&mut bytes, &entry.key)?;
    push_text(&mut bytes, &entry.nonce)?;
    push_parts(&mut bytes, &entry.effect)?;
    Ok(bytes)
}
