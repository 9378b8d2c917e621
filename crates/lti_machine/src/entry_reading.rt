// Reading the bytes of an entry.
ghost use Rattle.std.specs.Prelude.{◌≡◌, ◌↔◌, ℕ, List, IsTrue, None, Err, IfSome, IfOk};
ghost use Rattle.lti_machine.specs.declared.entry.Effect.{Effect};
ghost use Rattle.lti_machine.specs.declared.entry.Effect.TheVariants.{Launch, Grade};
ghost use Rattle.lti_machine.specs.declared.entry.Entry.{Entry};
ghost use Rattle.lti_machine.specs.EntryBytes.{text_bytes, IsText, IsEntry};
ghost use Rattle.lti_machine.specs.HeadView.{HeadValue, BeginsWith, IsHeadInRange, IsEffect, head_of};
ghost use Rattle.lti_machine.specs.declared.entry_fault.EntryFault.TheVariants.{NoReading};

use crate::call::GREATEST_MOMENT;
use crate::entry::{Effect, Entry};
use crate::entry_fault::EntryFault;
use crate::entry_parts::{take_effect, take_number, take_text, whole_great_number, whole_text};
use lti_outside::Text;
use score_decimal::Score;
use std::alloc::Global;

// What stands before the parts of the effect.
#[derive(Drop)]
struct Head<'a> {
    effect: u8,
    moment: u64,
    timestamp: u64,
    key: &'a str,
    nonce: &'a str,
}

impl Head<'_> {
    // Whether each part is in its range.
    fn is_in_range(&self) -> bool
        ensures { IsTrue result ↔ IsHeadInRange (head_of self.now) }
    {
        self.moment <= GREATEST_MOMENT
            && self.timestamp <= GREATEST_MOMENT
            && self.key.len() <= 255
            && self.nonce.len() <= 255
            && self.nonce.is_empty() == (self.timestamp == 0)
    }
}

// The head that the bytes begin with, and the bytes behind it.
fn take_head(bytes: &[u8]) -> Option<(Head<'_>, &[u8])>
    ensures head { IfSome result (λ taken. BeginsWith bytes.now (head_of taken.0) taken.1.now) }
    ensures none { result ≡ None → (head : HeadValue) (rest : List ℕ) → BeginsWith bytes.now head rest → ⊥ }
{
    let (effect, rest) = take_effect(bytes)?;
    let (moment, rest) = take_number(rest)?;
    let (timestamp, rest) = take_number(rest)?;
    let (key, rest) = take_text(rest)?;
    let (nonce, rest) = take_text(rest)?;
    let head = Head {
        effect,
        moment,
        timestamp,
        key,
        nonce,
    };
    Some((head, rest))
}

// The id that all the bytes are.
fn read_id(alloc: Global, bytes: &[u8]) -> Result<Text, EntryFault>
    ensures text { IfOk result (λ id. bytes.now ≡ text_bytes id) }
    ensures is_text { IfOk result (λ id. IsText id) }
    ensures none { result ≡ Err NoReading → (id : List ℕ) → IsText id → bytes.now ≡ text_bytes id → ⊥ }
{
    match whole_text(bytes) {
        Some(text) => Ok(Text::new(alloc, text)?),
        None => Err(EntryFault::NoReading),
    }
}

// The four texts that all the bytes are.
fn take_launch(bytes: &[u8]) -> Option<(&str, &str, &str, &str)>
    ensures texts { IfSome result (λ t. IsEffect 1 bytes.now (Launch t.0.now t.1.now t.2.now t.3.now)) }
    ensures none { result ≡ None → (link user sourced_id service : List ℕ) → IsEffect 1 bytes.now (Launch link user sourced_id service) → ⊥ }
{
    let (link, rest) = take_text(bytes)?;
    let (user, rest) = take_text(rest)?;
    let (sourced_id, rest) = take_text(rest)?;
    let service = whole_text(rest)?;
    Some((link, user, sourced_id, service))
}

// The launch whose parts the bytes are.
fn read_launch(alloc: Global, bytes: &[u8]) -> Result<Effect, EntryFault>
    ensures effect { IfOk result (λ effect. IsEffect 1 bytes.now effect) }
    ensures none { result ≡ Err NoReading → (link user sourced_id service : List ℕ) → IsEffect 1 bytes.now (Launch link user sourced_id service) → ⊥ }
{
    let Some((link, user, sourced_id, service)) = take_launch(bytes) else {
        return Err(EntryFault::NoReading);
    };
    Ok(Effect::Launch {
        link: Text::new(alloc, link)?,
        user: Text::new(alloc, user)?,
        sourced_id: Text::new(alloc, sourced_id)?,
        service: Text::new(alloc, service)?,
    })
}

// The id and the score that all the bytes are.
fn take_grade(bytes: &[u8]) -> Option<(&str, Score)>
    ensures grade { IfSome result (λ t. IsEffect 3 bytes.now (Grade t.0.now t.1)) }
    ensures none { result ≡ None → (id : List ℕ) (score : ℕ) → IsEffect 3 bytes.now (Grade id score) → ⊥ }
{
    let (id, rest) = take_text(bytes)?;
    let score = Score::from_parts(whole_great_number(rest)?)?;
    Some((id, score))
}

// The grade whose parts the bytes are.
fn read_grade(alloc: Global, bytes: &[u8]) -> Result<Effect, EntryFault>
    ensures effect { IfOk result (λ effect. IsEffect 3 bytes.now effect) }
    ensures none { result ≡ Err NoReading → (id : List ℕ) (score : ℕ) → IsEffect 3 bytes.now (Grade id score) → ⊥ }
{
    let Some((id, score)) = take_grade(bytes) else {
        return Err(EntryFault::NoReading);
    };
    Ok(Effect::Grade {
        id: Text::new(alloc, id)?,
        score,
    })
}

// The effect whose parts the bytes are, by the byte that stands for it.
fn read_effect(alloc: Global, number: u8, bytes: &[u8]) -> Result<Effect, EntryFault>
    ensures effect { IfOk result (λ effect. IsEffect number bytes.now effect) }
    ensures none { result ≡ Err NoReading → (effect : Effect) → IsEffect number bytes.now effect → ⊥ }
{
    match number {
        0 if bytes.is_empty() => Ok(Effect::Nothing),
        1 => read_launch(alloc, bytes),
        3 => read_grade(alloc, bytes),
        4 => Ok(Effect::Cleared {
            id: read_id(alloc, bytes)?,
        }),
        5 => Ok(Effect::Issued {
            id: read_id(alloc, bytes)?,
        }),
        _ => Err(EntryFault::NoReading),
    }
}

/// The entry that the bytes are. `NoReading` comes exactly where they are those of no entry.
pub fn read_entry(alloc: Global, bytes: &[u8]) -> Result<Entry, EntryFault>
    ensures entry { IfOk result (λ entry. IsEntry bytes.now entry) }
    ensures no_reading { result ≡ Err NoReading → (entry : Entry) → IsEntry bytes.now entry → ⊥ }
{
    let Some((head, rest)) = take_head(bytes) else {
        return Err(EntryFault::NoReading);
    };
    if !head.is_in_range() {
        return Err(EntryFault::NoReading);
    }
    let effect = read_effect(alloc, head.effect, rest)?;
    Ok(Entry {
        moment: head.moment,
        key: Text::new(alloc, head.key)?,
        timestamp: head.timestamp,
        nonce: Text::new(alloc, head.nonce)?,
        effect,
    })
}
