// The plain machine, with a list.
ghost use Rattle.std.specs.Prelude.{◌≡◌, [], length, slice_get, true};
ghost use Rattle.std.specs.Option.{option_map, option_copied};
ghost use Rattle.lti_machine.specs.Rules.{decide, after, Answers, standing_of};
ghost use Rattle.lti_machine.specs.Belongs.{belongs};
ghost use Rattle.lti_machine.specs.Sound.{IsSound};

use crate::call::Call;
use crate::entry::{Entry, effect_of};
use crate::places::Places;
use crate::reply::Reply;
use crate::rules;
use crate::standing::{Standing, standing_among};
use crate::verdict::Verdict;
use lti_outside::Limits;
use std::alloc::Global;
use std::collections::HashMap;
use std::marker::Model;

/// The machine with all that it ever accepted, in order, in one list of at most 2^32 - 1 entries.
///
/// A signed call costs one look-up by the hash of its key, timestamp and nonce. It costs a pass over the list
/// where an entry with other ones has that hash, which is seldom, one where the list is at least as long as the
/// window, and one where it asks for a grade.
#[derive(Drop)]
pub struct Solo {
    entries: Vec<Entry>,
    places: Places,
    highest: u64,
}

impl Model for Solo {
    ghost use Rattle.std.specs.Prelude.{List, nat_eq};
    ghost use Rattle.std.specs.HashMap.{get};
    ghost use Rattle.lti_machine.specs.declared.entry.Entry.{Entry};
    ghost use Rattle.lti_machine.specs.Kept.{IsHeld};

    ghost Value = { List Entry };

    ghost view = { λ s. s.entries.items };

    ghost invariant = { λ s. IsHeld s.entries.items (get nat_eq s.places) s.highest };
}

impl Solo {
    /// The machine that has accepted nothing, which takes no memory.
    pub fn new(alloc: Global) -> Solo
        ensures { result ≡ [] }
    {
        Solo {
            entries: Vec::new(alloc),
            places: HashMap::new(alloc),
            highest: 0,
        }
    }

    /// Answers a call by the rules over the list, and adds its entry exactly where it is accepted.
    ///
    /// `limits.window` is how many nonces a key may have that aren't forgotten. Where the list has
    /// 2^32 - 1 entries, `NoMemory` stands in place of an acceptance.
    pub fn answer(&mut self, call: Call, limits: &Limits) -> Reply
        requires { IsSound call }
        ensures decided { Answers (decide self.old call limits.now.window) result }
        ensures kept { self.new ≡ after self.old call result }
        ensures belongs { belongs call.action result ≡ true }
    {
        let now = call.moment.max(self.highest);
        if !call.action.is_issue() {
            match rules::judge(&self.entries, &self.places, &call, now, limits.window) {
                Verdict::New => {}
                Verdict::Outside => return Reply::Outside { now },
                Verdict::Used => return Reply::Used,
                Verdict::WindowFull { live } => return Reply::WindowFull { live },
            }
        }
        let standing = self.standing_of(call.key.get(), call.action.id());
        let reply = call.action.result(standing);
        if !reply.is_acceptance() {
            return reply;
        }
        let entry = Entry {
            moment: now,
            key: call.key,
            timestamp: call.timestamp,
            nonce: call.nonce,
            effect: effect_of(call.action, reply),
        };
        match rules::keep(&mut self.entries, &mut self.places, entry) {
            Ok(()) => {
                self.highest = now;
                reply
            }
            Err(_) => Reply::NoMemory,
        }
    }

    // How the id stands under the key, where there is one.
    fn standing_of(&self, key: &str, id: Option<&str>) -> Standing
        ensures { result ≡ standing_of self.now key.now (option_map (λ text. text.now) id.entry) }
    {
        match id {
            Some(id) => standing_among(&self.entries, key, id),
            None => Standing::Unknown,
        }
    }

    /// How many entries there are.
    pub fn len(&self) -> usize
        ensures { result ≡ length self.now }
    {
        self.entries.len()
    }

    /// The entry at this place, counted from 0 in the order of acceptance.
    pub fn entry(&self, place: usize) -> Option<&Entry>
        ensures { option_copied result ≡ slice_get self.now place }
    {
        self.entries.get(place)
    }
}
