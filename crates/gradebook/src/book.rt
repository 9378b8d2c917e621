// The book of grades.
ghost use Rattle.std.specs.Prelude.{◌≡◌, [], List, length, slice_get, true, OnOk, IfOk};
ghost use Rattle.std.specs.Option.{option_map};
ghost use Rattle.lti_machine.specs.declared.entry.Entry.{Entry};
ghost use Rattle.lti_machine.specs.declared.standing.Standing.TheVariants.{Empty};
ghost use Rattle.lti_machine.specs.Belongs.{belongs};
ghost use Rattle.lti_machine.specs.Rules as rules;
ghost use Rattle.lti_machine.specs.Standings as standings;
ghost use Rattle.gradebook.specs.Book.{Holds, Adds, SameContents, IsReady, IsReadyToIssue, IsReadyToPlace};
ghost use Rattle.lti_machine.specs.Rows.{rows_of};
ghost use Rattle.lti_machine.specs.Placements as placements;
ghost use Rattle.gradebook.specs.Told.{row_told, placement_told};
ghost use Rattle.gradebook.specs.Tables.{placement_of};
ghost use Rattle.lti_machine.specs.Rows.{set_row, add_row};
ghost use Rattle.lti_machine.specs.Placements.{put_by, same_place};

use crate::placement::Placement;
use crate::placements::{self, Placements, Target};
use crate::row::Row;
use crate::standings::{self, Standings};
use crate::texts::Texts;
use indexmap::IndexMap;
use lti_machine::{Call, Effect, Entry, Reply, Standing};
use lti_outside::NoMemory;
use std::alloc::Global;
use std::marker::Model;

/// The issued ids with their grades, and where grades go, by all entries that were ever applied.
///
/// Each text is kept once. A question costs a look-up of each of its texts and one of their numbers, and takes no memory.
#[derive(Drop)]
pub struct Gradebook {
    texts: Texts,
    standings: Standings,
    placements: Placements,
}

impl Model for Gradebook {
    ghost use Rattle.gradebook.specs.Book.{BookValue};

    ghost Value = { BookValue };

    ghost use Rattle.gradebook.specs.Inside.{value_of, IsSound};

    ghost view = { value_of };

    ghost invariant = { IsSound };
}

impl Gradebook {
    /// The book of no entries.
    pub fn new(alloc: Global) -> Result<Gradebook, NoMemory>
        ensures { IfOk result (λ book. Holds book []) }
    {
        Ok(Gradebook {
            texts: Texts::new(alloc),
            standings: IndexMap::new(alloc),
            placements: IndexMap::new(alloc),
        })
    }

    /// The reply to what the call asks, where nothing speaks against its nonce.
    pub fn reply(&self, call: &Call) -> Reply
        ensures reply { (entries : List Entry) → Holds self.now entries → result ≡ rules.result entries call.now }
        ensures belongs { belongs call.now.action result ≡ true }
    {
        let standing = match call.action.id() {
            Some(id) => self.grade(call.key.get(), id),
            None => Standing::Unknown,
        };
        call.action.result(standing)
    }

    /// Makes room for one entry, so that `apply` of it takes no memory. The room is for this entry alone, and lasts
    /// until the next call that changes the book. Whether it is made or not, the book tells what it told; on
    /// `NoMemory` some of the entry's texts may be kept. The end, 2^32 - 1 texts, counts as want of memory.
    pub fn prepare(&mut self, entry: &Entry) -> Result<(), NoMemory>
        ensures contents { SameContents self.old self.new }
        ensures ready { OnOk result (IsReady self.new entry.now) }
    {
        let key = entry.key.get();
        match &entry.effect {
            Effect::Issued { id } => {
                standings::make_room(&mut self.texts, &mut self.standings, key, id.get())
            }
            Effect::Launch { link, user, .. } => placements::make_room(
                &mut self.texts,
                &mut self.placements,
                key,
                link.get(),
                user.get(),
            ),
            Effect::Nothing | Effect::Grade { .. } | Effect::Cleared { .. } => Ok(()),
        }
    }

    /// Adds an entry for which room was made. It takes no memory.
    pub fn apply(&mut self, entry: Entry)
        requires { IsReady self.old entry }
        ensures { Adds self.old self.new entry }
    {
        let Entry { key, effect, .. } = entry;
        let key = key.get();
        match effect {
            Effect::Nothing => {}
            Effect::Issued { id } => self.issue(key, id.get()),
            Effect::Grade { id, score } => self.set(key, id.get(), Standing::Scored(score)),
            Effect::Cleared { id } => self.set(key, id.get(), Standing::Empty),
            Effect::Launch {
                link,
                user,
                sourced_id,
                service,
            } => {
                let target = Target {
                    sourced_id,
                    service,
                };
                self.place(key, link.get(), user.get(), target);
            }
        }
    }

    // Adds an id with no grade, unless it is issued already.
    fn issue(&mut self, key: &str, id: &str)
        requires { IsReadyToIssue self.old key.now id.now }
        ensures rows { self.new.rows ≡ add_row self.old.rows (record { key = key.now; id = id.now; standing = Empty }) }
        ensures placed { self.new.placed ≡ self.old.placed }
    {
        standings::issue(&self.texts, &mut self.standings, key, id);
    }

    // Changes how an issued id stands.
    fn set(&mut self, key: &str, id: &str, standing: Standing)
        ensures rows { self.new.rows ≡ set_row self.old.rows key.now id.now standing }
        ensures placed { self.new.placed ≡ self.old.placed }
    {
        standings::set(&self.texts, &mut self.standings, key, id, standing);
    }

    // Notes where the grade of a key's link and user goes from now on.
    fn place(&mut self, key: &str, link: &str, user: &str, target: Target)
        requires { IsReadyToPlace self.old key.now link.now user.now }
        ensures rows { self.new.rows ≡ self.old.rows }
        ensures placed { self.new.placed ≡ put_by same_place self.old.placed (record { key = key.now; link = link.now; user = user.now; placement = placement_of target }) }
    {
        placements::place(&self.texts, &mut self.placements, key, link, user, target);
    }

    /// How the grade of an id stands under a key.
    pub fn grade(&self, key: &str, id: &str) -> Standing
        ensures { (entries : List Entry) → Holds self.now entries → result ≡ standings.standing entries key.now id.now }
    {
        standings::standing_of(&self.texts, &self.standings, key, id)
    }

    /// How many ids are issued.
    pub fn rows(&self) -> usize
        ensures { (entries : List Entry) → Holds self.now entries → result ≡ length (rows_of entries) }
    {
        self.standings.len()
    }

    /// The issued id at this place, counted from 0 in the order of first issue.
    pub fn row(&self, place: usize) -> Option<Row<'_>>
        ensures { (entries : List Entry) → Holds self.now entries → option_map row_told result ≡ slice_get (rows_of entries) place }
    {
        let (numbers, standing) = self.standings.get_index(place)?;
        Some(Row {
            key: self.texts.text(numbers.0),
            id: self.texts.text(numbers.1),
            standing: *standing,
        })
    }

    /// Where the grade of a user of a resource link goes under a key, by the last launch of that user from
    /// that link; `None` where there was none.
    pub fn placement(&self, key: &str, link: &str, user: &str) -> Option<Placement<'_>>
        ensures { (entries : List Entry) → Holds self.now entries → option_map placement_told result ≡ placements.placement entries key.now link.now user.now }
    {
        let target = placements::target_of(&self.texts, &self.placements, key, link, user)?;
        Some(Placement {
            sourced_id: target.sourced_id.get(),
            service: target.service.get(),
        })
    }
}
