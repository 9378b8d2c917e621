// The table of the launches.
ghost use Rattle.std.specs.Prelude.{◌≡◌, ◌<◌, OnOk};
ghost use Rattle.std.specs.Option.{option_map};
ghost use Rattle.indexmap.specs.IndexMap.{spare};
ghost use Rattle.lti_machine.specs.Placements.{placement_in};
ghost use Rattle.gradebook.specs.Texts.{IsKnown, Keeps};
ghost use Rattle.gradebook.specs.Tables.{placement_of, all_placed_at, ArePlacedWithin, IsLaunchNumber};
ghost use Rattle.lti_machine.specs.Placements.{put_by, same_place};

use crate::texts::Texts;
use indexmap::IndexMap;
use lti_outside::{NoMemory, Text};

/// Where a grade goes.
#[derive(Drop)]
pub(crate) struct Target {
    pub(crate) sourced_id: Text,
    pub(crate) service: Text,
}

/// Where the grade of each user of each link goes, by the numbers of the key, the link and the user.
pub(crate) type Placements = IndexMap<(u32, u32, u32), Target>;

// The numbers of a key, a link and a user, where all have one.
fn numbers_of(texts: &Texts, key: &str, link: &str, user: &str) -> Option<(u32, u32, u32)>
    ensures { IsLaunchNumber texts.now key.now link.now user.now result }
{
    let key = texts.number(key)?;
    let link = texts.number(link)?;
    let user = texts.number(user)?;
    Some((key, link, user))
}

/// Where the grade of a key's link and user goes.
pub(crate) fn target_of<'a>(
    texts: &Texts,
    placements: &'a Placements,
    key: &str,
    link: &str,
    user: &str,
) -> Option<&'a Target>
    requires { ArePlacedWithin texts.now placements.now.entries }
    ensures { option_map (λ target. placement_of target.now) result ≡ placement_in (all_placed_at texts.now placements.now.entries) key.now link.now user.now }
{
    let numbers = numbers_of(texts, key, link, user)?;
    placements.get(&numbers)
}

/// Makes room for one more launch. On `NoMemory` texts may have got numbers, and there may be more room.
pub(crate) fn make_room(
    texts: &mut Texts,
    placements: &mut Placements,
    key: &str,
    link: &str,
    user: &str,
) -> Result<(), NoMemory>
    ensures keeps { Keeps texts.old texts.new }
    ensures entries { placements.new.entries ≡ placements.old.entries }
    ensures key { OnOk result (IsKnown texts.new key.now) }
    ensures link { OnOk result (IsKnown texts.new link.now) }
    ensures user { OnOk result (IsKnown texts.new user.now) }
    ensures room { OnOk result (0 < spare placements.new) }
{
    texts.intern(key)?;
    texts.intern(link)?;
    texts.intern(user)?;
    placements.reserve(1)?;
    Ok(())
}

/// Notes where the grade of a key's link and user goes from now on.
pub(crate) fn place(
    texts: &Texts,
    placements: &mut Placements,
    key: &str,
    link: &str,
    user: &str,
    target: Target,
)
    requires within { ArePlacedWithin texts.now placements.old.entries }
    requires key { IsKnown texts.now key.now }
    requires link { IsKnown texts.now link.now }
    requires user { IsKnown texts.now user.now }
    requires room { 0 < spare placements.old }
    ensures within { ArePlacedWithin texts.now placements.new.entries }
    ensures placed { all_placed_at texts.now placements.new.entries ≡ put_by same_place (all_placed_at texts.now placements.old.entries) (record { key = key.now; link = link.now; user = user.now; placement = placement_of target }) }
{
    let numbers = numbers_of(texts, key, link, user).unwrap();
    placements.insert(numbers, target).unwrap();
}
