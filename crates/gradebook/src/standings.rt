// The table of the issued ids.
ghost use Rattle.std.specs.Prelude.{◌≡◌, ◌<◌, OnOk, Some};
ghost use Rattle.lti_machine.specs.declared.standing.Standing.TheVariants.{Empty};
ghost use Rattle.indexmap.specs.IndexMap.{spare};
ghost use Rattle.lti_machine.specs.Rows.{standing_in, set_row, add_row};
ghost use Rattle.gradebook.specs.Texts.{IsKnown, Keeps};
ghost use Rattle.gradebook.specs.Tables.{rows_at, AreRowsWithin, IsOwnedNumber};

use crate::texts::Texts;
use indexmap::IndexMap;
use lti_machine::Standing;
use lti_outside::NoMemory;

/// How each issued id stands, by the numbers of its key and of itself, in order of first issue.
pub(crate) type Standings = IndexMap<(u32, u32), Standing>;

// The numbers of a key and an id, where both have one.
fn numbers_of(texts: &Texts, key: &str, id: &str) -> Option<(u32, u32)>
    ensures { IsOwnedNumber texts.now key.now id.now result }
{
    let key = texts.number(key)?;
    let id = texts.number(id)?;
    Some((key, id))
}

/// How an id stands under a key.
pub(crate) fn standing_of(texts: &Texts, standings: &Standings, key: &str, id: &str) -> Standing
    requires { AreRowsWithin texts.now standings.now.entries }
    ensures { result ≡ standing_in (rows_at texts.now standings.now.entries) key.now id.now }
{
    match numbers_of(texts, key, id) {
        Some(numbers) => match standings.get(&numbers) {
            Some(standing) => *standing,
            None => Standing::Unknown,
        },
        None => Standing::Unknown,
    }
}

/// Makes room for one more id under this key. On `NoMemory` texts may have got numbers, and there may be more room.
pub(crate) fn make_room(
    texts: &mut Texts,
    standings: &mut Standings,
    key: &str,
    id: &str,
) -> Result<(), NoMemory>
    ensures keeps { Keeps texts.old texts.new }
    ensures entries { standings.new.entries ≡ standings.old.entries }
    ensures key { OnOk result (IsKnown texts.new key.now) }
    ensures id { OnOk result (IsKnown texts.new id.now) }
    ensures room { OnOk result (0 < spare standings.new) }
{
    texts.intern(key)?;
    texts.intern(id)?;
    standings.reserve(1)?;
    Ok(())
}

/// Adds an id that isn't in the table, with no grade.
pub(crate) fn issue(texts: &Texts, standings: &mut Standings, key: &str, id: &str)
    requires within { AreRowsWithin texts.now standings.old.entries }
    requires key { IsKnown texts.now key.now }
    requires id { IsKnown texts.now id.now }
    requires room { 0 < spare standings.old }
    ensures within { AreRowsWithin texts.now standings.new.entries }
    ensures rows { rows_at texts.now standings.new.entries ≡ add_row (rows_at texts.now standings.old.entries) (record { key = key.now; id = id.now; standing = Empty }) }
{
    let numbers = numbers_of(texts, key, id).unwrap();
    if standings.contains_key(&numbers) {
        return;
    }
    standings.insert(numbers, Standing::Empty).unwrap();
}

/// Changes how an id in the table stands.
pub(crate) fn set(texts: &Texts, standings: &mut Standings, key: &str, id: &str, standing: Standing)
    requires { AreRowsWithin texts.now standings.old.entries }
    ensures within { AreRowsWithin texts.now standings.new.entries }
    ensures rows { rows_at texts.now standings.new.entries ≡ set_row (rows_at texts.now standings.old.entries) key.now id.now standing }
{
    let Some(numbers) = numbers_of(texts, key, id) else {
        return;
    };
    match standings.get_mut(&numbers) {
        Some(before) => *before = standing,
        None => {}
    }
}
