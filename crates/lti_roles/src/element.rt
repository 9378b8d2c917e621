// The role of one element.
ghost use Rattle.std.specs.Prelude.{◌≡◌, ℕ, List, true, false, length, drop, IfOk, MatchOption};
ghost use Rattle.lti_roles.specs.Roles as spec;
ghost use Rattle.lti_roles.specs.Roles.{role_of, role_behind, begins, has_empty_sub, name_part, sub_part};
ghost use Rattle.lti_roles.specs.Tables.{names_in};
ghost use Rattle.lti_roles.specs.declared.role.Role.TheVariants as kind;

use crate::tables::{
    CONTEXT_NAMES, CONTEXT_PREFIX, INSTITUTION_NAMES, INSTITUTION_PREFIX, Named, SYSTEM_NAMES,
    SYSTEM_PREFIX,
};
use crate::{Role, RoleName};
use lti_outside::{NoMemory, Text};
use std::alloc::Global;

/// The role of the element.
pub(crate) fn read_element(alloc: Global, element: &str) -> Result<Role, NoMemory>
    ensures { IfOk result (λ role. role ≡ role_of element.now) }
{
    let (names, rest) = split_prefix(element);
    let spelled = Text::new(alloc, element)?;
    match known(names, rest) {
        Some((name, sub)) => Ok(Role::Known {
            name,
            sub: Text::new(alloc, sub)?,
            spelled,
        }),
        None => Ok(Role::Other { spelled }),
    }
}

// The names of the family whose prefix begins the element, and what follows it.
fn split_prefix(element: &str) -> (&'static [Named], &str)
    ensures names { names_in result.0.now ≡ (spec.split_prefix element.now).0 }
    ensures rest { result.1.now ≡ (spec.split_prefix element.now).1 }
{
    if let Some(rest) = behind(CONTEXT_PREFIX, element) {
        (&CONTEXT_NAMES, rest)
    } else if let Some(rest) = behind(SYSTEM_PREFIX, element) {
        (&SYSTEM_NAMES, rest)
    } else if let Some(rest) = behind(INSTITUTION_PREFIX, element) {
        (&INSTITUTION_NAMES, rest)
    } else {
        (&CONTEXT_NAMES, element)
    }
}

// What follows the prefix, where the element begins with it.
fn behind<'a>(prefix: &str, element: &'a str) -> Option<&'a str>
    ensures { MatchOption result (begins prefix.now element.now ≡ false)
        (λ rest. (begins prefix.now element.now ≡ true) × (rest.now ≡ drop (length prefix.now) element.now)) }
{
    element.strip_prefix(prefix)
}

// The name and the sub-role of an element of the vocabulary.
fn known<'a>(names: &[Named], rest: &'a str) -> Option<(RoleName, &'a str)>
    ensures { MatchOption result ((spelled : List ℕ) → role_behind (names_in names.now) rest.now spelled ≡ kind.Other spelled)
        (λ (name, sub). (spelled : List ℕ) → role_behind (names_in names.now) rest.now spelled ≡ kind.Known name sub.now spelled) }
{
    let (text, sub) = split_sub(rest)?;
    let name = named(names, text)?;
    Some((name, sub))
}

// What stands before the first `/` and what stands behind it, but where that is nothing.
fn split_sub(rest: &str) -> Option<(&str, &str)>
    ensures { MatchOption result (has_empty_sub rest.now ≡ true)
        (λ (name, sub). (has_empty_sub rest.now ≡ false) × (name.now ≡ name_part rest.now) × (sub.now ≡ sub_part rest.now)) }
{
    match rest.split_once('/') {
        Some((_, "")) => None,
        Some(parts) => Some(parts),
        None => Some((rest, "")),
    }
}

// The role that these names give the text.
fn named(names: &[Named], text: &str) -> Option<RoleName>
    ensures { result ≡ spec.named (names_in names.now) text.now }
{
    for (known, name) in names {
        if *known == text {
            return Some(*name);
        }
    }
    None
}
