// The elements of a list of roles.
ghost use Rattle.std.specs.Prelude.{◌≡◌, ◌++◌, ◌∷◌, [], map, IfOk, OnOk};
ghost use Rattle.lti_roles.specs.Elements as spec;
ghost use Rattle.lti_roles.specs.Elements.{elements_in};
ghost use Rattle.lti_roles.specs.Roles.{role_of, roles_of};

use crate::Role;
use crate::element::read_element;
use lti_outside::NoMemory;
use std::alloc::Global;

/// The roles that the text lists.
pub(crate) fn read_elements(alloc: Global, text: &str) -> Result<Vec<Role>, NoMemory>
    ensures { IfOk result (λ roles. roles.items ≡ roles_of text.now) }
{
    let mut roles = Vec::new(alloc);
    let mut rest = text;
    'pieces: while let Some((piece, more)) = rest.split_once(',') {
        push_element(alloc, piece, &mut roles)?;
        rest = more;
    }
    push_element(alloc, rest, &mut roles)?;
    Ok(roles)
}

// Appends the role of the piece, where an element stands in it.
fn push_element(alloc: Global, piece: &str, roles: &mut Vec<Role>) -> Result<(), NoMemory>
    ensures { OnOk result (roles.new.items ≡ roles.old.items ++ map role_of (elements_in (piece.now ∷ []))) }
{
    let element = trimmed(piece);
    if !element.is_empty() {
        roles.push(read_element(alloc, element)?)?;
    }
    Ok(())
}

// The piece without spaces at both ends.
fn trimmed(piece: &str) -> &str
    ensures { result.now ≡ spec.trimmed piece.now }
{
    piece.trim_start_matches(' ').trim_end_matches(' ')
}
