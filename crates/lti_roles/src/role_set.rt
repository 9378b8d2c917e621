// A list of roles.
ghost use Rattle.std.specs.Prelude.{◌≡◌, ◌↔◌, ◌==◌, IsTrue, IfOk, length, slice_get};
ghost use Rattle.std.specs.Option.{option_copied};
ghost use Rattle.std.specs.List.{Any};
ghost use Rattle.lti_roles.specs.Roles.{roles_of, printed_of, IsNamed};

use crate::elements::read_elements;
use crate::{Role, RoleName};
use lti_outside::{NoMemory, Text};
use std::alloc::Global;
use std::marker::Model;

/// The roles that some text lists, in order. A role may stand more than once.
#[derive(Drop)]
pub struct RoleSet {
    roles: Vec<Role>,
}

impl Model for RoleSet {
    ghost use Rattle.std.specs.Prelude.{List};
    ghost use Rattle.lti_roles.specs.declared.role.Role.{Role};
    ghost use Rattle.lti_roles.specs.Roles.{IsReadBack};

    ghost Value = { List Role };

    ghost view = { λ s. s.roles.items };

    ghost invariant = { λ s. IsReadBack s.roles.items };
}

impl RoleSet {
    ghost use Rattle.std.specs.Prelude.{◌≡◌, ◌↔◌, ◌==◌, IsTrue, IfOk, length, slice_get};
    ghost use Rattle.std.specs.Option.{option_copied};
    ghost use Rattle.std.specs.List.{Any};
    ghost use Rattle.lti_roles.specs.Roles.{roles_of, printed_of, IsNamed};

    /// The roles that `text` lists (LTI 1.1.1, section 3, parameter `roles`). No text is refused.
    ///
    /// The text is cut at commas, and an element loses the spaces, but no other blanks, at both ends. Empty ones are
    /// skipped. An element is known where it is a prefix of appendix A and a name of that family, or the name of a
    /// context role alone, and then nothing, or `/` and a sub-role of any bytes but none. Upper and lower case differ.
    ///
    /// Costs one pass over the text, and keeps a copy of each element and of its sub-role.
    pub fn read(alloc: Global, text: &str) -> Result<RoleSet, NoMemory>
        ensures { IfOk result (λ roles. roles ≡ roles_of text.now) }
    {
        Ok(RoleSet {
            roles: read_elements(alloc, text)?,
        })
    }

    /// The elements as they were spelled, with a comma between each two. `read` of it gives the same roles.
    pub fn print(&self) -> Result<Text, NoMemory>
        ensures text { IfOk result (λ text. text ≡ printed_of self.now) }
        ensures back { IfOk result (λ text. roles_of text ≡ self.now) }
    {
        let mut text = String::new(*self.roles.allocator());
        let mut separator = "";
        for role in &self.roles {
            text.push_str(separator)?;
            text.push_str(role.spelled())?;
            separator = ",";
        }
        Ok(Text::from_string(text))
    }

    /// Whether a role of this family and name is among them, with a sub-role or without. Takes no memory.
    pub fn has(&self, name: RoleName) -> bool
        ensures { IsTrue result ↔ Any (IsNamed name) self.now }
    {
        self.roles.iter().any(|role| role.is(name))
    }

    /// How many roles there are.
    pub fn len(&self) -> usize
        ensures { result ≡ length self.now }
    {
        self.roles.len()
    }

    /// Whether there is none.
    pub fn is_empty(&self) -> bool
        ensures { result ≡ (length self.now == 0) }
    {
        self.roles.is_empty()
    }

    /// The role at a place, or none where the place isn't below the count.
    pub fn role(&self, place: usize) -> Option<&Role>
        ensures { option_copied result ≡ slice_get self.now place }
    {
        self.roles.get(place)
    }
}
