// One role.
ghost use Rattle.std.specs.Prelude.{◌≡◌, ◌↔◌, IsTrue};
ghost use Rattle.lti_roles.specs.Roles.{spelled_of, IsNamed};

use crate::RoleName;
use lti_outside::Text;

/// One element of a list of roles.
#[derive(PartialEq, Eq, Drop)]
pub enum Role {
    /// A role of the vocabulary. `sub` is the sub-role behind the name and its `/`, as `GuestLearner` of
    /// `Learner/GuestLearner`, or empty where there is none; `spelled` is the whole element.
    Known {
        name: RoleName,
        sub: Text,
        spelled: Text,
    },
    /// Any other element, as it is spelled.
    Other {
        spelled: Text,
    },
}

impl Role {
    /// The element as it is spelled, without spaces at both ends.
    pub fn spelled(&self) -> &str
        ensures { result.now ≡ spelled_of self.now }
    {
        match self {
            Role::Known { spelled, .. } => spelled.get(),
            Role::Other { spelled } => spelled.get(),
        }
    }

    /// Whether the role is this one of the vocabulary, with a sub-role or without.
    pub fn is(&self, name: RoleName) -> bool
        ensures { IsTrue result ↔ IsNamed name self.now }
    {
        match self {
            Role::Known { name: known, .. } => *known == name,
            Role::Other { .. } => false,
        }
    }
}
