// A launch.
ghost use Rattle.std.specs.Prelude.{◌≡◌, IfOk};
ghost use Rattle.std.specs.Option.{option_map};
ghost use Rattle.lti_launch.specs.Roles.{listed_roles};

use crate::found::Found;
use crate::sorted::Sorted;
use crate::writing::written;
use crate::{LaunchFault, LaunchField};
use lti_outside::{NoMemory, Pairs};
use lti_roles::RoleSet;
use std::alloc::Global;
use std::marker::Model;

/// A launch (LTI 1.1.1, section 3): the values of the standard's parameters, the custom parameters, the extensions, and
/// the pairs of other names, each in the order sent and with its repeats. What belongs to the signature isn't kept.
///
/// Its message type and version are those of a launch, its resource link isn't empty, and no parameter of the standard
/// stands twice. Another parameter may be empty, which isn't the same as absent.
#[derive(Drop)]
pub struct Launch {
    found: Vec<Found>,
    custom: Pairs,
    ext: Pairs,
    rest: Pairs,
}

impl Model for Launch {
    ghost use Rattle.std.specs.Prelude.{map};
    ghost use Rattle.lti_launch.specs.Found.{value_found};
    ghost use Rattle.lti_launch.specs.Launch.{LaunchValue, IsLaunch};

    ghost Value = { LaunchValue };

    ghost view = { λ l. record { fields = map value_found l.found.items; custom = l.custom; ext = l.ext; rest = l.rest } };

    ghost invariant = { λ l. IsLaunch record { fields = map value_found l.found.items; custom = l.custom; ext = l.ext; rest = l.rest } };
}

// The roles that a text lists, or none without a text.
fn read_roles(alloc: Global, text: Option<&str>) -> Result<RoleSet, NoMemory>
    ensures { IfOk result (λ roles. roles ≡ listed_roles (option_map (λ text. text.now) text.entry)) }
{
    match text {
        Some(text) => RoleSet::read(alloc, text),
        None => RoleSet::read(alloc, ""),
    }
}

impl Launch {
    ghost use Rattle.std.specs.Prelude.{◌≡◌, None, IfOk, IfErr, OnOk, map};
    ghost use Rattle.std.specs.Option.{option_map};
    ghost use Rattle.lti_launch.specs.Faults.{fault_of, IsFaultOf};
    ghost use Rattle.lti_launch.specs.Launch.{launch_of, value_of, pairs_of};
    ghost use Rattle.lti_launch.specs.Roles.{roles_in};
    ghost use Rattle.lti_launch.specs.Laws.{Spells};

    /// The launch that the pairs of a message spell, or the first fault that they have.
    ///
    /// The pairs are gone over once. A name is compared with the parameters' names of its own length alone, four at most,
    /// and each value that is kept is copied once. Parameters of the signature are passed over, whatever they say.
    pub fn read(alloc: Global, pairs: &Pairs) -> Result<Launch, LaunchFault>
        ensures launch { IfOk result (λ launch. launch ≡ launch_of pairs.now) }
        ensures faultless { OnOk result (fault_of pairs.now ≡ None) }
        ensures fault { IfErr result (IsFaultOf pairs.now) }
    {
        let sorted = Sorted::of(alloc, pairs.as_slice())?;
        sorted.judge()?;
        Ok(Launch {
            found: sorted.found,
            custom: sorted.custom,
            ext: sorted.ext,
            rest: sorted.rest,
        })
    }

    /// The value of a parameter, or none where it is absent.
    pub fn get(&self, field: LaunchField) -> Option<&str>
        ensures { option_map (λ value. value.now) result ≡ value_of self.now field }
    {
        self.found[field.place()].value()
    }

    /// The custom parameters: the pairs whose names begin with `custom_`.
    pub fn custom(&self) -> &Pairs
        ensures { result.now ≡ self.now.custom }
    {
        &self.custom
    }

    /// The extensions: the pairs whose names begin with `ext_`.
    pub fn ext(&self) -> &Pairs
        ensures { result.now ≡ self.now.ext }
    {
        &self.ext
    }

    /// The pairs of all other names that don't begin with `oauth_`.
    pub fn rest(&self) -> &Pairs
        ensures { result.now ≡ self.now.rest }
    {
        &self.rest
    }

    /// The roles that the parameter `roles` lists, or none where it is absent.
    pub fn roles(&self) -> Result<RoleSet, NoMemory>
        ensures { IfOk result (λ roles. roles ≡ roles_in self.now) }
    {
        let roles = read_roles(*self.found.allocator(), self.get(LaunchField::Roles))?;
        Ok(roles)
    }

    /// The pairs of the launch: the parameters that have values, in the standard's order, then the custom parameters, the
    /// extensions and the others. They are read as this launch.
    pub fn pairs(&self) -> Result<Pairs, NoMemory>
        ensures pairs { IfOk result (λ pairs. pairs ≡ pairs_of self.now) }
        ensures read_back { IfOk result (λ pairs. Spells pairs self.now) }
    {
        let alloc = *self.found.allocator();
        let found = self.found.as_slice();
        let pairs = written(alloc, found, &self.custom, &self.ext, &self.rest)?;
        Ok(pairs)
    }
}
