// The pairs of a message, sorted by what their names are.
ghost use Rattle.std.specs.Prelude.{◌≡◌, length};

use crate::found::{Found, first_repeated, nothing_found};
use crate::kinds::{field_of, is_custom, is_ext, is_oauth};
use crate::{LaunchFault, LaunchField};
use lti_outside::{NoMemory, Pair, Pairs};
use std::alloc::Global;

/// What is found for each parameter, in order, and the pairs of other names.
#[derive(Drop)]
pub struct Sorted {
    pub found: Vec<Found>,
    pub custom: Pairs,
    pub ext: Pairs,
    pub rest: Pairs,
    ghost count: { length found.items ≡ 35 },
}

impl Sorted {
    ghost use Rattle.std.specs.Prelude.{◌≡◌, ◌∷◌, ◌++◌, List, [], None, Some, map, IfOk, OnOk, MatchResult};
    ghost use Rattle.lti_outside.specs.declared.pairs.Pair.{Pair};
    ghost use Rattle.lti_launch.specs.Faults as faults;
    ghost use Rattle.lti_launch.specs.Faults.{fault_of};
    ghost use Rattle.lti_launch.specs.Found.{AreSorted};

    // Whether the parameter is absent, or has a value that it may not have.
    fn is_wrong(&self, field: LaunchField) -> bool
        ensures { (pairs : List Pair) → AreSorted self.now pairs → result ≡ faults.is_wrong field pairs }
    {
        self.found[field.place()].is_wrong(field)
    }

    // Nothing is found in no pairs.
    #[tactic(auto, unfolding(crate::specs::Fields::all_fields, crate::specs::Parameters::values))]
    fn new(alloc: Global) -> Result<Sorted, NoMemory>
        ensures { IfOk result (λ sorted. AreSorted sorted []) }
    {
        Ok(Sorted {
            found: nothing_found(alloc)?,
            custom: Pairs::new(alloc),
            ext: Pairs::new(alloc),
            rest: Pairs::new(alloc),
        })
    }

    // Sorts one more pair.
    fn take(&mut self, alloc: Global, pair: &Pair) -> Result<(), NoMemory>
        ensures { OnOk result ((pairs : List Pair) → AreSorted self.old pairs → AreSorted self.new (pairs ++ pair.now ∷ [])) }
    {
        if is_custom(pair) {
            self.custom.push(pair.copy()?)?;
        } else if is_ext(pair) {
            self.ext.push(pair.copy()?)?;
        } else if let Some(field) = field_of(pair) {
            self.found[field.place()].add(alloc, field, pair.value.get())?;
        } else if !is_oauth(pair) {
            self.rest.push(pair.copy()?)?;
        }
        Ok(())
    }

    /// The pairs, sorted in one pass.
    pub fn of(alloc: Global, pairs: &[Pair]) -> Result<Sorted, NoMemory>
        ensures { IfOk result (λ sorted. AreSorted sorted pairs.now) }
    {
        let mut sorted = Sorted::new(alloc)?;
        for pair in pairs {
            sorted.take(alloc, pair)?;
        }
        Ok(sorted)
    }

    /// The first fault of the pairs.
    pub fn judge(&self) -> Result<(), LaunchFault>
        ensures { (pairs : List Pair) → AreSorted self.now pairs → MatchResult result
            (λ _. fault_of pairs ≡ None) (λ fault. fault_of pairs ≡ Some fault) }
    {
        if self.is_wrong(LaunchField::LtiMessageType) {
            return Err(LaunchFault::WrongType);
        }
        if self.is_wrong(LaunchField::LtiVersion) {
            return Err(LaunchFault::WrongVersion);
        }
        if self.is_wrong(LaunchField::ResourceLinkId) {
            return Err(LaunchFault::Missing);
        }
        match first_repeated(self.found.as_slice()) {
            Some(field) => Err(LaunchFault::Repeated(field)),
            None => Ok(()),
        }
    }
}
