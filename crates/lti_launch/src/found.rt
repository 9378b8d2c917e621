// What is found under the name of a parameter.
ghost use Rattle.std.specs.Prelude.{◌≡◌, List, [], map, IfOk};
ghost use Rattle.std.specs.List.{find, position};
ghost use Rattle.lti_outside.specs.declared.pairs.Pair.{Pair};
ghost use Rattle.lti_launch.specs.Fields.{all_fields};
ghost use Rattle.lti_launch.specs.Faults as spec;
ghost use Rattle.lti_launch.specs.Found.{found_in, is_repeat};

use crate::LaunchField;
use lti_outside::{NoMemory, Text};
use std::alloc::Global;

/// What is found under the name of a parameter.
#[derive(Drop)]
pub enum Found {
    Absent,
    Once(Text),
    /// The parameter stands twice or more often; `fit` says whether it may have each of its values.
    Repeated { fit: bool },
}

// Whether the parameter may have the value.
#[tactic(auto, unfolding(crate::specs::Faults::launch_type, crate::specs::Faults::launch_version))]
fn fits(field: LaunchField, value: &str) -> bool
    ensures { result ≡ spec.fits field value.now }
{
    match field {
        LaunchField::LtiMessageType => value == "basic-lti-launch-request",
        LaunchField::LtiVersion => value == "LTI-1p0",
        LaunchField::ResourceLinkId => !value.is_empty(),
        _ => true,
    }
}

impl Found {
    ghost use Rattle.std.specs.Prelude.{◌≡◌, ◌∷◌, ◌++◌, ℕ, List, [], OnOk};
    ghost use Rattle.std.specs.Option.{option_map};
    ghost use Rattle.lti_launch.specs.Found.{found_of, value_found, is_repeat, is_unfit};

    /// Adds a value of the parameter.
    pub fn add(&mut self, alloc: Global, field: LaunchField, value: &str) -> Result<(), NoMemory>
        ensures { OnOk result ((values : List (List ℕ)) → self.old ≡ found_of field values
            → self.new ≡ found_of field (values ++ value.now ∷ [])) }
    {
        match self {
            Found::Absent => {
                *self = Found::Once(Text::new(alloc, value)?);
            }
            Found::Once(first) => {
                let fit = fits(field, first.get()) && fits(field, value);
                *self = Found::Repeated { fit };
            }
            Found::Repeated { fit } => {
                *fit = *fit && fits(field, value);
            }
        }
        Ok(())
    }

    /// The value, where one stands.
    pub fn value(&self) -> Option<&str>
        ensures { option_map (λ value. value.now) result ≡ value_found self.now }
    {
        match self {
            Found::Once(value) => Some(value.get()),
            _ => None,
        }
    }

    /// Whether the parameter is absent, or has a value that it may not have.
    pub fn is_wrong(&self, field: LaunchField) -> bool
        ensures { result ≡ is_unfit field self.now }
    {
        match self {
            Found::Absent => true,
            Found::Once(value) => !fits(field, value.get()),
            Found::Repeated { fit } => !*fit,
        }
    }

    /// Whether the parameter stands twice.
    pub fn is_repeated(&self) -> bool
        ensures { result ≡ is_repeat self.now }
    {
        match self {
            Found::Repeated { .. } => true,
            _ => false,
        }
    }
}

/// What is found in no pairs, for each parameter.
pub fn nothing_found(alloc: Global) -> Result<Vec<Found>, NoMemory>
    ensures { IfOk result (λ found. found.items ≡ map (found_in []) all_fields) }
{
    let fields = LaunchField::all();
    let mut found = Vec::with_capacity(alloc, fields.len())?;
    for _ in fields {
        found.push(Found::Absent)?;
    }
    Ok(found)
}

// The first place where a parameter was found twice.
fn place_of_repeated(found: &[Found]) -> Option<usize>
    ensures { result ≡ position is_repeat found.now }
{
    found.iter().position(|found| found.is_repeated())
}

/// The first parameter that stands twice, by what was found for each.
pub fn first_repeated(found: &[Found]) -> Option<LaunchField>
    ensures { (pairs : List Pair) → found.now ≡ map (found_in pairs) all_fields
        → result ≡ find (spec.is_repeated pairs) all_fields }
{
    let place = place_of_repeated(found)?;
    LaunchField::at(place)
}
