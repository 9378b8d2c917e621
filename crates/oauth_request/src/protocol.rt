// What stands under the names of the protocol, found in one pass over the pairs.
ghost use Rattle.oauth_request.specs.Found.{AreFoundIn};

use crate::fields::FIELDS;
use crate::{AuthFault, Field};
use lti_outside::Pair;

/// What stands under a name.
#[derive(Clone, Copy)]
pub enum Found<'a> {
    Absent,
    Once(&'a str),
    Repeated,
}

impl<'a> Found<'a> {
    ghost use Rattle.std.specs.Prelude.{◌≡◌, ◌++◌, ◌∷◌, false, ℕ, List, [], length, nat_lt};
    ghost use Rattle.oauth_request.specs.Found.{Stands, IsSingle};

    // What stands after one more value.
    fn more(self, value: &'a str) -> Found<'a>
        ensures { (values : List (List ℕ)) → Stands self.entry values → Stands result (values ++ value.now ∷ []) }
    {
        match self {
            Found::Absent => Found::Once(value),
            _ => Found::Repeated,
        }
    }

    fn is_repeated(self) -> bool
        ensures { (values : List (List ℕ)) → Stands self.entry values → result ≡ nat_lt 1 (length values) }
    {
        match self {
            Found::Repeated => true,
            _ => false,
        }
    }

    // The value that stands, if one does, where none stands twice.
    fn single(self) -> Option<&'a str>
        ensures { (values : List (List ℕ)) → Stands self.entry values → nat_lt 1 (length values) ≡ false → IsSingle result values }
    {
        match self {
            Found::Once(value) => Some(value),
            _ => None,
        }
    }
}

/// What stands under each name of the protocol, at the place of its field.
#[derive(Clone, Copy)]
pub struct Protocol<'a> {
    found: [Found<'a>; 8],
}

impl<'a> Protocol<'a> {
    ghost use Rattle.std.specs.Prelude.{◌≡◌, ◌++◌, ◌∷◌, true, false, List, [], Some, MatchResult};
    ghost use Rattle.lti_outside.specs.declared.pairs.Pair.{Pair};
    ghost use Rattle.oauth_request.specs.declared.faults.AuthFault.TheVariants.{Missing};
    ghost use Rattle.oauth_request.specs.Conditions.{duplicate_conditions, is_missing};
    ghost use Rattle.http_wire.specs.Conditions.{first_fault};
    ghost use Rattle.oauth_request.specs.Protocol.{values, name_of};
    ghost use Rattle.oauth_request.specs.Found.{AreFoundIn, AreSingle, Stands, IsSingle};

    // What stands under a name.
    fn get(&self, field: Field) -> Found<'a>
        ensures { (pairs : List Pair) → AreFoundIn self.now pairs → Stands result (values (name_of field) pairs) }
    {
        self.found[field.place()]
    }

    // Adds what one more pair says.
    fn add(&mut self, pair: &'a Pair)
        ensures { (pairs : List Pair) → AreFoundIn self.old pairs → AreFoundIn self.new (pairs ++ pair.now ∷ []) }
    {
        let Some(field) = Field::with_name(pair.name.get()) else {
            return;
        };
        let more = self.get(field).more(pair.value.get());
        self.found[field.place()] = more;
    }

    /// The first name that stands twice, if one does.
    pub fn check_single(&self) -> Result<(), AuthFault>
        ensures { (pairs : List Pair) → AreFoundIn self.now pairs → MatchResult result
            (λ _. AreSingle self.now pairs)
            (λ fault. first_fault (duplicate_conditions pairs) ≡ Some fault) }
    {
        for field in &FIELDS {
            if self.get(*field).is_repeated() {
                return Err(AuthFault::Duplicate(*field));
            }
        }
        Ok(())
    }

    /// The value of a name, if it stands, where no name stands twice.
    pub fn value(&self, field: Field) -> Option<&'a str>
        ensures { (pairs : List Pair) → AreSingle self.now pairs → IsSingle result (values (name_of field) pairs) }
    {
        self.get(field).single()
    }

    /// The value of a name that is needed, where no name stands twice.
    pub fn needed(&self, field: Field) -> Result<&'a str, AuthFault>
        ensures { (pairs : List Pair) → AreSingle self.now pairs → MatchResult result
            (λ value. (is_missing pairs field ≡ false) × (values (name_of field) pairs ≡ value.now ∷ []))
            (λ fault. (is_missing pairs field ≡ true) × (fault ≡ Missing field)) }
    {
        self.value(field).ok_or(AuthFault::Missing(field))
    }
}

/// What stands under the names of the protocol.
pub fn found_in(pairs: &[Pair]) -> Protocol<'_>
    ensures { AreFoundIn result pairs.now }
{
    let mut found = Protocol {
        found: [Found::Absent; 8],
    };
    for pair in pairs {
        found.add(pair);
    }
    found
}
