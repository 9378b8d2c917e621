// A launch as pairs.
ghost use Rattle.std.specs.Prelude.{◌≡◌, ◌∷◌, ◌++◌, [], length, map, IfOk, OnOk};
ghost use Rattle.lti_launch.specs.Fields.{all_fields};
ghost use Rattle.lti_launch.specs.Found.{value_found};
ghost use Rattle.lti_launch.specs.Launch as spec;

use crate::LaunchField;
use crate::found::Found;
use lti_outside::{NoMemory, Pair, Pairs, Text};
use std::alloc::Global;

// Appends the parameter, where it has a value.
fn push_field(
    pairs: &mut Pairs,
    alloc: Global,
    field: LaunchField,
    found: &Found,
) -> Result<(), NoMemory>
    ensures { OnOk result (pairs.new ≡ pairs.old ++ spec.field_pairs (field ∷ []) (value_found found.now ∷ [])) }
{
    let Some(value) = found.value() else {
        return Ok(());
    };
    pairs.push(Pair {
        name: Text::new(alloc, field.name())?,
        value: Text::new(alloc, value)?,
    })?;
    Ok(())
}

// The parameters that have values, in order, with these.
fn field_pairs(alloc: Global, found: &[Found]) -> Result<Pairs, NoMemory>
    requires { length found.now ≡ 35 }
    ensures { IfOk result (λ pairs. pairs ≡ spec.field_pairs all_fields (map value_found found.now)) }
{
    let mut pairs = Pairs::new(alloc);
    let fields = LaunchField::all();
    for (place, found) in found.iter().enumerate() {
        push_field(&mut pairs, alloc, fields[place], found)?;
    }
    Ok(pairs)
}

/// The parameters that have values, in order, then the custom parameters, the extensions and the others.
pub fn written(
    alloc: Global,
    found: &[Found],
    custom: &Pairs,
    ext: &Pairs,
    rest: &Pairs,
) -> Result<Pairs, NoMemory>
    requires { length found.now ≡ 35 }
    ensures { IfOk result (λ pairs. pairs ≡ spec.pairs_of (record { fields = map value_found found.now; custom = custom.now; ext = ext.now; rest = rest.now })) }
{
    let mut pairs = field_pairs(alloc, found)?;
    pairs.append(custom.copy()?)?;
    pairs.append(ext.copy()?)?;
    pairs.append(rest.copy()?)?;
    Ok(pairs)
}
