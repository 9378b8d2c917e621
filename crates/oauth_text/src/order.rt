//! Parameters in the order of their escaped texts, with none escaped (RFC 5849, section 3.4.1.3.2).
ghost use Rattle.std.specs.Prelude.{◌≡◌, map, IfOk};
ghost use Rattle.std.specs.Cmp.Lexicographic.{slice_cmp};
ghost use Rattle.std.specs.Ordering.{nat_cmp};
ghost use Rattle.oauth_text.specs.Escape.{escape};
ghost use Rattle.oauth_text.specs.Normal.{escaped_pair, IsOrderOf};
ghost use Rattle.oauth_text.specs.Order.{escaped_parameter};

use crate::escapes::rank;
use lti_outside::{NoMemory, Pair, Pairs};
use std::alloc::Global;
use std::cmp::Ordering;

/// A borrowed name with its value, which is ordered as its escaped texts are: by name and then by value, in byte order.
#[derive(Drop)]
pub struct Parameter<'a> {
    pub name: &'a str,
    pub value: &'a str,
}

// How the escaped texts stand in byte order. The first bytes that differ decide it by their ranks, since no byte's escape
// begins another's.
fn compared(a: &[u8], b: &[u8]) -> Ordering
    ensures { result ≡ slice_cmp nat_cmp (escape a.now) (escape b.now) }
{
    let shared = a.len().min(b.len());
    for place in 0..shared {
        if a[place] != b[place] {
            return rank(a[place]).cmp(&rank(b[place]));
        }
    }
    a.len().cmp(&b.len())
}

impl PartialEq for Parameter<'_> {
    ghost use Rattle.std.specs.Ordering.{eq_by_cmp};
    ghost use Rattle.std.specs.Cmp.{partial_equiv_from_equiv, eq_by_cmp_equiv};
    ghost use Rattle.oauth_text.specs.Order.{parameter_cmp, parameter_total};

    ghost eq = { eq_by_cmp parameter_cmp };

    ghost laws = { partial_equiv_from_equiv (eq_by_cmp_equiv parameter_total) };

    fn eq(&self, other: &Self) -> bool {
        self.cmp(other) == Ordering::Equal
    }
}

impl Eq for Parameter<'_> {
    ghost use Rattle.std.specs.Cmp.{eq_by_cmp_equiv};
    ghost use Rattle.oauth_text.specs.Order.{parameter_total};

    ghost laws = { eq_by_cmp_equiv parameter_total };
}

impl PartialOrd for Parameter<'_> {
    ghost use Rattle.std.specs.Prelude.{Some};
    ghost use Rattle.std.specs.Cmp.{partial_order_from_total};
    ghost use Rattle.oauth_text.specs.Order.{parameter_cmp, parameter_total};

    ghost partial_cmp = { λ x y. Some (parameter_cmp x y) };

    ghost laws = { partial_order_from_total parameter_total };

    fn partial_cmp(&self, other: &Self) -> Option<Ordering> {
        Some(self.cmp(other))
    }
}

impl Ord for Parameter<'_> {
    ghost use Rattle.std.specs.Prelude.{refl};
    ghost use Rattle.oauth_text.specs.Order.{parameter_cmp, parameter_total};

    ghost cmp = { parameter_cmp };

    ghost total = { parameter_total };

    ghost matches_partial_cmp = { λ x y. refl };

    ghost matches_eq = { λ x y. refl };

    fn cmp(&self, other: &Self) -> Ordering {
        match compared(self.name.as_bytes(), other.name.as_bytes()) {
            Ordering::Equal => compared(self.value.as_bytes(), other.value.as_bytes()),
            names => names,
        }
    }
}

// The pairs as they stand, borrowed.
fn borrowed(alloc: Global, pairs: &[Pair]) -> Result<Vec<Parameter<'_>>, NoMemory>
    ensures { IfOk result (λ made. map escaped_parameter made.items ≡ map escaped_pair pairs.now) }
{
    let mut made = Vec::with_capacity(alloc, pairs.len())?;
    for pair in pairs {
        let name = pair.name.get();
        let value = pair.value.get();
        made.push(Parameter { name, value })?;
    }
    Ok(made)
}

/// The parameters in the order of RFC 5849, section 3.4.1.3.2: by their escaped names and, among equal names, by their
/// escaped values, in byte order. Equal pairs are all kept.
pub fn ordered(alloc: Global, pairs: &Pairs) -> Result<Vec<Parameter<'_>>, NoMemory>
    ensures { IfOk result (λ order. IsOrderOf pairs.now (map escaped_parameter order.items)) }
{
    let mut order = borrowed(alloc, pairs.as_slice())?;
    order.sort_unstable();
    Ok(order)
}
