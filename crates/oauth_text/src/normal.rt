//! The normal form of a list of parameters (RFC 5849, section 3.4.1.3.2).
ghost use Rattle.std.specs.Prelude.{◌≡◌, ◌++◌, ℕ, List, map, IfOk, OnOk};
ghost use Rattle.std.specs.String.{string_bytes};
ghost use Rattle.oauth_text.specs.Order.{escaped_parameter};
ghost use Rattle.oauth_text.specs.Normal.{pair_text, joined, IsNormal};

use crate::escapes::escape_into;
use crate::order::{Parameter, ordered};
use lti_outside::{NoMemory, Pairs, Text};
use std::alloc::{AllocError, Global};

// How long the parameters' text is where nothing is escaped, or the greatest number where it is longer.
fn least_len(order: &[Parameter<'_>]) -> usize {
    order.iter().fold(0usize, |len, parameter| {
        len.saturating_add(parameter.name.len())
            .saturating_add(parameter.value.len())
            .saturating_add(2)
    })
}

// Appends the escaped name, `=` and the escaped value.
fn push_parameter(text: &mut String, parameter: &Parameter<'_>) -> Result<(), AllocError>
    ensures { OnOk result (string_bytes text.new ≡ string_bytes text.old ++ pair_text (escaped_parameter parameter.now)) }
{
    escape_into(text, parameter.name)?;
    text.push_str("=")?;
    escape_into(text, parameter.value)
}

// The escaped parameters' texts, with `&` between them.
fn joined_text(alloc: Global, order: &[Parameter<'_>]) -> Result<String, AllocError>
    ensures { IfOk result (λ text. string_bytes text ≡ joined (map escaped_parameter order.now)) }
{
    let mut text = String::with_capacity(alloc, least_len(order))?;
    let Some((first, others)) = order.split_first() else {
        return Ok(text);
    };
    push_parameter(&mut text, first)?;
    for parameter in others {
        text.push_str("&")?;
        push_parameter(&mut text, parameter)?;
    }
    Ok(text)
}

// The escaped parameters in order, joined by `=` and `&`.
fn ordered_text(alloc: Global, pairs: &Pairs) -> Result<Text, NoMemory>
    ensures { IfOk result (IsNormal pairs.now) }
{
    let order = ordered(alloc, pairs)?;
    Ok(Text::from_string(joined_text(alloc, &order)?))
}

/// The normal form of the parameters (RFC 5849, section 3.4.1.3.2), of which there is only one: each name and
/// value escaped, in byte order of the escaped names and, among equal names, of the escaped values, joined by `=`
/// and `&`. Equal pairs are all kept. No pairs give the empty text.
pub fn normalised(alloc: Global, pairs: &Pairs) -> Result<Text, NoMemory>
    ensures normal { IfOk result (IsNormal pairs.now) }
    ensures only { IfOk result (λ text. (other : List ℕ) → IsNormal pairs.now other → other ≡ text) }
{
    let text = ordered_text(alloc, pairs)?;
    Ok(text)
}
