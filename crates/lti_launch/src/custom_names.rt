// Names of custom parameters.
ghost use Rattle.std.specs.Prelude.{◌≡◌, IfOk};
ghost use Rattle.lti_launch.specs.CustomName as spec;
ghost use Rattle.lti_launch.specs.CustomName.{custom_name_of};

use lti_outside::{NoMemory, Text};
use std::alloc::Global;

// The character in a custom name.
fn custom_character(c: char) -> char
    ensures { result ≡ spec.custom_character c }
{
    match c {
        'A'..='Z' => c.to_ascii_lowercase(),
        'a'..='z' | '0'..='9' => c,
        _ => '_',
    }
}

/// The name of the custom parameter that a text names (LTI 1.1.1, section 3): `custom_` and the text, with ASCII letters
/// in lower case, digits as they are, and `_` for each other character. That only ASCII letters and digits are kept is
/// this project's own rule.
pub fn custom_name(alloc: Global, text: &str) -> Result<Text, NoMemory>
    ensures { IfOk result (λ name. name ≡ custom_name_of text.now) }
{
    let mut name = String::from_str(alloc, "custom_")?;
    for c in text.chars() {
        name.push(custom_character(c))?;
    }
    Ok(Text::from_string(name))
}
