// What the program does by its words.
ghost use Rattle.std.specs.Prelude.{◌≡◌, ◌↔◌, [], ◌∷◌, IsTrue, codes, map, string_bytes};
ghost use Rattle.std.specs.Option.{option_map};
ghost use Rattle.lti_cmd.specs.Words.{IsAsked, address_in};

/// What the words ask of the program.
#[derive(Clone, Copy, Debug, PartialEq, Eq)]
pub enum Asked {
    /// The text of `--help`.
    Help,
    /// The text of `--version`.
    Version,
    /// What `lti_server::run` makes of the words.
    Work,
}

/// What the words ask: a text by the one word `--help` or `--version`, and everything else by `run`.
pub fn read_words(words: &[String]) -> Asked
    ensures { IsAsked (map string_bytes words.now) result }
{
    match words {
        [word] => read_word(word.as_str()),
        _ => Asked::Work,
    }
}

// What one word asks.
fn read_word(word: &str) -> Asked
    ensures { IsAsked (word.now ∷ []) result }
{
    if is_help(word) {
        Asked::Help
    } else if is_version(word) {
        Asked::Version
    } else {
        Asked::Work
    }
}

fn is_help(word: &str) -> bool
    ensures { IsTrue result ↔ (word.now ≡ codes "--help") }
{
    word == "--help"
}

fn is_version(word: &str) -> bool
    ensures { IsTrue result ↔ (word.now ≡ codes "--version") }
{
    word == "--version"
}

/// The address to connect to: the second word of `passback`; `None` for all other words, which need no connection.
pub fn address_of(words: &[String]) -> Option<&str>
    ensures { option_map (λ address. address.now) result ≡ address_in (map string_bytes words.now) }
{
    match words {
        [name, address, ..] if name.as_str() == "passback" => Some(address.as_str()),
        _ => None,
    }
}
