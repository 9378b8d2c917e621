// The words of `serve`.
ghost use Rattle.std.specs.Prelude.{◌≡◌, ℕ, List, MatchOption};
ghost use Rattle.lti_words.specs.Command.{AsksServe, IsServeWords, texts};

use crate::command_words::{has_words, is_word};

// What these words ask of `serve`.
fn serve_words<'a>(name: &str, address: &'a str) -> Option<&'a str>
    ensures { MatchOption result
        ((at : List ℕ) → IsServeWords name.now address.now at → ⊥)
        (λ at. IsServeWords name.now address.now at.now) }
{
    if !is_word(name, "serve") {
        return None;
    }
    Some(address)
}

/// The address at which the words ask to serve, or none where they don't ask for it: they are `serve ADDRESS`. What the address
/// is, is for whoever listens there.
pub fn read_serve(words: &[String]) -> Option<&str>
    ensures { MatchOption result
        ((at : List ℕ) → AsksServe (texts words.now) at → ⊥)
        (λ at. AsksServe (texts words.now) at.now) }
{
    if !has_words(words, 2) {
        return None;
    }
    serve_words(words[0].as_str(), words[1].as_str())
}
