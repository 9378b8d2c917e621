// The words of `passback`.
ghost use Rattle.std.specs.Prelude.{MatchOption};
ghost use Rattle.lti_words.specs.Command.{PassbackCommand, IsPassback, IsPassbackWords, texts};
ghost use Rattle.lti_words.specs.CommandView.{passback_of};

use crate::command::Passback;
use crate::command_words::{has_words, is_key, is_name, is_word};
use score_decimal::Score;

// What these words ask of `passback`.
fn passback_words<'a>(
    name: &str,
    key: &'a str,
    link: &'a str,
    user: &'a str,
    score: &str,
) -> Option<Passback<'a>>
    ensures { MatchOption result
        ((passback : PassbackCommand) → IsPassbackWords name.now key.now link.now user.now score.now passback → ⊥)
        (λ passback. IsPassbackWords name.now key.now link.now user.now score.now (passback_of passback)) }
{
    if !is_word(name, "passback") {
        return None;
    }
    if !is_key(key) {
        return None;
    }
    if !is_name(link) {
        return None;
    }
    if !is_name(user) {
        return None;
    }
    match Score::read(score) {
        Some(score) => Some(Passback {
            key,
            link,
            user,
            score,
        }),
        None => None,
    }
}

/// What the words ask of `passback`, or none where they don't ask for it. The second word, an address, is for whoever
/// connects.
pub fn read_passback(words: &[String]) -> Option<Passback<'_>>
    ensures { MatchOption result
        ((passback : PassbackCommand) → IsPassback (texts words.now) passback → ⊥)
        (λ passback. IsPassback (texts words.now) (passback_of passback)) }
{
    if !has_words(words, 6) {
        return None;
    }
    passback_words(
        words[0].as_str(),
        words[2].as_str(),
        words[3].as_str(),
        words[4].as_str(),
        words[5].as_str(),
    )
}
