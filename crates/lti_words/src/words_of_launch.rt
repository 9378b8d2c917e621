// The words of `launch`.
ghost use Rattle.std.specs.Prelude.{IfOk, MatchOption};
ghost use Rattle.lti_words.specs.Command.{LaunchCommand, IsLaunch, IsLaunchWords, texts};
ghost use Rattle.lti_words.specs.CommandView.{launch_of};

use crate::command::LaunchForm;
use crate::command_words::{has_words, is_key, is_name, is_word};
use lti_outside::NoMemory;
use oauth_text::{Url, UrlFault};
use std::alloc::Global;

// What these words ask of `launch`.
fn launch_words<'a>(
    alloc: Global,
    name: &str,
    url: &str,
    key: &'a str,
    link: &'a str,
    user: &'a str,
    id: &'a str,
    service: &'a str,
) -> Result<Option<LaunchForm<'a>>, NoMemory>
    ensures { IfOk result (λ found. MatchOption found
        ((launch : LaunchCommand) → IsLaunchWords name.now url.now key.now link.now user.now id.now service.now launch → ⊥)
        (λ launch. IsLaunchWords name.now url.now key.now link.now user.now id.now service.now (launch_of launch))) }
{
    if !is_word(name, "launch") {
        return Ok(None);
    }
    if !is_key(key) {
        return Ok(None);
    }
    if !is_name(link) {
        return Ok(None);
    }
    if !is_name(user) {
        return Ok(None);
    }
    if !is_name(id) {
        return Ok(None);
    }
    match Url::read(alloc, url) {
        Ok(url) => Ok(Some(LaunchForm {
            url,
            key,
            link,
            user,
            id,
            service,
        })),
        Err(UrlFault::BadUrl) => Ok(None),
        Err(UrlFault::NoMemory) => Err(NoMemory),
    }
}

/// What the words ask of `launch`, or none where they don't ask for it.
pub fn read_launch(alloc: Global, words: &[String]) -> Result<Option<LaunchForm<'_>>, NoMemory>
    ensures { IfOk result (λ found. MatchOption found
        ((launch : LaunchCommand) → IsLaunch (texts words.now) launch → ⊥)
        (λ launch. IsLaunch (texts words.now) (launch_of launch))) }
{
    if !has_words(words, 7) {
        return Ok(None);
    }
    launch_words(
        alloc,
        words[0].as_str(),
        words[1].as_str(),
        words[2].as_str(),
        words[3].as_str(),
        words[4].as_str(),
        words[5].as_str(),
        words[6].as_str(),
    )
}
