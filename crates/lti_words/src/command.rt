// What the words of the command line ask.
ghost use Rattle.std.specs.Prelude.{IfOk, MatchOption};
ghost use Rattle.lti_words.specs.Command.{IsUsage, IsCommand, texts};
ghost use Rattle.lti_words.specs.CommandView.{value_of};

use crate::command_words::{is_answer, read_check, read_grades, read_issue};
use crate::words_of_launch::read_launch;
use crate::words_of_passback::read_passback;
use lti_outside::NoMemory;
use oauth_text::Url;
use score_decimal::Score;
use std::alloc::Global;

/// What `check` is asked: the verdicts of forms posted to `url` under one key, at one moment.
#[derive(Drop)]
pub struct Check<'a> {
    pub url: Url,
    pub key: &'a str,
    pub secret: &'a str,
    /// Seconds since the epoch.
    pub moment: u64,
}

/// What `issue` is asked: the sourcedId `id` to be issued under the consumer key `key`.
#[derive(Clone, Copy)]
pub struct Issue<'a> {
    /// 1 to 255 bytes.
    pub key: &'a str,
    /// 1 to 1023 bytes.
    pub id: &'a str,
}

/// What `launch` is asked: a launch of the resource link `link` by `user`, to be printed as a form that is
/// posted to `url`.
#[derive(Drop)]
pub struct LaunchForm<'a> {
    pub url: Url,
    /// The consumer key, 1 to 255 bytes.
    pub key: &'a str,
    /// 1 to 1023 bytes, as are the user and the sourcedId.
    pub link: &'a str,
    pub user: &'a str,
    /// The sourcedId of this user's outcome.
    pub id: &'a str,
    /// The address of the Basic Outcomes service (LTI 1.1.1).
    pub service: &'a str,
}

/// What `passback` is asked: a score to be sent for one user of one link.
#[derive(Clone, Copy)]
pub struct Passback<'a> {
    /// The consumer key, 1 to 255 bytes.
    pub key: &'a str,
    /// 1 to 1023 bytes, as is the user.
    pub link: &'a str,
    pub user: &'a str,
    pub score: Score,
}

/// How a score becomes points: the next whole number below, the nearest, or the next above.
#[derive(Clone, Copy, Debug, PartialEq, Eq)]
pub enum Rounding {
    Floor,
    Nearest,
    Ceiling,
}

/// What `grades` is asked: how grades are told.
#[derive(Clone, Copy)]
pub struct Grades {
    pub rounding: Rounding,
    /// The points of a full score, 1 to 1,000,000.
    pub most: u32,
}

/// What the words ask.
#[derive(Drop)]
pub enum Command<'a> {
    Check(Check<'a>),
    Answer,
    Issue(Issue<'a>),
    Launch(LaunchForm<'a>),
    Passback(Passback<'a>),
    Grades(Grades),
}

impl Command<'_> {
    ghost use Rattle.std.specs.Prelude.{◌≡◌};
    ghost use Rattle.lti_words.specs.Command.{uses_journal};
    ghost use Rattle.lti_words.specs.CommandView.{value_of};

    /// Whether it is done over the journal of what was accepted; all but `check` are.
    pub fn uses_journal(&self) -> bool
        ensures { result ≡ uses_journal (value_of self.now) }
    {
        !matches!(self, Command::Check(_))
    }
}

/// The command that the words ask for, or none where they are no command: another name, another number of words, or
/// a word out of its range. Words behind the name stand in the order `check URL KEY SECRET MOMENT`, `issue KEY ID`,
/// `launch URL KEY LINK USER ID SERVICE`, `passback ADDRESS KEY LINK USER SCORE` and `grades SCALE MAX`; `answer`
/// stands alone. Memory is taken for a URL alone.
pub fn read_command(alloc: Global, words: &[String]) -> Result<Option<Command<'_>>, NoMemory>
    ensures { IfOk result (λ found. MatchOption found (IsUsage (texts words.now)) (λ command. IsCommand (texts words.now) (value_of command))) }
{
    if is_answer(words) {
        return Ok(Some(Command::Answer));
    }
    if let Some(issue) = read_issue(words) {
        return Ok(Some(Command::Issue(issue)));
    }
    if let Some(grades) = read_grades(words) {
        return Ok(Some(Command::Grades(grades)));
    }
    if let Some(passback) = read_passback(words) {
        return Ok(Some(Command::Passback(passback)));
    }
    if let Some(launch) = read_launch(alloc, words)? {
        return Ok(Some(Command::Launch(launch)));
    }
    if let Some(check) = read_check(alloc, words)? {
        return Ok(Some(Command::Check(check)));
    }
    Ok(None)
}
