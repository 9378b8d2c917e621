// The words of `check`, `answer`, `issue` and `grades`.
ghost use Rattle.std.specs.Prelude.{◌≡◌, ◌≤◌, ◌↔◌, ℕ, Some, IsTrue, IfOk, MatchOption, length};
ghost use Rattle.lti_outside.specs.Decimal.{decimal_of};
ghost use Rattle.lti_words.specs.Command.{
  CheckCommand,
  IsCheck,
  IsCheckWords,
  AsksAnswer,
  IssueCommand,
  IsIssue,
  IsIssueWords,
  GradesCommand,
  IsGrades,
  IsGradesWords,
  IsKey,
  IsName,
  rounding_word,
  texts,
};
ghost use Rattle.lti_words.specs.CommandView.{check_of, issue_of, grades_of};
ghost use Rattle.lti_words.specs.declared.command.Rounding.{Rounding};

use crate::command::{Check, Grades, Issue, Rounding};
use lti_outside::{NoMemory, read_decimal};
use oauth_text::{Url, UrlFault};
use std::alloc::Global;

pub(crate) fn is_word(text: &str, word: &str) -> bool
    ensures { IsTrue result ↔ (text.now ≡ word.now) }
{
    text == word
}

pub(crate) fn has_words(words: &[String], count: usize) -> bool
    ensures { IsTrue result ↔ (length words.now ≡ count) }
{
    words.len() == count
}

pub(crate) fn is_key(text: &str) -> bool
    ensures { IsTrue result ↔ IsKey text.now }
{
    1 <= text.len() && text.len() <= 255
}

pub(crate) fn is_name(text: &str) -> bool
    ensures { IsTrue result ↔ IsName text.now }
{
    1 <= text.len() && text.len() <= 1023
}

// What these words ask of `check`.
fn check_words<'a>(
    alloc: Global,
    name: &str,
    url: &str,
    key: &'a str,
    secret: &'a str,
    moment: &str,
) -> Result<Option<Check<'a>>, NoMemory>
    ensures { IfOk result (λ found. MatchOption found
        ((check : CheckCommand) → IsCheckWords name.now url.now key.now secret.now moment.now check → ⊥)
        (λ check. IsCheckWords name.now url.now key.now secret.now moment.now (check_of check))) }
{
    if !is_word(name, "check") {
        return Ok(None);
    }
    if key.is_empty() {
        return Ok(None);
    }
    if key.len() > 255 {
        return Ok(None);
    }
    let Some(moment) = read_decimal(moment.as_bytes(), 15) else {
        return Ok(None);
    };
    match Url::read(alloc, url) {
        Ok(url) => Ok(Some(Check {
            url,
            key,
            secret,
            moment,
        })),
        Err(UrlFault::BadUrl) => Ok(None),
        Err(UrlFault::NoMemory) => Err(NoMemory),
    }
}

/// What the words ask of `check`, or none where they don't ask for it.
pub fn read_check(alloc: Global, words: &[String]) -> Result<Option<Check<'_>>, NoMemory>
    ensures { IfOk result (λ found. MatchOption found ((check : CheckCommand) → IsCheck (texts words.now) check → ⊥) (λ check. IsCheck (texts words.now) (check_of check))) }
{
    if !has_words(words, 5) {
        return Ok(None);
    }
    check_words(
        alloc,
        words[0].as_str(),
        words[1].as_str(),
        words[2].as_str(),
        words[3].as_str(),
        words[4].as_str(),
    )
}

/// Whether the words ask for `answer`.
pub fn is_answer(words: &[String]) -> bool
    ensures { IsTrue result ↔ AsksAnswer (texts words.now) }
{
    match words {
        [word] => is_word(word.as_str(), "answer"),
        _ => false,
    }
}

// What these words ask of `issue`.
fn issue_words<'a>(name: &str, key: &'a str, id: &'a str) -> Option<Issue<'a>>
    ensures { MatchOption result
        ((issue : IssueCommand) → IsIssueWords name.now key.now id.now issue → ⊥)
        (λ issue. IsIssueWords name.now key.now id.now (issue_of issue)) }
{
    if !is_word(name, "issue") {
        return None;
    }
    if !is_key(key) {
        return None;
    }
    if !is_name(id) {
        return None;
    }
    Some(Issue { key, id })
}

/// What the words ask of `issue`, or none where they don't ask for it.
pub fn read_issue(words: &[String]) -> Option<Issue<'_>>
    ensures { MatchOption result
        ((issue : IssueCommand) → IsIssue (texts words.now) issue → ⊥)
        (λ issue. IsIssue (texts words.now) (issue_of issue)) }
{
    if !has_words(words, 3) {
        return None;
    }
    issue_words(words[0].as_str(), words[1].as_str(), words[2].as_str())
}

fn read_rounding(word: &str) -> Option<Rounding>
    ensures { MatchOption result ((rounding : Rounding) → word.now ≡ rounding_word rounding → ⊥) (λ rounding. word.now ≡ rounding_word rounding) }
{
    if is_word(word, "floor") {
        return Some(Rounding::Floor);
    }
    if is_word(word, "nearest") {
        return Some(Rounding::Nearest);
    }
    if is_word(word, "ceiling") {
        return Some(Rounding::Ceiling);
    }
    None
}

// The points of a full score.
fn read_most(word: &str) -> Option<u32>
    ensures { MatchOption result
        ((most : ℕ) → decimal_of 7 word.now ≡ Some most → 1 ≤ most → most ≤ 1000000 → ⊥)
        (λ most. (decimal_of 7 word.now ≡ Some most) × (1 ≤ most) × (most ≤ 1000000)) }
{
    let Some(most) = read_decimal(word.as_bytes(), 7) else {
        return None;
    };
    if most < 1 {
        return None;
    }
    if most > 1_000_000 {
        return None;
    }
    Some(most as u32)
}

// What these words ask of `grades`.
fn grades_words(name: &str, rounding: &str, most: &str) -> Option<Grades>
    ensures { MatchOption result
        ((grades : GradesCommand) → IsGradesWords name.now rounding.now most.now grades → ⊥)
        (λ grades. IsGradesWords name.now rounding.now most.now (grades_of grades)) }
{
    if !is_word(name, "grades") {
        return None;
    }
    let Some(rounding) = read_rounding(rounding) else {
        return None;
    };
    let Some(most) = read_most(most) else {
        return None;
    };
    Some(Grades { rounding, most })
}

/// What the words ask of `grades`, or none where they don't ask for it.
pub fn read_grades(words: &[String]) -> Option<Grades>
    ensures { MatchOption result
        ((grades : GradesCommand) → IsGrades (texts words.now) grades → ⊥)
        (λ grades. IsGrades (texts words.now) (grades_of grades)) }
{
    if !has_words(words, 3) {
        return None;
    }
    grades_words(words[0].as_str(), words[1].as_str(), words[2].as_str())
}
