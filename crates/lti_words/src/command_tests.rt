//! The words of each command, right and wrong.
use crate::command::{Command, Rounding, read_command};
use crate::words_of_serve::read_serve;
use std::alloc::Global;
use std::process::Abort;
use std::test::Fail;

const URL: &str = "https://tool.example/lti/launch?course=1";

fn words(alloc: Global, all: &[&str]) -> Result<Vec<String>, Fail> {
    let mut words = Vec::new(alloc);
    for word in all {
        words.push(String::from_str(alloc, *word)?)?;
    }
    Ok(words)
}

// A text of so many bytes.
fn long(alloc: Global, len: usize) -> Result<String, Fail> {
    let mut text = String::new(alloc);
    for _ in 0..len {
        text.push_str("a")?;
    }
    Ok(text)
}

// Whether the words are no command.
fn is_usage(alloc: Global, all: &[&str]) -> Result<bool, Fail> {
    let words = words(alloc, all)?;
    Ok(read_command(alloc, &words)?.is_none())
}

#[test]
fn answer_stands_alone(rt: HostRuntime) -> Result<(), Fail> {
    let alloc = rt.alloc();
    let words = words(alloc, &["answer"])?;
    match read_command(alloc, &words)? {
        Some(Command::Answer) => {}
        _ => assert!(rt; false),
    }
    Ok(())
}

// Whether the command is a check of these.
fn is_check(found: &Option<Command<'_>>, key: &str, secret: &str, moment: u64) -> bool {
    match found {
        Some(Command::Check(check)) => {
            check.key == key && check.secret == secret && check.moment == moment
        }
        _ => false,
    }
}

#[test]
fn a_check_has_its_words(rt: HostRuntime) -> Result<(), Fail> {
    let alloc = rt.alloc();
    let words = words(alloc, &["check", URL, "12345", "", "1400000000"])?;
    let found = read_command(alloc, &words)?;
    assert!(rt; is_check(&found, "12345", "", 1_400_000_000));
    Ok(())
}

#[test]
fn an_issue_has_its_words(rt: HostRuntime) -> Result<(), Fail> {
    let alloc = rt.alloc();
    let words = words(alloc, &["issue", "12345", "id-1"])?;
    match read_command(alloc, &words)? {
        Some(Command::Issue(issue)) => {
            assert_eq!(rt; issue.key, "12345");
            assert_eq!(rt; issue.id, "id-1");
        }
        _ => assert!(rt; false),
    }
    Ok(())
}

// Whether the command is a launch of these: a key, a link, a user, an id and a service.
fn is_launch(found: &Option<Command<'_>>, parts: &[&str; 5]) -> bool {
    match found {
        Some(Command::Launch(launch)) => {
            launch.key == parts[0]
                && launch.link == parts[1]
                && launch.user == parts[2]
                && launch.id == parts[3]
                && launch.service == parts[4]
        }
        _ => false,
    }
}

#[test]
fn a_launch_has_its_words(rt: HostRuntime) -> Result<(), Fail> {
    let alloc = rt.alloc();
    let words = words(
        alloc,
        &[
            "launch",
            URL,
            "12345",
            "link-1",
            "user-2",
            "id-3",
            "https://lms.example/outcomes",
        ],
    )?;
    let found = read_command(alloc, &words)?;
    let parts = [
        "12345",
        "link-1",
        "user-2",
        "id-3",
        "https://lms.example/outcomes",
    ];
    assert!(rt; is_launch(&found, &parts));
    Ok(())
}

// Whether the command is a passback of these: a key, a link and a user, and a score in units of 10^-30.
fn is_passback(found: &Option<Command<'_>>, parts: &[&str; 3], units: u128) -> bool {
    match found {
        Some(Command::Passback(passback)) => {
            let score = passback.score.parts();
            passback.key == parts[0]
                && passback.link == parts[1]
                && passback.user == parts[2]
                && score == units
        }
        _ => false,
    }
}

#[test]
fn a_passback_has_its_words(rt: HostRuntime) -> Result<(), Fail> {
    let alloc = rt.alloc();
    let words = words(
        alloc,
        &[
            "passback",
            "localhost:8080",
            "12345",
            "link-1",
            "user-2",
            "0.5",
        ],
    )?;
    let found = read_command(alloc, &words)?;
    let half = 500_000_000_000_000_000_000_000_000_000;
    assert!(rt; is_passback(&found, &["12345", "link-1", "user-2"], half));
    Ok(())
}

#[test]
fn grades_have_their_words(rt: HostRuntime) -> Result<(), Fail> {
    let alloc = rt.alloc();
    let cases = [
        ("floor", "1", Rounding::Floor, 1),
        ("nearest", "0100", Rounding::Nearest, 100),
        ("ceiling", "1000000", Rounding::Ceiling, 1_000_000),
    ];
    for (scale, points, rounding, most) in &cases {
        let words = words(alloc, &["grades", *scale, *points])?;
        match read_command(alloc, &words)? {
            Some(Command::Grades(grades)) => {
                assert!(rt; grades.rounding == *rounding);
                assert_eq!(rt; grades.most, *most);
            }
            _ => assert!(rt; false),
        }
    }
    Ok(())
}

#[test]
fn wrong_words_are_no_command(rt: HostRuntime) -> Result<(), Fail> {
    let alloc = rt.alloc();
    let cases: [&[&str]; 24] = [
        &[],
        &["Answer"],
        &["answer", "12345"],
        &["check", URL, "12345", "secret"],
        &["check", URL, "12345", "secret", "1400000000", "more"],
        &["check", URL, "", "secret", "1400000000"],
        &["check", URL, "12345", "secret", "1234567890123456"],
        &[
            "check",
            "ftp://tool.example/",
            "12345",
            "secret",
            "1400000000",
        ],
        &["issue", "12345"],
        &["issue", "12345", "id", "more"],
        &["issue", "", "id"],
        &["issue", "12345", ""],
        &["launch", URL, "12345", "link", "user", "id"],
        &[
            "launch",
            "tool.example",
            "12345",
            "link",
            "user",
            "id",
            "service",
        ],
        &["launch", URL, "", "link", "user", "id", "service"],
        &["launch", URL, "12345", "", "user", "id", "service"],
        &["launch", URL, "12345", "link", "", "id", "service"],
        &["launch", URL, "12345", "link", "user", "", "service"],
        &["passback", "localhost", "12345", "link", "user"],
        &["passback", "localhost", "12345", "link", "user", "1.1"],
        &["passback", "localhost", "12345", "link", "user", ""],
        &["grades", "up", "100"],
        &["grades", "floor"],
        &["grade", "floor", "100"],
    ];
    for case in &cases {
        assert!(rt; is_usage(alloc, *case)?);
    }
    for most in ["0", "1000001", "12345678", "", "1.5"] {
        assert!(rt; is_usage(alloc, &["grades", "floor", most])?);
    }
    Ok(())
}

#[test]
fn keys_and_names_have_a_longest(rt: HostRuntime) -> Result<(), Fail> {
    let alloc = rt.alloc();
    let (key, long_key) = (long(alloc, 255)?, long(alloc, 256)?);
    let (id, long_id) = (long(alloc, 1_023)?, long(alloc, 1_024)?);
    assert!(rt; !is_usage(alloc, &["issue", &key, &id])?);
    assert!(rt; is_usage(alloc, &["issue", &long_key, &id])?);
    assert!(rt; is_usage(alloc, &["issue", &key, &long_id])?);
    Ok(())
}

#[test]
fn two_words_ask_to_serve(rt: HostRuntime) -> Result<(), Fail> {
    let alloc = rt.alloc();
    let asked = words(alloc, &["serve", "[::1]:8080"])?;
    assert!(rt; read_serve(&asked) == Some("[::1]:8080"));
    assert!(rt; read_command(alloc, &asked)?.is_none());
    let alone = words(alloc, &["serve"])?;
    assert!(rt; read_serve(&alone).is_none());
    let more = words(alloc, &["serve", "::1", "8080"])?;
    assert!(rt; read_serve(&more).is_none());
    let other = words(alloc, &["issue", "::1"])?;
    assert!(rt; read_serve(&other).is_none());
    Ok(())
}
