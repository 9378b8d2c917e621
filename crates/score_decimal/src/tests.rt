use crate::{Scale, Score, ceiling_points, floor_points, nearest_points};
use std::test::Fail;

const ONE: u128 = 1_000_000_000_000_000_000_000_000_000_000;

fn parts(text: &str) -> Option<u128> {
    match Score::read(text) {
        Some(score) => Some(score.parts()),
        None => None,
    }
}

#[test]
fn score_texts_are_read_exactly(rt: HostRuntime) {
    let texts = [
        ("0", 0),
        ("1", ONE),
        ("000", 0),
        ("0001", ONE),
        ("1.0", ONE),
        ("1.", ONE),
        ("0.", 0),
        ("0.0", 0),
        (".5", ONE / 2),
        ("0.5", ONE / 2),
        ("0.92", 92 * (ONE / 100)),
        ("0.920", 92 * (ONE / 100)),
        ("0.0000005", 5 * (ONE / 10_000_000)),
        ("0.000000000000000000000000000001", 1),
        ("0.999999999999999999999999999999", ONE - 1),
        ("0.50000000000000000000000000000000000000", ONE / 2),
        ("0000000000000000000000000000000000000001", ONE),
        (".000000000000000000000000000001000000000", 1),
    ];
    for (text, number) in texts {
        assert!(rt; parts(text) == Some(number));
    }
}

#[test]
fn no_more_than_one_is_a_score(rt: HostRuntime) {
    for number in [0, 1, ONE - 1, ONE] {
        let Some(score) = Score::from_parts(number) else {
            assert!(rt; false);
            return;
        };
        assert_eq!(rt; score.parts(), number);
    }
    assert!(rt; Score::from_parts(ONE + 1).is_none());
    assert!(rt; Score::from_parts(u128::MAX).is_none());
}

#[test]
fn other_texts_are_refused(rt: HostRuntime) {
    let texts = [
        "",
        ".",
        "-0",
        "+1",
        "1e-2",
        "1.0000001",
        "2",
        "10",
        "1.5",
        " 1",
        "1 ",
        "0,5",
        "0.5.0",
        "..5",
        "0x1",
        "½",
        "٠",
        "NaN",
        "0.0000000000000000000000000000001",
        "0.9999999999999999999999999999999",
        "00000000000000000000000000000000000000001",
        "0.500000000000000000000000000000000000000",
    ];
    for text in texts {
        assert!(rt; Score::read(text) == None);
    }
}

#[test]
fn scores_are_printed_shortest(rt: HostRuntime) -> Result<(), Fail> {
    let texts = [
        ("000", "0"),
        (".0", "0"),
        ("1.0", "1"),
        ("1.", "1"),
        ("0.920", "0.92"),
        (".5", "0.5"),
        ("0.05", "0.05"),
        ("0.10203000", "0.10203"),
        (
            "0.000000000000000000000000000001",
            "0.000000000000000000000000000001",
        ),
        (
            "0.999999999999999999999999999999",
            "0.999999999999999999999999999999",
        ),
    ];
    for (text, printed) in texts {
        let mut room = [b'x'; 32];
        match Score::read(text) {
            Some(score) => {
                let len = score.print_into(&mut room);
                assert!(rt; &room[..len] == printed.as_bytes());
                assert!(rt; score.print(rt.alloc())?.as_str() == printed);
            }
            None => assert!(rt; false),
        }
    }
    Ok(())
}

fn all_points(rt: &HostRuntime, text: &str) -> Result<(u32, u32, u32), Fail> {
    let alloc = rt.alloc();
    let floor = Scale::new(Box::new(alloc, floor_points)?);
    let nearest = Scale::new(Box::new(alloc, nearest_points)?);
    let ceiling = Scale::new(Box::new(alloc, ceiling_points)?);
    match Score::read(text) {
        Some(score) => Ok((
            floor.points(score, 1_000_000),
            nearest.points(score, 1_000_000),
            ceiling.points(score, 1_000_000),
        )),
        None => Ok((7, 7, 7)),
    }
}

#[test]
fn scales_turn_scores_into_points(rt: HostRuntime) -> Result<(), Fail> {
    let cases = [
        ("0", (0, 0, 0)),
        ("000", (0, 0, 0)),
        ("0.5", (500_000, 500_000, 500_000)),
        ("1", (1_000_000, 1_000_000, 1_000_000)),
        ("0.0000005", (0, 1, 1)),
        ("0.0000004", (0, 0, 1)),
        ("0.9999999", (999_999, 1_000_000, 1_000_000)),
    ];
    for (text, points) in cases {
        assert!(rt; all_points(&rt, text)? == points);
    }
    Ok(())
}
