//! The edges of a window, and each of its calls once. Many more calls are cases of a program, `window_cases`.
use super::*;
use lti_machine::Verdict;
use std::test::Fail;

// Judges a nonce at a moment, or at the window's where that is greater, and admits it where it is new.
fn ask(
    window: &mut NonceWindow,
    moment: u64,
    timestamp: u64,
    nonce: &str,
) -> Result<Verdict, Fail> {
    let now = moment.max(window.high());
    let verdict = window.judge(now, "12345", timestamp, nonce);
    if let Verdict::New = verdict {
        window.prepare("12345", timestamp, nonce)?;
        window.admit(now, "12345", timestamp, nonce);
    }
    Ok(verdict)
}

#[test]
fn a_timestamp_is_inside_up_to_5400_seconds_away(rt: HostRuntime) -> Result<(), Fail> {
    let mut window = NonceWindow::new(rt.alloc(), 10)?;
    for (timestamp, wanted) in [
        (1_399_994_600, Verdict::New),
        (1_399_994_599, Verdict::Outside),
        (1_400_005_400, Verdict::New),
        (1_400_005_401, Verdict::Outside),
    ] {
        let verdict = ask(&mut window, 1_400_000_000, timestamp, "n")?;
        assert!(rt; verdict == wanted, "{timestamp}");
    }
    Ok(())
}

#[test]
fn a_window_of_three_empties_by_whole_minutes(rt: HostRuntime) -> Result<(), Fail> {
    let mut window = NonceWindow::new(rt.alloc(), 3)?;
    for (moment, nonce, wanted) in [
        (600_000, "a", Verdict::New),
        (600_000, "b", Verdict::New),
        (600_000, "b", Verdict::Used),
        (600_000, "c", Verdict::New),
        (605_459, "d", Verdict::WindowFull { live: 3 }),
        (605_460, "d", Verdict::New),
    ] {
        let verdict = ask(&mut window, moment, moment, nonce)?;
        assert!(rt; verdict == wanted, "{nonce} at {moment}");
    }
    Ok(())
}

#[test]
fn only_an_admitted_nonce_raises_the_moment(rt: HostRuntime) -> Result<(), Fail> {
    let mut window = NonceWindow::new(rt.alloc(), 10)?;
    for (moment, timestamp, high) in [
        (10_000, 10_000, 10_000),
        (20_000, 1, 10_000),
        (20_000, 20_000, 20_000),
        (10_000, 10_000, 20_000),
    ] {
        ask(&mut window, moment, timestamp, "n")?;
        assert!(rt; window.high() == high, "after {moment}, {timestamp}");
    }
    Ok(())
}

// Loads a nonce of a key that has few.
fn load(window: &mut NonceWindow, key: &str, timestamp: u64, nonce: &str) -> Result<(), Fail> {
    if nonce.is_empty() || window.kept(key) > 10 {
        return Err("no room".into());
    }
    window.load(600_000, key, timestamp, nonce)?;
    Ok(())
}

// Raises the window, and says whether it has so many nonces then, with so many bytes, and so many of a key.
fn has(
    window: &mut NonceWindow,
    moment: u64,
    live: usize,
    size: u64,
    kept: u32,
) -> Result<bool, Fail> {
    window.raise(moment);
    let now = window.high();
    Ok(
        window.live(now)?.len() == live
            && window.live_size(now) == size
            && window.kept("12345") == kept,
    )
}

// The bytes of an entry are 2, 8 for each of its times, 4 and its own for each of its texts; and 5 stand before it.
#[test]
fn each_live_nonce_is_kept_once(rt: HostRuntime) -> Result<(), Fail> {
    let mut window = NonceWindow::new(rt.alloc(), 10)?;
    for (key, timestamp, nonce) in [
        ("12345", 599_999, "ab"),
        ("12345", 600_001, "ab"),
        ("12345", 600_001, "ab"),
        ("other key", 600_060, "c"),
    ] {
        load(&mut window, key, timestamp, nonce)?;
    }
    for (moment, live, size, kept) in [
        (600_000, 3, 117, 2),
        (605_400, 2, 79, 1),
        (605_460, 1, 41, 0),
    ] {
        assert!(rt; has(&mut window, moment, live, size, kept)?, "at {moment}");
    }
    Ok(())
}
