// Calls of a window at any moment.
use case_words::Misread;
use lti_machine::Verdict;
use nonce_window::{NonceWindow, Triple};

/// Judges a nonce at a moment, or at the window's where that is greater, and admits it where it is new.
pub(crate) fn ask(
    window: &mut NonceWindow,
    moment: u64,
    key: &str,
    timestamp: u64,
    nonce: &str,
) -> Result<Verdict, Misread> {
    let now = moment.max(window.high());
    let verdict = window.judge(now, key, timestamp, nonce);
    if let Verdict::New = verdict {
        window.prepare(key, timestamp, nonce)?;
        window.admit(now, key, timestamp, nonce);
    }
    Ok(verdict)
}

/// Loads a nonce, for which there has to be room.
pub(crate) fn load(
    window: &mut NonceWindow,
    moment: u64,
    key: &str,
    timestamp: u64,
    nonce: &str,
) -> Result<(), Misread> {
    if nonce.is_empty() || window.kept(key) == u32::MAX {
        return Err(Misread::NoCase);
    }
    window.load(moment, key, timestamp, nonce)?;
    Ok(())
}

/// The nonces that aren't forgotten at a moment, or at the window's where that is greater.
pub(crate) fn live(window: &NonceWindow, now: u64) -> Result<Vec<Triple>, Misread> {
    Ok(window.live(now.max(window.high()))?)
}

/// How many bytes a digest has for them.
pub(crate) fn live_size(window: &NonceWindow, now: u64) -> u64 {
    window.live_size(now.max(window.high()))
}
