// Drawn calls of a window, beside one that keeps a list of all its entries.
use crate::calls;
use crate::plain::PlainWindow;
use case_words::{Misread, Words};
use lti_machine::Verdict;
use nonce_window::NonceWindow;
use std::alloc::Global;

const KEYS: [&'static str; 3] = ["12345", "other", "third"];

const NONCES: [&'static str; 6] = ["a", "b", "ab", "ba", "aa", "longer than the others"];

// Numbers that look as if they were drawn, the same at each run.
#[derive(Drop)]
struct Dice {
    state: u64,
}

impl Dice {
    fn below(&mut self, sides: u64) -> u64 {
        self.state = self
            .state
            .wrapping_mul(6_364_136_223_846_793_005)
            .wrapping_add(1_442_695_040_888_963_407);
        (self.state >> 33) % sides.max(1)
    }

    fn text(&mut self, texts: &[&'static str]) -> &'static str {
        let place = self.below(texts.len() as u64) as usize;
        texts.get(place).copied().unwrap_or("n")
    }
}

// What is drawn: how many calls of windows with this limit, how far the moment goes on at most between two of them, and of which
// seconds the timestamps are multiples.
#[derive(Clone, Copy)]
struct Draw {
    seed: u64,
    limit: u32,
    step: u64,
    grain: u64,
    calls: u32,
}

// How many calls both windows answered alike, and what the answers were.
#[derive(Clone, Copy)]
struct Tally {
    agreed: u32,
    new: u32,
    used: u32,
    outside: u32,
    full: u32,
    loaded: u32,
    raised: u32,
}

// A nonce with its key and its timestamp, and the moment of its call.
#[derive(Clone, Copy)]
struct Drawn {
    moment: u64,
    key: &'static str,
    timestamp: u64,
    nonce: &'static str,
}

// Both windows.
#[derive(Drop)]
struct Pair {
    window: NonceWindow,
    plain: PlainWindow,
}

impl Pair {
    fn new(alloc: Global, limit: u32) -> Result<Pair, Misread> {
        Ok(Pair {
            window: NonceWindow::new(alloc, limit)?,
            plain: PlainWindow::new(alloc, limit),
        })
    }

    // Asks both, and says what the list answers and whether the window does so too.
    fn ask(&mut self, drawn: Drawn) -> Result<(Verdict, bool), Misread> {
        let Drawn {
            moment,
            key,
            timestamp,
            nonce,
        } = drawn;
        let now = moment.max(self.plain.high());
        let verdict = self.plain.judge(now, key, timestamp, nonce);
        if let Verdict::New = verdict {
            self.plain.add(now, key, timestamp, nonce)?;
        }
        let told = calls::ask(&mut self.window, moment, key, timestamp, nonce)?;
        Ok((verdict, told == verdict))
    }

    // Loads a nonce into both.
    fn load(&mut self, drawn: Drawn) -> Result<(), Misread> {
        let Drawn {
            moment,
            key,
            timestamp,
            nonce,
        } = drawn;
        self.plain.add(moment, key, timestamp, nonce)?;
        calls::load(&mut self.window, moment, key, timestamp, nonce)
    }

    // Raises both, and says whether they have the same nonces some seconds later.
    fn raise(&mut self, moment: u64, later: u64) -> Result<bool, Misread> {
        self.plain.raise(moment);
        self.window.raise(moment);
        let now = self.plain.high().saturating_add(later);
        let live = calls::live(&self.window, now)?;
        let size = calls::live_size(&self.window, now);
        Ok(live == self.plain.live(now)? && size == self.plain.live_size(now))
    }

    // Whether both have the same moment, and as many nonces of a key.
    fn stand_alike(&self, key: &str) -> bool {
        self.window.high() == self.plain.high() && self.window.kept(key) == self.plain.kept(key)
    }
}

impl Tally {
    fn count(&mut self, verdict: Verdict) {
        let place = match verdict {
            Verdict::New => &mut self.new,
            Verdict::Used => &mut self.used,
            Verdict::Outside => &mut self.outside,
            Verdict::WindowFull { .. } => &mut self.full,
        };
        *place = place.saturating_add(1);
    }

    // Makes a drawn call, and says whether both windows answered alike.
    fn call(&mut self, dice: &mut Dice, pair: &mut Pair, drawn: Drawn) -> Result<bool, Misread> {
        match dice.below(50) {
            0 => {
                self.raised = self.raised.saturating_add(1);
                pair.raise(drawn.moment, dice.below(6_000))
            }
            1 => {
                self.loaded = self.loaded.saturating_add(1);
                pair.load(drawn)?;
                Ok(true)
            }
            _ => {
                let (verdict, alike) = pair.ask(drawn)?;
                self.count(verdict);
                Ok(alike)
            }
        }
    }
}

fn read_draw(words: &mut Words<'_>) -> Result<Draw, Misread> {
    Ok(Draw {
        seed: words.number()?,
        limit: words.count()?,
        step: words.number()?,
        grain: words.number()?,
        calls: words.count()?,
    })
}

// The next call, at a moment.
fn next_call(dice: &mut Dice, moment: u64, grain: u64) -> Drawn {
    let key = dice.text(&KEYS);
    let timestamp = moment
        .saturating_sub(6_000)
        .saturating_add(dice.below(12_000));
    Drawn {
        moment,
        key,
        timestamp: timestamp - timestamp % grain.max(1),
        nonce: dice.text(&NONCES),
    }
}

// Makes the drawn calls of both windows.
fn count_calls(dice: &mut Dice, pair: &mut Pair, draw: Draw) -> Result<Tally, Misread> {
    let mut tally = Tally {
        agreed: 0,
        new: 0,
        used: 0,
        outside: 0,
        full: 0,
        loaded: 0,
        raised: 0,
    };
    let mut moment: u64 = 1_400_000_000;
    for _ in 0..draw.calls {
        moment = moment.saturating_add(dice.below(draw.step));
        let drawn = next_call(dice, moment, draw.grain);
        if tally.call(dice, pair, drawn)? && pair.stand_alike(drawn.key) {
            tally.agreed = tally.agreed.saturating_add(1);
        }
    }
    Ok(tally)
}

// Makes the drawn calls of two windows that hold nothing.
fn count_anew(alloc: Global, draw: Draw) -> Result<Tally, Misread> {
    let mut dice = Dice { state: draw.seed };
    let mut pair = Pair::new(alloc, draw.limit)?;
    count_calls(&mut dice, &mut pair, draw)
}

fn verdicts_text(alloc: Global, tally: Tally) -> Result<String, Misread> {
    Ok(format!(in alloc;
        "{} new, {} used, {} outside, {} full",
        tally.new, tally.used, tally.outside, tally.full
    )?)
}

/// What comes of the drawn calls that a line asks for.
pub(crate) fn answer(alloc: Global, words: &mut Words<'_>) -> Result<String, Misread> {
    let draw = read_draw(words)?;
    let tally = count_anew(alloc, draw)?;
    let verdicts = verdicts_text(alloc, tally)?;
    Ok(format!(in alloc;
        "{} agree: {verdicts}, {} loaded, {} raised",
        tally.agreed, tally.loaded, tally.raised
    )?)
}
