// Sources of random words.
ghost use Rattle.std.specs.Prelude.{◌≡◌};
ghost use Rattle.lti_outside.specs.Words.{Draws, words_left};

use rand_core::Rng;

/// Something that gives random words.
pub trait Random {
    ghost use Rattle.std.specs.Prelude.{ℕ, List, Option};

    /// The words to come, where it tells them.
    ghost tells: { Self → Option (List ℕ) };

    /// The next word. Where the words to come are told it is the first of them, and 0 behind the last.
    fn word(&mut self) -> u64
        ensures { Draws (tells self.old) (tells self.new) result };
}

/// Words in a list, for tests: each in order, and then 0 for ever.
#[derive(Drop)]
pub struct ListRandom {
    words: Vec<u64>,
    place: usize,
}

impl ListRandom {
    ghost use Rattle.std.specs.Prelude.{◌≡◌};
    ghost use Rattle.lti_outside.specs.Words.{words_left};

    /// A source that gives these words in order.
    pub fn new(words: Vec<u64>) -> ListRandom
        ensures { words_left result ≡ words.items }
    {
        ListRandom { words, place: 0 }
    }
}

impl Random for ListRandom {
    ghost use Rattle.std.specs.Prelude.{Some};
    ghost use Rattle.lti_outside.specs.Words.{words_left};

    ghost tells = { λ random. Some (words_left random) };

    fn word(&mut self) -> u64 {
        if self.place >= self.words.len() {
            return 0;
        }
        let word = self.words[self.place];
        self.place += 1;
        word
    }
}

/// Words of a generator, as `rand`'s that was seeded by the system. It tells no words.
#[derive(Drop)]
pub struct SystemRandom<G: Rng> {
    generator: G,
}

impl<G: Rng> SystemRandom<G> {
    /// A source that gives the generator's words.
    pub fn new(generator: G) -> SystemRandom<G> {
        SystemRandom { generator }
    }
}

impl<G: Rng> Random for SystemRandom<G> {
    ghost use Rattle.std.specs.Prelude.{None};

    ghost tells = { λ _. None };

    fn word(&mut self) -> u64 {
        self.generator.next_u64()
    }
}
