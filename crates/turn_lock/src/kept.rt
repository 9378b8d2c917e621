//! What a lock can keep.
ghost use Rattle.std.specs.Prelude.{◌≡◌, ℕ, ◌+◌, ◌%◌, ◌^◌, List, Bool};
ghost use Rattle.turn_lock.specs.Trail.{Adds};

/// A value that answers jobs, one at a time.
///
/// Its trail has the answers so far, each with its job, and at most `limit` of them. An answer that `refuses`
/// says that the trail is full: it is given then and only then, and leaves the trail as it is.
pub trait Kept {
    type Job;

    type Answer;

    /// Plain data that no answer changes, as what the value began with.
    type Origin;

    // The answers so far, each with its job.
    ghost trail: { Self → List (Self.Job × Self.Answer) };

    ghost origin: { Self → Self.Origin };

    // How many members the trail can have.
    ghost limit: { Self → ℕ };

    // How many answers were given, modulo 2^64.
    ghost turned: { Self → ℕ };

    // The condition on a job.
    ghost accepts: { Self.Job → Type 0 };

    // The test on an answer: it holds of those that were given because the trail is full.
    ghost refuses: { Self.Answer → Bool };

    // What holds of every trail.
    ghost law: { Self.Origin → List (Self.Job × Self.Answer) → Type 0 };

    /// Answers one job.
    fn answer(&mut self, job: Self::Job) -> Self::Answer
        requires { accepts job }
        ensures turns { turned self.new ≡ (turned self.old + 1) % 2 ^ 64 }
        ensures origin { origin self.new ≡ origin self.old }
        ensures limit { limit self.new ≡ limit self.old }
        ensures trail { Adds (refuses result) (limit self.old) job result (trail self.old) (trail self.new) }
        ensures law { law (origin self.new) (trail self.new) };

    /// How many answers were given, modulo 2^64, with those that refused.
    fn turns(&self) -> u64
        ensures turns { result ≡ turned self.now }
        ensures law { law (origin self.now) (trail self.now) };
}
