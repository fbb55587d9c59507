//! Moments, and time that passes, as a trait. Where the moments come from is not said here.
ghost use Rattle.std.specs.Prelude.{◌≡◌, ◌+◌, ℕ, Bool, true};

use ra_base::Moment;

/// A clock. Where it tells, it tells its moments: the n-th one from here, counted from 0.
pub trait Clock {
    // Whether the clock tells.
    ghost tells: { Self → Bool };

    // The n-th moment from here.
    ghost moment: { Self → ℕ → ℕ };

    /// The next moment. The moments after it move up by one.
    fn now(&mut self) -> Moment
        ensures value { tells self.old ≡ true → result ≡ moment self.old 0 }
        ensures after { (n : ℕ) → moment self.new n ≡ moment self.old (n + 1) }
        ensures keeps { tells self.new ≡ tells self.old };

    /// Lets about that many milliseconds pass, and takes no moment.
    fn rest(&mut self, millis: u64)
        ensures after { (n : ℕ) → moment self.new n ≡ moment self.old n }
        ensures keeps { tells self.new ≡ tells self.old };
}
