//! A source of bytes that nobody else is to guess, by the draws that are still to come. How they are made is not said here.
ghost use Rattle.std.specs.Prelude.{◌≡◌, ◌+◌, List, ℕ};

/// Bytes that nobody else is to guess. It tells its draws: the n-th one from here, counted from 0.
pub trait Entropy {
    // The n-th draw from here.
    ghost draw: { Self → ℕ → List ℕ };

    /// The next 16 bytes. The draws after it move up by one.
    fn take(&mut self) -> [u8; 16]
        ensures value { result ≡ draw self.old 0 }
        ensures after { (n : ℕ) → draw self.new n ≡ draw self.old (n + 1) };
}
