//! Draws that are numbers, so that a run is the same each time.
ghost use Rattle.std.specs.Prelude.{◌≡◌};
ghost use Rattle.ra_grand_runs.specs.Draws.{nth_draw};

use ra_ports::Entropy;
use std::marker::Model;

/// Draws that are their own numbers, from 1. A contract sees how many were made.
#[derive(Drop)]
pub struct Counted {
    count: u64,
}

impl Model for Counted {
    ghost use Rattle.std.specs.Prelude.{ℕ};

    ghost Value = { ℕ };

    ghost view = { λ c. c.count };
}

/// The number in 16 bytes, the highest first.
#[tactic(auto, unfolding(crate::specs::Draws::nth_draw))]
fn draw(n: u64) -> [u8; 16]
    ensures { result ≡ nth_draw n }
{
    (n as u128).to_be_bytes()
}

impl Counted {
    /// No draw was made.
    pub fn new() -> Counted
        ensures { result ≡ 0 }
    {
        Counted { count: 0 }
    }

    /// How many were made.
    pub fn count(&self) -> u64
        ensures { result ≡ self.now }
    {
        self.count
    }

    /// Draws again what came after so many.
    pub fn go_back(&mut self, count: u64)
        ensures { self.new ≡ count }
    {
        self.count = count;
    }
}

impl Entropy for Counted {
    ghost use Rattle.ra_grand_runs.specs.Draws.{draws_after};

    ghost draw = { draws_after };

    fn take(&mut self) -> [u8; 16] {
        self.count = self.count.saturating_add(1);
        draw(self.count)
    }
}
