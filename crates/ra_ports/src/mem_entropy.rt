//! Draws from a list, for tests and for runs that must be the same each time.
ghost use Rattle.std.specs.Prelude.{◌≡◌, ◌<◌, ◌+◌, ℕ, length};

use crate::entropy::Entropy;
use std::marker::Model;

/// Draws from a list, of which the last one is repeated. A contract sees it as the list of the draws that are left.
#[derive(Drop)]
pub struct MemEntropy {
    draws: Vec<[u8; 16]>,
    at: usize,
}

impl Model for MemEntropy {
    ghost use Rattle.std.specs.Prelude.{ℕ, List, ◌<◌, drop, length};

    ghost Value = { List (List ℕ) };

    ghost view = { λ e. drop e.at e.draws.items };

    ghost invariant = { λ e. e.at < length e.draws.items };
}

impl MemEntropy {
    /// Draws these bytes one after another, and the last ones again and again.
    pub fn new(draws: Vec<[u8; 16]>) -> MemEntropy
        requires { 0 < length draws.items }
        ensures { result ≡ draws.items }
    {
        MemEntropy { draws, at: 0 }
    }
}

impl Entropy for MemEntropy {
    ghost use Rattle.ra_ports.specs.Draws.{nth_draw};

    ghost draw = { nth_draw };

    fn take(&mut self) -> [u8; 16] {
        let draw = self.draws[self.at];
        if self.at + 1 < self.draws.len() {
            self.at += 1;
        }
        draw
    }
}
