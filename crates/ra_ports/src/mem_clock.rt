//! Moments from a list, for tests and for runs that must be the same each time.
ghost use Rattle.std.specs.Prelude.{◌≡◌, ◌+◌, ◌<◌, ℕ, true, length};

use crate::clock::Clock;
use ra_base::Moment;
use std::marker::Model;

/// Moments from a list, of which the last one is repeated. A contract sees it as the list of the moments that are left.
#[derive(Clone, Drop)]
pub struct MemClock {
    moments: Vec<Moment>,
    at: usize,
}

impl Model for MemClock {
    ghost use Rattle.std.specs.Prelude.{ℕ, List, ◌<◌, drop, length};

    ghost Value = { List ℕ };

    ghost view = { λ c. drop c.at c.moments.items };

    ghost invariant = { λ c. c.at < length c.moments.items };
}

impl MemClock {
    /// A clock with these moments, one after another, and the last one again and again.
    pub fn new(moments: Vec<Moment>) -> MemClock
        requires { 0 < length moments.items }
        ensures { result ≡ moments.items }
    {
        MemClock { moments, at: 0 }
    }
}

impl Clock for MemClock {
    ghost use Rattle.ra_ports.specs.Moments.{nth_moment};

    ghost tells = { λ _. true };

    ghost moment = { nth_moment };

    fn now(&mut self) -> Moment {
        let moment = self.moments[self.at];
        if self.at + 1 < self.moments.len() {
            self.at += 1;
        }
        moment
    }

    /// Lets no time pass.
    fn rest(&mut self, _millis: u64) {}
}
