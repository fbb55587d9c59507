//! Moments of the host's clock.
ghost use Rattle.std.specs.Prelude.{◌≡◌, ◌≤◌, ℕ, false};

use ra_base::Moment;
use ra_ports::Clock;
use std::marker::Model;
use std::time::{Duration, Instant};
use std::{thread, time};

/// Milliseconds since it was made. A contract sees the last moment that it gave. It tells nothing of those to come, never goes back,
/// and stays where the host's clock fails.
#[derive(Clone, Drop)]
pub struct HostClock<R> {
    rt: R,
    start: Option<Instant>,
    last: Moment,
}

impl<R> Model for HostClock<R> {
    ghost Value = { ℕ };

    ghost view = { λ c. c.last };
}

impl<R: time::Clock> HostClock<R> {
    /// A clock that begins at the moment 0.
    pub fn new(rt: R) -> HostClock<R>
        ensures { result ≡ 0 }
    {
        let start = Instant::now(&rt).ok();
        HostClock {
            rt,
            start,
            last: Moment::start(),
        }
    }

    /// How many milliseconds have passed, where that is known.
    fn passed(&self) -> Option<Moment> {
        let start = self.start?;
        let passed = start.elapsed(&self.rt).ok()?;
        let millis = u64::try_from(passed.as_millis()).ok()?;
        Moment::of_millis(millis)
    }
}

impl<R: time::Clock> Clock for HostClock<R> {
    ghost tells = { λ _. false };

    ghost moment = { λ _ n. 0 };

    fn now(&mut self) -> Moment
        ensures last { result ≡ self.new }
        ensures later { self.old ≤ self.new }
    {
        if let Some(now) = self.passed() {
            if now.millis() > self.last.millis() {
                self.last = now;
            }
        }
        self.last
    }

    fn rest(&mut self, millis: u64)
        ensures { self.new ≡ self.old }
    {
        let _ = thread::sleep(&self.rt, Duration::from_millis(millis));
    }
}
