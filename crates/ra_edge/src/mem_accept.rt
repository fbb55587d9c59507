//! What gives links in memory, for tests and for runs that must be the same each time.
ghost use Rattle.std.specs.Prelude.{◌≡◌, ℕ, Some, MatchResult};
ghost use Rattle.ra_ports.specs.Causes.{HasCause, next_count};
ghost use Rattle.ra_edge.specs.Lines.{TakesLine};
ghost use Rattle.ra_edge.specs.LineScripts.{new_accept};

use crate::accept::Accept;
use ra_ports::{Failed, MemLink};
use std::marker::Model;

/// Links in memory, which are given one after another; listed calls fail. Past the last link each call fails.
#[derive(Drop)]
pub struct MemAccept {
    links: Vec<MemLink>,
    failing: Vec<u64>,
    calls: u64,
    given: u64,
    faults: u64,
}

impl Model for MemAccept {
    ghost use Rattle.ra_edge.specs.LineScripts.{AcceptScript};

    ghost Value = { AcceptScript };

    ghost view = { λ a. record {
      links = a.links.items;
      failing = a.failing.items;
      calls = a.calls;
      given = a.given;
      faults = a.faults;
    } };
}

impl MemAccept {
    /// What gives these links. The calls of `next` with the numbers in `failing`, from 1, fail.
    pub fn new(links: Vec<MemLink>, failing: Vec<u64>) -> MemAccept
        ensures { result ≡ new_accept links.items failing.items }
    {
        MemAccept {
            links,
            failing,
            calls: 0,
            given: 0,
            faults: 0,
        }
    }

    /// How many links were given.
    pub fn given(&self) -> u64
        ensures { result ≡ self.now.given }
    {
        self.given
    }
}

impl Accept for MemAccept {
    type Line = MemLink;

    ghost use Rattle.ra_edge.specs.LineScripts.{NextAsListed};

    ghost lines = { λ a. Some a.links };

    ghost faults = { λ a. a.faults };

    ghost given = { λ a. a.given };

    fn next(&mut self) -> Result<MemLink, Failed>
        ensures line { TakesLine (Some self.old.links) (Some self.new.links) result }
        ensures cause { HasCause self.old.faults self.new.faults result }
        ensures given { MatchResult result
            (λ _. self.new.given ≡ next_count self.old.given)
            (λ _. self.new.given ≡ self.old.given) }
        ensures listed { NextAsListed self.old self.new result }
    {
        self.calls = self.calls.saturating_add(1);
        if self.failing.contains(&self.calls) {
            self.faults = self.faults.saturating_add(1);
            return Err(Failed);
        }
        if self.links.is_empty() {
            self.faults = self.faults.saturating_add(1);
            return Err(Failed);
        }
        self.given = self.given.saturating_add(1);
        Ok(self.links.remove(0))
    }
}
