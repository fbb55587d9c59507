//! What opens links in memory, for tests and for runs that must be the same each time.
ghost use Rattle.std.specs.Prelude.{◌≡◌, ◌<◌, ◌+◌, ◌++◌, ◌∷◌, ℕ, List, [], Some, All, IfOk, MatchResult};
ghost use Rattle.ra_ports.specs.Causes.{HasCause};
ghost use Rattle.ra_ports.specs.LinkScripts.{LinkScript, incoming_of};
ghost use Rattle.ra_edge.specs.Lines.{TakesLine, IsFresh, after_line};
ghost use Rattle.ra_edge.specs.LineScripts.{IsNew, new_dial, after_return};

use crate::dial::Dial;
use ra_ports::{Failed, MemLink};
use std::alloc::Global;
use std::marker::Model;

/// Links in memory, which are given one after another, and kept where they come back; listed calls fail. Past the last link each call
/// fails, and so does one that finds no room for a link that comes back.
#[derive(Drop)]
pub struct MemDial {
    links: Vec<MemLink>,
    returned: Vec<MemLink>,
    room: usize,
    failing: Vec<u64>,
    calls: u64,
    faults: u64,
    line_faults: u64,
    short: u64,
}

impl Model for MemDial {
    ghost use Rattle.std.specs.Prelude.{◌<◌, ◌≤◌, ◌+◌, ◌^◌, All, length, vec_capacity};
    ghost use Rattle.ra_edge.specs.LineScripts.{DialScript, IsNew};

    ghost Value = { DialScript };

    ghost view = { λ d. record {
      links = d.links.items;
      returned = d.returned.items;
      room = d.room;
      failing = d.failing.items;
      calls = d.calls;
      faults = d.faults;
      line_faults = d.line_faults;
      short = d.short;
    } };

    ghost invariant = { λ d. record {
      fresh : All IsNew d.links.items;
      fits : length d.links.items + d.room < 2 ^ 64;
      kept : length d.returned.items + d.room ≤ vec_capacity d.returned;
    } };
}

impl MemDial {
    /// What opens these links, on which nothing has happened. The calls of `connect` with the numbers in `failing`, from 1, fail.
    pub fn new(alloc: Global, links: Vec<MemLink>, failing: Vec<u64>) -> MemDial
        requires { All IsNew links.items }
        ensures { result ≡ new_dial links.items failing.items }
    {
        MemDial {
            links,
            returned: Vec::new(alloc),
            room: 0,
            failing,
            calls: 0,
            faults: 0,
            line_faults: 0,
            short: 0,
        }
    }

    /// The links that were given back, in order.
    pub fn returned(&self) -> &[MemLink]
        ensures { result.now ≡ self.now.returned }
    {
        self.returned.as_slice()
    }

    /// How many of the links that were given back had failed.
    pub fn line_faults(&self) -> u64
        ensures { result ≡ self.now.line_faults }
    {
        self.line_faults
    }

    /// How many of the faults were for want of room.
    pub fn short(&self) -> u64
        ensures { result ≡ self.now.short }
    {
        self.short
    }
}

impl Dial for MemDial {
    type Line = MemLink;

    ghost use Rattle.ra_edge.specs.LineScripts.{ConnectsAsListed};

    ghost lines = { λ d. Some d.links };

    ghost returned = { λ d. Some d.returned };

    ghost room = { λ d. d.room };

    ghost faults = { λ d. d.faults };

    ghost line_faults = { λ d. d.line_faults };

    fn connect(&mut self) -> Result<MemLink, Failed>
        ensures line { TakesLine (Some self.old.links) (Some self.new.links) result }
        ensures fresh { IfOk result (λ line. IsNew line) }
        ensures keeps { self.new.returned ≡ self.old.returned }
        ensures room { MatchResult result (λ _. self.new.room ≡ self.old.room + 1) (λ _. self.new.room ≡ self.old.room) }
        ensures cause { HasCause self.old.faults self.new.faults result }
        ensures line_faults { self.new.line_faults ≡ self.old.line_faults }
        ensures listed { ConnectsAsListed self.old self.new result }
    {
        self.calls = self.calls.saturating_add(1);
        if self.failing.contains(&self.calls) {
            self.faults = self.faults.saturating_add(1);
            return Err(Failed);
        }
        if self.links.is_empty() {
            self.faults = self.faults.saturating_add(1);
            return Err(Failed);
        }
        if self.returned.reserve(self.room + 1).is_err() {
            self.short = self.short.saturating_add(1);
            self.faults = self.faults.saturating_add(1);
            return Err(Failed);
        }
        self.room += 1;
        Ok(self.links.remove(0))
    }

    fn give_back(&mut self, line: MemLink)
        requires { 0 < self.old.room }
        ensures kept { self.new.returned ≡ self.old.returned ++ line ∷ [] }
        ensures keeps { self.new.links ≡ self.old.links }
        ensures room { self.new.room + 1 ≡ self.old.room }
        ensures faults { self.new.faults ≡ self.old.faults }
        ensures line_faults { self.new.line_faults ≡ after_line line.faults self.old.line_faults }
        ensures state { self.new ≡ after_return self.old line }
    {
        if line.faults() > 0 {
            self.line_faults = self.line_faults.saturating_add(1);
        }
        self.room -= 1;
        self.returned.push(line).unwrap();
    }
}
