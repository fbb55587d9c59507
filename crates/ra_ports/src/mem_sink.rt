//! A sink in memory, for tests and for runs that must be the same each time.
ghost use Rattle.std.specs.Prelude.{◌≡◌, ℕ, List, [], Some, IfOk, length};
ghost use Rattle.std.specs.Io.{WritesAtMost};
ghost use Rattle.std.specs.Io.KnownBytes.{WriteAppends};
ghost use Rattle.ra_ports.specs.Causes.{HasCause, MakesProgress};

use crate::Failed;
use crate::sink::Sink;
use std::alloc::Global;
use std::marker::Model;

/// A sink in memory, which keeps all that it takes and fails at listed calls. A call that finds no room fails too.
#[derive(Drop)]
pub struct MemSink {
    written: Vec<u8>,
    calls: u64,
    failing: Vec<u64>,
    faults: u64,
    short: u64,
}

impl Model for MemSink {
    ghost use Rattle.std.specs.Prelude.{◌≤◌};
    ghost use Rattle.ra_ports.specs.Memory.{SinkScript};

    ghost Value = { SinkScript };

    ghost view = { λ s. record {
      taken = s.written.items;
      calls = s.calls;
      failing = s.failing.items;
      faults = s.faults;
      short = s.short;
    } };

    ghost invariant = { λ s. s.short ≤ s.faults };
}

impl MemSink {
    /// A sink that holds nothing. The calls of `write` with the numbers in `failing`, from 1, fail.
    pub fn new(alloc: Global, failing: Vec<u64>) -> MemSink
        ensures { result ≡ record { taken = []; calls = 0; failing = failing.items; faults = 0; short = 0 } }
    {
        MemSink {
            written: Vec::new(alloc),
            calls: 0,
            failing,
            faults: 0,
            short: 0,
        }
    }

    /// All that was taken.
    pub fn written(&self) -> &[u8]
        ensures { result.now ≡ self.now.taken }
    {
        self.written.as_slice()
    }

    /// How many of the faults were for want of room.
    pub fn short(&self) -> u64
        ensures { result ≡ self.now.short }
    {
        self.short
    }
}

impl Sink for MemSink {
    ghost use Rattle.ra_ports.specs.Memory.{WritesAsListed};

    ghost taken = { λ s. Some s.taken };

    ghost faults = { λ s. s.faults };

    fn write(&mut self, piece: &[u8]) -> Result<usize, Failed>
        ensures bound { WritesAtMost result piece.now }
        ensures progress { MakesProgress result piece.now }
        ensures bytes { WriteAppends (Some self.old.taken) (Some self.new.taken) result piece.now }
        ensures cause { HasCause self.old.faults self.new.faults result }
        ensures whole { IfOk result (λ n. n ≡ length piece.now) }
        ensures listed { WritesAsListed self.old self.new piece.now result }
    {
        self.calls = self.calls.saturating_add(1);
        if self.failing.contains(&self.calls) {
            self.faults = self.faults.saturating_add(1);
            return Err(Failed);
        }
        if self.written.extend_from_slice(piece).is_err() {
            self.short = self.short.saturating_add(1);
            self.faults = self.faults.saturating_add(1);
            return Err(Failed);
        }
        Ok(piece.len())
    }
}
