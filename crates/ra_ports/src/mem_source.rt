//! A source in memory, for tests and for runs that must be the same each time.
ghost use Rattle.std.specs.Prelude.{◌≡◌, ◌↔◌, ◌<◌, ℕ, length, All, Some, IsErr, IfOk, min, take};
ghost use Rattle.std.specs.Io.{ReadsAtMost};
ghost use Rattle.std.specs.Io.KnownBytes.{ReadConsumes};
ghost use Rattle.ra_ports.specs.Causes.{HasCause, IsListed};
ghost use Rattle.ra_ports.specs.Memory.{bytes_of, next_read, after_read};

use crate::Failed;
use crate::source::Source;
use ra_base::Message;
use std::marker::Model;

/// Copies as much of `rest` as there is room for.
pub(crate) fn copy_front(rest: &[u8], into: &mut [u8]) -> usize
    ensures count { result ≡ min (length rest.now) (length into.old) }
    ensures copied { take result into.new ≡ take result rest.now }
{
    let count = rest.len().min(into.len());
    into[..count].copy_from_slice(&rest[..count]);
    count
}

/// A source in memory, which gives its pieces one after another and fails at listed calls. One read gives at most the rest of
/// one piece. Past the last piece it answers the end.
#[derive(Drop)]
pub struct MemSource {
    pieces: Vec<Message>,
    at: usize,
    from: usize,
    calls: u64,
    failing: Vec<u64>,
    faults: u64,
}

impl Model for MemSource {
    ghost use Rattle.ra_ports.specs.Memory.{SourceScript, pieces_left, IsPlace};

    ghost Value = { SourceScript };

    ghost view = { λ s. record {
      pieces = pieces_left s.pieces.items s.at s.from;
      calls = s.calls;
      failing = s.failing.items;
      faults = s.faults;
    } };

    ghost invariant = { λ s. IsPlace s.pieces.items s.at s.from };
}

impl MemSource {
    /// A source of these pieces, of which none is empty. The calls of `read` with the numbers in `failing`, from 1, fail.
    pub fn new(pieces: Vec<Message>, failing: Vec<u64>) -> MemSource
        requires { All (λ piece. 0 < length piece) pieces.items }
        ensures { result ≡ record { pieces = pieces.items; calls = 0; failing = failing.items; faults = 0 } }
    {
        MemSource {
            pieces,
            at: 0,
            from: 0,
            calls: 0,
            failing,
            faults: 0,
        }
    }
}

impl Source for MemSource {
    ghost left = { λ s. Some (bytes_of s.pieces) };

    ghost faults = { λ s. s.faults };

    fn read(&mut self, into: &mut [u8]) -> Result<usize, Failed>
        ensures bound { ReadsAtMost result into.new }
        ensures bytes { ReadConsumes (Some (bytes_of self.old.pieces)) (Some (bytes_of self.new.pieces)) result into.new }
        ensures cause { HasCause self.old.faults self.new.faults result }
        ensures fails { IsErr result ↔ IsListed self.old.failing self.old.calls }
        ensures gives { IfOk result (λ n. n ≡ (next_read self.old.pieces (length into.new)).0) }
        ensures state { self.new ≡ after_read self.old (length into.new) result }
    {
        self.calls = self.calls.saturating_add(1);
        if self.failing.contains(&self.calls) {
            self.faults = self.faults.saturating_add(1);
            return Err(Failed);
        }
        let Some(piece) = self.pieces.get(self.at) else {
            return Ok(0);
        };
        let rest = &piece.as_slice()[self.from..];
        let count = copy_front(rest, into);
        if count < rest.len() {
            self.from += count;
        } else {
            self.at += 1;
            self.from = 0;
        }
        Ok(count)
    }
}
