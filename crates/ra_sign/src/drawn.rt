//! Bytes that a start and a count determine.
ghost use Rattle.std.specs.Prelude.{◌≡◌, take};
ghost use Rattle.ra_sign.specs.Draws.{DrawState, drawn_at};

use crate::codes::hmac;
use ra_ports::Entropy;
use std::marker::Model;

/// Draws by authentication codes: the n-th draw, counted from 0, is the first 16 bytes of the code of the number n, as 8 bytes
/// with the highest first, under a start. From the last number of 64 bits on, the draws stay those of that number.
#[derive(Drop)]
pub struct Drawn {
    start: [u8; 32],
    count: u64,
}

impl Model for Drawn {
    ghost use Rattle.ra_sign.specs.Draws.{DrawState};

    ghost Value = { DrawState };

    ghost view = { λ d. record { start = d.start; count = d.count } };
}

impl Drawn {
    /// Draws from number 0 on. Who knows the start knows all draws.
    pub fn new(start: [u8; 32]) -> Drawn
        ensures { result ≡ record { start = start; count = 0 } }
    {
        Drawn { start, count: 0 }
    }
}

/// The first 16 bytes of a code.
fn first_half(code: &[u8; 32]) -> [u8; 16]
    ensures { result ≡ take 16 code.now }
{
    let mut half = [0; 16];
    half.copy_from_slice(&code[..16]);
    half
}

impl Entropy for Drawn {
    ghost use Rattle.std.specs.Prelude.{◌+◌};

    ghost draw = { λ d n. drawn_at d.start (d.count + n) };

    fn take(&mut self) -> [u8; 16] {
        let code = hmac(&self.start, &self.count.to_be_bytes());
        self.count = self.count.saturating_add(1);
        first_half(&code)
    }
}
