//! Numbers of 32 bits in groups of seven bits, the lowest first.
ghost use Rattle.std.specs.Prelude.{◌≡◌, ◌≤◌, ◌<◌, length, IfOk, OnOk, OnErr};
ghost use Rattle.ra_values.specs.Reading.{Gives, Extends};
ghost use Rattle.std.specs.Int.{w32, cast_unsigned};
ghost use Rattle.ra_values.specs.Number.{number_at, later_at, last_at, later_limit, AppendsNumber};

use crate::fault::{Stop, Wrong};
use std::alloc::AllocError;

/// The fault of a wrong byte at the front of these.
fn bad(bytes: &[u8]) -> Stop
    ensures { result ≡ Stop.Bad (length bytes.now) Wrong.BadNumber }
{
    Stop::Bad {
        left: bytes.len(),
        what: Wrong::BadNumber,
    }
}

/// Reads a fifth byte, which has the four highest bits alone.
fn last<'a>(byte: u8, bytes: &[u8], rest: &'a [u8]) -> Result<(u32, &'a [u8]), Stop>
    ensures gives { Gives (λ x. (x.0, x.1.now)) result (last_at byte bytes.now rest.now) }
    ensures small { IfOk result (λ x. x.0 < 16) }
{
    if byte > 15 {
        return Err(bad(bytes));
    }
    Ok((u32::from(byte), rest))
}

/// Reads the bytes of a number after its first, of which so many may still follow the next.
#[tactic(auto, unfolding(crate::specs::Number::later_at))]
fn later(more: u8, bytes: &[u8]) -> Result<(u32, &[u8]), Stop>
    requires { more ≤ 3 }
    ensures gives { Gives (λ x. (x.0, x.1.now)) result (later_at more bytes.now) }
    ensures small { IfOk result (λ x. x.0 < later_limit more) }
{
    let [byte, rest @ ..] = bytes else {
        return Err(Stop::Bad {
            left: 0,
            what: Wrong::Short,
        });
    };
    if *byte == 0 {
        return Err(bad(bytes));
    }
    if more == 0 {
        return last(*byte, bytes, rest);
    }
    if *byte < 128 {
        return Ok((u32::from(*byte), rest));
    }
    let (high, rest) = later(more - 1, rest)?;
    Ok((u32::from(*byte - 128) + 128 * high, rest))
}

/// Reads the number at the front. What follows it is given back.
#[tactic(auto, unfolding(crate::specs::Number::number_at))]
pub fn read_number(bytes: &[u8]) -> Result<(u32, &[u8]), Stop>
    ensures { Gives (λ x. (x.0, x.1.now)) result (number_at bytes.now) }
{
    let [byte, rest @ ..] = bytes else {
        return Err(Stop::Bad {
            left: 0,
            what: Wrong::Short,
        });
    };
    if *byte < 128 {
        return Ok((u32::from(*byte), rest));
    }
    let (high, rest) = later(3, rest)?;
    Ok((u32::from(*byte - 128) + 128 * high, rest))
}

/// The 32 bits of an integer, as a number.
pub fn pattern(n: &i32) -> u32
    ensures { result ≡ cast_unsigned w32 n.now }
{
    n.cast_unsigned()
}

/// Writes a number behind what is there.
pub fn push_number(out: &mut Vec<u8>, n: u32) -> Result<(), AllocError>
    ensures ok { OnOk result (AppendsNumber n out.old.items out.new.items) }
    ensures err { OnErr result (Extends out.old.items out.new.items) }
{
    let mut rest = n;
    while rest >= 128 {
        out.push((rest % 128 + 128) as u8)?;
        rest /= 128;
    }
    out.push(rest as u8)?;
    Ok(())
}
