//! Values from bytes, with the first wrong place.
ghost use Rattle.std.specs.Prelude.{◌≡◌, ◌++◌, ◌≤◌, List, ℕ, Ok, length, take, drop, IfOk, IfErr};
ghost use Rattle.ra_values.specs.Reading.{Gives};
ghost use Rattle.ra_values.specs.Tree.{Tree};
ghost use Rattle.ra_values.specs.Spelling.{Spells, Fits, levels};
ghost use Rattle.ra_values.specs.View.{tree, trees};
ghost use Rattle.ra_values.specs.ReadValue.{prefixed_at, text_at, items_at, content_at, value_at, IsFirstFault};

use crate::LEVELS;
use crate::bytes::Bytes;
use crate::fault::{ReadFault, Stop, Wrong};
use crate::making::{array, buffer, int, object, text_value, undefined, vs_buffer};
use crate::number::read_number;
use crate::text::Text;
use crate::value::{Value, Values};
use sqlite_items::Items;
use std::alloc::Global;

#[tactic(auto, unfolding(crate::specs::ReadValue::prefixed_at))]
fn prefixed_of(bytes: &[u8]) -> Result<(&[u8], &[u8]), Stop>
    ensures { Gives (λ x. (x.0.now, x.1.now)) result (prefixed_at bytes.now) }
{
    let (len, rest) = read_number(bytes)?;
    let len = len as usize;
    if rest.len() < len {
        return Err(Stop::Bad {
            left: 0,
            what: Wrong::Short,
        });
    }
    Ok(rest.split_at(len))
}

fn buffer_of(alloc: Global, bytes: &[u8]) -> Result<(Bytes, &[u8]), Stop>
    ensures { Gives (λ x. (x.0, x.1.now)) result (prefixed_at bytes.now) }
{
    let (run, rest) = prefixed_of(bytes)?;
    Ok((Bytes::of(alloc, run)?, rest))
}

#[tactic(auto, unfolding(crate::specs::ReadValue::text_at))]
fn text_of(alloc: Global, bytes: &[u8]) -> Result<(Text, &[u8]), Stop>
    ensures { Gives (λ x. (x.0, x.1.now)) result (text_at bytes.now) }
{
    let (len, here) = read_number(bytes)?;
    let len = len as usize;
    if here.len() < len {
        return Err(Stop::Bad {
            left: 0,
            what: Wrong::Short,
        });
    }
    let (run, rest) = here.split_at(len);
    match str::from_utf8(run) {
        Ok(text) => Ok((Text::of(alloc, text)?, rest)),
        Err(_) => Err(Stop::Bad {
            left: here.len(),
            what: Wrong::BadText,
        }),
    }
}

#[cycle(value)]
#[tactic(auto, unfolding(crate::specs::ReadValue::value_at))]
fn value_of(alloc: Global, left: u8, bytes: &[u8]) -> Result<(Value, &[u8]), Stop>
    ensures { Gives (λ x. (tree x.0, x.1.now)) result (value_at left bytes.now) }
{
    let [tag, rest @ ..] = bytes else {
        return Err(Stop::Bad {
            left: 0,
            what: Wrong::Short,
        });
    };
    if left == 0 {
        return Err(Stop::Bad {
            left: bytes.len(),
            what: Wrong::TooDeep,
        });
    }
    content_of(alloc, left - 1, *tag, bytes.len(), rest)
}

#[cycle(value)]
#[tactic(auto, unfolding(crate::specs::ReadValue::content_at))]
fn content_of(
    alloc: Global,
    left: u8,
    tag: u8,
    here: usize,
    bytes: &[u8],
) -> Result<(Value, &[u8]), Stop>
    ensures { (all : List ℕ) → length all ≡ here → Gives (λ x. (tree x.0, x.1.now)) result (content_at (value_at left) tag all bytes.now) }
{
    match tag {
        0 => Ok((undefined(), bytes)),
        1 => {
            let (text, rest) = text_of(alloc, bytes)?;
            Ok((text_value(text), rest))
        }
        2 => {
            let (run, rest) = buffer_of(alloc, bytes)?;
            Ok((buffer(run), rest))
        }
        3 => {
            let (run, rest) = buffer_of(alloc, bytes)?;
            Ok((vs_buffer(run), rest))
        }
        4 => {
            let (count, rest) = read_number(bytes)?;
            let (items, rest) = items_of(alloc, left, count, rest)?;
            Ok((array(items), rest))
        }
        5 => {
            let (json, rest) = text_of(alloc, bytes)?;
            Ok((object(json), rest))
        }
        6 => {
            let (n, rest) = read_number(bytes)?;
            Ok((int(n), rest))
        }
        _ => Err(Stop::Bad {
            left: here,
            what: Wrong::BadTag,
        }),
    }
}

#[cycle(value)]
fn items_of(alloc: Global, left: u8, count: u32, bytes: &[u8]) -> Result<(Values, &[u8]), Stop>
    ensures { Gives (λ x. (trees x.0, x.1.now)) result (items_at (value_at left) count bytes.now) }
{
    let mut items = Items::new(alloc);
    let mut rest = bytes;
    for _ in 0..count {
        let (value, after) = value_of(alloc, left, rest)?;
        items.push(value)?;
        rest = after;
    }
    Ok((items, rest))
}

/// The value that begins the bytes, and its length in bytes. What follows it is not judged.
pub fn read(alloc: Global, bytes: &[u8]) -> Result<(Value, usize), ReadFault>
    // what is read is spelled so
    ensures found { IfOk result (λ x. (x.1 ≤ length bytes.now) × Spells levels (tree x.0) (take x.1 bytes.now)) }
    ensures fits { IfOk result (λ x. Fits levels (tree x.0)) }
    // it is what reading from front to back gives
    ensures value { IfOk result (λ x. value_at levels bytes.now ≡ Ok (tree x.0, drop x.1 bytes.now)) }
    // where a spelling begins the bytes, memory alone may be wanting
    ensures only { (t : Tree) (front rest : List ℕ) → Spells levels t front → bytes.now ≡ front ++ rest → IfErr result (λ fault. fault ≡ ReadFault.NoMemory) }
    // else it is the first wrong place
    ensures fault { IfErr result (IsFirstFault bytes.now) }
{
    match value_of(alloc, LEVELS, bytes) {
        Ok((value, rest)) => Ok((value, bytes.len() - rest.len())),
        Err(Stop::Bad { left, what }) => Err(ReadFault::Bad {
            at: bytes.len() - left,
            what,
        }),
        Err(Stop::NoMemory) => Err(ReadFault::NoMemory),
    }
}
