//! The words that all grammars share: sides, numbers, counts and bytes.
ghost use Rattle.std.specs.Prelude.{◌≡◌, ◌≢◌, ◌⊎◌, ◌<◌, ◌≤◌, ◌^◌, length, slice_index, MatchBool};
ghost use Rattle.ra_script.specs.Faults.{LineGives};
ghost use Rattle.ra_script.specs.Words.{side_at, number_at, count_at, bytes_at, number_limit, moment_limit};

use crate::fault::LineFault;
use crate::line::What;
use hex::FromHexError;
use ra_base::{Count, Message, Side};
use std::alloc::Global;
use std::str;

/// The side that a word is.
pub fn side(word: &[u8]) -> Result<Side, What>
    ensures { result ≡ side_at word.now }
{
    match word {
        b"A" => Ok(Side::A),
        b"B" => Ok(Side::B),
        _ => Err(What::UnknownWord),
    }
}

/// A plus or a zero stands before digits.
fn is_padded(word: &[u8]) -> bool
    ensures { MatchBool result ((slice_index word.now 0 ≡ 43) ⊎ ((slice_index word.now 0 ≡ 48) × (1 < length word.now)))
        ((slice_index word.now 0 ≢ 43) × (slice_index word.now 0 ≡ 48 → length word.now ≤ 1)) }
{
    match word {
        [b'+', ..] | [b'0', _, ..] => true,
        _ => false,
    }
}

/// The number that a word is the decimal of.
pub fn number(word: &[u8]) -> Result<u64, What>
    ensures { result ≡ number_at number_limit word.now }
{
    if is_padded(word) {
        return Err(What::BadNumber);
    }
    let Ok(text) = str::from_utf8(word) else {
        return Err(What::BadNumber);
    };
    match text.parse::<u64>() {
        Ok(n) => Ok(n),
        Err(_) => Err(What::BadNumber),
    }
}

/// The moment that a word is the decimal of.
pub fn moment(word: &[u8]) -> Result<u64, What>
    ensures { result ≡ number_at moment_limit word.now }
{
    let n = number(word)?;
    if n < 1 << 53 {
        Ok(n)
    } else {
        Err(What::BadNumber)
    }
}

/// The count that a word is.
#[tactic(auto, unfolding(crate::specs::Words::count_at))]
pub fn count(word: &[u8]) -> Result<Count, What>
    ensures { result ≡ count_at word.now }
{
    match word {
        b"*" => Ok(Count::All),
        [b'~', digits @ ..] => Ok(Count::Most { n: number(digits)? }),
        _ => Ok(Count::Exact { n: number(word)? }),
    }
}

/// The bytes that a word is the hexadecimal text of.
#[tactic(auto, unfolding(crate::specs::Words::bytes_at))]
pub fn bytes(alloc: Global, word: &[u8]) -> Result<Message, LineFault>
    ensures { LineGives result (bytes_at word.now) }
{
    if word == b"-".as_slice() {
        return Ok(Message::empty(alloc));
    }
    if word.is_empty() {
        return Err(What::BadBytes.into());
    }
    match hex::decode(alloc, word) {
        Ok(bytes) => Ok(Message::from_vec(bytes)),
        Err(FromHexError::OutOfMemory) => Err(LineFault::NoMemory),
        Err(_) => Err(What::BadBytes.into()),
    }
}
