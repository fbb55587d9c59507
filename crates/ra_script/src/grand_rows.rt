//! What stands after the first word of a line of a grand script.
ghost use Rattle.std.specs.Prelude.{◌≡◌, map, IsUtf8};
ghost use Rattle.std.specs.List.{AllByRecursion};
ghost use Rattle.ra_script.specs.Faults.{LineGives};
ghost use Rattle.ra_script.specs.Words.{bytes_at};
ghost use Rattle.ra_script.specs.GrandWords.{utf8_at};
ghost use Rattle.ra_script.specs.GrandReading.{key_at, number_count_at, number_bytes_at, number_id_at, named_at, call_at, grand_row_at};

use crate::fault::LineFault;
use crate::grand_keyword::GrandKeyword;
use crate::grand_line::{GrandEvent, GrandLine};
use crate::grand_words::{id, kind, text, token, utf8};
use crate::line::What;
use crate::rows::{nothing, one_moment, one_number};
use crate::words::{bytes, count, number};
use ra_base::{Count, Key, Message};
use ra_values::{Bytes, Text};
use std::alloc::Global;

#[tactic(auto, unfolding(crate::specs::GrandReading::key_at))]
fn key(args: &[&[u8]]) -> Result<Key, What>
    requires { AllByRecursion IsUtf8 (map (λ w. w.now) args.now) }
    ensures { result ≡ key_at (map (λ w. w.now) args.now) }
{
    match args {
        [k, t] => Ok(Key {
            kind: kind(k)?,
            token: token(t)?,
        }),
        _ => Err(What::WrongCount),
    }
}

#[tactic(auto, unfolding(crate::specs::GrandReading::number_count_at))]
fn number_count(args: &[&[u8]]) -> Result<(u64, Count), What>
    ensures { result ≡ number_count_at (map (λ w. w.now) args.now) }
{
    match args {
        [l, c] => Ok((number(l)?, count(c)?)),
        _ => Err(What::WrongCount),
    }
}

#[tactic(auto, unfolding(crate::specs::GrandReading::number_bytes_at))]
fn number_bytes(alloc: Global, args: &[&[u8]]) -> Result<(u64, Message), LineFault>
    ensures { LineGives result (number_bytes_at (map (λ w. w.now) args.now)) }
{
    match args {
        [i, h] => {
            let client = number(i)?;
            let body = bytes(alloc, h)?;
            Ok((client, body))
        }
        _ => Err(What::WrongCount.into()),
    }
}

#[tactic(auto, unfolding(crate::specs::GrandReading::number_id_at))]
fn number_id(args: &[&[u8]]) -> Result<(u64, i32), What>
    ensures { result ≡ number_id_at (map (λ w. w.now) args.now) }
{
    match args {
        [i, d] => Ok((number(i)?, id(d)?)),
        _ => Err(What::WrongCount),
    }
}

/// A client, a channel and a name.
#[tactic(auto, unfolding(crate::specs::GrandReading::named_at))]
fn named(alloc: Global, args: &[&[u8]]) -> Result<(u64, Text, Text), LineFault>
    requires { AllByRecursion IsUtf8 (map (λ w. w.now) args.now) }
    ensures { LineGives result (named_at (map (λ w. w.now) args.now)) }
{
    match args {
        [i, c, n] => {
            let client = number(i)?;
            let channel = text(alloc, c)?;
            let name = text(alloc, n)?;
            Ok((client, channel, name))
        }
        _ => Err(What::WrongCount.into()),
    }
}

#[tactic(auto, unfolding(crate::specs::GrandReading::call_at))]
fn buffer_call(alloc: Global, args: &[&[u8]]) -> Result<(u64, Text, Text, Bytes), LineFault>
    requires { AllByRecursion IsUtf8 (map (λ w. w.now) args.now) }
    ensures { LineGives result (call_at bytes_at (map (λ w. w.now) args.now)) }
{
    match args {
        [i, c, n, h] => {
            let client = number(i)?;
            let arg = bytes(alloc, h)?;
            let channel = text(alloc, c)?;
            let name = text(alloc, n)?;
            Ok((client, channel, name, Bytes::from_vec(arg.into_vec())))
        }
        _ => Err(What::WrongCount.into()),
    }
}

#[tactic(auto, unfolding(crate::specs::GrandReading::call_at))]
fn text_call(alloc: Global, args: &[&[u8]]) -> Result<(u64, Text, Text, Text), LineFault>
    requires { AllByRecursion IsUtf8 (map (λ w. w.now) args.now) }
    ensures { LineGives result (call_at utf8_at (map (λ w. w.now) args.now)) }
{
    match args {
        [i, c, n, h] => {
            let client = number(i)?;
            let arg = utf8(alloc, h)?;
            let channel = text(alloc, c)?;
            let name = text(alloc, n)?;
            Ok((client, channel, name, arg))
        }
        _ => Err(What::WrongCount.into()),
    }
}

/// The line that a first word and the words after it say.
#[tactic(auto, unfolding(crate::specs::GrandReading::grand_row_at))]
pub fn read_grand_row(
    alloc: Global,
    keyword: GrandKeyword,
    args: &[&[u8]],
) -> Result<GrandLine, LineFault>
    requires { AllByRecursion IsUtf8 (map (λ w. w.now) args.now) }
    ensures { LineGives result (grand_row_at keyword (map (λ w. w.now) args.now)) }
{
    let event = match keyword {
        GrandKeyword::At => {
            let now = one_moment(args)?;
            GrandEvent::At { now }
        }
        GrandKeyword::Client => {
            let key = key(args)?;
            GrandEvent::Client { key }
        }
        GrandKeyword::Step => {
            let client = one_number(args)?;
            GrandEvent::Step { client }
        }
        GrandKeyword::Linked => {
            let client = one_number(args)?;
            GrandEvent::Linked { client }
        }
        GrandKeyword::NoLink => {
            let client = one_number(args)?;
            GrandEvent::NoLink { client }
        }
        GrandKeyword::Up => {
            let (link, count) = number_count(args)?;
            GrandEvent::Up { link, count }
        }
        GrandKeyword::Idle => {
            let link = one_number(args)?;
            GrandEvent::Idle { link }
        }
        GrandKeyword::Down => {
            let (link, count) = number_count(args)?;
            GrandEvent::Down { link, count }
        }
        GrandKeyword::Frame => {
            let client = one_number(args)?;
            GrandEvent::Frame { client }
        }
        GrandKeyword::Drain => {
            let client = one_number(args)?;
            return Ok(GrandLine::Drain { client });
        }
        GrandKeyword::Cut => {
            let link = one_number(args)?;
            GrandEvent::Cut { link }
        }
        GrandKeyword::Gone => {
            let link = one_number(args)?;
            GrandEvent::Gone { link }
        }
        GrandKeyword::Lost => {
            let client = one_number(args)?;
            GrandEvent::Lost { client }
        }
        GrandKeyword::Sweep => {
            nothing(args)?;
            GrandEvent::Sweep
        }
        GrandKeyword::Work => {
            let job = one_number(args)?;
            GrandEvent::Work { job }
        }
        GrandKeyword::Call => {
            let (client, channel, name, arg) = buffer_call(alloc, args)?;
            GrandEvent::Call {
                client,
                channel,
                name,
                arg,
            }
        }
        GrandKeyword::Text => {
            let (client, channel, name, arg) = text_call(alloc, args)?;
            GrandEvent::CallText {
                client,
                channel,
                name,
                arg,
            }
        }
        GrandKeyword::Listen => {
            let (client, channel, name) = named(alloc, args)?;
            GrandEvent::Listen {
                client,
                channel,
                name,
            }
        }
        GrandKeyword::Cancel => {
            let (client, id) = number_id(args)?;
            GrandEvent::Cancel { client, id }
        }
        GrandKeyword::Dispose => {
            let (client, id) = number_id(args)?;
            GrandEvent::Dispose { client, id }
        }
        GrandKeyword::Say => {
            let (client, body) = number_bytes(alloc, args)?;
            GrandEvent::Say { client, body }
        }
        GrandKeyword::Stop => {
            let client = one_number(args)?;
            GrandEvent::Stop { client }
        }
    };
    Ok(GrandLine::Do { event })
}
