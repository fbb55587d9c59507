//! What stands after the first word of a line.
ghost use Rattle.std.specs.Prelude.{◌≡◌, map};
ghost use Rattle.ra_script.specs.Faults.{LineGives};
ghost use Rattle.ra_script.specs.Words.{number_limit, moment_limit};
ghost use Rattle.ra_script.specs.Reading.{nothing_at, one_number_at, one_side_at, side_bytes_at, side_count_at, side_link_count_at, row_at};

use crate::fault::LineFault;
use crate::keyword::Keyword;
use crate::line::{Line, What};
use crate::words::{bytes, count, moment, number, side};
use ra_base::{Count, Event, Message, Side};
use std::alloc::Global;

#[tactic(auto, unfolding(crate::specs::Reading::nothing_at))]
pub fn nothing(args: &[&[u8]]) -> Result<(), What>
    ensures { result ≡ nothing_at (map (λ w. w.now) args.now) }
{
    match args {
        [] => Ok(()),
        _ => Err(What::WrongCount),
    }
}

#[tactic(auto, unfolding(crate::specs::Reading::one_number_at))]
pub fn one_number(args: &[&[u8]]) -> Result<u64, What>
    ensures { result ≡ one_number_at number_limit (map (λ w. w.now) args.now) }
{
    match args {
        [n] => number(n),
        _ => Err(What::WrongCount),
    }
}

#[tactic(auto, unfolding(crate::specs::Reading::one_number_at))]
pub fn one_moment(args: &[&[u8]]) -> Result<u64, What>
    ensures { result ≡ one_number_at moment_limit (map (λ w. w.now) args.now) }
{
    match args {
        [n] => moment(n),
        _ => Err(What::WrongCount),
    }
}

#[tactic(auto, unfolding(crate::specs::Reading::one_side_at))]
fn one_side(args: &[&[u8]]) -> Result<Side, What>
    ensures { result ≡ one_side_at (map (λ w. w.now) args.now) }
{
    match args {
        [s] => side(s),
        _ => Err(What::WrongCount),
    }
}

#[tactic(auto, unfolding(crate::specs::Reading::side_bytes_at))]
fn side_bytes(alloc: Global, args: &[&[u8]]) -> Result<(Side, Message), LineFault>
    ensures { LineGives result (side_bytes_at (map (λ w. w.now) args.now)) }
{
    match args {
        [s, h] => {
            let side = side(s)?;
            let body = bytes(alloc, h)?;
            Ok((side, body))
        }
        _ => Err(What::WrongCount.into()),
    }
}

#[tactic(auto, unfolding(crate::specs::Reading::side_count_at))]
fn side_count(args: &[&[u8]]) -> Result<(Side, Count), What>
    ensures { result ≡ side_count_at (map (λ w. w.now) args.now) }
{
    match args {
        [s, c] => Ok((side(s)?, count(c)?)),
        _ => Err(What::WrongCount),
    }
}

#[tactic(auto, unfolding(crate::specs::Reading::side_link_count_at))]
fn side_link_count(args: &[&[u8]]) -> Result<(Side, u64, Count), What>
    ensures { result ≡ side_link_count_at (map (λ w. w.now) args.now) }
{
    match args {
        [s, l, c] => Ok((side(s)?, number(l)?, count(c)?)),
        _ => Err(What::WrongCount),
    }
}

/// The line that a first word and the words after it say.
#[tactic(auto, unfolding(crate::specs::Reading::row_at))]
pub fn read_row(alloc: Global, keyword: Keyword, args: &[&[u8]]) -> Result<Line, LineFault>
    ensures { LineGives result (row_at keyword (map (λ w. w.now) args.now)) }
{
    let event = match keyword {
        Keyword::Base => {
            let base = one_number(args)?;
            return Ok(Line::Base { base });
        }
        Keyword::Drain => {
            let side = one_side(args)?;
            return Ok(Line::Drain { side });
        }
        Keyword::Link => {
            nothing(args)?;
            Event::Link
        }
        Keyword::At => {
            let now = one_moment(args)?;
            Event::At { now }
        }
        Keyword::Begin => {
            let (side, link, count) = side_link_count(args)?;
            Event::Begin { side, link, count }
        }
        Keyword::Finish => {
            let side = one_side(args)?;
            Event::Finish { side }
        }
        Keyword::Say => {
            let (side, body) = side_bytes(alloc, args)?;
            Event::Say { side, body }
        }
        Keyword::Control => {
            let (side, body) = side_bytes(alloc, args)?;
            Event::Control { side, body }
        }
        Keyword::Pause => {
            let side = one_side(args)?;
            Event::Pause { side }
        }
        Keyword::Resume => {
            let side = one_side(args)?;
            Event::Resume { side }
        }
        Keyword::Leave => {
            let side = one_side(args)?;
            Event::Leave { side }
        }
        Keyword::Write => {
            let (side, count) = side_count(args)?;
            Event::Write { side, count }
        }
        Keyword::Read => {
            let (side, link, count) = side_link_count(args)?;
            Event::Read { side, link, count }
        }
        Keyword::Take => {
            let side = one_side(args)?;
            Event::Take { side }
        }
        Keyword::Tick => {
            let side = one_side(args)?;
            Event::Tick { side }
        }
        Keyword::Lose => {
            let side = one_side(args)?;
            Event::Lose { side }
        }
        Keyword::Cut => {
            let link = one_number(args)?;
            Event::Cut { link }
        }
    };
    Ok(Line::Do { event })
}
