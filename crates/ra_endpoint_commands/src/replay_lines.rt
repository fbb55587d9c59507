//! The lines that `replay` and `soak` print, each added to a text.
ghost use Rattle.std.specs.Prelude.{◌≡◌, ◌≢◌, ◌++◌, ℕ, length, OnOk, codes, decimal};
ghost use Rattle.ra_endpoint_commands.specs.Lines.{line, hex_of};
ghost use Rattle.ra_endpoint_commands.specs.ReplayLines.{side_text, side_of, handed_line, ticked_line, effect_line, base_line, end_fault_text, fault_text, fault_line, unread_line, script_over_line, side_counts, side_sums};

use crate::lines::{push_decimal, push_hex};
use ra_base::{Event, NoMemory, Side};
use ra_model::{Effect, EndFault, EventFault, Up};
use std::alloc::Global;

/// The name of a side.
fn side_text(side: Side) -> &'static str
    ensures { result.now ≡ side_text side }
{
    match side {
        Side::A => "A",
        Side::B => "B",
    }
}

/// Adds a text.
pub fn push_text(text: &mut Vec<u8>, more: &str) -> Result<(), NoMemory>
    ensures { OnOk result (text.new.items ≡ text.old.items ++ more.now) }
{
    text.extend_from_slice(more.as_bytes())?;
    Ok(())
}

/// Adds a line feed.
fn push_end_of_line(text: &mut Vec<u8>) -> Result<(), NoMemory>
    ensures { OnOk result (text.new.items ≡ text.old.items ++ codes "\n") }
{
    text.push(b'\n')?;
    Ok(())
}

/// Adds a word and a side, as `none A`.
fn push_sided(text: &mut Vec<u8>, word: &str, side: Side) -> Result<(), NoMemory>
    ensures { OnOk result (text.new.items ≡ text.old.items ++ (word.now ++ side_text side)) }
{
    push_text(text, word)?;
    push_text(text, side_text(side))
}

/// Adds a space and a number.
fn push_number(text: &mut Vec<u8>, n: u64) -> Result<(), NoMemory>
    ensures { OnOk result (text.new.items ≡ text.old.items ++ (codes " " ++ decimal n)) }
{
    text.push(b' ')?;
    push_decimal(text, n)
}

/// Adds a space, and bytes as hexadecimal digits.
fn push_bytes(alloc: Global, text: &mut Vec<u8>, bytes: &[u8]) -> Result<(), NoMemory>
    ensures { OnOk result (text.new.items ≡ text.old.items ++ (codes " " ++ hex_of bytes.now)) }
{
    text.push(b' ')?;
    push_hex(alloc, text, bytes)
}

/// Adds a line of a word and a side.
fn push_sided_line(text: &mut Vec<u8>, word: &str, side: Side) -> Result<(), NoMemory>
    ensures { OnOk result (text.new.items ≡ text.old.items ++ line (word.now ++ side_text side)) }
{
    push_sided(text, word, side)?;
    push_end_of_line(text)
}

/// Adds the line of a message that was handed up.
fn push_message(
    alloc: Global,
    text: &mut Vec<u8>,
    side: Side,
    id: u64,
    body: &[u8],
) -> Result<(), NoMemory>
    ensures { OnOk result (text.new.items ≡ text.old.items ++ line (codes "up " ++ side_text side ++ codes " " ++ decimal id ++ codes " " ++ hex_of body.now)) }
{
    push_sided(text, "up ", side)?;
    push_number(text, id)?;
    push_bytes(alloc, text, body)?;
    push_end_of_line(text)
}

/// Adds the line of a control frame that was handed up.
fn push_control(alloc: Global, text: &mut Vec<u8>, side: Side, body: &[u8]) -> Result<(), NoMemory>
    ensures { OnOk result (text.new.items ≡ text.old.items ++ line (codes "control " ++ side_text side ++ codes " " ++ hex_of body.now)) }
{
    push_sided(text, "control ", side)?;
    push_bytes(alloc, text, body)?;
    push_end_of_line(text)
}

/// Adds the line of what a frame handed up.
fn push_handed(alloc: Global, text: &mut Vec<u8>, side: Side, up: &Up) -> Result<(), NoMemory>
    ensures { OnOk result (text.new.items ≡ text.old.items ++ handed_line side up.now) }
{
    match up {
        Up::Message { id, body } => push_message(alloc, text, side, *id, body.as_slice()),
        Up::Control { body } => push_control(alloc, text, side, body.as_slice()),
        Up::Quiet => push_sided_line(text, "quiet ", side),
        Up::Ended => push_sided_line(text, "ended ", side),
    }
}

/// Adds the line of bytes that were put on a link.
fn push_wrote(alloc: Global, text: &mut Vec<u8>, side: Side, bytes: &[u8]) -> Result<(), NoMemory>
    ensures { OnOk result (text.new.items ≡ text.old.items ++ line (codes "wrote " ++ side_text side ++ codes " " ++ decimal (length bytes.now) ++ codes " " ++ hex_of bytes.now)) }
{
    push_sided(text, "wrote ", side)?;
    push_number(text, bytes.len() as u64)?;
    push_bytes(alloc, text, bytes)?;
    push_end_of_line(text)
}

/// Adds a line of a word, a side and a number.
fn push_counted(text: &mut Vec<u8>, word: &str, side: Side, n: u64) -> Result<(), NoMemory>
    ensures { OnOk result (text.new.items ≡ text.old.items ++ line (word.now ++ side_text side ++ codes " " ++ decimal n)) }
{
    push_sided(text, word, side)?;
    push_number(text, n)?;
    push_end_of_line(text)
}

/// Adds a line of a word and a number.
fn push_numbered(text: &mut Vec<u8>, word: &str, n: u64) -> Result<(), NoMemory>
    ensures { OnOk result (text.new.items ≡ text.old.items ++ line (word.now ++ decimal n)) }
{
    push_text(text, word)?;
    push_decimal(text, n)?;
    push_end_of_line(text)
}

/// Adds the line of a tick.
fn push_ticked(text: &mut Vec<u8>, side: Side, timed_out: bool) -> Result<(), NoMemory>
    ensures { OnOk result (text.new.items ≡ text.old.items ++ ticked_line side timed_out) }
{
    if timed_out {
        push_sided_line(text, "timeout ", side)
    } else {
        push_sided_line(text, "tick ", side)
    }
}

/// The side that an event names; of the others no line names one.
pub fn side_of(event: &Event) -> Side
    ensures { result ≡ side_of event.now }
{
    match event {
        Event::Begin {
            side,
            link: _,
            count: _,
        } => *side,
        Event::Finish { side } => *side,
        Event::Say { side, body: _ } => *side,
        Event::Control { side, body: _ } => *side,
        Event::Pause { side } => *side,
        Event::Resume { side } => *side,
        Event::Leave { side } => *side,
        Event::Write { side, count: _ } => *side,
        Event::Read {
            side,
            link: _,
            count: _,
        } => *side,
        Event::Take { side } => *side,
        Event::Tick { side } => *side,
        Event::Lose { side } => *side,
        Event::Link | Event::At { now: _ } | Event::Cut { link: _ } => Side::A,
    }
}

/// Adds the line of an event that was applied.
pub fn push_effect(
    alloc: Global,
    text: &mut Vec<u8>,
    side: Side,
    effect: &Effect,
) -> Result<(), NoMemory>
    ensures { OnOk result (text.new.items ≡ text.old.items ++ effect_line side effect.now) }
{
    match effect {
        Effect::Link { link } => push_numbered(text, "link ", *link),
        Effect::Done => push_text(text, "ok\n"),
        Effect::Said { id } => push_counted(text, "said ", side, *id),
        Effect::Wrote { bytes } => push_wrote(alloc, text, side, bytes.as_slice()),
        Effect::Read { n } => push_counted(text, "read ", side, *n),
        Effect::Up { up } => push_handed(alloc, text, side, up),
        Effect::Nothing => push_sided_line(text, "none ", side),
        Effect::Ticked { timed_out } => push_ticked(text, side, *timed_out),
    }
}

/// Adds `base N`.
pub fn push_base(text: &mut Vec<u8>, base: u64) -> Result<(), NoMemory>
    ensures { OnOk result (text.new.items ≡ text.old.items ++ base_line base) }
{
    push_numbered(text, "base ", base)
}

/// Adds a number between two texts.
pub fn push_between(text: &mut Vec<u8>, before: &str, n: u64, behind: &str) -> Result<(), NoMemory>
    ensures { OnOk result (text.new.items ≡ text.old.items ++ (before.now ++ decimal n ++ behind.now)) }
{
    push_text(text, before)?;
    push_decimal(text, n)?;
    push_text(text, behind)
}

/// Adds why an end refused an event.
fn push_end_fault(text: &mut Vec<u8>, fault: EndFault) -> Result<(), NoMemory>
    ensures { OnOk result (text.new.items ≡ text.old.items ++ end_fault_text fault) }
{
    match fault {
        EndFault::Ended => push_text(text, "ended"),
        EndFault::Stale { current } => push_between(text, "stale, current ", current, ""),
        EndFault::NoLink => push_text(text, "no link up"),
        EndFault::NotJoining => push_text(text, "not joining"),
        EndFault::TooLarge { len } => push_between(text, "message of ", len, " bytes"),
        EndFault::IdsSpent => push_text(text, "ids spent"),
        EndFault::TooLong { stated } => push_between(text, "body of ", stated as u64, " bytes"),
        EndFault::NoMemory => Ok(()),
    }
}

/// Adds how many bytes were asked for, and how many were there.
fn push_too_many(text: &mut Vec<u8>, asked: u64, there: u64) -> Result<(), NoMemory>
    ensures { OnOk result (text.new.items ≡ text.old.items ++ (codes "asked " ++ decimal asked ++ codes " of " ++ decimal there ++ codes " bytes")) }
{
    push_between(text, "asked ", asked, " of ")?;
    push_decimal(text, there)?;
    push_text(text, " bytes")
}

/// Adds why an event was refused.
fn push_fault_text(text: &mut Vec<u8>, fault: EventFault) -> Result<(), NoMemory>
    ensures { OnOk result (text.new.items ≡ text.old.items ++ fault_text fault) }
{
    match fault {
        EventFault::NoSuchLink { link } => push_between(text, "no link ", link, ""),
        EventFault::TooMany { asked, there } => push_too_many(text, asked, there),
        EventFault::End { fault } => push_end_fault(text, fault),
        EventFault::NoMemory => Ok(()),
    }
}

/// Adds the line of an event that was refused, by the number of its line, from 1.
pub fn push_fault(text: &mut Vec<u8>, n: u64, fault: EventFault) -> Result<(), NoMemory>
    ensures { OnOk result (text.new.items ≡ text.old.items ++ fault_line n fault) }
{
    push_between(text, "event ", n, ": ")?;
    push_fault_text(text, fault)?;
    push_end_of_line(text)
}

/// Adds the line of a script without a reading.
pub fn push_unread(text: &mut Vec<u8>, n: u64, cause: &str) -> Result<(), NoMemory>
    ensures { OnOk result (text.new.items ≡ text.old.items ++ unread_line n cause.now) }
{
    push_between(text, "script: line ", n, ": ")?;
    push_text(text, cause)?;
    push_end_of_line(text)
}

/// Adds the line of a script above its limit.
pub fn push_script_over(text: &mut Vec<u8>) -> Result<(), NoMemory>
    ensures { OnOk result (text.new.items ≡ text.old.items ++ script_over_line) }
{
    push_text(text, "refused: input over 67108864 bytes\n")
}

/// Adds what a side said and heard.
pub fn push_sums(text: &mut Vec<u8>, side: Side, said: u64, heard: u64) -> Result<(), NoMemory>
    ensures { OnOk result (text.new.items ≡ text.old.items ++ side_sums side said heard) }
{
    push_text(text, side_text(side))?;
    push_between(text, " said=", said, " heard=")?;
    push_decimal(text, heard)
}

/// Adds what a side said, heard, and has still to be acknowledged.
pub fn push_counts(
    text: &mut Vec<u8>,
    side: Side,
    said: u64,
    heard: u64,
    owed: u64,
) -> Result<(), NoMemory>
    ensures { OnOk result (text.new.items ≡ text.old.items ++ side_counts side said heard owed) }
{
    push_sums(text, side, said, heard)?;
    push_between(text, " owed=", owed, "")
}
