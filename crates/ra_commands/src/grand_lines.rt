//! The lines that `grand` prints, each added to a text.
ghost use Rattle.std.specs.Prelude.{◌≡◌, ◌≢◌, ◌++◌, ℕ, List, OnOk, IfSome, Option, Some, option_map, codes, decimal};
ghost use Rattle.ra_dial.specs.View.{ActFits};
ghost use Rattle.ra_ipc.specs.Packets.{reply_body};
ghost use Rattle.ra_ipc.specs.View.{id_of, reply};
ghost use Rattle.ra_session.specs.Hearing.{OutcomeFits};
ghost use Rattle.ra_values.specs.Spelling.{Fits, levels};
ghost use Rattle.ra_link_core.specs.Makes.{outcome_of as core_outcome};
ghost use Rattle.ra_session.specs.View.{outcome_of};
ghost use Rattle.ra_values.specs.ValueBytes.{value_bytes};
ghost use Rattle.ra_values.specs.View.{tree};
ghost use Rattle.ra_dial.specs.Acts.{act_of};
ghost use Rattle.ra_grand_runs.specs.GrandEffects.{swept};
ghost use Rattle.ra_grand_runs.specs.GrandRefusals.{Refusal};
ghost use Rattle.ra_grand_runs.specs.GrandViews.{IsCause, effect_of, moved_to};
ghost use Rattle.ra_endpoint_commands.specs.Lines.{hex_of};
ghost use Rattle.ra_commands.specs.GrandLines.{Adds, AddsFault, AddsLine, Ends, Names, NamesCause, act_text, dial_end_name, grand_end_line, made_word, outcome_text};

use ra_base::NoMemory;
use ra_dial::{DialAct, DialEnd};
use ra_endpoint_commands::lines::{push_decimal, push_hex};
use ra_endpoint_commands::replay_lines::{push_between, push_text};
use ra_grand::{GrandEffect, GrandFault};
use ra_hub::Swept;
use ra_ipc::Answer;
use ra_link_core::CoreEnd;
use ra_script::GrandEvent;
use ra_session::Outcome;
use ra_values::{Value, append};
use std::alloc::Global;

/// Adds a word, and bytes as hexadecimal digits.
fn push_word(alloc: Global, text: &mut Vec<u8>, word: &str, bytes: &[u8]) -> Result<(), NoMemory>
    ensures { OnOk result (text.new.items ≡ text.old.items ++ (word.now ++ hex_of bytes.now)) }
{
    push_text(text, word)?;
    push_hex(alloc, text, bytes)
}

/// Adds a word, and the spelling of a value.
fn push_value(alloc: Global, text: &mut Vec<u8>, word: &str, value: &Value) -> Result<(), NoMemory>
    requires { Fits levels (tree value.now) }
    ensures { OnOk result (text.new.items ≡ text.old.items ++ (word.now ++ hex_of (value_bytes (tree value.now)))) }
{
    let mut bytes = Vec::new(alloc);
    let Ok(()) = append(value, &mut bytes) else {
        return Err(NoMemory);
    };
    push_word(alloc, text, word, &bytes)
}

fn push_answer(alloc: Global, text: &mut Vec<u8>, answer: &Answer) -> Result<(), NoMemory>
    requires { Fits levels (reply_body (reply answer.now)) }
    ensures { OnOk result (text.new.items ≡ text.old.items ++ outcome_text (outcome_of (Outcome.Answered answer.now))) }
{
    match answer {
        Answer::Success { body } => push_value(alloc, text, "ok ", body),
        Answer::Error { body } => push_value(alloc, text, "error ", body),
        Answer::ErrorObj { body } => push_value(alloc, text, "errorobj ", body),
    }
}

fn push_outcome(alloc: Global, text: &mut Vec<u8>, outcome: &Outcome) -> Result<(), NoMemory>
    requires { OutcomeFits (outcome_of outcome.now) }
    ensures { OnOk result (text.new.items ≡ text.old.items ++ outcome_text (outcome_of outcome.now)) }
{
    match outcome {
        Outcome::Cancelled => push_text(text, "cancelled"),
        Outcome::Answered { answer } => push_answer(alloc, text, answer),
    }
}

/// Adds a word, the id of a request, and a space.
fn push_id(text: &mut Vec<u8>, word: &str, id: i32) -> Result<(), NoMemory>
    ensures { OnOk result (text.new.items ≡ text.old.items ++ (word.now ++ decimal (id_of id) ++ codes " ")) }
{
    push_text(text, word)?;
    push_decimal(text, u64::from(id.cast_unsigned()))?;
    push_text(text, " ")
}

fn push_settled(
    alloc: Global,
    text: &mut Vec<u8>,
    id: i32,
    outcome: &Outcome,
) -> Result<(), NoMemory>
    requires { OutcomeFits (outcome_of outcome.now) }
    ensures { OnOk result (text.new.items ≡ text.old.items ++ (codes "settled " ++ decimal (id_of id) ++ codes " " ++ outcome_text (outcome_of outcome.now))) }
{
    push_id(text, "settled ", id)?;
    push_outcome(alloc, text, outcome)
}

fn push_fired(alloc: Global, text: &mut Vec<u8>, id: i32, body: &Value) -> Result<(), NoMemory>
    requires { Fits levels (tree body.now) }
    ensures { OnOk result (text.new.items ≡ text.old.items ++ (codes "fired " ++ decimal (id_of id) ++ codes " " ++ hex_of (value_bytes (tree body.now)))) }
{
    push_id(text, "fired ", id)?;
    push_value(alloc, text, "", body)
}

fn dial_end_name(end: &DialEnd) -> &'static str
    ensures { result.now ≡ dial_end_name end.now }
{
    match end {
        DialEnd::Permanent { reason: _ } => "Permanent",
        DialEnd::GraceOver { lost: _, now: _ } => "GraceOver",
        DialEnd::Ended { cause: _ } => "Ended",
        DialEnd::IdsSpent => "IdsSpent",
        DialEnd::Stopped => "Stopped",
    }
}

fn push_dial_end(text: &mut Vec<u8>, end: &DialEnd) -> Result<(), NoMemory>
    ensures { OnOk result (text.new.items ≡ text.old.items ++ (codes "end " ++ dial_end_name end.now)) }
{
    push_text(text, "end ")?;
    push_text(text, dial_end_name(end))
}

fn push_numbered(text: &mut Vec<u8>, word: &str, n: u64) -> Result<(), NoMemory>
    ensures { OnOk result (text.new.items ≡ text.old.items ++ (word.now ++ decimal n)) }
{
    push_text(text, word)?;
    push_decimal(text, n)
}

fn push_act(alloc: Global, text: &mut Vec<u8>, act: &DialAct) -> Result<(), NoMemory>
    requires { ActFits act.now }
    ensures { OnOk result (text.new.items ≡ text.old.items ++ act_text (act_of act.now)) }
{
    match act {
        DialAct::Nothing => push_text(text, "nothing"),
        DialAct::Quiet => push_text(text, "quiet"),
        DialAct::Rest { until } => push_numbered(text, "rest ", *until),
        DialAct::Connect => push_text(text, "connect"),
        DialAct::Drop => push_text(text, "drop"),
        DialAct::Settled { id, outcome } => push_settled(alloc, text, *id, outcome),
        DialAct::Fired { id, body } => push_fired(alloc, text, *id, body),
        DialAct::Host { body } => push_word(alloc, text, "host ", body.as_slice()),
        DialAct::End { cause } => push_dial_end(text, cause),
    }
}

/// The name of the end of a link, unless memory ran out.
fn end_name(end: &CoreEnd) -> Option<&'static str>
    ensures { Names (core_outcome (Some end.now)) (option_map (λ name. name.now) result) }
{
    match end {
        CoreEnd::BadHead { fault: _ } => Some("BadHead"),
        CoreEnd::Refused { reason: _ } => Some("Refused"),
        CoreEnd::TooLong { stated: _ } => Some("TooLong"),
        CoreEnd::BadIpc {
            fault: _,
            message: _,
        } => Some("BadIpc"),
        CoreEnd::Stale { current: _ } => Some("Stale"),
        CoreEnd::NoLink => Some("NoLink"),
        CoreEnd::Ended { cause: _ } => Some("Ended"),
        CoreEnd::IdsSpent => Some("IdsSpent"),
        CoreEnd::KeepFault | CoreEnd::NoMemory => None,
    }
}

/// Adds how the server's end of a link ended, where it did.
fn push_end(text: &mut Vec<u8>, end: &Option<CoreEnd>) -> Result<(), NoMemory>
    ensures { OnOk result (Ends (core_outcome end.now) text.old.items text.new.items) }
{
    let Some(end) = end else {
        return Ok(());
    };
    let Some(name) = end_name(end) else {
        return Err(NoMemory);
    };
    push_text(text, " end ")?;
    push_text(text, name)
}

fn push_moved(
    alloc: Global,
    text: &mut Vec<u8>,
    bytes: &[u8],
    end: &Option<CoreEnd>,
) -> Result<(), NoMemory>
    ensures { (word : List ℕ) → OnOk result (Adds word (moved_to bytes.now (core_outcome end.now)) text.old.items text.new.items) }
{
    push_numbered(text, "moved ", bytes.len() as u64)?;
    push_word(alloc, text, " ", bytes)?;
    push_end(text, end)
}

/// Adds how many rows expired, unless memory ran out.
fn push_swept(text: &mut Vec<u8>, did: Swept) -> Result<(), NoMemory>
    ensures { (word : List ℕ) → OnOk result (Adds word (swept did.expired did.short) text.old.items text.new.items) }
{
    if did.short > 0 {
        return Err(NoMemory);
    }
    push_numbered(text, "swept ", did.expired)
}

/// What an event makes: a client, or a link.
fn made_word(event: &GrandEvent) -> &'static str
    ensures { result.now ≡ made_word event.now }
{
    match event {
        GrandEvent::Client { key: _ } => "client ",
        _ => "link ",
    }
}

/// Adds what an event did, unless memory ran out in it.
fn push_effect(
    alloc: Global,
    text: &mut Vec<u8>,
    word: &str,
    effect: &GrandEffect,
) -> Result<(), NoMemory>
    ensures { OnOk result (Adds word.now (effect_of effect.now) text.old.items text.new.items) }
{
    match effect {
        GrandEffect::Done => push_text(text, "ok"),
        GrandEffect::Made { number } => push_numbered(text, word, *number),
        GrandEffect::Act { act } => push_act(alloc, text, act.act()),
        GrandEffect::Moved { bytes, end } => push_moved(alloc, text, bytes.as_slice(), end),
        GrandEffect::Swept { swept } => push_swept(text, *swept),
        GrandEffect::Issued { id } => push_numbered(text, "id ", u64::from(id.cast_unsigned())),
        GrandEffect::Cancelled => push_text(text, "cancelled"),
    }
}

/// Adds the line of an event that was applied, unless memory ran out in it.
pub fn push_line(
    alloc: Global,
    text: &mut Vec<u8>,
    event: &GrandEvent,
    effect: &GrandEffect,
) -> Result<(), NoMemory>
    ensures { OnOk result (AddsLine (made_word event.now) (effect_of effect.now) text.old.items text.new.items) }
{
    push_effect(alloc, text, made_word(event), effect)?;
    push_text(text, "\n")
}

/// The name of the cause of a refusal. Want of memory has none.
fn fault_name(fault: &GrandFault) -> Option<&'static str>
    ensures named { (cause : Option Refusal) → IsCause fault.now cause → NamesCause (option_map (λ name. name.now) result) cause }
    ensures other { IfSome result (λ name. fault.now ≢ GrandFault.NoMemory) }
{
    match fault {
        GrandFault::NoSuchLink { link: _ } => Some("NoSuchLink"),
        GrandFault::NoSuchClient { client: _ } => Some("NoSuchClient"),
        GrandFault::NoSuchJob { job: _, there: _ } => Some("NoSuchJob"),
        GrandFault::TokenTaken { client: _ } => Some("TokenTaken"),
        GrandFault::NotDialling { client: _ } => Some("NotDialling"),
        GrandFault::Over { link: _ } => Some("Over"),
        GrandFault::TooMany { asked: _, there: _ } => Some("TooMany"),
        GrandFault::Session { fault: _ } => Some("Session"),
        GrandFault::NoMemory => None,
    }
}

/// Adds the line of an event that was refused, by the number of its line, from 1. Want of memory is no such line.
pub fn push_refused(text: &mut Vec<u8>, n: u64, fault: &GrandFault) -> Result<(), NoMemory>
    ensures line { (cause : Option Refusal) → IsCause fault.now cause → OnOk result (AddsFault n cause text.old.items text.new.items) }
    ensures other { OnOk result (fault.now ≢ GrandFault.NoMemory) }
{
    let Some(name) = fault_name(fault) else {
        return Err(NoMemory);
    };
    push_between(text, "event ", n, ": ")?;
    push_text(text, name)?;
    push_text(text, "\n")
}

/// Adds how many links and jobs there are.
fn push_links_and_jobs(text: &mut Vec<u8>, links: u64, jobs: u64) -> Result<(), NoMemory>
    ensures { OnOk result (text.new.items ≡ text.old.items ++ (codes " links=" ++ decimal links ++ codes " jobs=" ++ decimal jobs)) }
{
    push_numbered(text, " links=", links)?;
    push_numbered(text, " jobs=", jobs)
}

/// Adds the last line.
pub fn push_counted(text: &mut Vec<u8>, clients: u64, links: u64, jobs: u64) -> Result<(), NoMemory>
    ensures { OnOk result (text.new.items ≡ text.old.items ++ grand_end_line clients links jobs) }
{
    push_numbered(text, "end clients=", clients)?;
    push_links_and_jobs(text, links, jobs)?;
    text.push(b'\n')?;
    Ok(())
}
