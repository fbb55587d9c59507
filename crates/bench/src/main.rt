//! Loads whose time and memory are measured from outside. The first word names the load, and the numbers behind it are its sizes; with no
//! word each load runs once, with small sizes.
#![tactic(auto)]

mod channels;
mod gone;
mod links;
mod registry;
mod sessions;
mod strangers;
mod values;

use gone::Fate;
use ra_ports::{StdSink, write_all};
use std::alloc::Global;
use std::env;
use std::process::ExitCode;

/// The words of the command line, without the program's name; none where they are no text.
fn words(rt: &(impl env::Env + AllocGlobal)) -> Vec<String> {
    let mut words = Vec::new(rt.alloc());
    if let Ok(args) = env::args(rt) {
        for word in args.skip(1) {
            if words.push(word).is_err() {
                return Vec::new(rt.alloc());
            }
        }
    }
    words
}

/// The number that the word in this place is, and 0 where there is none.
fn number(words: &[String], at: usize) -> u32 {
    match words.get(at) {
        Some(word) => word.parse::<u32>().unwrap_or(0),
        None => 0,
    }
}

/// Sessions of the registry that come once, and those that come twice.
fn registry_line(alloc: Global, ended: u32, twice: u32) -> Option<String> {
    let entries = registry::run(alloc, ended.into(), twice.into()).ok()?;
    format!(in alloc; "ended={ended} twice={twice} entries={entries}\n").ok()
}

/// The items of an array, the bytes of a buffer, and how often each is written and read.
fn values_line(alloc: Global, items: u32, bytes: u32, rounds: u32) -> Option<String> {
    let read = values::run(alloc, items, bytes, rounds).ok()?;
    format!(in alloc; "items={items} bytes={bytes} rounds={rounds} read={read}\n").ok()
}

/// The calls of a channel server that are open at once, and the rounds.
fn channels_line(alloc: Global, open: u32, rounds: u32) -> Option<String> {
    let answered = channels::run(alloc, open, rounds).ok()?;
    format!(in alloc; "open={open} rounds={rounds} answered={answered}\n").ok()
}

/// The sessions of a hub, and the rounds of calls.
fn sessions_line(alloc: Global, sessions: u32, rounds: u32) -> Option<String> {
    let answered = sessions::run(alloc, sessions, rounds).ok()?;
    format!(in alloc; "sessions={sessions} rounds={rounds} answered={answered}\n").ok()
}

/// The messages of a connection, and the bytes of a piece.
fn link_line(alloc: Global, messages: u32, size: u32) -> Option<String> {
    let jobs = links::run(alloc, messages.into(), size as usize).ok()?;
    format!(in alloc; "messages={messages} size={size} jobs={jobs}\n").ok()
}

/// The strangers, the objects of the body that each of them sends, and how many of its bytes do not come. The body is that of a text of the
/// handshake.
fn strangers_line(alloc: Global, links: u32, units: u32, missing: u32) -> Option<String> {
    let waits = strangers::run(alloc, links, 2, units, missing as usize).ok()?;
    format!(in alloc; "links={links} units={units} missing={missing} waits={waits}\n").ok()
}

/// The same, where the frame is passed over.
fn passed_line(alloc: Global, links: u32, units: u32, missing: u32) -> Option<String> {
    let waits = strangers::run(alloc, links, 1, units, missing as usize).ok()?;
    format!(in alloc; "passed links={links} units={units} missing={missing} waits={waits}\n").ok()
}

/// The sessions that are lost, or end, and the bytes of the message that each of them hears before.
fn gone_line(alloc: Global, fate: Fate, sessions: u32, size: u32) -> Option<String> {
    let gone = gone::run(alloc, fate, sessions, size as usize).ok()?;
    format!(in alloc; "{fate:?} sessions={gone} size={size}\n").ok()
}

/// The sessions that have ended, and the ticks.
fn ticks_line(alloc: Global, ended: u32, count: u32) -> Option<String> {
    let ticks = gone::ticks(alloc, ended, count).ok()?;
    format!(in alloc; "ended={ended} ticks={ticks}\n").ok()
}

/// What the load of the first word comes to, in a line; none where memory is wanting, or where the word names no load.
fn line_of(alloc: Global, words: &[String]) -> Option<String> {
    let name = words.first()?.as_str();
    let (first, second, third) = (number(words, 1), number(words, 2), number(words, 3));
    match name {
        "registry" => registry_line(alloc, first, second),
        "values" => values_line(alloc, first, second, third),
        "channels" => channels_line(alloc, first, second),
        "sessions" => sessions_line(alloc, first, second),
        "link" => link_line(alloc, first, second),
        "strangers" => strangers_line(alloc, first, second, third),
        "passed" => passed_line(alloc, first, second, third),
        "lost" => gone_line(alloc, Fate::Lost, first, second),
        "ended" => gone_line(alloc, Fate::Ends, first, second),
        "ticks" => ticks_line(alloc, first, second),
        _ => None,
    }
}

/// What each load comes to with small sizes, in a line each.
fn small_lines(alloc: Global) -> Option<String> {
    let mut lines = registry_line(alloc, 3, 2)?;
    for line in [
        values_line(alloc, 3, 2, 1)?,
        channels_line(alloc, 100, 3)?,
        sessions_line(alloc, 20, 3)?,
        link_line(alloc, 50, 100)?,
        strangers_line(alloc, 3, 20, 1)?,
        passed_line(alloc, 3, 20, 1)?,
        gone_line(alloc, Fate::Lost, 3, 1000)?,
        gone_line(alloc, Fate::Ends, 3, 1000)?,
        ticks_line(alloc, 3, 2)?,
    ] {
        lines.push_str(line.as_str()).ok()?;
    }
    Some(lines)
}

fn main(rt: HostRuntime) -> ExitCode {
    let alloc = rt.alloc();
    let words = words(&rt);
    let lines = if words.is_empty() {
        small_lines(alloc)
    } else {
        line_of(alloc, words.as_slice())
    };
    let Some(lines) = lines else {
        return ExitCode::from(1);
    };
    let mut sink = StdSink::new(rt.stdout());
    match write_all(&mut sink, lines.as_bytes()) {
        Ok(()) => ExitCode::from(0),
        Err(_) => ExitCode::from(1),
    }
}
