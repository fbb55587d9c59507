//! Appends to a file of records, copies its log back and audits it. `append PATH COUNT` prints how many records were there, how many were
//! added, and the microseconds of reading and of adding them; `close PATH` copies the log back; `audit PATH` is the audit of `agent`. With no
//! word three records are added in memory.
#![tactic(auto)]

ghost use Rattle.std.specs.Prelude.{◌≡◌, ◌<◌, ◌^◌, IfSome};
ghost use Rattle.ra_keep.specs.Causes.{IsOfNoTunnel};

use ra_base::{Key, Kind, Token};
use ra_keep::{Keeper, Record};
use ra_keep_sql::SqlKeeper;
use ra_ports::{StdSink, write_all};
use ra_record_commands::audit;
use std::alloc::Global;
use std::env;
use std::process::ExitCode;
use std::time::Instant;

/// The words of the command line, without the program's name; none where they are no text.
fn words(rt: &(impl env::Env + AllocGlobal)) -> Vec<String> {
    let mut words = Vec::new(rt.alloc());
    if let Ok(args) = env::args(rt) {
        for word in args.skip(1) {
            if words.push(word).is_err() {
                return Vec::new(rt.alloc());
            }
        }
    }
    words
}

/// The record of the link of this number of one window.
fn record(number: u32) -> Option<Record>
    ensures { IfSome result (λ kept. IsOfNoTunnel kept × (kept.epoch < 2 ^ 32) × (kept.at < 2 ^ 32)) }
{
    match Token::from_text("0123456789abcdef0123456789abcdef") {
        Ok(token) => Some(Record {
            key: Key {
                kind: Kind::Management,
                token,
            },
            epoch: number.into(),
            at: number.into(),
        }),
        Err(_) => None,
    }
}

/// Adds the records of the links behind so many ones; how many were added.
fn append_all<R: Keeper>(keeper: &mut R, alloc: Global, before: u32, wanted: u32) -> Option<u32> {
    let mut added = 0u32;
    for n in 0..wanted {
        let kept = record(before.saturating_add(n).saturating_add(1))?;
        if keeper.append(alloc, &kept).is_err() {
            return Some(added);
        }
        added = added.saturating_add(1);
    }
    Some(added)
}

/// How many records there are.
fn count<R: Keeper>(keeper: &mut R, alloc: Global) -> Option<u32> {
    let records = keeper.all(alloc).ok()?;
    u32::try_from(records.len()).ok()
}

/// What adding so many records came to: how many were there, how many were added, and the microseconds of reading and of adding.
struct Added {
    before: u32,
    added: u32,
    read_us: u128,
    added_us: u128,
}

fn add_timed<R: Keeper>(rt: &HostRuntime, keeper: &mut R, wanted: u32) -> Option<Added> {
    let began = Instant::now(rt).ok()?;
    let before = count(keeper, rt.alloc())?;
    let read = Instant::now(rt).ok()?;
    let added = append_all(keeper, rt.alloc(), before, wanted)?;
    let ended = Instant::now(rt).ok()?;
    Some(Added {
        before,
        added,
        read_us: read.duration_since(began).as_micros(),
        added_us: ended.duration_since(read).as_micros(),
    })
}

/// Adds records to the file, and drops its keeper, so that the log stays.
fn append_line(rt: &HostRuntime, path: &str, wanted: u32) -> Option<String> {
    let mut keeper = SqlKeeper::open(rt, path).ok()?;
    let Added {
        before,
        added,
        read_us,
        added_us,
    } = add_timed(rt, &mut keeper, wanted)?;
    format!(in rt.alloc();
        "before={before} added={added} read_us={read_us} added_us={added_us}\n"
    ).ok()
}

/// Copies the log of the file back.
fn close_line(rt: &HostRuntime, path: &str) -> Option<String> {
    let keeper = SqlKeeper::open(rt, path).ok()?;
    let closed = keeper.close().is_ok();
    format!(in rt.alloc(); "closed={closed}\n").ok()
}

/// Adds three records in memory.
fn small_line(alloc: Global) -> Option<String> {
    let mut keeper = SqlKeeper::in_memory(alloc).ok()?;
    let added = append_all(&mut keeper, alloc, 0, 3)?;
    let found = count(&mut keeper, alloc)?;
    format!(in alloc; "added={added} found={found}\n").ok()
}

/// What the words come to, in a line; none where something failed, or where the first one names nothing.
fn line_of(rt: &HostRuntime, words: &[String]) -> Option<String> {
    match words {
        [] => small_line(rt.alloc()),
        [name, path] if name.as_str() == "close" => close_line(rt, path.as_str()),
        [name, path, wanted] if name.as_str() == "append" => append_line(
            rt,
            path.as_str(),
            wanted.parse::<u32>().ok()?,
        ),
        _ => None,
    }
}

fn main(rt: HostRuntime) -> ExitCode {
    let words = words(&rt);
    let mut sink = StdSink::new(rt.stdout());
    if let [name, path] = words.as_slice() {
        if name.as_str() == "audit" {
            return ExitCode::from(audit(&rt, path.as_str(), &mut sink));
        }
    }
    let Some(line) = line_of(&rt, words.as_slice()) else {
        return ExitCode::from(1);
    };
    match write_all(&mut sink, line.as_bytes()) {
        Ok(()) => ExitCode::from(0),
        Err(_) => ExitCode::from(1),
    }
}
