//! The shipped tools: what each answers, what it says to those who listen, and how it fails.
use crate::fixtures::hi;
use ra_app::{App, Done, Tools, too_large};
use ra_ipc::Answer;
use ra_values::{Bytes, NoMemory, Text, Value};
use std::alloc::Global;
use std::test::*;

/// What is to come of a tool.
#[derive(Drop)]
enum Wanted {
    /// The text `hi` as its answer.
    Hi,
    /// The number 2 as its answer.
    Two,
    /// The event `said` of `hi`.
    Said,
    /// This error as its answer.
    Error(&'static str),
}

/// Whether the value is the text `hi`.
fn is_hi(value: &Value) -> bool {
    matches!(value, Value::Text { text } if text.as_str() == "hi")
}

fn is_json(answer: &Answer, wanted: &str) -> bool {
    matches!(answer, Answer::Error { body: Value::Object { json } } if json.as_str() == wanted)
}

fn is_two(answer: &Answer) -> bool {
    matches!(
        answer,
        Answer::Success {
            body: Value::Int { n: 2 }
        }
    )
}

fn is_echo(answer: &Answer) -> bool {
    matches!(answer, Answer::Success { body } if is_hi(body))
}

fn says_hi(done: &Done) -> bool {
    matches!(&done.fire, Some(shout) if shout.event.as_str() == "said" && is_hi(&shout.body))
}

fn is_wanted(done: &Done, wanted: &Wanted) -> bool {
    match wanted {
        Wanted::Hi => is_echo(&done.answer),
        Wanted::Two => is_two(&done.answer),
        Wanted::Said => says_hi(done),
        Wanted::Error(json) => is_json(&done.answer, json),
    }
}

/// Calls the tool on the channel `tools`.
fn called(alloc: Global, name: &str, arg: &Value, cancelled: bool) -> Result<Done, NoMemory> {
    let channel = Text::of(alloc, "tools")?;
    let name = Text::of(alloc, name)?;
    if !arg.fits() {
        return Err(NoMemory);
    }
    Tools.call(alloc, &channel, &name, arg, cancelled)
}

fn comes_to(alloc: Global, name: &str, arg: &Value, cancelled: bool, wanted: &Wanted) -> bool {
    match called(alloc, name, arg, cancelled) {
        Ok(done) => is_wanted(&done, wanted),
        Err(_) => false,
    }
}

/// Whether the tool of this name makes this of the text `hi`.
fn of_text(alloc: Global, name: &str, wanted: &Wanted) -> bool {
    match hi(alloc) {
        Ok(arg) => comes_to(alloc, name, &arg, false, wanted),
        Err(_) => false,
    }
}

#[test]
fn tools_answer(rt: HostRuntime) {
    assert!(rt; of_text(rt.alloc(), "echo", &Wanted::Hi));
    assert!(rt; of_text(rt.alloc(), "length", &Wanted::Two));
    assert!(rt; of_text(rt.alloc(), "say", &Wanted::Said));
}

/// Whether the tool of this name makes this of two bytes.
fn of_bytes(alloc: Global, name: &str, cancelled: bool, wanted: &Wanted) -> bool {
    match Bytes::of(alloc, b"hi") {
        Ok(bytes) => comes_to(alloc, name, &Value::Buffer { bytes }, cancelled, wanted),
        Err(_) => false,
    }
}

/// A tool, whether the call is cancelled, and the error.
const FAILURES: [(&str, bool, &str); 4] = [
    (
        "length",
        false,
        "{\"message\":\"not a text\",\"name\":\"Error\"}",
    ),
    ("fail", false, "{\"message\":\"failed\",\"name\":\"Error\"}"),
    (
        "fly",
        false,
        "{\"message\":\"unknown name\",\"name\":\"Error\"}",
    ),
    (
        "echo",
        true,
        "{\"message\":\"Canceled\",\"name\":\"Canceled\"}",
    ),
];

#[test]
fn tools_fail(rt: HostRuntime) {
    for (name, cancelled, json) in FAILURES {
        assert!(rt;
            of_bytes(rt.alloc(), name, cancelled, &Wanted::Error(json)),
            "{name}"
        );
    }
}

fn is_too_large(alloc: Global, json: &str) -> bool {
    match too_large(alloc) {
        Ok(answer) => is_json(&answer, json),
        Err(_) => false,
    }
}

#[test]
fn a_large_answer_is_replaced(rt: HostRuntime) {
    let json = "{\"message\":\"answer too large\",\"name\":\"Error\"}";
    assert!(rt; is_too_large(rt.alloc(), json));
}
