//! Tests of ra_script: scripts of clients and a server are read, and the first fault in a script is named.

use ra_base::{Count, Kind};
use ra_script::{GrandEvent, GrandLine, ScriptFault, What, parse_grand};
use std::alloc::Global;
use std::test::Fail;

/// A line of each word, with the word.
const LINES: [(&str, &str); 23] = [
    ("at 9007199254740991", "at"),
    ("client management t1", "client"),
    ("client host t1", "client"),
    ("step 1", "step"),
    ("linked 18446744073709551615", "linked"),
    ("nolink 0", "nolink"),
    ("up 1 *", "up"),
    ("idle 1", "idle"),
    ("down 1 ~40", "down"),
    ("frame 1", "frame"),
    ("drain 1", "drain"),
    ("cut 1", "cut"),
    ("gone 1", "gone"),
    ("lost 1", "lost"),
    ("sweep", "sweep"),
    ("work 1", "work"),
    ("call 1 tools echo 6869", "call"),
    ("text 1 tools say c3a9", "text"),
    ("listen 1 tools said", "listen"),
    ("cancel 1 2147483647", "cancel"),
    ("dispose 1 0", "dispose"),
    ("say 1 -", "say"),
    ("stop 1", "stop"),
];

/// Scripts with the line that has no reading, and its first cause.
const FAULTS: [(&str, u64, What); 38] = [
    ("step 1\nstep\t1", 2, What::NotText),
    ("step 1\r\n", 1, What::NotText),
    ("fly\u{e9}", 1, What::NotText),
    ("\n", 1, What::UnknownWord),
    ("sweep\n\nsweep", 2, What::UnknownWord),
    ("base 0", 1, What::UnknownWord),
    ("link", 1, What::UnknownWord),
    ("Step 1", 1, What::UnknownWord),
    (" step 1", 1, What::UnknownWord),
    ("sweep ", 1, What::WrongCount),
    ("step", 1, What::WrongCount),
    ("step 1 ", 1, What::WrongCount),
    ("client tunnel", 1, What::WrongCount),
    ("up x", 1, What::WrongCount),
    ("call x tools echo", 1, What::WrongCount),
    ("text x tools echo 6 6", 1, What::WrongCount),
    ("listen x tools", 1, What::WrongCount),
    ("cancel x", 1, What::WrongCount),
    ("say x", 1, What::WrongCount),
    ("client tunnel ", 1, What::UnknownWord),
    ("client Host t1", 1, What::UnknownWord),
    ("client  t1", 1, What::UnknownWord),
    ("client host ", 1, What::BadBytes),
    ("at 9007199254740992", 1, What::BadNumber),
    ("step 01", 1, What::BadNumber),
    ("step 18446744073709551616", 1, What::BadNumber),
    ("step ", 1, What::BadNumber),
    ("up x **", 1, What::BadNumber),
    ("down 1 **", 1, What::BadNumber),
    ("cancel 1 2147483648", 1, What::BadNumber),
    ("dispose 1 -1", 1, What::BadNumber),
    ("say x 6", 1, What::BadNumber),
    ("say 1 6", 1, What::BadBytes),
    ("call x tools echo 6", 1, What::BadNumber),
    ("call 1 tools echo ", 1, What::BadBytes),
    ("text 1 tools say 6g", 1, What::BadBytes),
    ("text 1 tools say ff", 1, What::BadBytes),
    ("text 1 tools say c3", 1, What::BadBytes),
];

fn parsed(alloc: Global, script: &str) -> Result<Vec<GrandLine>, ScriptFault> {
    if script.len() >= 1 << 32 {
        return Err(ScriptFault::NoMemory);
    }
    parse_grand(alloc, script.as_bytes())
}

/// The word of an event.
fn word_of(event: &GrandEvent) -> &'static str {
    match event {
        GrandEvent::At { .. } => "at",
        GrandEvent::Client { .. } => "client",
        GrandEvent::Step { .. } => "step",
        GrandEvent::Linked { .. } => "linked",
        GrandEvent::NoLink { .. } => "nolink",
        GrandEvent::Up { .. } => "up",
        GrandEvent::Idle { .. } => "idle",
        GrandEvent::Down { .. } => "down",
        GrandEvent::Frame { .. } => "frame",
        GrandEvent::Cut { .. } => "cut",
        GrandEvent::Gone { .. } => "gone",
        GrandEvent::Lost { .. } => "lost",
        GrandEvent::Sweep => "sweep",
        GrandEvent::Work { .. } => "work",
        GrandEvent::Call { .. } => "call",
        GrandEvent::CallText { .. } => "text",
        GrandEvent::Listen { .. } => "listen",
        GrandEvent::Cancel { .. } => "cancel",
        GrandEvent::Dispose { .. } => "dispose",
        GrandEvent::Say { .. } => "say",
        GrandEvent::Stop { .. } => "stop",
    }
}

/// The script has one line, and it goes by the word.
fn is_line(alloc: Global, script: &str, word: &str) -> Result<bool, Fail> {
    let lines = parsed(alloc, script)?;
    let [line] = lines.as_slice() else {
        return Ok(false);
    };
    let found = match line {
        GrandLine::Do { event } => word_of(event),
        GrandLine::Drain { .. } => "drain",
    };
    Ok(found == word)
}

#[test]
fn each_word_is_read(rt: HostRuntime) -> Result<(), Fail> {
    for (script, word) in LINES {
        assert!(rt; is_line(rt.alloc(), script, word)?, "{script}");
    }
    Ok(())
}

#[test]
fn the_first_cause_is_named(rt: HostRuntime) -> Result<(), Fail> {
    for (script, line, what) in FAULTS {
        let fault = parsed(rt.alloc(), script).err();
        assert_eq!(rt; fault, Some(ScriptFault::At { line, what }), "{script}");
    }
    Ok(())
}

/// An event with its numbers and words.
fn is_said(event: &GrandEvent) -> bool {
    match event {
        GrandEvent::Client { key } => {
            key.kind == Kind::ExtensionHost && key.token.as_text() == "t1"
        }
        GrandEvent::Up { link, count } => *link == 12 && *count == Count::Most { n: 40 },
        GrandEvent::Call {
            client,
            channel,
            name,
            arg,
        } => {
            *client == 3
                && channel.as_str() == "tools"
                && name.as_str() == "echo"
                && arg.as_slice() == b"hi".as_slice()
        }
        GrandEvent::CallText {
            client,
            channel,
            name,
            arg,
        } => {
            *client == 4
                && channel.as_str() == ""
                && name.as_str() == "say"
                && arg.as_str() == "\u{e9}"
        }
        GrandEvent::Listen {
            client,
            channel,
            name,
        } => *client == 5 && channel.as_str() == "tools" && name.as_str() == "",
        GrandEvent::Cancel { client, id } => *client == 6 && *id == 2147483647,
        GrandEvent::Say { client, body } => *client == 7 && body.as_slice() == b"Jj".as_slice(),
        _ => false,
    }
}

#[test]
fn what_a_line_says_is_read(rt: HostRuntime) -> Result<(), Fail> {
    let script =
        "client host t1\nup 12 ~40\ncall 3 tools echo 6869\ntext 4  say C3A9\nlisten 5 tools \ncancel 6 2147483647\nsay 7 4A6a\n";
    let lines = parsed(rt.alloc(), script)?;
    assert_eq!(rt; lines.len(), 7);
    for line in &lines {
        match line {
            GrandLine::Do { event } => assert!(rt; is_said(event), "{}", word_of(event)),
            GrandLine::Drain { .. } => assert!(rt; false),
        }
    }
    assert_eq!(rt; parsed(rt.alloc(), "")?.len(), 0);
    Ok(())
}
