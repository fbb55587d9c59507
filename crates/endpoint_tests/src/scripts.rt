//! Tests of ra_script: scripts of two endpoints are read, printed and drawn, and the first fault in a script is named.

use ra_script::{Line, ScriptFault, What, generate, parse, print};
use std::alloc::Global;
use std::test::Fail;

const RECONNECTION: &str =
    "link\nbegin A 1 0\nbegin B 1 0\nsay A 6869\nwrite A 14\nread B 1 14\ndrain B\ncut 1\nlose A\nlose B\nlink\nbegin A 2 0\nbegin B 2 0\nfinish A\nfinish B\nwrite A *\nread B 2 *\ndrain B\n";

fn printed(alloc: Global, lines: &[Line]) -> Result<Vec<u8>, Fail> {
    let mut text = Vec::new(alloc);
    for line in lines {
        print(line, &mut text)?;
        text.push(b'\n')?;
    }
    Ok(text)
}

/// Scripts, and what is printed of each.
const PRINTED: [(&str, &str); 5] = [
    (RECONNECTION, RECONNECTION),
    ("say A 6A", "say A 6a\n"),
    (
        "base 18446744073709551615\nat 9007199254740991\ncontrol B -\nwrite B ~3",
        "base 18446744073709551615\nat 9007199254740991\ncontrol B -\nwrite B ~3\n",
    ),
    (
        "pause A\nresume A\nleave B\ntake B\ntick A",
        "pause A\nresume A\nleave B\ntake B\ntick A\n",
    ),
    ("", ""),
];

/// Scripts with the line that has no reading, and its first cause.
const FAULTS: [(&str, u64, What); 23] = [
    ("link\nfly A", 2, What::UnknownWord),
    ("fly\tA 1", 1, What::NotText),
    ("link\r\n", 1, What::NotText),
    ("\n", 1, What::UnknownWord),
    ("link\n\nlink", 2, What::UnknownWord),
    ("link\nbase 1", 2, What::UnknownWord),
    ("Link", 1, What::UnknownWord),
    ("link ", 1, What::WrongCount),
    ("begin C x", 1, What::WrongCount),
    ("read  A 1 *", 1, What::WrongCount),
    ("begin C x y", 1, What::UnknownWord),
    ("begin A x y", 1, What::BadNumber),
    ("begin A 1 **", 1, What::BadNumber),
    ("at 9007199254740992", 1, What::BadNumber),
    ("cut 18446744073709551616", 1, What::BadNumber),
    ("cut 01", 1, What::BadNumber),
    ("cut +1", 1, What::BadNumber),
    ("write A ~", 1, What::BadNumber),
    ("write A ~00", 1, What::BadNumber),
    ("say a 6", 1, What::UnknownWord),
    ("say A 6", 1, What::BadBytes),
    ("say A 6g", 1, What::BadBytes),
    ("say A ", 1, What::BadBytes),
];

/// How many lines a script has, and what is printed of them.
fn read_and_printed(alloc: Global, script: &[u8]) -> Result<(usize, Vec<u8>), Fail> {
    let lines = parse(alloc, script)?;
    let text = printed(alloc, lines.as_slice())?;
    Ok((lines.len(), text))
}

#[test]
fn a_script_is_read_and_printed(rt: HostRuntime) -> Result<(), Fail> {
    for (script, want) in PRINTED {
        let (_, text) = read_and_printed(rt.alloc(), script.as_bytes())?;
        assert_eq!(rt; text.as_slice(), want.as_bytes(), "{script}");
    }
    Ok(())
}

#[test]
fn the_first_cause_of_the_first_line_is_named(rt: HostRuntime) {
    for (script, line, what) in FAULTS {
        let fault = parse(rt.alloc(), script.as_bytes()).err();
        assert_eq!(rt; fault, Some(ScriptFault::At { line, what }), "{script}");
    }
    assert_eq!(rt; What::WrongCount.name(), "WrongCount");
}

/// How many lines a script of 10,000 steps has, and what is printed of them.
fn drawn(alloc: Global) -> Result<(usize, Vec<u8>), Fail> {
    let lines = generate(alloc, 7, 10_000)?;
    let text = printed(alloc, lines.as_slice())?;
    Ok((lines.len(), text))
}

#[test]
fn a_script_is_drawn(rt: HostRuntime) -> Result<(), Fail> {
    assert_eq!(rt; generate(rt.alloc(), 0, 0)?.len(), 9);
    assert_eq!(rt; generate(rt.alloc(), 0, 1)?.len(), 20);
    Ok(())
}

#[test]
fn a_drawn_script_is_read_and_printed(rt: HostRuntime) -> Result<(), Fail> {
    let (count, text) = drawn(rt.alloc())?;
    let (count_again, text_again) = read_and_printed(rt.alloc(), text.as_slice())?;
    assert_eq!(rt; count_again, count);
    assert_eq!(rt; text_again.as_slice(), text.as_slice());
    Ok(())
}
