//! Tests of ra_script: a line that says one call is read, and any other is wrong.

use ra_script::{LineFault, What, read_call_line};
use std::alloc::Global;
use std::test::Fail;

/// Lines that are no call, with what is wrong.
const WRONG: [(&str, What); 6] = [
    ("", What::WrongCount),
    ("tools echo", What::WrongCount),
    ("tools echo 68 69", What::WrongCount),
    ("tools echo 6", What::BadBytes),
    ("tools echo ", What::BadBytes),
    ("tools\techo 68", What::NotText),
];

fn is_wrong(alloc: Global, line: &str, what: What) -> bool {
    match read_call_line(alloc, line.as_bytes()) {
        Err(fault) => fault == LineFault::Wrong { what },
        Ok(call) => {
            drop(call);
            false
        }
    }
}

fn says(alloc: Global, line: &str, channel: &str, name: &str, arg: &[u8]) -> bool {
    match read_call_line(alloc, line.as_bytes()) {
        Ok(call) => {
            call.channel.as_str() == channel
                && call.name.as_str() == name
                && call.arg.as_slice() == arg
        }
        Err(_) => false,
    }
}

#[test]
fn call_lines_are_read(rt: HostRuntime) -> Result<(), Fail> {
    assert!(rt; says(rt.alloc(), "tools echo 6869", "tools", "echo", b"hi"));
    assert!(rt; says(rt.alloc(), "  -", "", "", b""));
    for (line, what) in WRONG {
        assert!(rt; is_wrong(rt.alloc(), line, what));
    }
    Ok(())
}
