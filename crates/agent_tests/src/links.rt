ghost use Rattle.std.specs.Prelude.{◌<◌};

use ra_base::Message;
use ra_commands::run_plain;
use ra_ports::{MemSink, MemSource};
use std::alloc::Global;
use std::test::Fail;

/// Runs `receive` over this input in pieces of `cut` bytes, where the read of this number fails and the write of that one,
/// and compares what it printed and its status.
fn prints(
    alloc: Global,
    input: &[u8],
    cut: usize,
    failing_read: u64,
    failing_write: u64,
    output: &[u8],
    status: u8,
) -> Result<bool, Fail>
    requires { 0 < cut }
{
    let mut pieces = Vec::new(alloc);
    for piece in input.chunks(cut) {
        let piece = Message::copy(alloc, piece)?;
        if !piece.is_empty() {
            pieces.push(piece)?;
        }
    }
    let mut source = MemSource::new(pieces, vec![in alloc; failing_read]?);
    let mut sink = MemSink::new(alloc, vec![in alloc; failing_write]?);
    let words = vec![in alloc; String::from_str(alloc, "receive")?]?;
    let answer = run_plain(alloc, &words, &mut source, &mut sink);
    Ok(answer == status && sink.written() == output)
}

/// Inputs, what they print, and the status.
const CASES: [(&[u8], &[u8], u8); 10] = [
    (b"", b"end heard=0 rest=0\n", 0),
    (
        b"\x01\0\0\0\x01\0\0\0\0\0\0\0\x02hi",
        b"up 1 6869\nend heard=1 rest=0\n",
        0,
    ),
    // the same message twice
    (
        b"\x01\0\0\0\x01\0\0\0\0\0\0\0\x02hi\x01\0\0\0\x01\0\0\0\0\0\0\0\x02hi",
        b"up 1 6869\nend heard=1 rest=0\n",
        0,
    ),
    // a message is missing, and a replay is asked for once
    (
        b"\x01\0\0\0\x01\0\0\0\0\0\0\0\x01a\x01\0\0\0\x03\0\0\0\0\0\0\0\x01c\x01\0\0\0\x04\0\0\0\0\0\0\0\x01d",
        b"up 1 61\nwrite 06000000000000000000000000\nend heard=1 rest=0\n",
        0,
    ),
    // less than a header
    (b"\x01\0\0\0\x01\0\0\0\0\0\0\0", b"end heard=0 rest=12\n", 0),
    // the largest body, which has not come, and one byte more
    (
        b"\x01\0\0\0\x01\0\0\0\0\x10\0\0\0",
        b"end heard=0 rest=13\n",
        0,
    ),
    (
        b"\x01\0\0\0\x01\0\0\0\0\x10\0\0\x01",
        b"refused: body of 268435457 bytes at byte 0\n",
        5,
    ),
    // a pause, a message that is missing, then a resume, a control frame, a disconnect and one byte more
    (
        b"\x07\0\0\0\0\0\0\0\0\0\0\0\0\x01\0\0\0\x02\0\0\0\0\0\0\0\x01a\x08\0\0\0\0\0\0\0\0\0\0\0\0\x02\0\0\0\0\0\0\0\0\0\0\0\0\x05\0\0\0\0\0\0\0\0\0\0\0\0\xff",
        b"write 06000000000000000000000000\ncontrol -\nended\nend heard=0 rest=1\n",
        0,
    ),
    // an unknown type with a body
    (
        b"\x0a\0\0\0\0\0\0\0\0\0\0\0\x01\xff",
        b"end heard=0 rest=0\n",
        0,
    ),
    // a wide header
    (
        b"\x81\0\0\0\0\0\0\0\x01\0\0\0\0\0\0\0\0\0\0\0\x02hi",
        b"up 1 6869\nend heard=1 rest=0\n",
        0,
    ),
];

#[test]
fn prints_the_frames_in_any_pieces(rt: HostRuntime) -> Result<(), Fail> {
    for (input, output, status) in CASES {
        for cut in [1, 2, 13, 1000] {
            assert!(rt;
                prints(rt.alloc(), input, cut, 0, 0, output, status)?,
                "{output:?} in pieces of {cut}"
            );
        }
    }
    Ok(())
}

#[test]
fn a_failed_read_or_write_changes_no_line(rt: HostRuntime) -> Result<(), Fail> {
    let alloc = rt.alloc();
    let two = b"\x01\0\0\0\x01\0\0\0\0\0\0\0\x01a\x01\0\0\0\x02\0\0\0\0\0\0\0\x01b";
    assert!(rt; prints(alloc, b"", 1, 1, 0, b"", 3)?);
    assert!(rt; prints(alloc, two, 14, 2, 0, b"up 1 61\n", 3)?);
    assert!(rt; prints(alloc, two, 14, 3, 0, b"up 1 61\nup 2 62\n", 3)?);
    assert!(rt; prints(alloc, two, 14, 0, 1, b"", 4)?);
    assert!(rt; prints(alloc, two, 14, 0, 2, b"up 1 61\n", 4)?);
    Ok(())
}

#[test]
fn other_words_are_no_command(rt: HostRuntime) -> Result<(), Fail> {
    let alloc = rt.alloc();
    let mut source = MemSource::new(Vec::new(alloc), Vec::new(alloc));
    let mut sink = MemSink::new(alloc, Vec::new(alloc));
    assert_eq!(rt; run_plain(alloc, &[], &mut source, &mut sink), 2);
    assert_eq!(rt;
        sink.written(),
        b"usage: agent receive|replay|grand|soak START STEPS|serve|attach|audit PATH\n".as_slice()
    );
    Ok(())
}
