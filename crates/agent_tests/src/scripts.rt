use ra_base::Message;
use ra_commands::run_plain;
use ra_ports::{MemSink, MemSource};
use std::alloc::Global;
use std::test::Fail;

/// Runs the command of these words over this input, where the write of this number fails, and compares what it printed and its status.
fn prints(
    alloc: Global,
    words: &[&str],
    input: &[u8],
    failing_write: u64,
    output: &[u8],
    status: u8,
) -> Result<bool, Fail> {
    let mut own = Vec::new(alloc);
    for word in words {
        own.push(String::from_str(alloc, word)?)?;
    }
    let mut pieces = Vec::new(alloc);
    if !input.is_empty() {
        pieces.push(Message::copy(alloc, input)?)?;
    }
    let mut source = MemSource::new(pieces, Vec::new(alloc));
    let mut sink = MemSink::new(alloc, vec![in alloc; failing_write]?);
    let answer = run_plain(alloc, &own, &mut source, &mut sink);
    Ok(answer == status && sink.written() == output)
}

/// Scripts, what they print, and the status.
const SCRIPTS: [(&[u8], &[u8], u8); 11] = [
    (
        b"",
        b"end A said=0 heard=0 owed=0 B said=0 heard=0 owed=0\n",
        0,
    ),
    // a message and its answer
    (
        b"link\nbegin A 1 0\nbegin B 1 0\nsay A 6869\nwrite A *\nread B 1 *\ndrain B\nsay B 61\nwrite B *\nread A 1 *\ndrain A\n",
        b"link 1\nok\nok\nsaid A 1\nwrote A 15 010000000100000000000000026869\nread B 15\nup B 1 6869\nnone B\nsaid B 1\nwrote B 14 0100000001000000010000000161\nread A 14\nup A 1 61\nnone A\nend A said=1 heard=1 owed=0 B said=1 heard=1 owed=1\n",
        0,
    ),
    // a link is cut within a body
    (
        b"link\nbegin A 1 0\nbegin B 1 0\nsay A 6869\nwrite A 14\nread B 1 14\ndrain B\ncut 1\nlose A\nlose B\nlink\nbegin A 2 0\nbegin B 2 0\nfinish A\nfinish B\nwrite A *\nread B 2 *\ndrain B",
        b"link 1\nok\nok\nsaid A 1\nwrote A 14 0100000001000000000000000268\nread B 14\nnone B\nok\nok\nok\nlink 2\nok\nok\nok\nok\nwrote A 28 03000000000000000000000000010000000100000000000000026869\nread B 28\nquiet B\nup B 1 6869\nnone B\nend A said=1 heard=0 owed=1 B said=0 heard=1 owed=0\n",
        0,
    ),
    // a link is cut within a header
    (
        b"link\nbegin A 1 0\nbegin B 1 0\nsay A 61\nwrite A 10\nread B 1 10\ncut 1\nlose A\nlose B\nlink\nbegin A 2 0\nbegin B 2 0\nfinish A\nfinish B\nwrite A *\nread B 2 *\ndrain B\n",
        b"link 1\nok\nok\nsaid A 1\nwrote A 10 01000000010000000000\nread B 10\nok\nok\nok\nlink 2\nok\nok\nok\nok\nwrote A 27 030000000000000000000000000100000001000000000000000161\nread B 27\nquiet B\nup B 1 61\nnone B\nend A said=1 heard=0 owed=1 B said=0 heard=1 owed=0\n",
        0,
    ),
    // an acknowledgement is due after two seconds
    (
        b"link\nbegin A 1 0\nbegin B 1 0\nsay A 61\nwrite A *\nread B 1 *\ndrain B\nat 2004\ntick B\nwrite B *\nat 2005\ntick B\nwrite B *\n",
        b"link 1\nok\nok\nsaid A 1\nwrote A 14 0100000001000000000000000161\nread B 14\nup B 1 61\nnone B\nok\ntick B\nwrote B 0 -\nok\ntick B\nwrote B 13 03000000000000000100000000\nend A said=1 heard=0 owed=1 B said=0 heard=1 owed=0\n",
        0,
    ),
    // a silent peer
    (
        b"link\nbegin A 1 0\nsay A 61\nat 19999\ntick A\nat 20000\ntick A\n",
        b"link 1\nok\nsaid A 1\nok\ntick A\nok\ntimeout A\nend A said=1 heard=0 owed=1 B said=0 heard=0 owed=0\n",
        0,
    ),
    // the first id above 32 bits
    (
        b"base 4294967294\nlink\nbegin A 1 0\nbegin B 1 0\nsay A 61\nsay A 62\nwrite A *\nread B 1 *\ndrain B\n",
        b"base 4294967294\nlink 1\nok\nok\nsaid A 4294967295\nsaid A 4294967296\nwrote A 36 01fffffffffffffffe000000016181000000010000000000000000fffffffe0000000162\nread B 36\nup B 4294967295 61\nup B 4294967296 62\nnone B\nend A said=2 heard=0 owed=2 B said=0 heard=2 owed=0\n",
        0,
    ),
    // no id is left
    (
        b"base 18446744073709551615\nsay A 61\n",
        b"base 18446744073709551615\nevent 2: ids spent\n",
        5,
    ),
    // a word that is none
    (b"link\nfly A\n", b"script: line 2: UnknownWord\n", 5),
    // a link that is none, and fewer bytes than asked for
    (b"link\ncut 2\nlink\n", b"link 1\nevent 2: no link 2\n", 5),
    (
        b"link\nbegin A 1 0\nwrite A 1\n",
        b"link 1\nok\nevent 3: asked 1 of 0 bytes\n",
        5,
    ),
];

#[test]
fn scripts_print_what_their_lines_do(rt: HostRuntime) -> Result<(), Fail> {
    for (script, output, status) in SCRIPTS {
        assert!(rt;
            prints(rt.alloc(), &["replay"], script, 0, output, status)?,
            "{output:?}"
        );
    }
    assert!(rt; prints(rt.alloc(), &["replay"], b"link\n", 1, b"", 4)?);
    Ok(())
}

/// The words of `soak`, what they print, and the status.
const SOAKS: [(&str, &str, &[u8], u8); 6] = [
    (
        "0",
        "0",
        b"soak start=0 steps=0 lines=9 links=1 A said=0 heard=0 B said=0 heard=0\n",
        0,
    ),
    (
        "0",
        "1",
        b"soak start=0 steps=1 lines=20 links=2 A said=0 heard=0 B said=0 heard=0\n",
        0,
    ),
    (
        "18446744073709551616",
        "1",
        b"usage: agent receive|replay|grand|soak START STEPS|serve|attach|audit PATH\n",
        2,
    ),
    (
        "0",
        "100001",
        b"usage: agent receive|replay|grand|soak START STEPS|serve|attach|audit PATH\n",
        2,
    ),
    (
        "01",
        "1",
        b"usage: agent receive|replay|grand|soak START STEPS|serve|attach|audit PATH\n",
        2,
    ),
    (
        "",
        "1",
        b"usage: agent receive|replay|grand|soak START STEPS|serve|attach|audit PATH\n",
        2,
    ),
];

#[test]
fn drawn_scripts_print_their_sums(rt: HostRuntime) -> Result<(), Fail> {
    for (start, steps, output, status) in SOAKS {
        assert!(rt;
            prints(rt.alloc(), &["soak", start, steps], b"", 0, output, status)?,
            "{start} {steps}"
        );
    }
    Ok(())
}
