//! Tests of ra_ports: sources, sinks and entropy in memory, and the adapters of readers and writers.

use ra_base::Message;
use ra_ports::{
    Entropy, MemEntropy, MemSink, MemSource, Sink, Source, StdSink, StdSource, write_all,
};
use std::alloc::Global;
use std::io::{self, Read, Write};
use std::test::Fail;

/// A reader and a writer that fail each time.
#[derive(Drop)]
struct Broken;

impl Read for Broken {
    fn read(&mut self, _into: &mut [u8]) -> io::Result<usize> {
        Err(io::ErrorKind::Other.into())
    }
}

impl Write for Broken {
    fn write(&mut self, _piece: &[u8]) -> io::Result<usize> {
        Ok(0)
    }

    fn flush(&mut self) -> io::Result<()> {
        Ok(())
    }
}

fn three_bytes(alloc: Global) -> Result<Vec<Message>, Fail> {
    let mut pieces = Vec::new(alloc);
    pieces.push(Message::copy(alloc, b"ab")?)?;
    pieces.push(Message::copy(alloc, b"c")?)?;
    Ok(pieces)
}

#[test]
fn a_source_in_memory_gives_a_piece_at_a_time(rt: HostRuntime) -> Result<(), Fail> {
    let pieces = three_bytes(rt.alloc())?;
    assert!(rt; pieces.iter().all(|piece| piece.len() > 0));
    let failing = vec![in rt.alloc(); 2u64]?;
    let mut source = MemSource::new(pieces, failing);
    let mut into = [0u8; 8];
    assert_eq!(rt; source.read(&mut into), Ok(2));
    assert!(rt; source.read(&mut into).is_err());
    assert_eq!(rt; source.read(&mut into), Ok(1));
    assert_eq!(rt; into[0], b'c');
    assert_eq!(rt; source.read(&mut into), Ok(0));
    Ok(())
}

#[test]
fn a_sink_in_memory_keeps_what_it_takes(rt: HostRuntime) -> Result<(), Fail> {
    let mut sink = MemSink::new(rt.alloc(), vec![in rt.alloc(); 2u64]?);
    assert!(rt; write_all(&mut sink, b"ab").is_ok());
    assert!(rt; write_all(&mut sink, b"c").is_err());
    assert!(rt; write_all(&mut sink, b"d").is_ok());
    assert_eq!(rt; sink.written(), b"abd".as_slice());
    assert_eq!(rt; sink.short(), 0);
    Ok(())
}

#[test]
fn the_adapters_count_faults(rt: HostRuntime) -> Result<(), Fail> {
    let mut into = [0u8; 8];
    let mut source = StdSource::new(b"ab".as_slice());
    assert_eq!(rt; source.read(&mut into), Ok(2));
    assert_eq!(rt; source.read(&mut into), Ok(0));
    assert!(rt; StdSource::new(Broken).read(&mut into).is_err());
    let mut sink = StdSink::new(Vec::new(rt.alloc()));
    assert!(rt; write_all(&mut sink, b"ab").is_ok());
    assert!(rt; StdSink::new(Broken).write(b"a").is_err());
    assert_eq!(rt; StdSink::new(Broken).write(b""), Ok(0));
    Ok(())
}

#[test]
fn the_last_draw_in_memory_is_repeated(rt: HostRuntime) -> Result<(), Fail> {
    let draws = Vec::from_array(rt.alloc(), [[1u8; 16], [2; 16]])?;
    assert!(rt; !draws.is_empty());
    let mut entropy = MemEntropy::new(draws);
    for first in [1, 2, 2] {
        assert_eq!(rt; entropy.take()[0], first);
    }
    Ok(())
}
