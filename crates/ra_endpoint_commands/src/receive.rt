//! The command `receive`: reads the bytes of one link from a source, and prints to a sink what they are.
ghost use Rattle.std.specs.Prelude.{◌≡◌, ◌≢◌, ◌≤◌, ◌<◌, length, OnOk, OnErr, IfOk};
ghost use Rattle.std.specs.Io.KnownBytes.{Appends};
ghost use Rattle.ra_ports.specs.Causes.{Rose, AppendsFront};
ghost use Rattle.ra_ports.specs.Texts.{Told, WroteAll, WroteFront};
ghost use Rattle.ra_endpoint_commands.specs.Lines.{end_line, over_line};
ghost use Rattle.ra_endpoint_commands.specs.Receive.{receive_report, input_limit};
ghost use Rattle.ra_endpoint_commands.specs.Progress.{WroteLines, IsReported, due_after_end};

use crate::lines::{push_end, push_over};
use crate::receiver::{INPUT_LIMIT, Receiver, Turned};
use crate::report::{Ending, Fault};
use ra_ports::{Sink, Source, write_all};
use std::alloc::Global;

/// How many bytes are read at once.
const PIECE: usize = 65_536;

/// Writes the last line of an input that was read to its end.
fn write_end<K: Sink>(alloc: Global, sink: &mut K, heard: u64, rest: u64) -> Result<Ending, Fault>
    ensures ok { OnOk result (Appends (K.taken sink.old) (K.taken sink.new) (end_line heard rest)) }
    ensures ending { IfOk result (λ ending. ending ≡ Ending.Done) }
    ensures err { OnErr result (AppendsFront (K.taken sink.old) (K.taken sink.new) (end_line heard rest)) }
    ensures write { result ≡ Err Fault.Write → Rose (K.faults sink.old) (K.faults sink.new) }
    ensures no_read { result ≢ Err Fault.Read }
    ensures later { K.faults sink.old ≤ K.faults sink.new }
{
    let mut text = Vec::new(alloc);
    let Ok(()) = push_end(&mut text, heard, rest) else {
        return Err(Fault::Memory);
    };
    let Ok(()) = write_all(sink, text.as_slice()) else {
        return Err(Fault::Write);
    };
    Ok(Ending::Done)
}

/// Writes the line of an input above its limit.
fn write_over<K: Sink>(alloc: Global, sink: &mut K) -> Result<Ending, Fault>
    ensures ok { OnOk result (Appends (K.taken sink.old) (K.taken sink.new) over_line) }
    ensures ending { IfOk result (λ ending. ending ≡ Ending.Refused) }
    ensures err { OnErr result (AppendsFront (K.taken sink.old) (K.taken sink.new) over_line) }
    ensures write { result ≡ Err Fault.Write → Rose (K.faults sink.old) (K.faults sink.new) }
    ensures no_read { result ≢ Err Fault.Read }
    ensures later { K.faults sink.old ≤ K.faults sink.new }
{
    let mut text = Vec::new(alloc);
    let Ok(()) = push_over(&mut text) else {
        return Err(Fault::Memory);
    };
    let Ok(()) = write_all(sink, text.as_slice()) else {
        return Err(Fault::Write);
    };
    Ok(Ending::Refused)
}

/// Counts what follows the last frame of a peer that has left, and prints the last line.
fn count_rest<S: Source, K: Sink>(
    alloc: Global,
    source: &mut S,
    sink: &mut K,
    buffer: &mut [u8],
    heard: u64,
    rest: u64,
    fed: u64,
) -> Result<Ending, Fault>
    requires room { 0 < length buffer.old }
    requires within { rest ≤ fed }
    requires limited { fed ≤ input_limit }
    ensures done { IfOk result (λ ending. Told (S.left source.old) (K.taken sink.old) (λ input before.
        IsReported (due_after_end heard rest fed) input before ending (S.left source.new) (K.taken sink.new))) }
    ensures front { OnErr result (Told (S.left source.old) (K.taken sink.old) (λ input before. WroteFront before (due_after_end heard rest fed input).text (K.taken sink.new))) }
    ensures lines { result ≡ Err Fault.Read → Told (S.left source.old) (K.taken sink.old) (λ input before. WroteLines (due_after_end heard rest fed) input before (S.left source.new) (K.taken sink.new)) }
    ensures read { result ≡ Err Fault.Read → Rose (S.faults source.old) (S.faults source.new) }
    ensures write { result ≡ Err Fault.Write → Rose (K.faults sink.old) (K.faults sink.new) }
{
    let mut rest = rest;
    let mut fed = fed;
    'pieces: loop {
        let Ok(count) = source.read(buffer) else {
            return Err(Fault::Read);
        };
        if count == 0 {
            return write_end(alloc, sink, heard, rest);
        }
        let count = count as u64;
        if count > INPUT_LIMIT - fed {
            return write_over(alloc, sink);
        }
        fed += count;
        rest += count;
    }
}

/// Prints what the bytes of one link are, read into this buffer.
fn receive_into<S: Source, K: Sink>(
    alloc: Global,
    source: &mut S,
    sink: &mut K,
    buffer: &mut [u8],
) -> Result<Ending, Fault>
    requires { 0 < length buffer.old }
    ensures done { IfOk result (λ ending. Told (S.left source.old) (K.taken sink.old) (λ input before.
        IsReported receive_report input before ending (S.left source.new) (K.taken sink.new))) }
    ensures front { OnErr result (Told (S.left source.old) (K.taken sink.old) (λ input before. WroteFront before (receive_report input).text (K.taken sink.new))) }
    ensures lines { result ≡ Err Fault.Read → Told (S.left source.old) (K.taken sink.old) (λ input before. WroteLines receive_report input before (S.left source.new) (K.taken sink.new)) }
    ensures read { result ≡ Err Fault.Read → Rose (S.faults source.old) (S.faults source.new) }
    ensures write { result ≡ Err Fault.Write → Rose (K.faults sink.old) (K.faults sink.new) }
{
    let Ok(mut receiver) = Receiver::new(alloc) else {
        return Err(Fault::Memory);
    };
    let mut text = Vec::new(alloc);
    'pieces: loop {
        let Ok(count) = source.read(buffer) else {
            return Err(Fault::Read);
        };
        if count == 0 {
            return write_end(alloc, sink, receiver.heard(), receiver.rest_len());
        }
        text.clear();
        let Ok(turned) = receiver.turn(alloc, &buffer[..count], &mut text) else {
            return Err(Fault::Memory);
        };
        let Ok(()) = write_all(sink, text.as_slice()) else {
            return Err(Fault::Write);
        };
        match turned {
            Turned::Waiting => {}
            Turned::Refused => return Ok(Ending::Refused),
            Turned::Ended => {
                let heard = receiver.heard();
                let rest = receiver.rest_len();
                return count_rest(alloc, source, sink, buffer, heard, rest, receiver.fed());
            }
        }
    }
}

/// Reads the bytes of one link, prints what they are, and answers how the run ended.
pub fn receive<S: Source, K: Sink>(
    alloc: Global,
    source: &mut S,
    sink: &mut K,
) -> Result<Ending, Fault>
    // The whole output, and the input read to its end where it is done.
    ensures done { IfOk result (λ ending. Told (S.left source.old) (K.taken sink.old) (λ input before.
        IsReported receive_report input before ending (S.left source.new) (K.taken sink.new))) }

    // A run that is broken off has written a front.
    ensures front { OnErr result (Told (S.left source.old) (K.taken sink.old) (λ input before. WroteFront before (receive_report input).text (K.taken sink.new))) }

    // Each fault has its cause.
    ensures lines { result ≡ Err Fault.Read → Told (S.left source.old) (K.taken sink.old) (λ input before. WroteLines receive_report input before (S.left source.new) (K.taken sink.new)) }
    ensures read { result ≡ Err Fault.Read → Rose (S.faults source.old) (S.faults source.new) }
    ensures write { result ≡ Err Fault.Write → Rose (K.faults sink.old) (K.faults sink.new) }
{
    let Ok(mut buffer) = vec![in alloc; 0u8; PIECE] else {
        return Err(Fault::Memory);
    };
    receive_into(alloc, source, sink, &mut buffer)
}
