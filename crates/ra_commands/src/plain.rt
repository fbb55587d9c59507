//! The commands that need no socket, over any source and sink.
ghost use Rattle.std.specs.Prelude.{◌≡◌, ◌⊎◌, ◌≤◌, Some, None, string_bytes, map, Err, OnErr, IfOk};
ghost use Rattle.ra_ports.specs.Causes.{Rose};
ghost use Rattle.ra_ports.specs.Texts.{Told, WroteAll, WroteFront};
ghost use Rattle.ra_commands.specs.Programs.{command_of, status_of, report_of, output, status, IsCommand, IsPrinted, IsRead, WroteBefore, IsStatus, IsWritten, IsBrokenOff};

use crate::command::{Command, command_of};
use crate::grand::grand;
use ra_endpoint_commands::lines::USAGE;
use ra_endpoint_commands::receive::receive;
use ra_endpoint_commands::replay::replay;
use ra_endpoint_commands::report::{Ending, Fault};
use ra_endpoint_commands::soak::soak;
use ra_ports::{Sink, Source, write_all};
use std::alloc::Global;

fn status_of(ending: Ending) -> u8
    ensures { result ≡ status_of ending }
{
    match ending {
        Ending::Done => 0,
        Ending::Refused => 5,
    }
}

/// Runs a command, and answers how the run ended.
fn run<S: Source, K: Sink>(
    alloc: Global,
    command: Command,
    source: &mut S,
    sink: &mut K,
) -> Result<Ending, Fault>
    requires { IsCommand command }
    ensures done { IfOk result (λ ending. Told (S.left source.old) (K.taken sink.old) (λ input before.
        IsPrinted command input before ending (S.left source.new) (K.taken sink.new))) }
    ensures front { OnErr result (Told (S.left source.old) (K.taken sink.old) (λ input before. WroteFront before (report_of command input).text (K.taken sink.new))) }
    ensures lines { result ≡ Err Fault.Read → Told (S.left source.old) (K.taken sink.old) (λ input before.
        WroteBefore (Some command) input before (S.left source.new) (K.taken sink.new)) }
    ensures read { result ≡ Err Fault.Read → Rose (S.faults source.old) (S.faults source.new) }
    ensures write { result ≡ Err Fault.Write → Rose (K.faults sink.old) (K.faults sink.new) }
{
    match command {
        Command::Receive => receive(alloc, source, sink),
        Command::Replay => replay(alloc, source, sink),
        Command::Grand => grand(alloc, source, sink),
        Command::Soak { start, steps } => soak(alloc, start, steps, sink),
    }
}

/// Runs the command that the words name, and answers its status: 0 done, 2 no command, 3 a read failed, 4 a write failed,
/// 5 the input is refused, 6 want of memory.
pub fn run_plain<S: Source, K: Sink>(
    alloc: Global,
    words: &[String],
    source: &mut S,
    sink: &mut K,
) -> u8
    // The whole output, with its status.
    ensures output { IsWritten result → Told (S.left source.old) (K.taken sink.old) (λ input before.
        WroteAll before (output (map string_bytes words.now) input) (K.taken sink.new)) }
    ensures status { IsWritten result → Told (S.left source.old) (K.taken sink.old) (λ input before. result ≡ status (map string_bytes words.now) input) }

    // The input was read to its end where the command has one.
    ensures read_all { result ≡ 0 → Told (S.left source.old) (K.taken sink.old) (λ input _. IsRead (command_of (map string_bytes words.now)) input (S.left source.new)) }

    // A run that is broken off has written a front of its output, and has its cause.
    ensures front { IsBrokenOff result → Told (S.left source.old) (K.taken sink.old) (λ input before.
        WroteFront before (output (map string_bytes words.now) input) (K.taken sink.new)) }
    ensures lines { result ≡ 3 → Told (S.left source.old) (K.taken sink.old) (λ input before.
        WroteBefore (command_of (map string_bytes words.now)) input before (S.left source.new) (K.taken sink.new)) }
    ensures read { result ≡ 3 → Rose (S.faults source.old) (S.faults source.new) }
    ensures write { result ≡ 4 → Rose (K.faults sink.old) (K.faults sink.new) }

    // The words are no command exactly where they aren't, also where nothing is told.
    ensures usage { result ≡ 2 → command_of (map string_bytes words.now) ≡ None }
    ensures no_command { command_of (map string_bytes words.now) ≡ None → (result ≡ 2) ⊎ (result ≡ 4) }
    ensures known { IsStatus result }
{
    let Some(command) = command_of(words) else {
        let Ok(()) = write_all(sink, USAGE) else {
            return 4;
        };
        return 2;
    };
    match run(alloc, command, source, sink) {
        Ok(ending) => status_of(ending),
        Err(Fault::Read) => 3,
        Err(Fault::Write) => 4,
        Err(Fault::Memory) => 6,
    }
}
