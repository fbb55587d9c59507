//! The command `replay`: runs a script over two endpoints and the links between them, and prints what each line does.
ghost use Rattle.std.specs.Prelude.{◌≡◌, ◌≢◌, ◌≤◌, ◌++◌, Err, OnErr, OnOk, IfOk};
ghost use Rattle.std.specs.List.{AllByRecursion};
ghost use Rattle.ra_model.specs.Worlds.{World as AbstractWorld, new_world};
ghost use Rattle.ra_world.specs.WorldStates.{StandsForWorld, IsEvent};
ghost use Rattle.ra_script.specs.Reading.{script_at};
ghost use Rattle.ra_ports.specs.Causes.{Rose};
ghost use Rattle.ra_ports.specs.Texts.{Told, WroteFront};
ghost use Rattle.ra_endpoint_commands.specs.Progress.{IsReported};
ghost use Rattle.ra_endpoint_commands.specs.ReplayLines.{fault_line};
ghost use Rattle.ra_endpoint_commands.specs.Stepping.{IsLine, Steps, Takes, Adds, is_frame};
ghost use Rattle.ra_endpoint_commands.specs.Replay.{line_step, event_step, drain_step, side_line, world_line, lines_report, base_of, script_report, input_report, replay_report};

use crate::read_whole::{Input, read_whole};
use crate::replay_lines::{
    push_base, push_counts, push_effect, push_fault, push_script_over, push_unread, side_of,
};
use crate::report::{Ending, Fault};
use ra_base::{Event, NoMemory, Side};
use ra_model::{Effect, EventFault};
use ra_ports::{Sink, Source, write_all};
use ra_script::{Line, ScriptFault, parse};
use ra_world::World;
use std::alloc::Global;

/// The most bytes of a script.
const SCRIPT_LIMIT: usize = 67_108_864;

/// Applies an event, and adds its line.
fn step_event(
    alloc: Global,
    world: &mut World,
    event: &Event,
    text: &mut Vec<u8>,
) -> Result<(), EventFault>
    requires { IsEvent event.now }
    ensures { (w : AbstractWorld) → StandsForWorld world.old w → Steps result world.new text.old.items text.new.items (event_step event.now w) }
{
    let effect = world.apply(event)?;
    push_effect(alloc, text, side_of(event), &effect)?;
    Ok(())
}

/// Whether a frame was taken.
fn is_frame(effect: &Effect) -> bool
    ensures { result ≡ is_frame effect.now }
{
    match effect {
        Effect::Nothing => false,
        _ => true,
    }
}

/// Takes one frame, and adds its line. It answers whether there was one.
fn take_one(
    alloc: Global,
    world: &mut World,
    side: Side,
    text: &mut Vec<u8>,
) -> Result<bool, EventFault>
    ensures { (w : AbstractWorld) → StandsForWorld world.old w → Takes result side world.new text.old.items text.new.items w }
{
    let effect = world.apply(&Event::Take { side })?;
    push_effect(alloc, text, side, &effect)?;
    Ok(is_frame(&effect))
}

/// Takes frames until there is none, and adds a line for each.
fn drain(alloc: Global, world: &mut World, side: Side, text: &mut Vec<u8>) -> Result<(), EventFault>
    ensures { (w : AbstractWorld) → StandsForWorld world.old w → Steps result world.new text.old.items text.new.items (drain_step side w) }
{
    // There are never so many.
    'frames: for _ in 0..u64::MAX {
        if !take_one(alloc, world, side, text)? {
            return Ok(());
        }
    }
    Err(EventFault::NoMemory)
}

/// Runs a line, and adds what it prints.
pub fn step_line(
    alloc: Global,
    world: &mut World,
    line: &Line,
    text: &mut Vec<u8>,
) -> Result<(), EventFault>
    requires { IsLine line.now }
    ensures { (w : AbstractWorld) → StandsForWorld world.old w → Steps result world.new text.old.items text.new.items (line_step line.now w) }
{
    match line {
        Line::Base { base } => Ok(push_base(text, *base)?),
        Line::Do { event } => step_event(alloc, world, event, text),
        Line::Drain { side } => drain(alloc, world, *side, text),
    }
}

/// Adds what a side has.
fn push_side(text: &mut Vec<u8>, world: &World, side: Side) -> Result<(), NoMemory>
    ensures { OnOk result ((w : AbstractWorld) → StandsForWorld world.now w → text.new.items ≡ text.old.items ++ side_line side w) }
{
    let said = world.said(side).len() as u64;
    let heard = world.heard(side).len() as u64;
    let owed = world.end(side).owed().len() as u64;
    push_counts(text, side, said, heard, owed)?;
    Ok(())
}

/// Adds the last line.
fn push_world(text: &mut Vec<u8>, world: &World) -> Result<(), NoMemory>
    ensures { OnOk result ((w : AbstractWorld) → StandsForWorld world.now w → text.new.items ≡ text.old.items ++ world_line w) }
{
    text.extend_from_slice(b"end ")?;
    push_side(text, world, Side::A)?;
    text.push(b' ')?;
    push_side(text, world, Side::B)?;
    text.push(b'\n')?;
    Ok(())
}

/// Adds the line of a fault, unless it is want of memory.
fn push_refused(text: &mut Vec<u8>, n: u64, fault: EventFault) -> Result<Ending, NoMemory>
    ensures refused { IfOk result (λ ending. ending ≡ Ending.Refused) }
    ensures line { OnOk result (text.new.items ≡ text.old.items ++ fault_line n fault) }
    ensures other { OnOk result (fault ≢ EventFault.NoMemory) }
{
    match fault {
        EventFault::NoMemory => Err(NoMemory),
        EventFault::NoSuchLink { link: _ }
        | EventFault::TooMany { asked: _, there: _ }
        | EventFault::End { fault: _ } => {
            push_fault(text, n, fault)?;
            Ok(Ending::Refused)
        }
    }
}

/// Runs lines in a new world, and adds what they print.
fn run_lines(
    alloc: Global,
    base: u64,
    lines: &[Line],
    text: &mut Vec<u8>,
) -> Result<Ending, NoMemory>
    requires { AllByRecursion IsLine lines.now }
    ensures { IfOk result (λ ending. Adds (lines_report 1 lines.now (new_world base)) text.old.items text.new.items ending) }
{
    let mut world = World::from_base(alloc, base)?;
    for (i, line) in lines.iter().enumerate() {
        match step_line(alloc, &mut world, line, text) {
            Ok(()) => {}
            Err(fault) => return push_refused(text, i as u64 + 1, fault),
        }
    }
    push_world(text, &world)?;
    Ok(Ending::Done)
}

/// The base that the first line names, or 0.
fn base_of(lines: &[Line]) -> u64
    ensures { result ≡ base_of lines.now }
{
    match lines {
        [Line::Base { base }, ..] => *base,
        _ => 0,
    }
}

/// Runs a script, and adds what it prints.
fn run_script(alloc: Global, bytes: &[u8], text: &mut Vec<u8>) -> Result<Ending, NoMemory>
    ensures { IfOk result (λ ending. Adds (script_report (script_at bytes.now)) text.old.items text.new.items ending) }
{
    match parse(alloc, bytes) {
        Ok(lines) => run_lines(alloc, base_of(&lines), &lines, text),
        Err(ScriptFault::At { line, what }) => {
            push_unread(text, line, what.name())?;
            Ok(Ending::Refused)
        }
        Err(ScriptFault::NoMemory) => Err(NoMemory),
    }
}

/// Adds what is printed for an input.
fn run_input(alloc: Global, input: &Input, text: &mut Vec<u8>) -> Result<Ending, NoMemory>
    ensures { IfOk result (λ ending. Adds (input_report input.now) text.old.items text.new.items ending) }
{
    match input {
        Input::Whole { bytes } => run_script(alloc, bytes, text),
        Input::Over => {
            push_script_over(text)?;
            Ok(Ending::Refused)
        }
    }
}

/// Reads a script, prints what its lines do, and answers how the run ended. All is printed at the end.
pub fn replay<S: Source, K: Sink>(
    alloc: Global,
    source: &mut S,
    sink: &mut K,
) -> Result<Ending, Fault>
    // The whole output, and the input read to its end where it is done.
    ensures done { IfOk result (λ ending. Told (S.left source.old) (K.taken sink.old) (λ input before.
        IsReported replay_report input before ending (S.left source.new) (K.taken sink.new))) }

    // A run that is broken off has written a front, and nothing where a read failed.
    ensures front { OnErr result (Told (S.left source.old) (K.taken sink.old) (λ input before. WroteFront before (replay_report input).text (K.taken sink.new))) }
    ensures nothing { result ≡ Err Fault.Read → K.taken sink.new ≡ K.taken sink.old }

    // Each fault has its cause.
    ensures read { result ≡ Err Fault.Read → Rose (S.faults source.old) (S.faults source.new) }
    ensures write { result ≡ Err Fault.Write → Rose (K.faults sink.old) (K.faults sink.new) }
{
    let input = read_whole(alloc, source, SCRIPT_LIMIT)?;
    let mut text = Vec::new(alloc);
    let Ok(ending) = run_input(alloc, &input, &mut text) else {
        return Err(Fault::Memory);
    };
    let Ok(()) = write_all(sink, text.as_slice()) else {
        return Err(Fault::Write);
    };
    Ok(ending)
}
