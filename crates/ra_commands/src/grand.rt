//! The command `grand`: runs a script over a hub, its clients and the links between them, and prints what each line does.
ghost use Rattle.std.specs.Prelude.{◌≡◌, ◌≢◌, ◌++◌, ◌<◌, ◌^◌, length, Some, Err, OnErr, OnOk, IfOk};
ghost use Rattle.ra_grand.specs.GrandEvents.{IsGrandEvent};
ghost use Rattle.ra_grand_runs.specs.GrandRefusals.{Refusal};
ghost use Rattle.ra_grand.specs.GrandStates.{StandsForGrand};
ghost use Rattle.ra_grand_runs.specs.GrandViews.{IsCause};
ghost use Rattle.ra_grand_runs.specs.Grands as worlds;
ghost use Rattle.ra_ports.specs.Causes.{Rose};
ghost use Rattle.ra_ports.specs.Texts.{Told, WroteFront};
ghost use Rattle.ra_script.specs.GrandLines.{OfEvent, OfEvents};
ghost use Rattle.ra_script.specs.GrandReading.{grand_script_at};
ghost use Rattle.ra_commands.specs.Grand.{drain_step, drain_within, event_step, grand_report, input_report, line_step, lines_report, script_report, world_line};
ghost use Rattle.ra_commands.specs.GrandLines.{AddsFault};
ghost use Rattle.ra_commands.specs.GrandSteps.{GrandSteps, IsWithinLimit, TakesFrame, goes_on_in};
ghost use Rattle.ra_endpoint_commands.specs.Progress.{IsReported};
ghost use Rattle.ra_endpoint_commands.specs.Stepping.{Adds};

use crate::grand_lines::{push_counted, push_line, push_refused};
use ra_base::NoMemory;
use ra_dial::DialAct;
use ra_endpoint_commands::read_whole::{Input, read_whole};
use ra_endpoint_commands::replay_lines::{push_script_over, push_unread};
use ra_endpoint_commands::report::{Ending, Fault};
use ra_grand::{GrandEffect, GrandFault, GrandWorld};
use ra_ports::{Sink, Source, write_all};
use ra_script::{GrandEvent, GrandLine, ScriptFault, parse_grand};
use std::alloc::Global;

/// The most bytes of a script.
const SCRIPT_LIMIT: usize = 67_108_864;

/// Applies an event, and adds its line.
fn step_event(
    alloc: Global,
    world: &mut GrandWorld,
    event: &GrandEvent,
    text: &mut Vec<u8>,
) -> Result<(), GrandFault>
    requires { IsGrandEvent event.now }
    ensures { (w : worlds.Grand) → StandsForGrand world.old w → GrandSteps result world.new text.old.items text.new.items (event_step event.now w) }
{
    let effect = world.apply(event)?;
    match push_line(alloc, text, event, &effect) {
        Ok(()) => Ok(()),
        Err(_) => Err(GrandFault::NoMemory),
    }
}

/// Whether a drain goes on after that.
fn goes_on(effect: &GrandEffect) -> bool
    ensures { result ≡ goes_on_in effect.now }
{
    match effect {
        GrandEffect::Act { act } => !matches!(
            act.act(),
            DialAct::Nothing
                | DialAct::Drop
                | DialAct::Rest { until: _ }
                | DialAct::End { cause: _ }
        ),
        _ => false,
    }
}

/// Takes a frame of a client, and adds its line. It answers whether the drain goes on.
fn take_frame(
    alloc: Global,
    world: &mut GrandWorld,
    client: u64,
    text: &mut Vec<u8>,
) -> Result<bool, GrandFault>
    ensures { (w : worlds.Grand) → StandsForGrand world.old w → TakesFrame result client world.new text.old.items text.new.items w }
{
    let event = GrandEvent::Frame { client };
    let effect = world.apply(&event)?;
    match push_line(alloc, text, &event, &effect) {
        Ok(()) => Ok(goes_on(&effect)),
        Err(_) => Err(GrandFault::NoMemory),
    }
}

/// Takes frames of a client until there is none, it rests, drops its link or is over, and adds a line for each.
fn drain(
    alloc: Global,
    world: &mut GrandWorld,
    client: u64,
    text: &mut Vec<u8>,
) -> Result<(), GrandFault>
    ensures { (w : worlds.Grand) → StandsForGrand world.old w → GrandSteps result world.new text.old.items text.new.items (drain_step client w) }
{
    // There are never so many.
    for turn in 0..u64::MAX {
        if !take_frame(alloc, world, client, text)? {
            return Ok(());
        }
    }
    Err(GrandFault::NoMemory)
}

/// Runs a line, and adds what it prints.
fn step_line(
    alloc: Global,
    world: &mut GrandWorld,
    line: &GrandLine,
    text: &mut Vec<u8>,
) -> Result<(), GrandFault>
    requires { OfEvent IsGrandEvent line.now }
    ensures { (w : worlds.Grand) → StandsForGrand world.old w → GrandSteps result world.new text.old.items text.new.items (line_step line.now w) }
{
    match line {
        GrandLine::Do { event } => step_event(alloc, world, event, text),
        GrandLine::Drain { client } => drain(alloc, world, *client, text),
    }
}

/// Adds the last line.
fn push_world(text: &mut Vec<u8>, world: &GrandWorld) -> Result<(), NoMemory>
    ensures { OnOk result ((w : worlds.Grand) → StandsForGrand world.now w → text.new.items ≡ text.old.items ++ world_line w) }
{
    push_counted(text, world.clients(), world.links(), world.jobs())
}

/// Runs lines in a new world, and adds what they print.
fn run_lines(alloc: Global, lines: &[GrandLine], text: &mut Vec<u8>) -> Result<Ending, NoMemory>
    requires { OfEvents IsGrandEvent lines.now }
    ensures { IfOk result (λ ending. Adds (lines_report 1 lines.now worlds.new_grand) text.old.items text.new.items ending) }
{
    let mut world = GrandWorld::new(alloc)?;
    for (i, line) in lines.iter().enumerate() {
        match step_line(alloc, &mut world, line, text) {
            Ok(()) => {}
            Err(fault) => {
                push_refused(text, i as u64 + 1, &fault)?;
                return Ok(Ending::Refused);
            }
        }
    }
    push_world(text, &world)?;
    Ok(Ending::Done)
}

/// Runs a script, and adds what it prints.
fn run_script(alloc: Global, bytes: &[u8], text: &mut Vec<u8>) -> Result<Ending, NoMemory>
    requires { length bytes.now < 2 ^ 32 }
    ensures { IfOk result (λ ending. Adds (script_report (grand_script_at bytes.now)) text.old.items text.new.items ending) }
{
    match parse_grand(alloc, bytes) {
        Ok(lines) => run_lines(alloc, &lines, text),
        Err(ScriptFault::At { line, what }) => {
            push_unread(text, line, what.name())?;
            Ok(Ending::Refused)
        }
        Err(ScriptFault::NoMemory) => Err(NoMemory),
    }
}

/// Adds what is printed for an input.
fn run_input(alloc: Global, input: &Input, text: &mut Vec<u8>) -> Result<Ending, NoMemory>
    requires { IsWithinLimit input.now }
    ensures { IfOk result (λ ending. Adds (input_report input.now) text.old.items text.new.items ending) }
{
    match input {
        Input::Whole { bytes } => run_script(alloc, bytes, text),
        Input::Over => {
            push_script_over(text)?;
            Ok(Ending::Refused)
        }
    }
}

/// Reads a script, prints what its lines do, and answers how the run ended. All is printed at the end.
pub fn grand<S: Source, K: Sink>(
    alloc: Global,
    source: &mut S,
    sink: &mut K,
) -> Result<Ending, Fault>
    // The whole output, and the input read to its end where it is done.
    ensures done { IfOk result (λ ending. Told (S.left source.old) (K.taken sink.old) (λ input before.
        IsReported grand_report input before ending (S.left source.new) (K.taken sink.new))) }

    // A run that is broken off has written a front, and nothing where a read failed.
    ensures front { OnErr result (Told (S.left source.old) (K.taken sink.old) (λ input before. WroteFront before (grand_report input).text (K.taken sink.new))) }
    ensures nothing { result ≡ Err Fault.Read → K.taken sink.new ≡ K.taken sink.old }

    // Each fault has its cause.
    ensures read { result ≡ Err Fault.Read → Rose (S.faults source.old) (S.faults source.new) }
    ensures write { result ≡ Err Fault.Write → Rose (K.faults sink.old) (K.faults sink.new) }
{
    let input = read_whole(alloc, source, SCRIPT_LIMIT)?;
    let mut text = Vec::new(alloc);
    let Ok(ending) = run_input(alloc, &input, &mut text) else {
        return Err(Fault::Memory);
    };
    let Ok(()) = write_all(sink, text.as_slice()) else {
        return Err(Fault::Write);
    };
    Ok(ending)
}
