//! The command `soak`: runs the script that is drawn from a number, and prints the sums.
ghost use Rattle.std.specs.Prelude.{◌≡◌, ◌≢◌, ◌≤◌, ◌++◌, length, Err, OnErr, OnOk, IfOk};
ghost use Rattle.std.specs.Io.KnownBytes.{Appends};
ghost use Rattle.std.specs.List.{AllByRecursion};
ghost use Rattle.ra_model.specs.Worlds.{World as AbstractWorld, new_world};
ghost use Rattle.ra_world.specs.WorldStates.{StandsForWorld};
ghost use Rattle.ra_script.specs.Generated.{generated};
ghost use Rattle.ra_ports.specs.Causes.{Rose, AppendsFront};
ghost use Rattle.ra_endpoint_commands.specs.Stepping.{IsLine};
ghost use Rattle.ra_endpoint_commands.specs.Soak.{world_behind, summary_of, summary_line, soak_text};
ghost use Rattle.ra_endpoint_commands.specs.Replay.{line_step};

use crate::lines::push_decimal;
use crate::replay::step_line;
use crate::replay_lines::{push_between, push_sums, push_text};
use crate::report::{Ending, Fault};
use ra_base::{NoMemory, Side};
use ra_model::EventFault;
use ra_ports::{Sink, write_all};
use ra_script::{Line, generate};
use ra_world::World;
use std::alloc::Global;

/// The sums of a run.
#[derive(Clone, Copy, Debug, PartialEq, Eq)]
pub struct Summary {
    pub start: u64,
    pub steps: u64,
    pub lines: u64,
    pub links: u64,
    pub a_said: u64,
    pub a_heard: u64,
    pub b_said: u64,
    pub b_heard: u64,
}

/// Whether a fault is another than want of memory.
fn unless_memory(fault: EventFault) -> Result<(), NoMemory>
    ensures { OnOk result (fault ≢ EventFault.NoMemory) }
{
    match fault {
        EventFault::NoMemory => Err(NoMemory),
        EventFault::NoSuchLink { link: _ }
        | EventFault::TooMany { asked: _, there: _ }
        | EventFault::End { fault: _ } => Ok(()),
    }
}

/// Runs a line. One that is refused changes nothing.
fn run_line(
    alloc: Global,
    world: &mut World,
    line: &Line,
    text: &mut Vec<u8>,
) -> Result<(), NoMemory>
    requires { IsLine line.now }
    ensures { OnOk result ((w : AbstractWorld) → StandsForWorld world.old w → StandsForWorld world.new (line_step line.now w).world) }
{
    match step_line(alloc, world, line, text) {
        Ok(()) => Ok(()),
        Err(fault) => unless_memory(fault),
    }
}

/// Runs lines in a new world.
fn run_lines(alloc: Global, lines: &[Line]) -> Result<World, NoMemory>
    requires { AllByRecursion IsLine lines.now }
    ensures { IfOk result (λ world. StandsForWorld world (world_behind lines.now (new_world 0))) }
{
    let mut world = World::new(alloc)?;
    let mut text = Vec::new(alloc);
    for line in lines {
        text.clear();
        run_line(alloc, &mut world, line, &mut text)?;
    }
    Ok(world)
}

fn summarize(start: u64, steps: u32, lines: u64, world: &World) -> Summary
    ensures { (w : AbstractWorld) → StandsForWorld world.now w → result ≡ summary_of start steps lines w }
{
    Summary {
        start,
        steps: steps as u64,
        lines,
        links: world.links(),
        a_said: world.said(Side::A).len() as u64,
        a_heard: world.heard(Side::A).len() as u64,
        b_said: world.said(Side::B).len() as u64,
        b_heard: world.heard(Side::B).len() as u64,
    }
}

/// Adds the line of the sums.
fn push_summary(text: &mut Vec<u8>, sums: &Summary) -> Result<(), NoMemory>
    ensures { OnOk result (text.new.items ≡ text.old.items ++ summary_line sums.now) }
{
    push_between(text, "soak start=", sums.start, " steps=")?;
    push_decimal(text, sums.steps)?;
    push_between(text, " lines=", sums.lines, " links=")?;
    push_decimal(text, sums.links)?;
    push_text(text, " ")?;
    push_sums(text, Side::A, sums.a_said, sums.a_heard)?;
    push_text(text, " ")?;
    push_sums(text, Side::B, sums.b_said, sums.b_heard)?;
    push_text(text, "\n")?;
    Ok(())
}

/// What is printed for a start and a number of steps.
fn soak_line(alloc: Global, start: u64, steps: u32) -> Result<Vec<u8>, NoMemory>
    requires { steps ≤ 100000 }
    ensures { IfOk result (λ text. text.items ≡ soak_text start steps) }
{
    let lines = generate(alloc, start, steps)?;
    let world = run_lines(alloc, &lines)?;
    let mut text = Vec::new(alloc);
    push_summary(
        &mut text,
        &summarize(start, steps, lines.len() as u64, &world),
    )?;
    Ok(text)
}

/// Runs the script that is drawn from a number, and prints the sums.
pub fn soak<K: Sink>(alloc: Global, start: u64, steps: u32, sink: &mut K) -> Result<Ending, Fault>
    requires { steps ≤ 100000 }
    ensures ok { OnOk result (Appends (K.taken sink.old) (K.taken sink.new) (soak_text start steps)) }
    ensures ending { IfOk result (λ ending. ending ≡ Ending.Done) }

    // Each fault has its cause, and a run that is broken off has written a front.
    ensures err { OnErr result (AppendsFront (K.taken sink.old) (K.taken sink.new) (soak_text start steps)) }
    ensures write { result ≡ Err Fault.Write → Rose (K.faults sink.old) (K.faults sink.new) }
    ensures no_read { result ≢ Err Fault.Read }
{
    let Ok(text) = soak_line(alloc, start, steps) else {
        return Err(Fault::Memory);
    };
    let Ok(()) = write_all(sink, text.as_slice()) else {
        return Err(Fault::Write);
    };
    Ok(Ending::Done)
}
