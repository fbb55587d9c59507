//! What may happen to a world, as events, and a whole run of them.
ghost use Rattle.std.specs.Prelude.{◌≡◌, IfErr, IfOk};
ghost use Rattle.ra_values.specs.Tree as trees;
ghost use Rattle.ra_values.specs.View.{tree};
ghost use Rattle.std.specs.List.{AllByRecursion};
ghost use Rattle.ra_script.specs.declared.grand_line.GrandEvent.TheVariants as events;
ghost use Rattle.ra_script.specs.GrandLines.{GrandEventFits};
ghost use Rattle.ra_grand.specs.GrandEvents.{IsGrandEvent, Ran, WasRefused};
ghost use Rattle.ra_grand.specs.GrandStates.{StandsForGrand};
ghost use Rattle.ra_grand_runs.specs.GrandViews.{Applies};
ghost use Rattle.ra_grand_runs.specs.Grands as grand;

use crate::world::GrandWorld;
use ra_base::{Message, NoMemory};
use ra_dial::DialEvent;
use ra_grand_runs::{GrandEffect, GrandFault, GrandRunFault};
use ra_script::GrandEvent;
use ra_values::{Bytes, Text, Value};
use std::alloc::Global;

/// The bytes as a value.
fn buffer_of(alloc: Global, bytes: &Bytes) -> Result<Value, NoMemory>
    ensures { IfOk result (λ value. tree value ≡ trees.buffer bytes.now) }
{
    match Bytes::of(alloc, bytes.as_slice()) {
        Ok(bytes) => Ok(Value::Buffer { bytes }),
        Err(_) => Err(NoMemory),
    }
}

/// The text as a value.
fn text_of(alloc: Global, text: &Text) -> Result<Value, NoMemory>
    ensures { IfOk result (λ value. tree value ≡ trees.text text.now) }
{
    match Text::of(alloc, text.as_str()) {
        Ok(text) => Ok(Value::Text { text }),
        Err(_) => Err(NoMemory),
    }
}

/// No argument.
fn nothing() -> Value
    ensures { tree result ≡ trees.undefined }
{
    Value::Undefined
}

impl GrandWorld {
    /// A hub without sessions, and no client, at moment 0.
    pub fn new(alloc: Global) -> Result<GrandWorld, NoMemory>
        ensures { IfOk result (λ world. StandsForGrand world grand.new_grand) }
    {
        Ok(GrandWorld::empty(alloc))
    }

    /// A call with a buffer.
    fn call_buffer(
        &mut self,
        client: u64,
        channel: &Text,
        name: &Text,
        arg: &Bytes,
    ) -> Result<GrandEffect, GrandFault>
        requires { GrandEventFits (events.Call client channel.now name.now arg.now) }
        ensures { (w : grand.Grand) → StandsForGrand self.old w
            → Applies result (events.Call client channel.now name.now arg.now) w (StandsForGrand self.new) }
    {
        let Ok(channel) = Text::of(self.alloc, channel.as_str()) else {
            return Err(GrandFault::NoMemory);
        };
        let Ok(name) = Text::of(self.alloc, name.as_str()) else {
            return Err(GrandFault::NoMemory);
        };
        let Ok(arg) = buffer_of(self.alloc, arg) else {
            return Err(GrandFault::NoMemory);
        };
        self.call(client, channel, name, arg)
    }

    /// A call with a text.
    fn call_text(
        &mut self,
        client: u64,
        channel: &Text,
        name: &Text,
        arg: &Text,
    ) -> Result<GrandEffect, GrandFault>
        requires { GrandEventFits (events.CallText client channel.now name.now arg.now) }
        ensures { (w : grand.Grand) → StandsForGrand self.old w
            → Applies result (events.CallText client channel.now name.now arg.now) w (StandsForGrand self.new) }
    {
        let Ok(channel) = Text::of(self.alloc, channel.as_str()) else {
            return Err(GrandFault::NoMemory);
        };
        let Ok(name) = Text::of(self.alloc, name.as_str()) else {
            return Err(GrandFault::NoMemory);
        };
        let Ok(arg) = text_of(self.alloc, arg) else {
            return Err(GrandFault::NoMemory);
        };
        self.call(client, channel, name, arg)
    }

    /// A listener with no argument.
    fn listen_to(
        &mut self,
        client: u64,
        channel: &Text,
        name: &Text,
    ) -> Result<GrandEffect, GrandFault>
        requires { GrandEventFits (events.Listen client channel.now name.now) }
        ensures { (w : grand.Grand) → StandsForGrand self.old w
            → Applies result (events.Listen client channel.now name.now) w (StandsForGrand self.new) }
    {
        let Ok(channel) = Text::of(self.alloc, channel.as_str()) else {
            return Err(GrandFault::NoMemory);
        };
        let Ok(name) = Text::of(self.alloc, name.as_str()) else {
            return Err(GrandFault::NoMemory);
        };
        self.listen(client, channel, name, nothing())
    }

    /// A message of an extension host's client.
    fn say_again(&mut self, client: u64, body: &Message) -> Result<GrandEffect, GrandFault>
        ensures { (w : grand.Grand) → StandsForGrand self.old w
            → Applies result (events.Say client body.now) w (StandsForGrand self.new) }
    {
        let Ok(body) = Message::copy(self.alloc, body.as_slice()) else {
            return Err(GrandFault::NoMemory);
        };
        self.say(client, body)
    }

    /// Applies an event. One that is refused leaves all as it was.
    ///
    /// Where memory runs out at the server's end of a link, what was done there stays done, and that end is over: it answers the end
    /// `NoMemory`. Where it runs out for a session in a sweep, that session is as before, and is counted.
    pub fn apply(&mut self, event: &GrandEvent) -> Result<GrandEffect, GrandFault>
        requires { IsGrandEvent event.now }
        ensures { (w : grand.Grand) → StandsForGrand self.old w → Applies result event.now w (StandsForGrand self.new) }
    {
        match event {
            GrandEvent::At { now } => Ok(self.at(*now)),
            GrandEvent::Client { key } => self.client(key.same()),
            GrandEvent::Step { client } => self.dial(*client, DialEvent::Tick),
            GrandEvent::Linked { client } => self.linked(*client),
            GrandEvent::NoLink { client } => self.no_link(*client),
            GrandEvent::Up { link, count } => self.up(*link, *count),
            GrandEvent::Idle { link } => self.idle(*link),
            GrandEvent::Down { link, count } => self.down(*link, *count),
            GrandEvent::Frame { client } => self.dial(*client, DialEvent::Frame),
            GrandEvent::Cut { link } => self.cut(*link),
            GrandEvent::Gone { link } => self.gone(*link),
            GrandEvent::Lost { client } => self.dial(*client, DialEvent::LinkLost),
            GrandEvent::Sweep => Ok(self.sweep()),
            GrandEvent::Work { job } => self.work(*job),
            GrandEvent::Call {
                client,
                channel,
                name,
                arg,
            } => self.call_buffer(*client, channel, name, arg),
            GrandEvent::CallText {
                client,
                channel,
                name,
                arg,
            } => self.call_text(*client, channel, name, arg),
            GrandEvent::Listen {
                client,
                channel,
                name,
            } => self.listen_to(*client, channel, name),
            GrandEvent::Cancel { client, id } => self.cancel(*client, *id),
            GrandEvent::Dispose { client, id } => self.dispose(*client, *id),
            GrandEvent::Say { client, body } => self.say_again(*client, body),
            GrandEvent::Stop { client } => self.dial(*client, DialEvent::Stop),
        }
    }
}

/// A run of events in a new world, none of which is refused.
pub fn run_grand(alloc: Global, events: &[GrandEvent]) -> Result<GrandWorld, GrandRunFault>
    requires { AllByRecursion IsGrandEvent events.now }
    ensures ran { IfOk result (λ world. Ran events.now world) }
    ensures refused { IfErr result (λ refused. WasRefused events.now refused.at refused.fault) }
{
    let mut world = GrandWorld::empty(alloc);
    for (at, event) in events.iter().enumerate() {
        match world.apply(event) {
            Ok(effect) => drop(effect),
            Err(fault) => return Err(GrandRunFault { at, fault }),
        }
    }
    Ok(world)
}
