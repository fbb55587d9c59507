//! A session is told what the tools make of its work.
ghost use Rattle.std.specs.Prelude.{◌≡◌, Some, option_map, IfOk};
ghost use Rattle.ra_app.specs.Effects.{ShoutFits, event_of};
ghost use Rattle.ra_hub.specs.HubSeats.{Stay};
ghost use Rattle.ra_hub.specs.Hubs as spec;
ghost use Rattle.ra_hub.specs.Keeping.{Stands, seats_of};
ghost use Rattle.ra_session.specs.View.{FireFits, TellFits, WorkFits, firing_of, work_of};
ghost use Rattle.ra_grand_server.specs.Tellings.{ToldAt, IsReplacement, ReplacementFits, is_too_large, settled, settled_by, telling_of};
ghost use Rattle.ra_grand_runs.specs.Works.{Telling, fired_on, telling};

use ra_app::{App, Done, Shout, Tools, too_large};
use ra_base::{Key, Message, Moment};
use ra_chan_server::Fire;
use ra_hub::{Hub, HubFault, Job, PlainHub};
use ra_keep::MemKeeper;
use ra_session::{SessionFault, Tell, Work};
use ra_values::{NoMemory, Text};
use std::alloc::Global;

/// The event that an answer fires, on the channel of its call.
fn fire_on(alloc: Global, channel: &Text, event: Option<Shout>) -> Result<Option<Fire>, NoMemory>
    requires { ShoutFits event }
    ensures value { IfOk result (λ fire. option_map firing_of fire ≡ option_map (fired_on channel.now) (event_of event)) }
    ensures fits { IfOk result FireFits }
{
    let Some(shout) = event else {
        return Ok(None);
    };
    let Shout { event, body } = shout;
    let channel = Text::of(alloc, channel.as_str())?;
    Ok(Some(Fire {
        channel,
        event,
        body,
    }))
}

/// What the tools make of work.
fn tell_for(alloc: Global, work: &Work) -> Result<Tell, NoMemory>
    requires { WorkFits work.now }
    ensures value { IfOk result (λ tell. telling (work_of work.now) ≡ Some (telling_of tell)) }
    ensures fits { IfOk result TellFits }
{
    match work {
        Work::Call {
            id,
            channel,
            name,
            arg,
            cancelled,
        } => {
            let done = Tools.call(alloc, channel, name, arg, *cancelled)?;
            let Done { answer, fire } = done;
            let fire = fire_on(alloc, channel, fire)?;
            Ok(Tell::Answer {
                id: *id,
                answer,
                fire,
            })
        }
        Work::Host { body } => {
            match Message::copy(alloc, body.as_slice()) {
                Ok(body) => Ok(Tell::Say { body }),
                Err(_) => Err(NoMemory),
            }
        }
    }
}

/// What is told in place of an answer that is too large.
fn replacement(alloc: Global, work: &Work) -> Result<Option<Tell>, NoMemory>
    ensures value { IfOk result (λ tell. (t : Telling) → telling (work_of work.now) ≡ Some t → IsReplacement tell t) }
    ensures fits { IfOk result ReplacementFits }
{
    match work {
        Work::Call {
            id,
            channel: _,
            name: _,
            arg: _,
            cancelled: _,
        } => {
            let answer = too_large(alloc)?;
            Ok(Some(Tell::Answer {
                id: *id,
                answer,
                fire: None,
            }))
        }
        Work::Host { body: _ } => Ok(None),
    }
}

fn is_too_large(fault: &HubFault) -> bool
    ensures { result ≡ is_too_large fault.now }
{
    matches!(
        fault,
        HubFault::Session {
            fault: SessionFault::TooLarge { len: _ },
        }
    )
}

/// Tells the session of the key what the tools make of its work. Where that is too large, it is told so instead.
fn tell_work(
    alloc: Global,
    hub: &mut PlainHub<MemKeeper>,
    key: &Key,
    work: &Work,
    now: Moment,
) -> Result<(), HubFault>
    requires { WorkFits work.now }
    ensures told { (h : spec.Hub) (t : Telling) → Stands hub.old h → telling (work_of work.now) ≡ Some t → ToldAt h key.now t now result (Stands hub.new) }
    ensures seats { Stay (seats_of hub.old) (seats_of hub.new) }
{
    let Ok(tell) = tell_for(alloc, work) else {
        return Err(HubFault::NoMemory);
    };
    let Err(fault) = hub.tell(alloc, key, tell, now) else {
        return Ok(());
    };
    if !is_too_large(&fault) {
        return Err(fault);
    }
    match replacement(alloc, work) {
        Err(_) => Err(HubFault::NoMemory),
        Ok(None) => Err(fault),
        Ok(Some(tell)) => hub.tell(alloc, key, tell, now),
    }
}

/// Tells the session of a job what the tools make of it.
pub(crate) fn tell_job(
    alloc: Global,
    hub: &mut PlainHub<MemKeeper>,
    job: &Job,
    now: Moment,
) -> Result<(), HubFault>
    ensures told { (h : spec.Hub) (t : Telling) → Stands hub.old h → telling (work_of job.now.work) ≡ Some t → ToldAt h job.now.key t now result (Stands hub.new) }
    ensures seats { Stay (seats_of hub.old) (seats_of hub.new) }
{
    tell_work(alloc, hub, job.key(), job.work(), now)
}

fn settle_by(fault: SessionFault) -> Result<(), SessionFault>
    ensures { result ≡ settled_by fault }
{
    if let SessionFault::Ended { cause: _ } = fault {
        return Ok(());
    }
    Err(fault)
}

/// Whether a job is done after that. It is, too, where its session has ended or is not there.
pub(crate) fn settle(told: Result<(), HubFault>) -> Result<(), SessionFault>
    ensures { result ≡ settled told }
{
    match told {
        Ok(()) => Ok(()),
        Err(HubFault::Session { fault }) => settle_by(fault),
        Err(HubFault::NoSession) => Ok(()),
        Err(HubFault::Refused { reason: _ } | HubFault::KeepFault | HubFault::NoMemory) => {
            Err(SessionFault::NoMemory)
        }
    }
}
