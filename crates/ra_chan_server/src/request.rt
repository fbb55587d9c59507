//! A request that is active: a call until its answer, a listen until its dispose.
ghost use Rattle.std.specs.Prelude.{◌≡◌, option_map, IfOk};
ghost use Rattle.std.specs.Option.{is_some};
ghost use Rattle.ra_ipc.specs.ChannelServers.{is_timed_out, timeout_one};
ghost use Rattle.ra_ipc.specs.View.{id_of};
ghost use Rattle.ra_chan_server.specs.Requests.{id_in, is_here, is_listen, waits_for, opened, opened_call, marked};
ghost use Rattle.ra_chan_server.specs.View.{active_of, call_of};

use crate::call::Call;
use ra_values::{NoMemory, Text};
use std::alloc::Global;
use std::mem;

#[derive(Debug, Drop)]
pub enum Request {
    /// A call that waits for its channel until that moment.
    WaitingCall {
        call: Call,
        until: u64,
    },
    /// A call that was handed out.
    HandedCall {
        id: i32,
    },
    /// A listen that waits for its channel until that moment.
    WaitingListen {
        id: i32,
        channel: Text,
        event: Text,
        until: u64,
    },
    Listener {
        id: i32,
        channel: Text,
        event: Text,
    },
}

fn signed_id(request: &Request) -> i32
    ensures { id_in (active_of request.now) ≡ id_of result }
{
    match request {
        Request::WaitingCall { call, .. } => call.id,
        Request::HandedCall { id }
        | Request::WaitingListen { id, .. }
        | Request::Listener { id, .. } => *id,
    }
}

/// Its id, as its 32 bits.
pub fn id(request: &Request) -> u32
    ensures { result ≡ id_in (active_of request.now) }
{
    signed_id(request).cast_unsigned()
}

/// Whether it was not handed out.
pub fn is_here(request: &Request) -> bool
    ensures { result ≡ is_here (active_of request.now) }
{
    match request {
        Request::HandedCall { .. } => false,
        Request::WaitingCall { .. } | Request::WaitingListen { .. } | Request::Listener { .. } =>
            true,
    }
}

/// Whether it is a listen.
pub fn is_listen(request: &Request) -> bool
    ensures { result ≡ is_listen (active_of request.now) }
{
    match request {
        Request::WaitingListen { .. } | Request::Listener { .. } => true,
        Request::WaitingCall { .. } | Request::HandedCall { .. } => false,
    }
}

/// Whether it waits for this channel.
pub fn waits_for(request: &Request, channel: &Text) -> bool
    ensures { result ≡ waits_for channel.now (active_of request.now) }
{
    match request {
        Request::WaitingCall { call, .. } => channel.as_str() == call.channel.as_str(),
        Request::WaitingListen {
            channel: wanted,
            ..
        } => channel.as_str() == wanted.as_str(),
        Request::HandedCall { .. } | Request::Listener { .. } => false,
    }
}

/// Whether it waited for its channel until this moment, or until an earlier one.
pub fn is_late(request: &Request, now: u64) -> bool
    ensures { result ≡ is_timed_out now (active_of request.now) }
{
    match request {
        Request::WaitingCall { until, .. } | Request::WaitingListen { until, .. } => *until <= now,
        Request::HandedCall { .. } | Request::Listener { .. } => false,
    }
}

/// Whether it is a call that waited for its channel until this moment, or until an earlier one.
pub fn is_late_call(request: &Request, now: u64) -> bool
    ensures { result ≡ is_some (timeout_one now (active_of request.now)) }
{
    match request {
        Request::WaitingCall { until, .. } => *until <= now,
        Request::WaitingListen { .. } | Request::HandedCall { .. } | Request::Listener { .. } =>
            false,
    }
}

/// A call that waits is cancelled.
pub fn mark(request: &mut Request)
    ensures { active_of request.new ≡ marked (active_of request.old) }
{
    if let Request::WaitingCall { call, .. } = request {
        call.cancelled = true;
    }
}

/// What becomes of it when its channel is registered, and the call that is handed out.
fn opened(request: Request) -> (Request, Option<Call>)
    ensures after { active_of result.0 ≡ opened (active_of request) }
    ensures call { option_map call_of result.1 ≡ opened_call (active_of request) }
{
    match request {
        Request::WaitingCall { call, until: _ } => {
            (Request::HandedCall { id: call.id }, Some(call))
        }
        Request::HandedCall { id } => (Request::HandedCall { id }, None),
        Request::WaitingListen {
            id,
            channel,
            event,
            until: _,
        } => (Request::Listener { id, channel, event }, None),
        Request::Listener { id, channel, event } => {
            (Request::Listener { id, channel, event }, None)
        }
    }
}

/// Its channel is registered. A call that waited is handed out.
pub fn open(request: &mut Request) -> Option<Call>
    ensures after { active_of request.new ≡ opened (active_of request.old) }
    ensures call { option_map call_of result ≡ opened_call (active_of request.old) }
{
    let id = signed_id(request);
    let (after, call) = opened(mem::replace(request, Request::HandedCall { id }));
    *request = after;
    call
}

impl Request {
    /// An equal request.
    pub fn copy(&self, alloc: Global) -> Result<Request, NoMemory>
        ensures { IfOk result (λ r. r ≡ self.now) }
    {
        match self {
            Request::WaitingCall { call, until } => Ok(Request::WaitingCall {
                call: Call {
                    id: call.id,
                    channel: Text::of(alloc, call.channel.as_str())?,
                    name: Text::of(alloc, call.name.as_str())?,
                    arg: call.arg.copy(alloc)?,
                    cancelled: call.cancelled,
                },
                until: *until,
            }),
            Request::HandedCall { id } => Ok(Request::HandedCall { id: *id }),
            Request::WaitingListen {
                id,
                channel,
                event,
                until,
            } => Ok(Request::WaitingListen {
                id: *id,
                channel: Text::of(alloc, channel.as_str())?,
                event: Text::of(alloc, event.as_str())?,
                until: *until,
            }),
            Request::Listener { id, channel, event } => Ok(Request::Listener {
                id: *id,
                channel: Text::of(alloc, channel.as_str())?,
                event: Text::of(alloc, event.as_str())?,
            }),
        }
    }
}
