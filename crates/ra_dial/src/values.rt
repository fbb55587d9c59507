//! What a dialer takes and gives.
ghost use Rattle.std.specs.Prelude.{◌≡◌, IfOk};

use ra_base::{Cause, Key, Message, NoMemory};
use ra_session::Outcome;
use ra_shake::ShakeSettings;
use ra_values::Value;
use std::alloc::Global;

/// How a dialer connects, and what its session says first.
#[derive(Drop)]
pub struct DialSettings {
    /// The connection token, and the version of the program. Both are said in each handshake.
    pub shake: ShakeSettings,
    /// What the client's signatures are made with.
    pub sign_key: Message,
    /// The session that is to be attached: its kind, and the reconnection token.
    pub key: Key,
    /// The value of the request's `Host` field.
    pub host: Message,
    /// The frames follow the server's answer directly. Else they come in messages of a WebSocket.
    pub skip_frames: bool,
    /// What a management session says first.
    pub context: Value,
}

impl DialSettings {
    /// The same settings again.
    pub fn copy(&self, alloc: Global) -> Result<DialSettings, NoMemory>
        ensures { IfOk result (λ copy. copy ≡ self.now) }
    {
        let Ok(context) = self.context.copy(alloc) else {
            return Err(NoMemory);
        };
        Ok(DialSettings {
            shake: copy_shake(alloc, &self.shake)?,
            sign_key: Message::copy(alloc, self.sign_key.as_slice())?,
            key: self.key.same(),
            host: Message::copy(alloc, self.host.as_slice())?,
            skip_frames: self.skip_frames,
            context,
        })
    }
}

/// The same settings of a handshake again.
pub(crate) fn copy_shake(alloc: Global, settings: &ShakeSettings) -> Result<ShakeSettings, NoMemory>
    ensures { IfOk result (λ copy. copy ≡ settings.now) }
{
    let secret = match &settings.secret {
        Some(secret) => Some(Message::copy(alloc, secret.as_slice())?),
        None => None,
    };
    let commit = Message::copy(alloc, settings.commit.as_slice())?;
    Ok(ShakeSettings { secret, commit })
}

/// What happens to a dialer.
#[derive(Debug, Drop)]
pub enum DialEvent {
    /// Time has passed.
    Tick,
    /// The link that was asked for is there.
    Linked,
    /// The link that was asked for can't be had.
    NoLink,
    /// Bytes of the link came.
    Piece { bytes: Message },
    /// What is unread is looked at: one head or one frame.
    Frame,
    /// The link is lost.
    LinkLost,
    /// The user stops it.
    Stop,
}

/// Why a dialer is over.
#[derive(Debug, Drop)]
pub enum DialEnd {
    /// The server refused, by this text.
    Permanent { reason: Message },
    /// No attempt succeeded within 10,800,000 milliseconds of the loss.
    GraceOver { lost: u64, now: u64 },
    /// The session has ended.
    Ended { cause: Cause },
    /// The session has no ids left.
    IdsSpent,
    /// It was told to stop.
    Stopped,
}

impl DialEnd {
    /// The same end again.
    pub(crate) fn copy(&self, alloc: Global) -> Result<DialEnd, NoMemory>
        ensures { IfOk result (λ copy. copy ≡ self.now) }
    {
        match self {
            DialEnd::Permanent { reason } => Ok(DialEnd::Permanent {
                reason: Message::copy(alloc, reason.as_slice())?,
            }),
            DialEnd::GraceOver { lost, now } => Ok(DialEnd::GraceOver {
                lost: *lost,
                now: *now,
            }),
            DialEnd::Ended { cause } => Ok(DialEnd::Ended { cause: *cause }),
            DialEnd::IdsSpent => Ok(DialEnd::IdsSpent),
            DialEnd::Stopped => Ok(DialEnd::Stopped),
        }
    }
}

/// What is to be done after an event.
#[derive(Debug, Drop)]
pub enum DialAct {
    /// Nothing came of it.
    Nothing,
    /// It went on, and there may be bytes to write.
    Quiet,
    /// Nothing is due before that moment, in milliseconds.
    Rest { until: u64 },
    /// A link is to be opened.
    Connect,
    /// The link is to be closed, and counts as lost already.
    Drop,
    /// A call has ended.
    Settled { id: i32, outcome: Outcome },
    /// An event for a listener.
    Fired { id: i32, body: Value },
    /// A message for an extension host.
    Host { body: Message },
    /// The dialer is over.
    End { cause: DialEnd },
}
