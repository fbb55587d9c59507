//! What comes next, seen before it is taken; and the taking of a message, which needs no memory.
ghost use Rattle.std.specs.Prelude.{◌≡◌, ◌==◌, ◌&&◌, true, suc, drop, IfOk};
ghost use Rattle.ra_model.specs.EndpointStates.{EndpointState, StandsFor};
ghost use Rattle.ra_model.specs.Endpoints.{Endpoint as AbstractEndpoint};
ghost use Rattle.ra_model.specs.FirstFrame.{first_frame};
ghost use Rattle.ra_model.specs.HeardPlaces.{is_message};
ghost use Rattle.ra_model.specs.Refusals.{take_fault};
ghost use Rattle.ra_model.specs.Taking.{take_frame, delivery};
ghost use Rattle.ra_proto.specs.Coming.{Agrees, ComesNext, IsAtFront, IsNextMessage, is_other};
ghost use Rattle.ra_proto.specs.Refused.{RefusedBy};

use crate::applying::is_next;
use crate::endpoint::Endpoint;
use ra_base::{Message, Moment};
use ra_frame::{FrameFault, FrameHead};
use ra_model::{EndFault, Frame};

/// The next message, which is still unread.
#[derive(Debug, PartialEq, Eq, Drop)]
pub struct NextMessage {
    pub id: u64,
    /// A copy of its body.
    pub body: Message,
    /// The ack of its frame.
    pub ack: u64,
    /// How many bytes its frame has.
    pub len: usize,
}

/// What `next` would hand up.
#[derive(Debug, PartialEq, Eq, Drop)]
pub enum Coming {
    /// No whole frame is unread, or there is no link.
    Nothing,
    Message { message: NextMessage },
    /// A control, the end, or nothing: the frame is no message, or a message that came before or too early.
    Other,
}

/// The frame is the next message, where the last id that was handed up is this one.
fn is_next_message(head: &FrameHead, received: u64) -> bool
    ensures { result ≡ ((head.now.kind == 1) && (head.now.id == suc received)) }
{
    head.kind == 1 && is_next(head.id, received)
}

/// The next message, which is the frame at the front of the unread bytes.
fn message_of(frame: Frame, len: usize) -> Coming
    ensures next { (s : EndpointState) → IsAtFront frame len s → is_message (suc s.received) frame ≡ true → ComesNext result s }
    ensures agrees { (s : EndpointState) → IsAtFront frame len s → is_message (suc s.received) frame ≡ true → (e : AbstractEndpoint) → StandsFor s e → Agrees result (delivery e) }
{
    Coming::Message {
        message: NextMessage {
            id: frame.id,
            body: frame.body,
            ack: frame.ack,
            len,
        },
    }
}

impl Endpoint {
    /// A whole frame is unread, and is not the next message.
    fn has_other(&self) -> bool
        ensures { result ≡ is_other self.now.received (first_frame self.now.unread) }
    {
        match self.unread.head() {
            Some(head) => !is_next_message(&head, self.received),
            None => false,
        }
    }

    /// What `next` would hand up. A message comes with a copy of its body; nothing else takes memory.
    pub fn peek(&self) -> Result<Coming, EndFault>
        ensures agrees { IfOk result (λ coming. (e : AbstractEndpoint) → StandsFor self.now e → Agrees coming (delivery e)) }
        ensures next { IfOk result (λ coming. ComesNext coming self.now) }
        ensures refused { RefusedBy result (take_fault self.now.phase self.now.unread) }
    {
        if !self.phase.is_linked() {
            return Ok(Coming::Nothing);
        }
        if self.has_other() {
            return Ok(Coming::Other);
        }
        match self.unread.peek(self.unwritten.allocator()) {
            Ok(None) => Ok(Coming::Nothing),
            Ok(Some((frame, len))) => Ok(message_of(frame, len)),
            Err(FrameFault::TooLong { stated }) => Err(EndFault::TooLong { stated }),
            Err(FrameFault::NoMemory) => Err(EndFault::NoMemory),
        }
    }

    /// The next message, which was seen to come, counts as handed up, and its frame is gone. It takes no memory.
    pub fn take_message(&mut self, id: u64, ack: u64, len: usize, now: Moment)
        requires next { IsNextMessage id ack len self.old }
        ensures stands { (e : AbstractEndpoint) → StandsFor self.old e → StandsFor self.new (take_frame now e) }
        ensures phase { self.new.phase ≡ self.old.phase }
        ensures epoch { self.new.epoch ≡ self.old.epoch }
        ensures sent { self.new.sent ≡ self.old.sent }
        ensures received { self.new.received ≡ id }
        ensures unread { self.new.unread ≡ drop len self.old.unread }
    {
        self.receive(id, ack, now);
        self.unread.skip(len);
    }
}
