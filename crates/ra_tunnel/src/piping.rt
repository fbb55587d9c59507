//! Bytes of one link are sent on another, and back.
ghost use Rattle.std.specs.Prelude.{◌≡◌, ◌<◌, ◌≤◌, length};
ghost use Rattle.ra_ports.specs.Causes.{Rose};
ghost use Rattle.ra_tunnel.specs.Pipes.{Carries, Turned, Piped, side};
ghost use Rattle.ra_tunnel.specs.Turns.{Alternates};
ghost use Rattle.ra_tunnel.specs.Ends.{IsWhole, client_ended, target_ended};

use crate::ends::{PipeEnd, TunnelSide};
use ra_ports::{Got, Link, send_all};

/// What came of one call of `recv`.
#[derive(Clone, Copy, Debug, PartialEq, Eq)]
pub(crate) enum Carried {
    /// All that came was sent on.
    On,
    /// Nothing more comes.
    End,
    /// The link that was asked failed.
    FromFault,
    /// The other link failed.
    ToFault,
}

/// Asks one link once, and sends all that it gives on the other.
pub(crate) fn carry<N: Link, T: Link>(from: &mut N, to: &mut T, buffer: &mut [u8]) -> Carried
    requires { 0 < length buffer.old }
    ensures { Carries result
        (side (N.incoming from.old) (N.sent from.old) (N.faults from.old))
        (side (N.incoming from.new) (N.sent from.new) (N.faults from.new))
        (side (T.incoming to.old) (T.sent to.old) (T.faults to.old))
        (side (T.incoming to.new) (T.sent to.new) (T.faults to.new)) }
{
    match from.recv(buffer) {
        Ok(Got::Bytes { n }) => match send_all(to, &buffer[..n]) {
            Ok(()) => Carried::On,
            Err(_) => Carried::ToFault,
        },
        Ok(Got::NotYet) => Carried::On,
        Ok(Got::End) => Carried::End,
        Err(_) => Carried::FromFault,
    }
}

/// One turn: those with an even number ask the client, and the others the target.
pub(crate) fn one_turn<N: Link, T: Link>(
    client: &mut N,
    target: &mut T,
    buffer: &mut [u8],
    turn: u64,
) -> Option<PipeEnd>
    requires { 0 < length buffer.old }
    ensures { Turned turn result
        (side (N.incoming client.old) (N.sent client.old) (N.faults client.old))
        (side (N.incoming client.new) (N.sent client.new) (N.faults client.new))
        (side (T.incoming target.old) (T.sent target.old) (T.faults target.old))
        (side (T.incoming target.new) (T.sent target.new) (T.faults target.new)) }
{
    if turn % 2 == 0 {
        match carry(client, target, buffer) {
            Carried::On => None,
            Carried::End => Some(PipeEnd::Closed {
                by: TunnelSide::Client,
            }),
            Carried::FromFault => Some(PipeEnd::ClientFault),
            Carried::ToFault => Some(PipeEnd::TargetFault),
        }
    } else {
        match carry(target, client, buffer) {
            Carried::On => None,
            Carried::End => Some(PipeEnd::Closed {
                by: TunnelSide::Target,
            }),
            Carried::FromFault => Some(PipeEnd::TargetFault),
            Carried::ToFault => Some(PipeEnd::ClientFault),
        }
    }
}

/// Asks both links in turn, the client first, and sends what each gives on the other, until one of them ends or fails, or both
/// together were asked `turns` times. All that was taken of one side was sent on the other where a side ended or the turns are spent,
/// and else a prefix of it.
pub fn pipe<N: Link, T: Link>(
    client: &mut N,
    target: &mut T,
    buffer: &mut [u8],
    turns: u64,
) -> PipeEnd
    requires { 0 < length buffer.old }
    ensures piped { Piped
        (side (N.incoming client.old) (N.sent client.old) (N.faults client.old))
        (side (N.incoming client.new) (N.sent client.new) (N.faults client.new))
        (side (T.incoming target.old) (T.sent target.old) (T.faults target.old))
        (side (T.incoming target.new) (T.sent target.new) (T.faults target.new))
        (IsWhole result) }
    ensures calls { Alternates turns (result ≡ PipeEnd.TurnsSpent) (N.incoming client.old).receives
        (N.incoming client.new).receives (T.incoming target.old).receives (T.incoming target.new).receives }
    ensures client_ended { (N.incoming client.new).ended ≡ client_ended result (N.incoming client.old).ended }
    ensures target_ended { (T.incoming target.new).ended ≡ target_ended result (T.incoming target.old).ended }
    ensures client_later { N.faults client.old ≤ N.faults client.new }
    ensures target_later { T.faults target.old ≤ T.faults target.new }
    ensures client_fault { result ≡ PipeEnd.ClientFault → Rose (N.faults client.old) (N.faults client.new) }
    ensures target_fault { result ≡ PipeEnd.TargetFault → Rose (T.faults target.old) (T.faults target.new) }
{
    for turn in 0..turns {
        match one_turn(client, target, buffer, turn) {
            Some(end) => return end,
            None => {}
        }
    }
    PipeEnd::TurnsSpent
}
