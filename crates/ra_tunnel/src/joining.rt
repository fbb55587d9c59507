//! A client that is joined to a target.
ghost use Rattle.std.specs.Prelude.{◌≡◌, ◌<◌, length, Some, None, List, Option};
ghost use Rattle.ra_ports.specs.Causes.{Rose};
ghost use Rattle.ra_tunnel.specs.Pipes.{side};
ghost use Rattle.ra_tunnel.specs.Joins.{Joins, Reaches};

use crate::ends::PipeEnd;
use crate::piping::pipe;
use ra_edge::Dial;
use ra_ports::{Link, send_all};

/// Sends the client and the target what each is sent first, and then what comes from the other.
fn join<N: Link, T: Link>(
    client: &mut N,
    target: &mut T,
    ok: &[u8],
    rest: &[u8],
    buffer: &mut [u8],
    turns: u64,
) -> PipeEnd
    requires { 0 < length buffer.old }
    ensures { Joins result turns ok.now rest.now
        (side (N.incoming client.old) (N.sent client.old) (N.faults client.old))
        (side (N.incoming client.new) (N.sent client.new) (N.faults client.new))
        (side (T.incoming target.old) (T.sent target.old) (T.faults target.old))
        (side (T.incoming target.new) (T.sent target.new) (T.faults target.new)) }
{
    match send_all(client, ok) {
        Err(_) => PipeEnd::ClientFault,
        Ok(()) => match send_all(target, rest) {
            Err(_) => PipeEnd::TargetFault,
            Ok(()) => pipe(client, target, buffer, turns),
        },
    }
}

/// Joins a client to a target: a link to the target is opened, the client is sent `ok` and the target `rest`, and from there on what
/// comes from each goes to the other, until one of them ends or fails, or both together were asked `turns` times, in turn and the
/// client first. The link to the target is given back.
///
/// It answers None where no link could be opened. Nothing was sent then, and the client was not asked.
pub fn join_target<N: Link, D: Dial>(
    client: &mut N,
    dial: &mut D,
    ok: &[u8],
    rest: &[u8],
    buffer: &mut [u8],
    turns: u64,
) -> Option<PipeEnd>
    requires { 0 < length buffer.old }
    ensures none { result ≡ None → (client.new ≡ client.old) × Rose (D.faults dial.old) (D.faults dial.new)
        × (D.returned dial.new ≡ D.returned dial.old) × (D.lines dial.new ≡ D.lines dial.old) }
    ensures reached { (end : PipeEnd) → result ≡ Some end
        → Reaches (λ line. side (D.Line.incoming line) (D.Line.sent line) (D.Line.faults line))
        (D.lines dial.old) (D.lines dial.new) (D.returned dial.old) (D.returned dial.new) end turns ok.now rest.now
        (side (N.incoming client.old) (N.sent client.old) (N.faults client.old))
        (side (N.incoming client.new) (N.sent client.new) (N.faults client.new)) }
    ensures client_fault { result ≡ Some PipeEnd.ClientFault → Rose (N.faults client.old) (N.faults client.new) }
    ensures target_fault { result ≡ Some PipeEnd.TargetFault → Rose (D.line_faults dial.old) (D.line_faults dial.new) }
    ensures room { D.room dial.new ≡ D.room dial.old }
{
    match dial.connect() {
        Err(_) => None,
        Ok(mut line) => {
            let end = join(client, &mut line, ok, rest, buffer, turns);
            dial.give_back(line);
            Some(end)
        }
    }
}
