//! What an endpoint writes: frames of its queue, acks and keep-alives, each whole or not at all.
ghost use Rattle.std.specs.Prelude.{◌≡◌, ◌<◌, ◌≤◌, ◌++◌, ◌∷◌, [], ◌&&◌, length, drop, map, All, cond, nat_lt, Some, None, OnOk, OnErr, IfErr};
ghost use Rattle.ra_model.specs.Frames.{body_limit, joined};
ghost use Rattle.ra_model.specs.FrameKinds.{written_frame, regular, ack_frame, keep_alive_frame};
ghost use Rattle.ra_model.specs.Endpoints.{entry_frame};
ghost use Rattle.ra_model.specs.Calls.{when};

use crate::saying::SayFault;
use crate::unwritten::Unwritten;
use ra_base::NoMemory;
use ra_model::{EndFault, Entry};
use ra_queue::Unacked;

/// A message waits for its acknowledgement on a link.
pub fn waits(is_up: bool, acknowledged: u64, sent: u64) -> bool
    ensures { result ≡ (is_up && nat_lt acknowledged sent) }
{
    is_up && acknowledged < sent
}

/// The moment, where the link is up.
pub fn written_at(is_up: bool, now: u64) -> Option<u64>
    ensures { result ≡ cond is_up (Some now) None }
{
    if is_up { Some(now) } else { None }
}

/// Adds the bytes of a message where the link is up, or nothing.
fn append_when(
    out: &mut Unwritten,
    is_up: bool,
    id: u64,
    ack: u64,
    body: &[u8],
) -> Result<(), NoMemory>
    requires { length body.now ≤ body_limit }
    ensures ok { OnOk result (out.new ≡ out.old ++ joined (when is_up (regular id ack body.now))) }
    ensures err { OnErr result (out.new ≡ out.old) }
{
    if is_up {
        out.append(1, id, ack, body)?;
    }
    Ok(())
}

/// Puts a message into the queue, and writes it where the link is up. At want of memory nothing changes, and its body comes back.
pub fn enqueue(
    queue: &mut Unacked,
    unwritten: &mut Unwritten,
    is_up: bool,
    entry: Entry,
) -> Result<(), SayFault>
    requires { length entry.body ≤ body_limit }
    ensures queue { OnOk result (queue.new.entries ≡ queue.old.entries ++ entry ∷ []) }
    ensures unwritten { OnOk result (unwritten.new ≡ unwritten.old ++ joined (when is_up (regular entry.id entry.ack entry.body))) }
    ensures memory { IfErr result (λ refused. refused.fault ≡ EndFault.NoMemory) }
    ensures body { IfErr result (λ refused. refused.body ≡ entry.body) }
    ensures err { OnErr result ((queue.new.entries ≡ queue.old.entries) × (unwritten.new ≡ unwritten.old)) }
{
    if queue.reserve(1).is_err() {
        return Err(no_memory(entry));
    }
    if append_when(unwritten, is_up, entry.id, entry.ack, entry.body.as_slice()).is_err() {
        return Err(no_memory(entry));
    }
    queue.push(entry);
    Ok(())
}

/// There is no memory for a message.
fn no_memory(entry: Entry) -> SayFault
    ensures fault { result.fault ≡ EndFault.NoMemory }
    ensures body { result.body ≡ entry.body }
{
    SayFault {
        body: entry.body,
        fault: EndFault::NoMemory,
    }
}

/// Adds the bytes of messages, or nothing.
fn append_entries(entries: &[Entry], out: &mut Unwritten) -> Result<(), NoMemory>
    requires { All (λ entry. length entry.body ≤ body_limit) entries.now }
    ensures ok { OnOk result (out.new ≡ out.old ++ joined (map entry_frame entries.now)) }
    ensures err { OnErr result (out.new ≡ out.old) }
{
    let before = out.len();
    for entry in entries {
        if out
            .append(1, entry.id, entry.ack, entry.body.as_slice())
            .is_err()
        {
            out.truncate(before);
            return Err(NoMemory);
        }
    }
    Ok(())
}

/// Adds the bytes of messages in two parts, or nothing.
fn append_parts(first: &[Entry], second: &[Entry], out: &mut Unwritten) -> Result<(), NoMemory>
    requires { All (λ entry. length entry.body ≤ body_limit) (first.now ++ second.now) }
    ensures ok { OnOk result (out.new ≡ out.old ++ joined (map entry_frame (first.now ++ second.now))) }
    ensures err { OnErr result (out.new ≡ out.old) }
{
    let before = out.len();
    append_entries(first, out)?;
    if append_entries(second, out).is_err() {
        out.truncate(before);
        return Err(NoMemory);
    }
    Ok(())
}

/// Adds the bytes of all in the queue, or nothing.
pub fn append_replay(queue: &Unacked, out: &mut Unwritten) -> Result<(), NoMemory>
    requires { All (λ entry. length entry.body ≤ body_limit) queue.now.entries }
    ensures ok { OnOk result (out.new ≡ out.old ++ joined (map entry_frame queue.now.entries)) }
    ensures err { OnErr result (out.new ≡ out.old) }
{
    let (first, second) = queue.as_slices();
    append_parts(first, second, out)
}

/// Adds a frame that has only a type, or nothing.
pub fn append_if(out: &mut Unwritten, is_written: bool, kind: u8) -> Result<(), NoMemory>
    requires { kind < 128 }
    ensures ok { OnOk result (out.new ≡ out.old ++ joined (when is_written (written_frame kind 0 0 []))) }
    ensures err { OnErr result (out.new ≡ out.old) }
{
    if is_written {
        out.append(kind, 0, 0, &[])?;
    }
    Ok(())
}

/// Adds an Ack, and the bytes of all in the queue; or nothing.
pub fn append_rejoin(queue: &Unacked, received: u64, out: &mut Unwritten) -> Result<(), NoMemory>
    requires { All (λ entry. length entry.body ≤ body_limit) queue.now.entries }
    ensures ok { OnOk result (out.new ≡ (out.old ++ joined (ack_frame received ∷ [])) ++ joined (map entry_frame queue.now.entries)) }
    ensures err { OnErr result (out.new ≡ out.old) }
{
    let before = out.len();
    out.append(3, 0, received, &[])?;
    if append_replay(queue, out).is_err() {
        out.truncate(before);
        return Err(NoMemory);
    }
    Ok(())
}

/// Adds an Ack and a KeepAlive, each where it is written; or nothing.
pub fn append_tick(
    out: &mut Unwritten,
    writes_ack: bool,
    writes_keep_alive: bool,
    received: u64,
) -> Result<(), NoMemory>
    ensures ok { OnOk result (out.new ≡ out.old ++ joined (when writes_ack (ack_frame received) ++ when writes_keep_alive (keep_alive_frame received))) }
    ensures err { OnErr result (out.new ≡ out.old) }
{
    if writes_ack && writes_keep_alive {
        let before = out.len();
        out.append(3, 0, received, &[])?;
        if out.append(9, 0, received, &[]).is_err() {
            out.truncate(before);
            return Err(NoMemory);
        }
        return Ok(());
    }
    if writes_ack {
        return out.append(3, 0, received, &[]);
    }
    if writes_keep_alive {
        return out.append(9, 0, received, &[]);
    }
    Ok(())
}

/// What is told once these are written.
pub fn told_after(writes_ack: bool, writes_keep_alive: bool, received: u64, told: u64) -> u64
    ensures { result ≡ cond writes_ack received (cond writes_keep_alive received told) }
{
    if writes_ack || writes_keep_alive {
        received
    } else {
        told
    }
}

/// Adds the bytes of all in the queue behind the first n, or nothing.
pub fn append_rest(queue: &Unacked, n: usize, out: &mut Unwritten) -> Result<(), NoMemory>
    requires n { n ≤ length queue.now.entries }
    requires fits { All (λ entry. length entry.body ≤ body_limit) queue.now.entries }
    ensures ok { OnOk result (out.new ≡ out.old ++ joined (map entry_frame (drop n queue.now.entries))) }
    ensures err { OnErr result (out.new ≡ out.old) }
{
    let (first, second) = queue.slices_from(n);
    append_parts(first, second, out)
}
