//! The frames that a server writes before a link carries messages.
ghost use Rattle.std.specs.Prelude.{◌≡◌, ◌≢◌, ◌++◌, OnOk, OnErr};
ghost use Rattle.ra_base.specs.declared.kind.Kind.TheVariants as kinds;
ghost use Rattle.ra_model.specs.Frames.{frame_bytes};
ghost use Rattle.ra_model.specs.FrameKinds.{control_frame, pause_frame};
ghost use Rattle.ra_opening.specs.Verdicts.{refusal_bytes, acceptance_bytes};

use ra_base::{Kind, NoMemory, Reason};
use ra_frame::{BODY_LIMIT, append_written};
use ra_shake::{accept_text, refuse_text};
use std::alloc::Global;

/// Adds the bytes, or nothing where there is no memory.
pub(crate) fn write(out: &mut Vec<u8>, bytes: &[u8]) -> Result<(), NoMemory>
    ensures ok { OnOk result (out.new.items ≡ out.old.items ++ bytes.now) }
    ensures err { OnErr result (out.new.items ≡ out.old.items) }
{
    out.extend_from_slice(bytes)?;
    Ok(())
}

/// Adds a control frame with that body, or nothing where there is no memory. A body above the limit of a frame finds
/// none.
pub(crate) fn write_control(out: &mut Vec<u8>, body: &[u8]) -> Result<(), NoMemory>
    ensures ok { OnOk result (out.new.items ≡ out.old.items ++ frame_bytes (control_frame body.now)) }
    ensures err { OnErr result (out.new.items ≡ out.old.items) }
{
    if body.len() > BODY_LIMIT {
        return Err(NoMemory);
    }
    append_written(out, 2, 0, 0, body)
}

/// Adds a Pause frame, and a control frame with that body, or nothing where there is no memory.
fn write_paused(alloc: Global, out: &mut Vec<u8>, body: &[u8]) -> Result<(), NoMemory>
    ensures ok { OnOk result (out.new.items
        ≡ out.old.items ++ (frame_bytes pause_frame ++ frame_bytes (control_frame body.now))) }
    ensures err { OnErr result (out.new.items ≡ out.old.items) }
{
    let mut frames = Vec::new(alloc);
    append_written(&mut frames, 7, 0, 0, &[])?;
    write_control(&mut frames, body)?;
    write(out, &frames)
}

/// Adds the answer to a client whose request is refused, or nothing where there is no memory.
pub fn write_refusal(alloc: Global, reason: Reason, out: &mut Vec<u8>) -> Result<(), NoMemory>
    ensures ok { OnOk result (out.new.items ≡ out.old.items ++ refusal_bytes reason) }
    ensures err { OnErr result (out.new.items ≡ out.old.items) }
{
    let text = refuse_text(alloc, reason)?;
    write_control(out, text.as_slice())
}

/// Adds the answer to a client whose request is accepted, or nothing where there is no memory. An extension host begins
/// paused.
pub fn write_acceptance(alloc: Global, kind: Kind, out: &mut Vec<u8>) -> Result<(), NoMemory>
    requires { kind ≢ kinds.Tunnel }
    ensures ok { OnOk result (out.new.items ≡ out.old.items ++ acceptance_bytes kind) }
    ensures err { OnErr result (out.new.items ≡ out.old.items) }
{
    let text = accept_text(alloc, kind)?;
    match kind {
        Kind::ExtensionHost => write_paused(alloc, out, text.as_slice()),
        Kind::Management => write_control(out, text.as_slice()),
        Kind::Tunnel => unreachable!(),
    }
}
