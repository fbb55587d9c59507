//! The writer: the bytes of a frame.
ghost use Rattle.std.specs.Prelude.{◌≡◌, ◌<◌, ◌≤◌, ◌^◌, ◌++◌, ◌||◌, nat_le, length, true, false, OnOk, OnErr};
ghost use Rattle.ra_model.specs.declared.frame.Frame.{Frame};
ghost use Rattle.ra_model.specs.Frames.{IsFrame, frame_bytes, body_limit};
ghost use Rattle.ra_model.specs.FrameKinds.{written_frame};

use ra_base::NoMemory;
use ra_model::Frame;

/// The 13 bytes before the body.
fn short_header(kind: u8, id: u32, ack: u32, len: u32) -> [u8; 13]
    ensures { (f : Frame) → f.wide ≡ false → f.kind ≡ kind → f.id ≡ id → f.ack ≡ ack → length f.body ≡ len → frame_bytes f ≡ result ++ f.body }
{
    let [i0, i1, i2, i3] = id.to_be_bytes();
    let [a0, a1, a2, a3] = ack.to_be_bytes();
    let [l0, l1, l2, l3] = len.to_be_bytes();
    [kind, i0, i1, i2, i3, a0, a1, a2, a3, l0, l1, l2, l3]
}

/// The 21 bytes before the body.
fn wide_header(kind: u8, id: u64, ack: u64, len: u32) -> [u8; 21]
    requires { kind < 128 }
    ensures { (f : Frame) → f.wide ≡ true → f.kind ≡ kind → f.id ≡ id → f.ack ≡ ack → length f.body ≡ len → frame_bytes f ≡ result ++ f.body }
{
    let [i0, i1, i2, i3, i4, i5, i6, i7] = id.to_be_bytes();
    let [a0, a1, a2, a3, a4, a5, a6, a7] = ack.to_be_bytes();
    let [l0, l1, l2, l3] = len.to_be_bytes();
    [
        kind + 128,
        i0,
        i1,
        i2,
        i3,
        i4,
        i5,
        i6,
        i7,
        a0,
        a1,
        a2,
        a3,
        a4,
        a5,
        a6,
        a7,
        l0,
        l1,
        l2,
        l3,
    ]
}

/// The bytes before the body of a frame that is not wide.
pub fn header(frame: &Frame) -> [u8; 13]
    requires fits { IsFrame frame.now }
    requires short { frame.now.wide ≡ false }
    ensures { frame_bytes frame.now ≡ result ++ frame.now.body }
{
    short_header(
        frame.kind,
        frame.id as u32,
        frame.ack as u32,
        frame.body.as_slice().len() as u32,
    )
}

/// The bytes before the body of a wide frame.
pub fn header_wide(frame: &Frame) -> [u8; 21]
    requires fits { IsFrame frame.now }
    requires wide { frame.now.wide ≡ true }
    ensures { frame_bytes frame.now ≡ result ++ frame.now.body }
{
    wide_header(
        frame.kind,
        frame.id,
        frame.ack,
        frame.body.as_slice().len() as u32,
    )
}

/// Adds the bytes of a frame, or nothing where there is no memory.
pub fn append(frame: &Frame, to: &mut Vec<u8>) -> Result<(), NoMemory>
    requires fits { IsFrame frame.now }
    ensures ok { OnOk result (to.new.items ≡ to.old.items ++ frame_bytes frame.now) }
    ensures err { OnErr result (to.new.items ≡ to.old.items) }
{
    to.reserve(21 + frame.body.as_slice().len())?;
    if frame.wide {
        to.extend_from_slice(&header_wide(frame))?;
    } else {
        to.extend_from_slice(&header(frame))?;
    }
    to.extend_from_slice(frame.body.as_slice())?;
    Ok(())
}

/// An id or an ack needs a wide header.
fn needs_wide(id: u64, ack: u64) -> bool
    ensures { result ≡ (nat_le 4294967296 id || nat_le 4294967296 ack) }
{
    id >= 4_294_967_296 || ack >= 4_294_967_296
}

/// Adds the bytes of a frame as an endpoint writes it, wide exactly where its id or its ack is at least 2^32, or nothing where
/// there is no memory.
pub fn append_written(
    to: &mut Vec<u8>,
    kind: u8,
    id: u64,
    ack: u64,
    body: &[u8],
) -> Result<(), NoMemory>
    requires kind { kind < 128 }
    requires body { length body.now ≤ body_limit }
    ensures ok { OnOk result (to.new.items ≡ to.old.items ++ frame_bytes (written_frame kind id ack body.now)) }
    ensures err { OnErr result (to.new.items ≡ to.old.items) }
{
    to.reserve(21 + body.len())?;
    if needs_wide(id, ack) {
        to.extend_from_slice(&wide_header(kind, id, ack, body.len() as u32))?;
        to.extend_from_slice(body)?;
        return Ok(());
    }
    to.extend_from_slice(&short_header(kind, id as u32, ack as u32, body.len() as u32))?;
    to.extend_from_slice(body)?;
    Ok(())
}
