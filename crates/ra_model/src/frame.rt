//! A frame, the unit in which endpoints write to each other. Its bytes are defined in specs/Frames.
use ra_base::Message;

/// A frame on the wire, with a header of 13 bytes, or of 21 bytes where it is wide.
///
/// The body has at most 268,435,456 bytes. The id and the ack of a frame that is not wide are below 2^32.
#[derive(Debug, PartialEq, Eq, Drop)]
pub struct Frame {
    /// The type, below 128: 1 Regular (a message), 2 Control, 3 Ack, 5 Disconnect, 6 ReplayRequest, 7 Pause, 8 Resume, 9 KeepAlive.
    /// A frame of another type is one whose ack alone counts.
    pub kind: u8,
    /// The header is wide: its id and its ack have 8 bytes each, and not 4.
    pub wide: bool,
    /// The number of a message, and 0 in frames of other types.
    pub id: u64,
    /// The highest id that the writer received, and 0 in Control, Disconnect, ReplayRequest, Pause and Resume.
    pub ack: u64,
    /// What a message or a Control carries. Other types are written without one, and one that comes is ignored.
    pub body: Message,
}
