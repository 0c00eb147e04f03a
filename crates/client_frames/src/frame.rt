ghost use Rattle.std.specs.Prelude.{◌≡◌, length};
ghost use Rattle.client_frames.specs.Frames.{frame_bytes, seen};

use thiserror::Error;

/// A frame has at most so many bytes behind its number and its length.
pub const MOST: usize = 1 << 16;

// What stands in front of a frame's bytes.
pub(crate) const HEAD: usize = 8;

/// No frame has the length that these bytes say.
#[derive(Clone, Copy, Debug, PartialEq, Eq, Error)]
#[error("no frame of a client has this length")]
pub struct LongFrame;

/// A frame, whose bytes lie in those that it was read from.
#[derive(Clone, Copy, Debug)]
pub struct ClientFrame<'a> {
    /// The number of its client.
    pub client: u32,
    /// What the client sent, or is sent; nothing where it is gone, or is to go.
    pub bytes: &'a [u8],
}

impl ClientFrame<'_> {
    /// How many bytes of a stream it takes.
    pub fn size(&self) -> usize
        ensures { result ≡ length (frame_bytes (seen self.now)) }
    {
        HEAD + self.bytes.len()
    }
}
