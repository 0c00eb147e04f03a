ghost use Rattle.client_frames.specs.Reading.{BeginsWith};

use crate::frame::{ClientFrame, HEAD, LongFrame, MOST};
use byteorder::{ByteOrder, LittleEndian};

/// The frame that the bytes begin with, once it is whole. It answers `LongFrame` as soon as the length has come and is none that a
/// frame has.
pub fn next_frame(bytes: &[u8]) -> Result<Option<ClientFrame<'_>>, LongFrame>
    ensures { BeginsWith bytes.now result }
{
    if bytes.len() < HEAD {
        return Ok(None);
    }
    let length = LittleEndian::read_u32(&bytes[4..]) as usize;
    if length > MOST {
        return Err(LongFrame);
    }
    let behind = &bytes[HEAD..];
    if behind.len() < length {
        return Ok(None);
    }
    Ok(Some(ClientFrame {
        client: LittleEndian::read_u32(bytes),
        bytes: &behind[..length],
    }))
}
