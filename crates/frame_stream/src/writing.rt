ghost use Rattle.std.specs.Prelude.{◌≡◌, ◌++◌, length, take, OnErr, OnOk};
ghost use Rattle.frame_stream.specs.Frames.{frame};

use oper_core::Memory;

/// How the frame of a payload begins: what comes before the payload.
pub fn frame_head(payload: &[u8]) -> [u8; 4]
    ensures { result ++ payload.now ≡ frame payload.now }
{
    let length = (payload.len() as u64).to_le_bytes();
    [length[0], length[1], length[2], length[3]]
}

/// Appends the frame of a payload. Without memory nothing is appended.
pub fn push_frame(payload: &[u8], into: &mut Vec<u8>) -> Result<(), Memory>
    ensures ok { OnOk result (into.new.items ≡ into.old.items ++ frame payload.now) }
    ensures err { OnErr result (into.new.items ≡ into.old.items) }
{
    let whole = into.len();
    let appended = append(payload, into);
    if appended.is_err() {
        into.truncate(whole);
    }
    appended
}

// The same, but a part of the frame may stay behind the bytes.
fn append(payload: &[u8], into: &mut Vec<u8>) -> Result<(), Memory>
    ensures ok { OnOk result (into.new.items ≡ into.old.items ++ frame payload.now) }
    ensures err { OnErr result (take (length into.old.items) into.new.items ≡ into.old.items) }
{
    into.extend_from_slice(&frame_head(payload))?;
    into.extend_from_slice(payload)?;
    Ok(())
}
