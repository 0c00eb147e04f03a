ghost use Rattle.std.specs.Prelude.{◌≡◌, ◌≤◌, ◌^◌, ◌++◌, OnErr, OnOk, length, take};
ghost use Rattle.client_frames.specs.Frames.{frame_bytes, goodbye};
ghost use Rattle.client_frames.specs.Writing.{Carries};

use crate::frame::MOST;
use oper_core::Memory;

// Appends one frame. Without memory a part of it may stay behind the bytes.
fn append_frame(client: u32, bytes: &[u8], into: &mut Vec<u8>) -> Result<(), Memory>
    requires { length bytes.now ≤ 2 ^ 16 }
    ensures ok { OnOk result (into.new.items ≡ into.old.items ++ frame_bytes (record { client = client; bytes = bytes.now })) }
    ensures err { OnErr result (take (length into.old.items) into.new.items ≡ into.old.items) }
{
    into.extend_from_slice(&client.to_le_bytes())?;
    into.extend_from_slice(&(bytes.len() as u32).to_le_bytes())?;
    into.extend_from_slice(bytes)?;
    Ok(())
}

// Appends frames that carry bytes to a client. Without memory some of them may stay behind the bytes.
fn append_frames(client: u32, bytes: &[u8], into: &mut Vec<u8>) -> Result<(), Memory>
    ensures ok { OnOk result (Carries client bytes.now into.old.items into.new.items) }
    ensures err { OnErr result (take (length into.old.items) into.new.items ≡ into.old.items) }
{
    let mut rest = bytes;
    while rest.len() > MOST {
        let (piece, behind) = rest.split_at(MOST);
        append_frame(client, piece, into)?;
        rest = behind;
    }
    if rest.is_empty() {
        return Ok(());
    }
    append_frame(client, rest, into)
}

/// Appends frames that carry these bytes to a client, none where there are no bytes. Without memory nothing is appended.
pub fn push_frames(client: u32, bytes: &[u8], into: &mut Vec<u8>) -> Result<(), Memory>
    ensures ok { OnOk result (Carries client bytes.now into.old.items into.new.items) }
    ensures err { OnErr result (into.new.items ≡ into.old.items) }
{
    let whole = into.len();
    let appended = append_frames(client, bytes, into);
    if appended.is_err() {
        into.truncate(whole);
    }
    appended
}

/// Appends the frame that says that a client is to go, or that it was heard that it is gone. Without memory nothing is appended.
pub fn push_end(client: u32, into: &mut Vec<u8>) -> Result<(), Memory>
    ensures ok { OnOk result (into.new.items ≡ into.old.items ++ frame_bytes (goodbye client)) }
    ensures err { OnErr result (into.new.items ≡ into.old.items) }
{
    let whole = into.len();
    let appended = append_frame(client, &[], into);
    if appended.is_err() {
        into.truncate(whole);
    }
    appended
}
