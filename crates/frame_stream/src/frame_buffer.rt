ghost use Rattle.std.specs.Prelude.{◌≡◌, ◌<◌, ◌≤◌, ◌+◌, ◌^◌, ◌∷◌, ◌++◌, [], List, ℕ, OnErr, OnOk, length, drop};
ghost use Rattle.formats.specs.Log.{IsPayload};
ghost use Rattle.frame_stream.specs.FrameBuffer.{BeginsWith, HasPassed, first_kept, taken_by};
ghost use Rattle.frame_stream.specs.Frames.{frame};

use byteorder::{ByteOrder, LittleEndian};
use formats::MAX_PAYLOAD;
use oper_core::Memory;
use std::alloc::Global;
use std::marker::Model;
use thiserror::Error;

// A frame's payload stands behind so many bytes, which are its length.
const LENGTH_BYTES: usize = 4;

/// No payload has the length that the frame says.
#[derive(Debug, Drop, Error)]
#[error("no frame has this length")]
pub struct BadLength;

/// What came of a stream of frames and was not passed yet.
#[derive(Drop)]
pub struct FrameBuffer {
    alloc: Global,

    // So many bytes of the stream were passed.
    passed: u64,

    // The bytes that came last, of which so many were passed.
    bytes: Vec<u8>,
    start: usize,
}

impl Model for FrameBuffer {
    ghost use Rattle.std.specs.Prelude.{◌+◌, ◌<◌, ◌≤◌, ◌^◌, drop, length};
    ghost use Rattle.frame_stream.specs.FrameBuffer.{FrameBufferView};

    ghost Value = { FrameBufferView };

    ghost view = { λ b. record { passed = b.passed; kept = drop b.start b.bytes.items } };

    ghost invariant = { λ b. (b.start ≤ length b.bytes.items) × (b.passed + length (drop b.start b.bytes.items) < 2 ^ 64) };
}

// The length of the payload of the frame that the bytes begin with, if it is whole.
fn payload_length(kept: &[u8]) -> Result<Option<u32>, BadLength>
    ensures { BeginsWith kept.now result }
{
    if kept.len() < LENGTH_BYTES {
        return Ok(None);
    }
    let length = LittleEndian::read_u32(kept);
    if length == 0 || length > MAX_PAYLOAD {
        return Err(BadLength);
    }
    if kept.len() - LENGTH_BYTES < length as usize {
        return Ok(None);
    }
    Ok(Some(length))
}

impl FrameBuffer {
    /// A buffer at the beginning of a stream.
    pub fn new(alloc: Global) -> FrameBuffer
        ensures is { result ≡ record { passed = 0; kept = [] } }
        ensures passed { HasPassed [] [] result }
    {
        FrameBuffer {
            alloc,
            passed: 0,
            bytes: Vec::new(alloc),
            start: 0,
        }
    }

    /// How many bytes of the stream came.
    pub fn taken(&self) -> u64
        ensures { result ≡ taken_by self.now }
    {
        self.passed + (self.bytes.len() - self.start) as u64
    }

    /// How many bytes of the stream were passed: the place of the first one that is kept.
    pub fn passed(&self) -> u64
        ensures { result ≡ self.now.passed }
    {
        self.passed
    }

    /// The place in the stream of a byte that is kept, or of the first one that is to come.
    pub fn place(&self, index: usize) -> u64
        requires { index ≤ length self.now.kept }
        ensures { result ≡ self.now.passed + index }
    {
        self.passed + index as u64
    }

    /// The place of a frame of which a part came and none was passed; none where the stream stands between two frames.
    pub fn at_frame_start(&self) -> Option<u64>
        ensures { result ≡ first_kept self.now.passed self.now.kept }
    {
        if self.start == self.bytes.len() {
            return None;
        }
        Some(self.passed)
    }

    /// The bytes that came and were not passed.
    pub fn kept(&self) -> &[u8]
        ensures { result.now ≡ self.now.kept }
    {
        &self.bytes[self.start..]
    }

    /// Takes a piece of the stream. Without memory nothing of it is taken.
    pub fn take(&mut self, piece: &[u8]) -> Result<(), Memory>
        requires { taken_by self.old + length piece.now < 2 ^ 64 }
        ensures taken { OnOk result (self.new ≡ record self.old { kept = self.old.kept ++ piece.now }) }
        ensures unmoved { OnErr result (self.new ≡ self.old) }
        ensures passed { (bytes : List ℕ) (payloads : List (List ℕ)) → HasPassed bytes payloads self.old → OnOk result (HasPassed (bytes ++ piece.now) payloads self.new) }
    {
        if self.start == 0 {
            self.bytes.extend_from_slice(piece)?;
            return Ok(());
        }
        let mut bytes = self.bytes[self.start..].to_vec(self.alloc)?;
        bytes.extend_from_slice(piece)?;
        self.bytes = bytes;
        self.start = 0;
        Ok(())
    }

    /// How long the payload of the next frame is, once the frame is whole. It answers `BadLength` as soon as the length came
    /// and is none that a payload has.
    pub fn next_frame(&self) -> Result<Option<u32>, BadLength>
        ensures { BeginsWith self.now.kept result }
    {
        payload_length(&self.bytes[self.start..])
    }

    /// Passes the next frame, which is whole, and whose payload has this length.
    pub fn pass(&mut self, length: u32)
        requires { 4 + length ≤ Rattle.std.specs.Prelude.length self.old.kept }
        ensures is { self.new ≡ record { passed = self.old.passed + (4 + length); kept = drop (4 + length) self.old.kept } }
        ensures passed { (bytes payload later : List ℕ) (payloads : List (List ℕ)) → HasPassed bytes payloads self.old → IsPayload payload → length ≡ Rattle.std.specs.Prelude.length payload →
            self.old.kept ≡ frame payload ++ later → HasPassed bytes (payloads ++ payload ∷ []) self.new }
    {
        let frame = LENGTH_BYTES + length as usize;
        self.passed += frame as u64;
        self.start += frame;
    }
}
