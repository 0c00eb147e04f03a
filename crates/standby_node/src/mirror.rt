// A store's log in memory, with which the records of a stream are compared before they are followed.
ghost use Rattle.std.specs.Prelude.{◌≡◌, ◌<◌, ◌≤◌, ◌+◌, ◌^◌, ◌∷◌, ◌++◌, [], List, ℕ, length, IfNone, IfOk, IfSome, IsTrue, OnOk, None, Ok, Some};
ghost use Rattle.oper_core.specs.Meaning.{IsSmall};
ghost use Rattle.formats.specs.Records.{record_code};
ghost use Rattle.formats.specs.declared.record.Record.{Record as Logged};
ghost use Rattle.frame_stream.specs.FrameBuffer.{BeginsWith, taken_by};
ghost use Rattle.frame_stream.specs.Frames.{IsUnfinished};
ghost use Rattle.log_records.specs.Codec.{StartsWithRecord};
ghost use Rattle.execution.specs.Following.{HasLsn};
ghost use Rattle.standby_node.specs.Feeding.{BeginsNoRecord};
ghost use Rattle.standby_node.specs.Same.{ComparesFrame, ComparesPiece, HasCompared, IsCompared, IsPayloadCompared, lsn_in};

use crate::CompareErr;
use crate::feeding::decode_shipped;
use frame_stream::FrameBuffer;
use oper_core::{Bounds, ByteList, Memory, Oper};
use std::alloc::Global;
use std::marker::Model;

// A frame's payload stands behind so many bytes.
const HEAD: usize = 4;

/// The records of a store's log, and of a stream that goes on behind them, with which what comes of the stream is compared. All of
/// their codes are in memory.
#[derive(Drop)]
pub struct Mirror {
    alloc: Global,
    bounds: Bounds,
    // The LSN of the first record.
    base: u64,
    codes: Vec<ByteList>,
    frames: FrameBuffer,
}

impl Model for Mirror {
    ghost use Rattle.oper_core.specs.Meaning.{IsSmall};
    ghost use Rattle.standby_node.specs.Same.{MirrorView};

    ghost Value = { MirrorView };

    ghost view = { λ it. record { bounds = it.bounds; base = it.base; codes = it.codes.items; frames = it.frames } };

    ghost invariant = { λ it. IsSmall it.bounds };
}

// Appends a code.
fn push_code(alloc: Global, codes: &mut Vec<ByteList>, code: &[u8]) -> Result<(), Memory>
    ensures { OnOk result (codes.new.items ≡ codes.old.items ++ code.now ∷ []) }
{
    let copy = code.to_vec(alloc)?;
    codes.push(ByteList::new(copy))?;
    Ok(())
}

// Compares a record that has this LSN and this code, and takes it where it comes next.
fn compare_code(
    alloc: Global,
    base: u64,
    codes: &mut Vec<ByteList>,
    lsn: u64,
    code: &[u8],
) -> Result<(), CompareErr>
    ensures { IsCompared base codes.old.items codes.new.items lsn code.now result }
{
    if lsn < base {
        return Err(CompareErr::Unknown { lsn });
    }
    let index = (lsn - base) as usize;
    if index > codes.len() {
        return Ok(());
    }
    if index == codes.len() {
        push_code(alloc, codes, code)?;
        return Ok(());
    }
    if codes[index].as_slice() == code {
        Ok(())
    } else {
        Err(CompareErr::Differs { lsn })
    }
}

// The LSN of the record that the bytes begin with, and the length of its code, if it may stand in a frame.
fn next_code<O: Oper>(
    alloc: Global,
    b: Bounds,
    bytes: &[u8],
) -> Result<Option<(u64, usize)>, Memory>
    requires small { IsSmall b }
    ensures some { IfOk result (λ found. IfSome found (λ pair. (r : Logged O) × StartsWithRecord (O.meaning b) bytes.now r × HasLsn r × (pair.0 ≡ lsn_in r) × (pair.1 ≡ length (record_code (O.meaning b) r)))) }
    ensures none { IfOk result (λ found. IfNone found (BeginsNoRecord (O.meaning b) bytes.now)) }
{
    match decode_shipped::<O>(alloc, b, bytes)? {
        Some((logged, n)) => match logged.lsn() {
            Some(lsn) => Ok(Some((lsn, n))),
            None => Ok(None),
        },
        None => Ok(None),
    }
}

// Compares the records of a payload, and answers whether it has nothing but records. Else none of them is taken.
fn compare_payload<O: Oper>(
    alloc: Global,
    b: Bounds,
    base: u64,
    codes: &mut Vec<ByteList>,
    payload: &[u8],
) -> Result<bool, CompareErr>
    requires small { IsSmall b }
    ensures { IsPayloadCompared base (O.meaning b) codes.old.items codes.new.items payload.now result }
{
    log_records::one_record::<O>();
    let before = codes.len();
    let mut at = 0;
    while at < payload.len() {
        let rest = &payload[at..];
        match next_code::<O>(alloc, b, rest)? {
            Some((lsn, n)) => {
                compare_code(alloc, base, codes, lsn, &rest[..n])?;
                at += n;
            }
            None => {
                codes.truncate(before);
                return Ok(false);
            }
        }
    }
    Ok(true)
}

impl Mirror {
    // Nothing but the LSN from which on a log has its records.
    pub(crate) fn new(alloc: Global, bounds: Bounds, base: u64) -> Mirror
        requires small { IsSmall bounds }
        ensures { result ≡ record { bounds = bounds; base = base; codes = []; frames = record { passed = 0; kept = [] } } }
    {
        Mirror {
            alloc,
            bounds,
            base,
            codes: Vec::new(alloc),
            frames: FrameBuffer::new(alloc),
        }
    }

    // The same records, at the beginning of a stream.
    pub(crate) fn at_start(self) -> Mirror
        ensures { result ≡ record self { frames = record { passed = 0; kept = [] } } }
    {
        Mirror {
            frames: FrameBuffer::new(self.alloc),
            ..self
        }
    }

    // How long the payload of the next frame is, where that is whole.
    fn next_size(&self) -> Option<u32>
        ensures whole { IfSome result (λ size. BeginsWith self.now.frames.kept (Ok (Some size))) }
        ensures unfinished { result ≡ None → IsUnfinished self.now.frames.kept }
    {
        match self.frames.next_frame() {
            Ok(size) => size,
            Err(_) => None,
        }
    }

    // Compares the next frame, whose payload is so long, and passes it where it has nothing but records.
    fn compare_frame<O: Oper>(&mut self, size: u32) -> Result<bool, CompareErr>
        requires whole { BeginsWith self.old.frames.kept (Ok (Some size)) }
        ensures same { (self.new.bounds ≡ self.old.bounds) × (self.new.base ≡ self.old.base) }
        ensures taken { IfOk result (λ _. taken_by self.new.frames ≡ taken_by self.old.frames) }
        ensures less { IfOk result (λ is. IsTrue is → length self.new.frames.kept < length self.old.frames.kept) }
        ensures compared { (first : List (List ℕ)) (bytes : List ℕ) → HasCompared (O.meaning self.old.bounds) first bytes self.old → ComparesFrame (O.meaning self.old.bounds) first bytes self.new result }
    {
        let frame = HEAD + size as usize;
        let payload = &self.frames.kept()[HEAD..frame];
        let is = compare_payload::<O>(
            self.alloc,
            self.bounds,
            self.base,
            &mut self.codes,
            payload,
        )?;
        if !is {
            return Ok(false);
        }
        self.frames.pass(size);
        Ok(true)
    }

    // Compares the whole frames that came.
    fn compare_frames<O: Oper>(&mut self) -> Result<(), CompareErr>
        ensures same { (self.new.bounds ≡ self.old.bounds) × (self.new.base ≡ self.old.base) }
        ensures taken { IfOk result (λ _. taken_by self.new.frames ≡ taken_by self.old.frames) }
        ensures compared { (first : List (List ℕ)) (bytes : List ℕ) → HasCompared (O.meaning self.old.bounds) first bytes self.old → ComparesPiece (O.meaning self.old.bounds) first bytes self.new result }
    {
        while let Some(size) = self.next_size() {
            if !self.compare_frame::<O>(size)? {
                return Ok(());
            }
        }
        Ok(())
    }

    /// Compares what came of a stream, with this piece of it, with what the store has: each record of the frames that are whole is
    /// compared by its code with the one that has its LSN, which is the store's own, or came before; the first that is another one
    /// is `Differs`, and one that stands before the log's first one `Unknown`. At a length or a record that is none of a frame it
    /// stops, and answers nothing: the standby refuses it. Without memory, or after a difference, it is not asked again.
    pub fn take<O: Oper>(&mut self, piece: &[u8]) -> Result<(), CompareErr>
        requires room { taken_by self.old.frames + length piece.now < 2 ^ 64 }
        ensures same { (self.new.bounds ≡ self.old.bounds) × (self.new.base ≡ self.old.base) }
        ensures taken { IfOk result (λ _. taken_by self.new.frames ≡ taken_by self.old.frames + length piece.now) }
        ensures compared { (first : List (List ℕ)) (bytes : List ℕ) → HasCompared (O.meaning self.old.bounds) first bytes self.old
            → ComparesPiece (O.meaning self.old.bounds) first (bytes ++ piece.now) self.new result }
    {
        self.frames.take(piece)?;
        self.compare_frames::<O>()
    }
}
