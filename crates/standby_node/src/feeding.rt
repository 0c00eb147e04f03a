// A piece of the stream is followed, frame by frame and record by record.
ghost use Rattle.std.specs.Prelude.{◌≡◌, ◌<◌, ◌≤◌, ◌+◌, ◌^◌, ◌↔◌, false, [], length, None, Err as Refused, IfNone, IfOk, IfSome, IsTrue};
ghost use Rattle.frame_stream.specs.FrameBuffer.{taken_by};
ghost use Rattle.oper_core.specs.Meaning.{IsSmall};
ghost use Rattle.formats.specs.Records.{record_code};
ghost use Rattle.log_records.specs.Codec.{StartsWithRecord};
ghost use Rattle.execution.specs.Following.{HasLsn};
ghost use Rattle.store_engine.specs.Engine.{params_of};
ghost use Rattle.store_engine.specs.Store.{meaning_in};
ghost use Rattle.standby_node.specs.Feeding.{BeginsNoRecord, IsFed, is_above, low_mark, stopped_by, waiting_limit};
ghost use Rattle.standby_node.specs.Standby.{IsWithinFrame};
ghost use Rattle.standby_node.specs.Steps.{AreFramesFollowed, HasWholeFrame, IsFrameEnded, IsFrameFollowed, IsReading, IsReadingOf, IsRecordFollowed, IsRelieved};

use crate::{FollowErr, Standby};
use disk_model::Machine;
use formats::{LSN_END, Record};
use oper_core::{Bounds, Memory, Oper};
use std::alloc::Global;
use store_engine::Stat;

// A frame's payload stands behind so many bytes.
const HEAD: usize = 4;

// At a frame's end thin nodes are installed while more objects than this are dirty, as many at most together,
const DIRTY: u64 = 64;

// and, where more records than this wait for their install,
const WAITING: u64 = 16384;

// until no more than this do. The graph copies what is left as it gives back the slots of the others, so few are left.
const LOW_MARK: u64 = 1024;

// Whether too many objects are dirty, or more records wait than these.
fn is_over(stat: Stat, most: u64) -> bool
    ensures { result ≡ is_above most stat.dirty stat.uninstalled }
{
    stat.dirty > DIRTY || stat.uninstalled > most
}

// Whether a record has an LSN that a store may give.
fn has_lsn<O: Oper>(logged: &Record<O>) -> bool
    ensures { IsTrue result ↔ HasLsn logged.now }
{
    match logged.lsn() {
        Some(lsn) => lsn < LSN_END,
        None => false,
    }
}

// The record that the bytes begin with, and the length of its code, if it may stand in a frame.
pub(crate) fn decode_shipped<O: Oper>(
    alloc: Global,
    b: Bounds,
    bytes: &[u8],
) -> Result<Option<(Record<O>, usize)>, Memory>
    requires small { IsSmall b }
    ensures some { IfOk result (λ found. IfSome found (λ pair. StartsWithRecord (O.meaning b) bytes.now pair.0 × HasLsn pair.0 × (pair.1 ≡ length (record_code (O.meaning b) pair.0)))) }
    ensures none { IfOk result (λ found. IfNone found (BeginsNoRecord (O.meaning b) bytes.now)) }
{
    log_records::one_record::<O>();
    if let Some((logged, n)) = log_records::decode::<O>(alloc, b, bytes)? {
        if has_lsn(&logged) {
            return Ok(Some((logged, n)));
        }
    }
    Ok(None)
}

impl<O: Oper> Standby<O> {
    // How long the payload of the next frame is, if it is whole.
    fn next_frame(&self) -> Result<Option<u32>, FollowErr>
        ensures reading { IsReading self.now result }
        ensures within { IsWithinFrame self.now.frames.kept self.now.done }
    {
        match self.frames.next_frame() {
            Ok(size) => Ok(size),
            Err(_) => Err(FollowErr::BadFrame {
                place: self.frames.passed(),
            }),
        }
    }

    // The next record of the frame in hand, whose payload is so long, and the length of its code.
    fn next_record(&self, size: u32) -> Result<(Record<O>, usize), FollowErr>
        requires whole { 4 + size ≤ length self.now.frames.kept }
        requires left { self.now.done < size }
        ensures { IsReadingOf (meaning_in O.meaning (params_of self.now.engine)) self.now size result }
    {
        let params = self.engine.params();
        let bounds = Bounds {
            objects: params.objects,
            cap: params.cap,
            more: params.more,
        };
        let rest = &self.frames.kept()[HEAD + self.done..HEAD + size as usize];
        match decode_shipped::<O>(self.engine.alloc(), bounds, rest)? {
            Some(found) => Ok(found),
            None => Err(FollowErr::BadFrame {
                place: self.frames.place(HEAD + self.done),
            }),
        }
    }

    // Follows the next record of the frame in hand.
    fn follow_record<M: Machine>(&mut self, machine: &mut M, size: u32) -> Result<(), FollowErr>
        requires unbroken { self.old.engine.broken ≡ false }
        requires whole { HasWholeFrame self.old size }
        requires left { self.old.done < size }
        ensures { IsRecordFollowed O.meaning (M.disk machine.old) (M.disk machine.new) self.old self.new size result }
    {
        standing::image_stands::<O>();
        store_engine::records_are_judged::<O>();
        let (logged, n) = self.next_record(size)?;
        self.engine.follow(machine, logged)?;
        self.done += n;
        Ok(())
    }

    // Follows the records of the frame in hand that were not followed yet.
    fn follow_frame<M: Machine>(&mut self, machine: &mut M, size: u32) -> Result<(), FollowErr>
        requires unbroken { self.old.engine.broken ≡ false }
        requires whole { HasWholeFrame self.old size }
        requires within { self.old.done ≤ size }
        ensures { IsFrameFollowed O.meaning (M.disk machine.old) (M.disk machine.new) self.old self.new size result }
    {
        standing::image_stands::<O>();
        while self.done < size as usize {
            self.follow_record(machine, size)?;
        }
        Ok(())
    }

    // How many records may wait once this frame has ended.
    fn most_left(&self) -> u64
        ensures least { low_mark ≤ result }
        ensures most { result ≤ waiting_limit }
    {
        if self.engine.stat().uninstalled > WAITING {
            LOW_MARK
        } else {
            WAITING
        }
    }

    // Installs thin nodes, turn by turn, while too many objects are dirty or too many records wait, at the end of a frame that was
    // followed and forced.
    fn relieve<M: Machine>(&mut self, machine: &mut M) -> Result<(), FollowErr>
        requires unbroken { self.old.engine.broken ≡ false }
        requires through { HasWholeFrame self.old self.old.done }
        requires forced { self.old.engine.parts.log.log.pending ≡ [] }
        ensures { IsRelieved O.meaning (M.disk machine.old) (M.disk machine.new) self.old self.new result }
    {
        standing::image_stands::<O>();
        let most = self.most_left();
        while is_over(self.engine.stat(), most) {
            if self.engine.tend_thin(machine, DIRTY as usize)? == 0 {
                return Ok(());
            }
        }
        Ok(())
    }

    // Ends the frame in hand, which was followed: the log is forced, and thin nodes are installed while they have to be.
    fn end_frame<M: Machine>(&mut self, machine: &mut M, size: u32) -> Result<(), FollowErr>
        requires unbroken { self.old.engine.broken ≡ false }
        requires whole { HasWholeFrame self.old size }
        requires through { self.old.done ≡ size }
        ensures { IsFrameEnded O.meaning (M.disk machine.old) (M.disk machine.new) self.old self.new size result }
    {
        standing::image_stands::<O>();
        if self.engine.force(machine).is_err() {
            return Err(FollowErr::DiskFault);
        }
        self.relieve(machine)?;
        self.frames.pass(size);
        self.done = 0;
        Ok(())
    }

    // Follows the whole frames that came.
    fn follow_frames<M: Machine>(&mut self, machine: &mut M) -> Result<(), FollowErr>
        requires unbroken { self.old.engine.broken ≡ false }
        ensures { AreFramesFollowed O.meaning (M.disk machine.old) (M.disk machine.new) self.old self.new result }
    {
        standing::image_stands::<O>();
        while let Some(size) = self.next_frame()? {
            self.follow_frame(machine, size)?;
            self.end_frame(machine, size)?;
        }
        Ok(())
    }

    // Notes the frame in hand where its refusal stops the stream.
    fn note(&mut self, answer: &Result<(), FollowErr>)
        ensures { self.new ≡ record self.old { stopped = stopped_by self.old.frames.passed answer.now } }
    {
        self.stopped = match answer {
            Ok(()) | Err(FollowErr::Memory) => None,
            Err(_) => Some(self.frames.passed()),
        };
    }

    /// Follows a piece of the stream: each whole frame is followed record by record and forced at its end, where thin nodes are
    /// installed too while more than 64 objects are dirty, and, where more than 16,384 records wait for their install, until no more
    /// than 1,024 do. It answers how many commands were accepted since the store was made.
    ///
    /// A frame's length is judged once its four bytes came, a record once its frame is whole, the records of a frame one after the
    /// other. It answers `BadFrame` where a length is not 1 to 2^30, or where a record breaks the grammar, is a checkpoint, has an LSN
    /// from 2^62 on, or runs past its frame; `Gap` where an LSN is above the next; `Differs` where a command is refused, or an
    /// identity write has not its object's value; `LogFull` where the log would pass 2^48 bytes; `DiskFault`, `Damaged` and `Memory`.
    /// The records before it were followed, and are not forced in their frame. After `Memory` the next piece, which may be
    /// empty, goes on: `taken` tells whether this one is kept. After any other it answers `Stopped`, and nothing is done.
    pub fn feed<M: Machine>(&mut self, machine: &mut M, piece: &[u8]) -> Result<u64, FollowErr>
        requires unbroken { self.old.stopped ≡ None → self.old.engine.broken ≡ false }
        requires room { taken_by self.old.frames + length piece.now < 2 ^ 64 }
        ensures stopped { IfSome self.old.stopped (λ place. (result ≡ Refused (FollowErr.Stopped place)) × (machine.new ≡ machine.old) × (self.new ≡ self.old)) }
        ensures fed { self.old.stopped ≡ None → IsFed O.meaning (M.disk machine.old) (M.disk machine.new) self.old self.new piece.now result }
    {
        standing::image_stands::<O>();
        if let Some(place) = self.stopped {
            return Err(FollowErr::Stopped { place });
        }
        self.frames.take(piece)?;
        let answer = self.follow_frames(machine);
        self.note(&answer);
        answer?;
        Ok(self.engine.accepted())
    }
}
