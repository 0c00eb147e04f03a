// The log in force, and its counts.
ghost use Rattle.std.specs.Prelude.{◌≡◌, ◌≤◌, ◌<◌, ◌+◌, ◌^◌, ◌++◌, length, OnOk, OnErr, IsErr};
ghost use Rattle.disk_model.specs.Disk.{Rises, Runs, Same, IsSettled};
ghost use Rattle.formats.specs.Records.{record_code, next_behind, IsRecord, IsPlaced};
ghost use Rattle.log_blocks.specs.LogView.{used_of, growth_of};
ghost use Rattle.log_blocks.specs.Creating.{LogsAlone, IsNewLog};
ghost use Rattle.log_records.specs.RecordLog.{counts};

use crate::codec::encode;
use crate::placing::{commands_in, next_behind};
use disk_model::{Failed, Machine};
use formats::Record;
use log_blocks::LogFile;
use oper_core::{Bounds, Memory, Oper};
use std::alloc::Global;
use std::marker::{Model, PhantomData};

/// The log's records in their files, and those that wait for a force.
#[derive(Drop)]
pub struct RecordLog<O: Oper> {
    pub(crate) alloc: Global,
    pub(crate) bounds: Bounds,
    pub(crate) log: LogFile,
    pub(crate) next: u64,
    pub(crate) accepted: u64,
    pub(crate) forced: u64,
    // What a command is encoded into.
    pub(crate) code: Vec<u8>,
    pub(crate) of: PhantomData<O>,
}

impl<O: Oper> Model for RecordLog<O> {
    ghost use Rattle.log_records.specs.RecordLog.{RecordLogView, IsCounted};

    ghost Value = { RecordLogView };

    ghost view = { λ s. record { bounds = s.bounds; log = s.log; next = s.next; accepted = s.accepted; forced = s.forced } };

    ghost invariant = { λ s. IsCounted s.bounds s.log.header s.accepted s.next };
}

impl<O: Oper> RecordLog<O> {
    /// How many logs the store had, this one counted. At 2^62 it is the last.
    pub fn epoch(&self) -> u64
        ensures value { result ≡ self.now.log.header.epoch }
        ensures last { result ≤ 2 ^ 62 }
    {
        self.log.epoch()
    }

    /// The number of the log's first numbered record, or of the next one where it has none.
    pub fn base(&self) -> u64
        ensures value { result ≡ self.now.log.header.base }
        ensures low { result ≤ self.now.next }
    {
        self.log.base()
    }

    /// The number of the next record.
    pub fn next(&self) -> u64
        ensures { result ≡ self.now.next }
    {
        self.next
    }

    /// The log's length, with the block that a force would add.
    pub fn used(&self) -> u64
        ensures { result ≡ used_of self.now.log }
    {
        self.log.used()
    }

    /// How many bytes of records wait for a force.
    pub fn buffered(&self) -> u64
        ensures { result ≡ length self.now.log.pending }
    {
        self.log.buffered()
    }

    /// By how much records of n bytes let the log grow.
    pub fn growth(&self, n: u64) -> u64
        requires { n ≤ 2 ^ 62 }
        ensures { result ≡ growth_of self.now.log.pending n }
    {
        self.log.growth(n)
    }

    /// How many commands were accepted since the store was made.
    pub fn accepted(&self) -> u64
        ensures { result ≡ self.now.accepted }
    {
        self.accepted
    }

    /// How many of them are stable.
    pub fn forced(&self) -> u64
        ensures { result ≡ self.now.forced }
    {
        self.forced
    }

    /// Makes the log of a new store. A crash at any moment of it leaves the objects as they were.
    pub fn create<M: Machine>(m: &mut M) -> Result<(), Failed>
        ensures runs { Runs LogsAlone Same (M.disk m.old) (M.disk m.new) }
        ensures made { (M.disk m.old).tells_files → OnOk result (IsNewLog (M.disk m.new).reads) }
        ensures settled { IsSettled (M.disk m.old) → OnOk result (IsSettled (M.disk m.new)) }
        ensures cause { IsErr result → Rises (M.disk m.old).disk_faults (M.disk m.new).disk_faults }
    {
        LogFile::create(m)
    }

    /// Adds a record after those that wait. A command is counted; a checkpoint takes no LSN. Without memory nothing changes
    /// but the room.
    pub fn append(&mut self, new: Record<O>) -> Result<(), Memory>
        requires placed { IsPlaced (O.meaning self.old.bounds) self.old.log.header.base self.old.next new }
        requires grammar { IsRecord (O.meaning self.old.bounds) new }
        requires short { length self.old.log.pending + length (record_code (O.meaning self.old.bounds) new) ≤ 2 ^ 30 }
        requires place { self.old.log.end + 5 + length self.old.log.pending + length (record_code (O.meaning self.old.bounds) new) < 2 ^ 49 }
        ensures ok { OnOk result (self.new ≡ record self.old {
          log = record self.old.log { pending = self.old.log.pending ++ record_code (O.meaning self.old.bounds) new; room = self.new.log.room };
          next = next_behind self.old.next new;
          accepted = self.old.accepted + counts new;
        }) }
        ensures err { OnErr result (self.new ≡ record self.old { log = record self.old.log { room = self.new.log.room } }) }
    {
        let next = next_behind(&new, self.next);
        let commands = commands_in(&new);
        let mut code = Vec::new(self.alloc);
        encode(&new, &mut code)?;
        self.log.make_room(code.len() as u64)?;
        self.log.push(&code);
        self.next = next;
        self.accepted += commands;
        Ok(())
    }
}
