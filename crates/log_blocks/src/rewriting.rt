// The steps of a rewrite: into the other file, whose header gate is closed meanwhile, a new log is written, which counts once
// that gate is open.
ghost use Rattle.std.specs.Prelude.{◌≡◌, ◌≢◌, ◌<◌, ◌^◌, [], ◌∷◌, IfOk, OnErr, OnOk, IsErr};
ghost use Rattle.byteorder.specs.Endian.{little_bytes};
ghost use Rattle.disk_model.specs.Disk.{HoldsAt, In, IsSettled, Rises, Runs, Same, Stays, Torn};
ghost use Rattle.formats.specs.InForce.{other_of};
ghost use Rattle.formats.specs.Log.{header_fields, IsClosedLog};
ghost use Rattle.log_blocks.specs.Reading.{header_of};
ghost use Rattle.log_blocks.specs.Rewriting.{KeepsClosed, next_header};
ghost use Rattle.log_blocks.specs.Writing.{HasPutLog, put_of, rewritten_to};

use crate::creating::close;
use crate::forcing::open_gate;
use crate::header::Header;
use crate::layout::{MAGIC, OPEN};
use crate::{LogFile, LogWriter};
use byteorder::{ByteOrder, LittleEndian};
use disk_model::{Failed, FileNo, Machine};
use formats::BLOCK_HEAD;
use oper_core::Memory;
use std::alloc::Global;

// The other of the two logs.
pub fn other(file: FileNo) -> FileNo
    ensures { result ≡ other_of file }
{
    match file {
        FileNo::LogA => FileNo::LogB,
        FileNo::LogB => FileNo::LogA,
        FileNo::Objects => FileNo::Objects,
    }
}

// What follows the header gate.
pub fn fields_of(header: Header) -> [u8; 32]
    ensures { result ≡ header_fields (header_of header) }
{
    let mut bytes = [0; 32];
    bytes[..8].copy_from_slice(&MAGIC);
    LittleEndian::write_u64(&mut bytes[8..], header.epoch);
    LittleEndian::write_u64(&mut bytes[16..], header.base);
    LittleEndian::write_u64(&mut bytes[24..], header.commands);
    bytes
}

// An open gate and a length.
pub fn block_head(len: u32) -> [u8; BLOCK_HEAD]
    ensures { result ≡ 1 ∷ little_bytes 4 len }
{
    let mut head = [OPEN; BLOCK_HEAD];
    LittleEndian::write_u32(&mut head[1..], len);
    head
}

impl LogFile {
    /// A writer of the log that takes the place of this one. It has put nothing, and writes into the other file.
    pub fn writer(&self, alloc: Global) -> Result<LogWriter, Memory>
        ensures made { IfOk result (λ it. it ≡ record { file = other_of self.now.active; place = 1; bytes = [] }) }
        ensures apart { self.now.active ≢ other_of self.now.active }
    {
        Ok(LogWriter::new(alloc, other(self.active))?)
    }

    /// Closes the header gate of the other file, into which the log is written that takes the place of this one.
    pub fn begin_rewrite<M: Machine>(&self, machine: &mut M) -> Result<(), Failed>
        ensures runs { Runs (In (other_of self.now.active) (Torn 0 1)) Same (M.disk machine.old) (M.disk machine.new) }
        ensures idle { (M.disk machine.old).tells_files → IsClosedLog ((M.disk machine.old).reads (other_of self.now.active)) → Stays (M.disk machine.old) (M.disk machine.new) }
        ensures closed { (M.disk machine.old).tells_files → OnOk result (IsClosedLog ((M.disk machine.new).reads (other_of self.now.active))) }
        ensures settled { IsSettled (M.disk machine.old) → OnOk result (IsSettled (M.disk machine.new)) }
        ensures cause { IsErr result → Rises (M.disk machine.old).disk_faults (M.disk machine.new).disk_faults }
    {
        close(machine, other(self.active))?;
        Ok(())
    }

    /// Begins the log that takes the place of this one: what was put then are its header, behind a closed gate, and nothing
    /// after it.
    pub fn begin_log<M: Machine>(
        &self,
        machine: &mut M,
        writer: &mut LogWriter,
        base: u64,
        commands: u64,
    ) -> Result<(), Failed>
        requires new { writer.old ≡ record { file = writer.old.file; place = 1; bytes = [] } }
        requires epoch { self.now.header.epoch < 2 ^ 62 }
        ensures runs { Runs (In writer.old.file KeepsClosed) Same (M.disk machine.old) (M.disk machine.new) }
        ensures file { writer.new.file ≡ writer.old.file }
        ensures begun { (M.disk machine.old).tells_files → IsClosedLog ((M.disk machine.old).reads writer.old.file)
            → OnOk result (HasPutLog (M.disk machine.new) writer.new (next_header self.now base commands) []) }
        ensures end { OnOk result (put_of writer.new ≡ 33) }
        ensures cause { IsErr result → Rises (M.disk machine.old).disk_faults (M.disk machine.new).disk_faults }
    {
        let header = Header {
            epoch: self.header.epoch + 1,
            base,
            commands,
        };
        writer.begin(machine, header)?;
        Ok(())
    }

    /// Puts the log that was written into the other file, up to this place, in the place of this one: its header gate is
    /// opened. At `Err`, load the log again.
    pub fn end_rewrite<M: Machine>(
        &mut self,
        machine: &mut M,
        base: u64,
        commands: u64,
        end: u64,
    ) -> Result<(), Failed>
        requires waits { self.old.pending ≡ [] }
        requires epoch { self.old.header.epoch < 2 ^ 62 }
        requires place { end < 2 ^ 48 }
        ensures runs { Runs (In (other_of self.old.active) (Torn 0 1)) Same (M.disk machine.old) (M.disk machine.new) }
        ensures opened { (M.disk machine.old).tells_files → OnOk result (In (other_of self.old.active) (HoldsAt 0 (1 ∷ [])) (M.disk machine.old).reads (M.disk machine.new).reads) }
        ensures settled { IsSettled (M.disk machine.old) → OnOk result (IsSettled (M.disk machine.new)) }
        ensures rewritten { OnOk result (self.new ≡ rewritten_to self.old base commands end) }
        ensures kept { OnErr result (self.new ≡ self.old) }
        ensures cause { IsErr result → Rises (M.disk machine.old).disk_faults (M.disk machine.new).disk_faults }
    {
        let file = other(self.active);
        open_gate(machine, file, 0)?;
        self.active = file;
        self.header = Header {
            epoch: self.header.epoch + 1,
            base,
            commands,
        };
        self.end = end;
        self.filled = end + 1;
        Ok(())
    }
}
