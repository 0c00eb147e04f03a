// Writes a new log piece by piece.
ghost use Rattle.std.specs.Prelude.{◌≡◌, ◌<◌, ◌≤◌, ◌+◌, ◌^◌, ◌∷◌, ◌++◌, [], List, ℕ, IfOk, IsErr, OnErr, OnOk, length, take};
ghost use Rattle.byteorder.specs.Endian.{little_bytes};
ghost use Rattle.disk_model.specs.Disk.{HoldsAt, In, IsSettledIn, Rises, Runs, Same, Torn};
ghost use Rattle.formats.specs.Log.{Header as Fields, blocks, IsClosedLog};
ghost use Rattle.log_blocks.specs.Reading.{header_of};
ghost use Rattle.log_blocks.specs.Rewriting.{IsPrepared, KeepsClosed, second_header};
ghost use Rattle.log_blocks.specs.Writing.{HasPut, HasPutLog, put_of};

use crate::creating::close;
use crate::header::Header;
use crate::layout::{CLOSED, OPEN};
use crate::rewriting::{block_head, fields_of};
use disk_model::{Failed, FileNo, Machine};
use std::alloc::{AllocError, Global};
use std::marker::Model;

// So many bytes are written at once.
const PIECE: usize = 1 << 16;

/// A new log in the making, in a file whose header gate is closed. What was put into it stands in the file, but for the
/// bytes in memory, which are a piece of 64 KiB at most. After its making it takes no memory.
#[derive(Drop)]
pub struct LogWriter {
    file: FileNo,

    // Where the bytes in memory go.
    place: u64,
    piece: Vec<u8>,
}

impl Model for LogWriter {
    ghost use Rattle.std.specs.Prelude.{vec_capacity};
    ghost use Rattle.log_blocks.specs.Writing.{LogWriterView, IsWriting};

    ghost Value = { LogWriterView };

    ghost view = { λ w. record { file = w.file; place = w.place; bytes = w.piece.items } };

    ghost invariant = { λ w. IsWriting w.place w.piece.items (vec_capacity w.piece) };
}

impl LogWriter {
    /// One that has put nothing: what it puts first goes behind the header gate.
    pub fn new(alloc: Global, file: FileNo) -> Result<LogWriter, AllocError>
        ensures { IfOk result (λ it. it ≡ record { file = file; place = 1; bytes = [] }) }
    {
        Ok(LogWriter {
            file,
            place: 1,
            piece: Vec::with_capacity(alloc, PIECE)?,
        })
    }

    /// The file that it writes.
    pub fn file(&self) -> FileNo
        ensures { result ≡ self.now.file }
    {
        self.file
    }

    /// The place after all that was put.
    pub fn end(&self) -> u64
        requires { self.now.place < 2 ^ 63 }
        ensures { result ≡ put_of self.now }
    {
        self.place + self.piece.len() as u64
    }

    /// Writes the bytes in memory; nothing is synced.
    pub fn write_out<M: Machine>(&mut self, machine: &mut M) -> Result<(), Failed>
        requires fits { self.old.place < 2 ^ 63 }
        ensures runs { Runs (In self.old.file KeepsClosed) Same (M.disk machine.old) (M.disk machine.new) }
        ensures put { (M.disk machine.old).tells_files → (front : List ℕ) → HasPut (M.disk machine.old) self.old front → OnOk result (HasPut (M.disk machine.new) self.new front) }
        ensures emptied { OnOk result (self.new ≡ record self.old { place = put_of self.old; bytes = [] }) }
        ensures kept { OnErr result (self.new ≡ self.old) }
        ensures cause { IsErr result → Rises (M.disk machine.old).disk_faults (M.disk machine.new).disk_faults }
    {
        machine.write_at(self.file, self.place, &self.piece)?;
        self.place += self.piece.len() as u64;
        self.piece.clear();
        Ok(())
    }

    // Writes the piece in hand if it is full, so that there is room for a byte.
    fn make_room<M: Machine>(&mut self, machine: &mut M) -> Result<(), Failed>
        requires fits { self.old.place < 2 ^ 63 }
        ensures runs { Runs (In self.old.file KeepsClosed) Same (M.disk machine.old) (M.disk machine.new) }
        ensures file { self.new.file ≡ self.old.file }
        ensures put { (M.disk machine.old).tells_files → (front : List ℕ) → HasPut (M.disk machine.old) self.old front → OnOk result (HasPut (M.disk machine.new) self.new front) }
        ensures end { put_of self.new ≡ put_of self.old }
        ensures room { OnOk result (length self.new.bytes < 65536) }
        ensures cause { IsErr result → Rises (M.disk machine.old).disk_faults (M.disk machine.new).disk_faults }
    {
        if self.piece.len() < PIECE {
            return Ok(());
        }
        self.write_out(machine)?;
        Ok(())
    }

    // Puts as many of these bytes as the piece in hand has room for, and answers how many.
    fn put_some<M: Machine>(&mut self, machine: &mut M, bytes: &[u8]) -> Result<usize, Failed>
        requires some { 0 < length bytes.now }
        requires fits { self.old.place < 2 ^ 63 }
        ensures runs { Runs (In self.old.file KeepsClosed) Same (M.disk machine.old) (M.disk machine.new) }
        ensures file { self.new.file ≡ self.old.file }
        ensures put { (M.disk machine.old).tells_files → (front : List ℕ) → HasPut (M.disk machine.old) self.old front
            → IfOk result (λ n. HasPut (M.disk machine.new) self.new (front ++ take n bytes.now)) }
        ensures some { IfOk result (λ n. (0 < n) × (n ≤ length bytes.now)) }
        ensures end { IfOk result (λ n. put_of self.new ≡ put_of self.old + n) }
        ensures cause { IsErr result → Rises (M.disk machine.old).disk_faults (M.disk machine.new).disk_faults }
    {
        self.make_room(machine)?;
        let n = bytes.len().min(PIECE - self.piece.len());
        let _ = self.piece.extend_from_slice(&bytes[..n]);
        Ok(n)
    }

    /// Puts bytes after those that were put.
    pub fn put<M: Machine>(&mut self, machine: &mut M, bytes: &[u8]) -> Result<(), Failed>
        requires fits { put_of self.old + length bytes.now < 2 ^ 63 }
        ensures runs { Runs (In self.old.file KeepsClosed) Same (M.disk machine.old) (M.disk machine.new) }
        ensures file { self.new.file ≡ self.old.file }
        ensures put { (M.disk machine.old).tells_files → (front : List ℕ) → HasPut (M.disk machine.old) self.old front
            → OnOk result (HasPut (M.disk machine.new) self.new (front ++ bytes.now)) }
        ensures end { OnOk result (put_of self.new ≡ put_of self.old + length bytes.now) }
        ensures cause { IsErr result → Rises (M.disk machine.old).disk_faults (M.disk machine.new).disk_faults }
    {
        let mut taken = 0;
        while taken < bytes.len() {
            let n = self.put_some(machine, &bytes[taken..])?;
            taken += n;
        }
        Ok(())
    }

    /// Begins a log: what was put then are a header, and nothing behind it. The header gate is closed.
    pub(crate) fn begin<M: Machine>(
        &mut self,
        machine: &mut M,
        header: Header,
    ) -> Result<(), Failed>
        requires { self.old ≡ record { file = self.old.file; place = 1; bytes = [] } }
        ensures runs { Runs (In self.old.file KeepsClosed) Same (M.disk machine.old) (M.disk machine.new) }
        ensures file { self.new.file ≡ self.old.file }
        ensures begun { (M.disk machine.old).tells_files → IsClosedLog ((M.disk machine.old).reads self.old.file)
            → OnOk result (HasPutLog (M.disk machine.new) self.new (header_of header) []) }
        ensures end { OnOk result (put_of self.new ≡ 33) }
        ensures cause { IsErr result → Rises (M.disk machine.old).disk_faults (M.disk machine.new).disk_faults }
    {
        self.put(machine, &fields_of(header))?;
        Ok(())
    }

    /// Closes the header gate of its file where it is open, and writes a first byte where there is none.
    pub fn close_header<M: Machine>(&self, machine: &mut M) -> Result<(), Failed>
        ensures runs { Runs (In self.now.file (Torn 0 1)) Same (M.disk machine.old) (M.disk machine.new) }
        ensures closed { (M.disk machine.old).tells_files → OnOk result (IsClosedLog ((M.disk machine.new).reads self.now.file)) }
        ensures cause { IsErr result → Rises (M.disk machine.old).disk_faults (M.disk machine.new).disk_faults }
    {
        close(machine, self.file)?;
        Ok(())
    }

    /// Begins the second log of a store, which has this base and so many commands before it: what was put then are its header,
    /// behind a closed gate, and nothing after it.
    pub fn begin_second<M: Machine>(
        &mut self,
        machine: &mut M,
        base: u64,
        commands: u64,
    ) -> Result<(), Failed>
        requires { self.old ≡ record { file = self.old.file; place = 1; bytes = [] } }
        ensures runs { Runs (In self.old.file KeepsClosed) Same (M.disk machine.old) (M.disk machine.new) }
        ensures file { self.new.file ≡ self.old.file }
        ensures begun { (M.disk machine.old).tells_files → IsClosedLog ((M.disk machine.old).reads self.old.file)
            → OnOk result (HasPutLog (M.disk machine.new) self.new (second_header base commands) []) }
        ensures end { OnOk result (put_of self.new ≡ 33) }
        ensures cause { IsErr result → Rises (M.disk machine.old).disk_faults (M.disk machine.new).disk_faults }
    {
        let header = Header {
            epoch: 2,
            base,
            commands,
        };
        self.begin(machine, header)?;
        Ok(())
    }

    /// Begins a block of so many bytes, which are put next.
    pub fn begin_block<M: Machine>(&mut self, machine: &mut M, len: u32) -> Result<(), Failed>
        requires fits { put_of self.old + 5 < 2 ^ 63 }
        ensures runs { Runs (In self.old.file KeepsClosed) Same (M.disk machine.old) (M.disk machine.new) }
        ensures file { self.new.file ≡ self.old.file }
        ensures put { (M.disk machine.old).tells_files → (front : List ℕ) → HasPut (M.disk machine.old) self.old front
            → OnOk result (HasPut (M.disk machine.new) self.new (front ++ 1 ∷ little_bytes 4 len)) }
        ensures end { OnOk result (put_of self.new ≡ put_of self.old + 5) }
        ensures cause { IsErr result → Rises (M.disk machine.old).disk_faults (M.disk machine.new).disk_faults }
    {
        self.put(machine, &block_head(len))?;
        Ok(())
    }

    /// Ends the log: a closed gate is put behind its blocks, and all that was put is on the disk. Its header gate is closed
    /// still.
    pub fn finish<M: Machine>(&mut self, machine: &mut M) -> Result<(), Failed>
        requires fits { put_of self.old + 1 < 2 ^ 63 }
        ensures runs { Runs (In self.old.file KeepsClosed) Same (M.disk machine.old) (M.disk machine.new) }
        ensures file { self.new.file ≡ self.old.file }
        ensures prepared { (M.disk machine.old).tells_files → (header : Fields) (payloads : List (List ℕ)) → HasPutLog (M.disk machine.old) self.old header (blocks payloads)
            → OnOk result (IsPrepared header payloads ((M.disk machine.new).reads self.old.file)) }
        ensures settled { OnOk result (IsSettledIn self.old.file (M.disk machine.new)) }
        ensures cause { IsErr result → Rises (M.disk machine.old).disk_faults (M.disk machine.new).disk_faults }
    {
        self.put(machine, &[CLOSED])?;
        self.write_out(machine)?;
        machine.sync(self.file)?;
        Ok(())
    }

    /// Opens the header gate of a log that is finished: from then on it counts.
    pub fn open_header<M: Machine>(&self, machine: &mut M) -> Result<(), Failed>
        ensures runs { Runs (In self.now.file (Torn 0 1)) Same (M.disk machine.old) (M.disk machine.new) }
        ensures opened { (M.disk machine.old).tells_files → OnOk result (In self.now.file (HoldsAt 0 (1 ∷ [])) (M.disk machine.old).reads (M.disk machine.new).reads) }
        ensures settled { OnOk result (IsSettledIn self.now.file (M.disk machine.new)) }
        ensures cause { IsErr result → Rises (M.disk machine.old).disk_faults (M.disk machine.new).disk_faults }
    {
        machine.write_at(self.file, 0, &[OPEN])?;
        machine.sync(self.file)?;
        Ok(())
    }
}
