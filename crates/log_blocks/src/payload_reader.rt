// Reads the payloads of a log, piece by piece.
ghost use Rattle.std.specs.Prelude.{◌≡◌, ◌<◌, ◌≤◌, ◌+◌, ◌^◌, ◌++◌, [], List, ℕ, IsTrue, IsFalse, IfErr, IfOk, OnErr, OnOk, length, take, drop};
ghost use Rattle.disk_model.specs.Disk.{Files, Rises, Stays, read_of};
ghost use Rattle.formats.specs.Log.{IsWholeLog};
ghost use Rattle.formats.specs.Reading.{FailsBy};
ghost use Rattle.log_blocks.specs.Forcing.{with_block};
ghost use Rattle.log_blocks.specs.Payloads.{IsInLog, remaining, ahead, HasNext, HasMore, HasPiece, IsNoLog};

use crate::LogFile;
use crate::layout::FIRST_BLOCK;
use crate::reading::open_block;
use disk_model::{FileNo, Machine, read_padded};
use formats::{BLOCK_HEAD, ReadErr};
use std::alloc::Global;
use std::marker::Model;

// The least number of bytes that are read at a time, unless fewer are left.
const PIECE: usize = 1 << 16;

/// Stands in the payloads of a log, with a part of one of them in memory, or all of it.
#[derive(Drop)]
pub struct PayloadReader {
    alloc: Global,
    file: FileNo,
    size: u64,

    // Where the bytes of the payload in hand go on that are not in memory, and how many there are.
    place: u64,
    left: u64,

    // The bytes in memory, of which so many were taken.
    bytes: Vec<u8>,
    taken: usize,
}

impl Model for PayloadReader {
    ghost use Rattle.std.specs.Prelude.{drop};
    ghost use Rattle.log_blocks.specs.Payloads.{PayloadReaderView, IsPiece};

    ghost Value = { PayloadReaderView };

    ghost view = { λ r. record { file = r.file; size = r.size; bytes = drop r.taken r.bytes.items; place = r.place; left = r.left } };

    ghost invariant = { λ r. IsPiece r.bytes.items r.taken r.place r.left };
}

// So many bytes of a file at a place, after those in front.
fn read_after<M: Machine>(
    alloc: Global,
    machine: &mut M,
    file: FileNo,
    place: u64,
    front: &[u8],
    count: usize,
) -> Result<Vec<u8>, ReadErr>
    ensures kept { Stays (M.disk machine.old) (M.disk machine.new) }
    ensures bytes { (files : Files) → (M.disk machine.new).agrees files → place + count ≤ length (files file)
        → IfOk result (λ found. found.items ≡ front.now ++ read_of (files file) place count) }
    ensures long { IfOk result (λ found. length found.items ≡ length front.now + count) }
    ensures cause { IfErr result (FailsBy (Rises (M.disk machine.old).disk_faults (M.disk machine.new).disk_faults) (λ f p. ⊥)) }
{
    let mut piece = vec![in alloc; 0; count]?;
    read_padded(machine, file, place, &mut piece)?;
    if front.is_empty() {
        return Ok(piece);
    }
    let mut bytes = front.to_vec(alloc)?;
    bytes.extend_from_slice(&piece)?;
    Ok(bytes)
}

impl PayloadReader {
    /// The file that it reads.
    pub fn file(&self) -> FileNo
        ensures { result ≡ self.now.file }
    {
        self.file
    }

    /// How many bytes of the payload in hand were not taken.
    pub fn remaining(&self) -> u64
        ensures { result ≡ remaining self.now }
    {
        (self.bytes.len() - self.taken) as u64 + self.left
    }

    /// The bytes in memory that were not taken.
    pub fn bytes(&self) -> &[u8]
        ensures value { result.now ≡ self.now.bytes }
        ensures short { length result.now ≤ 2 ^ 30 }
    {
        &self.bytes[self.taken..]
    }

    /// The place of the first byte that was not taken.
    pub fn place(&self) -> u64
        ensures { result + length self.now.bytes ≡ self.now.place }
    {
        self.place - (self.bytes.len() - self.taken) as u64
    }

    /// Takes so many bytes.
    pub fn take(&mut self, n: usize)
        requires { n ≤ length self.old.bytes }
        ensures took { self.new ≡ record self.old { bytes = drop n self.old.bytes } }
        ensures read { (file : List ℕ) (payloads passed : List (List ℕ)) (taken : List ℕ) (later : List (List ℕ)) → IsInLog file self.old payloads passed taken later
            → IsInLog file self.new payloads passed (taken ++ take n self.old.bytes) later }
    {
        self.taken += n;
    }

    /// Goes on to the next payload, of which nothing is in memory yet; false, and the reader stays, where none comes. What
    /// fails changes nothing.
    pub fn next_payload<M: Machine>(&mut self, machine: &mut M) -> Result<bool, ReadErr>
        requires through { remaining self.old ≡ 0 }
        ensures kept { Stays (M.disk machine.old) (M.disk machine.new) }
        ensures file { self.new.file ≡ self.old.file }
        ensures next { (files : Files) → (M.disk machine.new).agrees files → (payloads passed : List (List ℕ)) (taken : List ℕ) (later : List (List ℕ))
            → IsInLog (files self.old.file) self.old payloads passed taken later
            → IfOk result (HasNext (files self.new.file) self.new payloads (with_block passed taken) later) }
        ensures some { IfOk result (λ more. IsTrue more → (0 < remaining self.new) × (ahead self.new < ahead self.old)) }
        ensures stays { IfOk result (λ more. IsFalse more → self.new ≡ self.old) }
        ensures unmoved { OnErr result (self.new ≡ self.old) }
        ensures cause { IfErr result (FailsBy (Rises (M.disk machine.old).disk_faults (M.disk machine.new).disk_faults) (IsNoLog (M.disk machine.new) self.old)) }
    {
        let gate = self.place + self.left;
        let Some(len) = open_block(machine, self.file, self.size, gate)? else {
            return Ok(false);
        };
        self.place = gate + BLOCK_HEAD as u64;
        self.left = len as u64;
        Ok(true)
    }

    /// Adds further bytes of the payload in hand to those in memory that were not taken: 64 KiB, as many as these where they
    /// are more, or all that is left. False, and the reader stays, where nothing is left. What fails changes nothing.
    pub fn read_more<M: Machine>(&mut self, machine: &mut M) -> Result<bool, ReadErr>
        ensures kept { Stays (M.disk machine.old) (M.disk machine.new) }
        ensures file { self.new.file ≡ self.old.file }
        ensures read { (files : Files) → (M.disk machine.new).agrees files → (payloads passed : List (List ℕ)) (taken : List ℕ) (later : List (List ℕ))
            → IsInLog (files self.old.file) self.old payloads passed taken later
            → OnOk result (IsInLog (files self.new.file) self.new payloads passed taken later) }
        ensures further { IfOk result (HasMore self.old self.new) }
        ensures piece { IfOk result (λ more. IsTrue more → HasPiece self.old self.new) }
        ensures all { OnOk result ((remaining self.new ≡ remaining self.old) × (ahead self.new ≡ ahead self.old)) }
        ensures unmoved { OnErr result (self.new ≡ self.old) }
        ensures cause { IfErr result (FailsBy (Rises (M.disk machine.old).disk_faults (M.disk machine.new).disk_faults) (λ f p. ⊥)) }
    {
        if self.left == 0 {
            return Ok(false);
        }
        let front = &self.bytes[self.taken..];
        let count = self.left.min(front.len().max(PIECE) as u64);
        self.bytes = read_after(
            self.alloc,
            machine,
            self.file,
            self.place,
            front,
            count as usize,
        )?;
        self.taken = 0;
        self.place += count;
        self.left -= count;
        Ok(true)
    }
}

impl LogFile {
    /// A reader of the log's forced payloads, which has passed none.
    pub fn reader<M: Machine>(
        &self,
        alloc: Global,
        machine: &mut M,
    ) -> Result<PayloadReader, ReadErr>
        ensures kept { Stays (M.disk machine.old) (M.disk machine.new) }
        ensures through { IfOk result (λ it. remaining it ≡ 0) }
        ensures file { IfOk result (λ it. it.file ≡ self.now.active) }
        ensures starts { (files : Files) → (M.disk machine.new).agrees files → (payloads : List (List ℕ)) → IsWholeLog self.now.header payloads (files self.now.active)
            → IfOk result (λ it. IsInLog (files self.now.active) it payloads [] [] payloads) }
        ensures cause { IfErr result (FailsBy (Rises (M.disk machine.old).disk_faults (M.disk machine.new).disk_faults) (λ f p. ⊥)) }
    {
        Ok(PayloadReader {
            alloc,
            file: self.active,
            size: machine.size(self.active)?,
            place: FIRST_BLOCK,
            left: 0,
            bytes: Vec::new(alloc),
            taken: 0,
        })
    }
}
