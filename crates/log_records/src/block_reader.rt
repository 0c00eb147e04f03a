// Reads what the blocks of a log have from an LSN on, one block after the other.
ghost use Rattle.std.specs.Prelude.{◌≡◌, ◌<◌, ◌↔◌, ◌∷◌, ◌++◌, [], List, ℕ, IsTrue, IfErr, IfOk, OnOk, length};
ghost use Rattle.disk_model.specs.Disk.{Rises, Stays};
ghost use Rattle.oper_core.specs.Meaning.{IsSmall};
ghost use Rattle.oper_core.specs.declared.bounds.Bounds.{Bounds};
ghost use Rattle.formats.specs.Reading.{FailsBy};
ghost use Rattle.formats.specs.Records.{payload_of};
ghost use Rattle.log_blocks.specs.LogView.{LogView};
ghost use Rattle.log_blocks.specs.Payloads.{ahead, remaining};
ghost use Rattle.log_records.specs.BlockReader.{IsReadingBlocks, HasGivenBlock};
ghost use Rattle.log_records.specs.Codec.{IsEncodable};
ghost use Rattle.log_records.specs.Loading.{IsTailFault};
ghost use Rattle.log_records.specs.Rewriting.{from_lsn};

use crate::RecordLog;
use crate::codec::encode;
use crate::record_reader::RecordReader;
use crate::rewriting::is_from_lsn;
use disk_model::Machine;
use formats::{ReadErr, Record};
use oper_core::{Memory, Oper};
use std::marker::Model;

/// Stands in the blocks of a log, and gives the commands and identity writes that they have from an LSN on. One block of these
/// is in memory at a time.
#[derive(Drop)]
pub struct BlockReader<O: Oper> {
    records: RecordReader<O>,
    from: u64,
}

impl<O: Oper> Model for BlockReader<O> {
    ghost use Rattle.oper_core.specs.Meaning.{IsSmall};
    ghost use Rattle.log_records.specs.BlockReader.{BlockReaderView};

    ghost Value = { BlockReaderView };

    ghost view = { λ r. record { records = r.records; from = r.from } };

    ghost invariant = { λ r. IsSmall r.records.bounds };
}

// Appends the code of a record that is numbered, from this LSN on.
fn push_from_lsn<O: Oper>(it: &Record<O>, from: u64, into: &mut Vec<u8>) -> Result<(), Memory>
    requires { IsEncodable O.meaning it.now }
    ensures { (b : Bounds) → OnOk result (into.new.items ≡ into.old.items ++ payload_of (O.meaning b) (from_lsn from (it.now ∷ []))) }
{
    if !is_from_lsn(it, from) {
        return Ok(());
    }
    encode(it, into)?;
    Ok(())
}

// Whether these are what the block in hand has, and it has any.
fn is_whole<O: Oper>(records: &RecordReader<O>, into: &[u8]) -> bool
    ensures { IsTrue result ↔ ((remaining records.now.payloads ≡ 0) × (0 < length into.now)) }
{
    records.is_between_blocks() && !into.is_empty()
}

// Appends what the next block has that has any; false, and no byte is appended, where none comes.
fn push_block<O: Oper, M: Machine>(
    m: &mut M,
    records: &mut RecordReader<O>,
    from: u64,
    into: &mut Vec<u8>,
) -> Result<bool, ReadErr>
    requires small { IsSmall records.old.bounds }
    requires empty { into.old.items ≡ [] }
    ensures kept { Stays (M.disk m.old) (M.disk m.new) }
    ensures bounds { records.new.bounds ≡ records.old.bounds }
    ensures less { IfOk result (λ more. IsTrue more → ahead records.new.payloads < ahead records.old.payloads) }
    ensures some { IfOk result (λ more. IsTrue more → 0 < length into.new.items) }
    ensures given { (log : LogView) (given : List (List ℕ)) → IsReadingBlocks (O.meaning records.old.bounds) (M.disk m.old) log (record { records = records.old; from = from }) given
        → IfOk result (HasGivenBlock (O.meaning records.old.bounds) (M.disk m.new) log (record { records = records.new; from = from }) given into.new.items) }
    ensures cause { (log : LogView) (given : List (List ℕ)) → IsReadingBlocks (O.meaning records.old.bounds) (M.disk m.old) log (record { records = records.old; from = from }) given
        → IfErr result (FailsBy (Rises (M.disk m.old).disk_faults (M.disk m.new).disk_faults) (IsTailFault (O.meaning records.old.bounds) (M.disk m.new) log)) }
{
    while let Some(record) = records.next(m)? {
        push_from_lsn(&record, from, into)?;
        if is_whole(records, into) {
            return Ok(true);
        }
    }
    Ok(false)
}

impl<O: Oper> BlockReader<O> {
    /// Makes of the bytes the payload of the next block that has any command or identity write from the reader's LSN on: these
    /// alone, as the log has them. False, and no byte, after the last one.
    pub fn next_block<M: Machine>(&mut self, m: &mut M, into: &mut Vec<u8>) -> Result<bool, ReadErr>
        ensures kept { Stays (M.disk m.old) (M.disk m.new) }
        ensures same { self.new ≡ record self.old { records = self.new.records } }
        ensures bounds { self.new.records.bounds ≡ self.old.records.bounds }
        ensures less { IfOk result (λ more. IsTrue more → ahead self.new.records.payloads < ahead self.old.records.payloads) }
        ensures some { IfOk result (λ more. IsTrue more → 0 < length into.new.items) }
        ensures given { (log : LogView) (given : List (List ℕ)) → IsReadingBlocks (O.meaning self.old.records.bounds) (M.disk m.old) log self.old given
            → IfOk result (HasGivenBlock (O.meaning self.old.records.bounds) (M.disk m.new) log self.new given into.new.items) }
        ensures cause { (log : LogView) (given : List (List ℕ)) → IsReadingBlocks (O.meaning self.old.records.bounds) (M.disk m.old) log self.old given
            → IfErr result (FailsBy (Rises (M.disk m.old).disk_faults (M.disk m.new).disk_faults) (IsTailFault (O.meaning self.old.records.bounds) (M.disk m.new) log)) }
    {
        into.clear();
        let more = push_block(m, &mut self.records, self.from, into)?;
        Ok(more)
    }
}

impl<O: Oper> RecordLog<O> {
    /// A reader of the blocks' commands and identity writes from an LSN on, that has given none.
    pub fn block_reader<M: Machine>(&self, m: &mut M, from: u64) -> Result<BlockReader<O>, ReadErr>
        ensures kept { Stays (M.disk m.old) (M.disk m.new) }
        ensures from { IfOk result (λ it. it.from ≡ from) }
        ensures bounds { IfOk result (λ it. it.records.bounds ≡ self.now.bounds) }
        ensures reading { IfOk result (λ it. IsReadingBlocks (O.meaning self.now.bounds) (M.disk m.new) self.now.log it []) }
        ensures cause { IfErr result (FailsBy (Rises (M.disk m.old).disk_faults (M.disk m.new).disk_faults) (λ f p. ⊥)) }
    {
        Ok(BlockReader {
            records: RecordReader::new(self.alloc, m, self.bounds, &self.log)?,
            from,
        })
    }
}
