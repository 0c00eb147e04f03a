// The log of a store is read.
ghost use Rattle.std.specs.Prelude.{◌≡◌, ◌≢◌, ◌<◌, ◌≤◌, ◌^◌, false, [], ℕ, List, length, IfErr, IfOk, IfSome, IsTrue};
ghost use Rattle.disk_model.specs.Disk.{Rises};
ghost use Rattle.disk_model.specs.declared.machine.FileNo.TheVariants.{Objects};
ghost use Rattle.formats.specs.declared.record.Record.{Record as Logged};
ghost use Rattle.formats.specs.Reading.{FailsBy};
ghost use Rattle.log_blocks.specs.LogView.{LogView};
ghost use Rattle.log_blocks.specs.Payloads.{ahead};
ghost use Rattle.log_records.specs.BlockReader.{HasGivenBlock, IsReadingBlocks};
ghost use Rattle.log_records.specs.Loading.{IsTailFault};
ghost use Rattle.log_records.specs.LsnReader.{IsReadingFromLsn, HasGiven, left_of};
ghost use Rattle.log_records.specs.RecordLog.{RecordLogView};
ghost use Rattle.running_store.specs.Calls.Faults.{has_failed, is_read_fault};
ghost use Rattle.running_store.specs.Calls.LogReads.{IsLogRead, IsReaderOf, IsSameReader};
ghost use Rattle.running_store.specs.StoreView.{next_of};

use crate::fault::note;
use crate::store::Store;
use disk_model::Machine;
use formats::{ReadErr, Record};
use log_records::{BlockReader, LsnReader};
use oper_core::Oper;

impl<O: Oper> Store<O> {
    /// A reader of the log's stable commands and identity writes from an LSN on, that has given none.
    pub fn log_reader<M: Machine>(
        &mut self,
        machine: &mut M,
        from: u64,
    ) -> Result<LsnReader<O>, ReadErr>
        requires unbroken { self.old.broken ≡ false }
        ensures kept { IsLogRead (M.disk machine.old) (M.disk machine.new) self.old self.new (has_failed is_read_fault result) }
        ensures reader { IfOk result (IsReaderOf O.meaning (M.disk machine.new) self.old.parts.log from) }
        ensures last { next_of self.old ≤ 2 ^ 62 }
        ensures cause { IfErr result (FailsBy (Rises (M.disk machine.old).disk_faults (M.disk machine.new).disk_faults) (λ f p. ⊥)) }
    {
        let answer = self.log.lsn_reader(machine, from);
        note(&mut self.broken, &answer);
        answer
    }

    /// The next command or identity write that a reader gives of the log; none after the last one. Between two calls the
    /// objects may change.
    pub fn read_log<M: Machine>(
        &mut self,
        machine: &mut M,
        reader: &mut LsnReader<O>,
    ) -> Result<Option<Record<O>>, ReadErr>
        requires unbroken { self.old.broken ≡ false }
        ensures kept { IsLogRead (M.disk machine.old) (M.disk machine.new) self.old self.new (has_failed is_read_fault result) }
        ensures reader { IsSameReader reader.old reader.new }
        ensures less { IfOk result (λ found. IfSome found (λ _. left_of reader.new < left_of reader.old)) }
        ensures read { (log : RecordLogView) (given : List (Logged O)) → IsReadingFromLsn (O.meaning reader.old.records.bounds) (M.disk machine.old) log reader.old given
            → IfOk result (HasGiven (O.meaning reader.old.records.bounds) (M.disk machine.new) log reader.new given) }
        ensures cause { (log : RecordLogView) (given : List (Logged O)) → IsReadingFromLsn (O.meaning reader.old.records.bounds) (M.disk machine.old) log reader.old given
            → IfErr result (FailsBy (Rises (M.disk machine.old).disk_faults (M.disk machine.new).disk_faults)
            (λ file place. log.log.active ≢ Objects → IsTailFault (O.meaning reader.old.records.bounds) (M.disk machine.new) log.log file place)) }
    {
        let answer = reader.next(machine);
        note(&mut self.broken, &answer);
        answer
    }

    /// A reader of what the log's blocks have of stable commands and identity writes from an LSN on, that has given none.
    pub fn block_reader<M: Machine>(
        &mut self,
        machine: &mut M,
        from: u64,
    ) -> Result<BlockReader<O>, ReadErr>
        requires unbroken { self.old.broken ≡ false }
        ensures kept { IsLogRead (M.disk machine.old) (M.disk machine.new) self.old self.new (has_failed is_read_fault result) }
        ensures from { IfOk result (λ it. it.from ≡ from) }
        ensures bounds { IfOk result (λ it. it.records.bounds ≡ self.old.parts.log.bounds) }
        ensures reading { IfOk result (λ it. IsReadingBlocks (O.meaning self.old.parts.log.bounds) (M.disk machine.new) self.old.parts.log.log it []) }
        ensures cause { IfErr result (FailsBy (Rises (M.disk machine.old).disk_faults (M.disk machine.new).disk_faults) (λ f p. ⊥)) }
    {
        let answer = self.log.block_reader(machine, from);
        note(&mut self.broken, &answer);
        answer
    }

    /// The payload of the next block that a reader gives of the log, as [`BlockReader::next_block`] does.
    pub fn next_block<M: Machine>(
        &mut self,
        machine: &mut M,
        reader: &mut BlockReader<O>,
        into: &mut Vec<u8>,
    ) -> Result<bool, ReadErr>
        requires unbroken { self.old.broken ≡ false }
        ensures kept { IsLogRead (M.disk machine.old) (M.disk machine.new) self.old self.new (has_failed is_read_fault result) }
        ensures same { (reader.new ≡ record reader.old { records = reader.new.records }) × (reader.new.records.bounds ≡ reader.old.records.bounds) }
        ensures less { IfOk result (λ more. IsTrue more → ahead reader.new.records.payloads < ahead reader.old.records.payloads) }
        ensures some { IfOk result (λ more. IsTrue more → 0 < length into.new.items) }
        ensures given { (log : LogView) (given : List (List ℕ)) → IsReadingBlocks (O.meaning reader.old.records.bounds) (M.disk machine.old) log reader.old given
            → IfOk result (HasGivenBlock (O.meaning reader.old.records.bounds) (M.disk machine.new) log reader.new given into.new.items) }
        ensures cause { (log : LogView) (given : List (List ℕ)) → IsReadingBlocks (O.meaning reader.old.records.bounds) (M.disk machine.old) log reader.old given
            → IfErr result (FailsBy (Rises (M.disk machine.old).disk_faults (M.disk machine.new).disk_faults) (IsTailFault (O.meaning reader.old.records.bounds) (M.disk machine.new) log)) }
    {
        let answer = reader.next_block(machine, into);
        note(&mut self.broken, &answer);
        answer
    }
}
