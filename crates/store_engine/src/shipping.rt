// The log is read for whoever follows it.
ghost use Rattle.std.specs.Prelude.{◌≡◌, ◌<◌, ◌++◌, false, ℕ, List, length, Err as Refused, IfErr, IfOk, IsErrOf, IsTrue, OnOk};
ghost use Rattle.disk_model.specs.Disk.{Rises};
ghost use Rattle.disk_model.specs.declared.machine.FileNo.{FileNo};
ghost use Rattle.formats.specs.Reading.{FailsBy};
ghost use Rattle.log_blocks.specs.Payloads.{ahead};
ghost use Rattle.log_records.specs.BlockReader.{HasGivenBlock, IsReadingBlocks};
ghost use Rattle.log_records.specs.Loading.{IsTailFault};
ghost use Rattle.store_engine.specs.Engine.{IsAttached, IsEngineRead};
ghost use Rattle.store_engine.specs.Shipping.{AreFramesFrom, HasShipCause, IsReaderFrom, base_of};

use crate::Engine;
use crate::ship_err::ShipErr;
use disk_model::Machine;
use formats::ReadErr;
use frame_stream::push_frame;
use log_records::BlockReader;
use oper_core::Oper;

impl<O: Oper> Engine<O> {
    /// A reader of what the log's blocks have of stable commands and identity writes from an LSN on. It answers `Gone` where
    /// the log begins later, and nothing is done then; else it may fail with `DiskFault` and `Memory`.
    pub fn ship<M: Machine>(
        &mut self,
        machine: &mut M,
        from: u64,
    ) -> Result<BlockReader<O>, ShipErr>
        requires unbroken { self.old.broken ≡ false }
        ensures gone { from < base_of self.old → (result ≡ Refused (ShipErr.Gone (base_of self.old))) × (machine.new ≡ machine.old) × (self.new ≡ self.old) }
        ensures read { IsEngineRead O.meaning (M.disk machine.old) (M.disk machine.new) self.old self.new (IsErrOf result ShipErr.DiskFault) }
        ensures reader { IfOk result (IsReaderFrom O.meaning (M.disk machine.new) self.old from) }
        ensures cause { HasShipCause (base_of self.old) from (Rises (M.disk machine.old).disk_faults (M.disk machine.new).disk_faults) (λ file place. ⊥) result }
    {
        let base = self.store.log().base();
        if from < base {
            return Err(ShipErr::Gone { base });
        }
        Ok(self.store.block_reader(machine, from)?)
    }

    /// Makes of the bytes the payload of the next frame that a reader of the log gives; false, and no byte, after the last one.
    /// One block of the log is in memory. Between two calls the objects may change, but the log may not.
    pub fn next_shipped<M: Machine>(
        &mut self,
        machine: &mut M,
        reader: &mut BlockReader<O>,
        into: &mut Vec<u8>,
    ) -> Result<bool, ReadErr>
        requires unbroken { self.old.broken ≡ false }
        ensures read { IsEngineRead O.meaning (M.disk machine.old) (M.disk machine.new) self.old self.new (IsErrOf result ReadErr.DiskFault) }
        ensures same { (reader.new ≡ record reader.old { records = reader.new.records }) × (reader.new.records.bounds ≡ reader.old.records.bounds) }
        ensures less { IfOk result (λ more. IsTrue more → ahead reader.new.records.payloads < ahead reader.old.records.payloads) }
        ensures some { IfOk result (λ more. IsTrue more → 0 < length into.new.items) }
        ensures given { (given : List (List ℕ)) → IsReadingBlocks (O.meaning reader.old.records.bounds) (M.disk machine.old) self.old.parts.log.log reader.old given
            → IfOk result (HasGivenBlock (O.meaning reader.old.records.bounds) (M.disk machine.new) self.old.parts.log.log reader.new given into.new.items) }
        ensures undamaged { (M.disk machine.old).tells_files → IsAttached O.meaning (M.disk machine.old) self.old → reader.old.records.bounds ≡ self.old.parts.log.bounds → (given : List (List ℕ))
            → IsReadingBlocks (O.meaning reader.old.records.bounds) (M.disk machine.old) self.old.parts.log.log reader.old given → (file : FileNo) (place : ℕ) → IsErrOf result (ReadErr.Damaged file place) → ⊥ }
        ensures cause { (given : List (List ℕ)) → IsReadingBlocks (O.meaning reader.old.records.bounds) (M.disk machine.old) self.old.parts.log.log reader.old given
            → IfErr result (FailsBy (Rises (M.disk machine.old).disk_faults (M.disk machine.new).disk_faults) (IsTailFault (O.meaning reader.old.records.bounds) (M.disk machine.new) self.old.parts.log.log)) }
    {
        // Called for its clause: the log has the store's bounds.
        let _params = self.store.params();
        self.store.next_block(machine, reader, into)
    }

    /// Appends the frames of what the log's blocks have of stable commands and identity writes from an LSN on: one for each
    /// block that has any. All of them are in memory at once.
    ///
    /// It answers `Gone` where the log begins later, and nothing is done then; else it may fail with `DiskFault`, with `Damaged`
    /// where a record breaks its format, and with `Memory`; then some frames may have been appended.
    pub fn frames<M: Machine>(
        &mut self,
        machine: &mut M,
        from: u64,
        into: &mut Vec<u8>,
    ) -> Result<(), ShipErr>
        requires unbroken { self.old.broken ≡ false }
        ensures gone { from < base_of self.old → (result ≡ Refused (ShipErr.Gone (base_of self.old))) × (machine.new ≡ machine.old) × (self.new ≡ self.old) × (into.new ≡ into.old) }
        ensures read { IsEngineRead O.meaning (M.disk machine.old) (M.disk machine.new) self.old self.new (IsErrOf result ShipErr.DiskFault) }
        ensures frames { (M.disk machine.old).tells_files → OnOk result ((bytes : List ℕ) × AreFramesFrom O.meaning (M.disk machine.old) self.old from bytes × (into.new.items ≡ into.old.items ++ bytes)) }
        ensures undamaged { (M.disk machine.old).tells_files → IsAttached O.meaning (M.disk machine.old) self.old → (file : FileNo) (place : ℕ) → IsErrOf result (ShipErr.Damaged file place) → ⊥ }
        ensures cause { HasShipCause (base_of self.old) from (Rises (M.disk machine.old).disk_faults (M.disk machine.new).disk_faults) (IsTailFault (O.meaning self.old.parts.log.bounds) (M.disk machine.new) self.old.parts.log.log) result }
    {
        let _params = self.store.params();
        let mut reader = self.ship(machine, from)?;
        let mut payload = Vec::new(self.alloc());
        while self.next_shipped(machine, &mut reader, &mut payload)? {
            push_frame(&payload, into)?;
        }
        Ok(())
    }
}
