// A checkpoint is appended to the log's buffer.
ghost use Rattle.std.specs.Prelude.{◌≡◌, ◌+◌, ◌*◌, false, length};
ghost use Rattle.running_store.specs.Calls.Checkpoints.{HasCheckpointed, IsCheckpointHere};
ghost use Rattle.running_store.specs.Calls.Logged.{HasPlace};

use crate::store::Store;
use dirty_page_table::DirtyPageTable;
use formats::Record;
use oper_core::{Memory, Oper};

impl<O: Oper> Store<O> {
    /// Logs a checkpoint, in the buffer alone. Without memory nothing changes but room.
    pub fn append_checkpoint(&mut self, table: DirtyPageTable) -> Result<(), Memory>
        requires unbroken { self.old.broken ≡ false }
        requires checkpoint { IsCheckpointHere (O.meaning self.old.parts.log.bounds) self.old.parts.log table }
        requires place { HasPlace self.old.parts.log.log (13 + 12 * length table.starts) }
        ensures { HasCheckpointed O.meaning self.old self.new table result }
    {
        self.log.append(Record::Checkpoint(table))?;
        Ok(())
    }
}
