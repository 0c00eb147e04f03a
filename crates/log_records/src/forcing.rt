// All records that wait become stable, or none.
ghost use Rattle.std.specs.Prelude.{◌≡◌, [], ◌++◌, List, OnOk, OnErr, IsErr};
ghost use Rattle.disk_model.specs.Disk.{Rises, Runs, LeavesOnly, In, Any, Same, IsSettled};
ghost use Rattle.formats.specs.declared.record.Record.{Record};
ghost use Rattle.log_blocks.specs.LogView.{used_of};
ghost use Rattle.log_records.specs.RecordLog.{Keeps, IsForcedPartly};

use crate::RecordLog;
use disk_model::{Failed, Machine};
use oper_core::Oper;

impl<O: Oper> RecordLog<O> {
    /// Makes the records that wait stable. Where none waits, no call is made. At `Err`, load the log again.
    pub fn force<M: Machine>(&mut self, m: &mut M) -> Result<(), Failed>
        ensures runs { Runs (In self.old.log.active Any) Same (M.disk m.old) (M.disk m.new) }

        // A crash at any moment of the call leaves the stable records, or all.
        ensures any_moment { (M.disk m.old).tells_moments → (stable pending : List (Record O)) → Keeps (O.meaning self.old.bounds) (M.disk m.old) self.old stable pending
            → LeavesOnly (M.disk m.old) (M.disk m.new) (IsForcedPartly (O.meaning self.old.bounds) (M.disk m.old) self.old stable pending) }

        ensures acknowledged { (M.disk m.old).tells_files → (stable pending : List (Record O)) → Keeps (O.meaning self.old.bounds) (M.disk m.old) self.old stable pending
            → OnOk result (Keeps (O.meaning self.old.bounds) (M.disk m.new) self.new (stable ++ pending) []) }

        ensures settled { IsSettled (M.disk m.old) → OnOk result (IsSettled (M.disk m.new)) }
        ensures forced { OnOk result (self.new ≡ record self.old {
          log = record self.old.log { end = used_of self.old.log; pending = []; room = self.new.log.room };
          forced = self.old.accepted;
        }) }
        ensures kept { OnErr result (self.new ≡ self.old) }
        ensures idle { self.old.log.pending ≡ [] → m.new ≡ m.old }
        ensures cause { IsErr result → Rises (M.disk m.old).disk_faults (M.disk m.new).disk_faults }
    {
        self.log.force(m)?;
        self.forced = self.accepted;
        Ok(())
    }
}
