// A command is checked, logged, and done on the objects.
ghost use Rattle.std.specs.Prelude.{◌≡◌, false};
ghost use Rattle.std.specs.Result.{result_err};
ghost use Rattle.store_engine.specs.Lists.{AreCalls};
ghost use Rattle.store_engine.specs.Commands.{HasRun};

use crate::Engine;
use disk_model::Machine;
use execution::{ExecErr, execute};
use oper_core::Oper;

impl<O: Oper> Engine<O> {
    /// Adds a command to the log's buffer, to the map and to the write graph. It answers how many were accepted since the
    /// store was made.
    ///
    /// The first that applies is answered: `Refused`, on the command alone; `DiskFault`, `Damaged` and `Memory` while the
    /// objects that it reads are fetched; `Refused`, on their values; `Memory`, where its code has 2^63 bytes or more;
    /// `LogFull` and `LsnEnd`, after a force outside groups; `Memory` for its values, its record and its entry. Where it
    /// isn't done the map is as it was. Within a group nothing is forced.
    pub fn exec<M: Machine>(&mut self, machine: &mut M, op: O) -> Result<u64, ExecErr>
        requires unbroken { self.old.broken ≡ false }
        ensures run { HasRun O.meaning (M.disk machine.old) (M.disk machine.new) self.old self.new op result }
        ensures calls { AreCalls O.meaning (M.disk machine.old) (M.disk machine.new) self.old self.new (result_err result) }
    {
        explain_core::every_run_keeps::<O>();
        explain_core::live_cache_is_the_map::<O>();
        explain_core::crash_takes_the_group::<O>();
        standing::image_stands::<O>();
        execution::exec_may_be_taken::<O>();
        execute(&mut self.store, machine, op, self.group.is_some())
    }
}
