// What a store in memory asks of its caller.
ghost use Rattle.std.specs.Prelude.{◌≡◌, ◌++◌, [], List};
ghost use Rattle.formats.specs.declared.params.Params.{Params};
ghost use Rattle.op_codec.specs.AllOps.{AllOps as Command, all_meaning};
ghost use Rattle.store_engine.specs.Engine.{Holds, IsAttached};
ghost use Rattle.write_queue.specs.Memory.{LooksTheSame, disk_of, taken_from, waiting_in};
ghost use Rattle.write_queue.specs.Waiting.{calls_in};

use crate::Store;
use write_queue::{QueueMem, Queued};

impl Store<QueueMem> {
    /// Gives the calls since the last time, in their order. The caller makes them on its files before it reports an answer; where
    /// one fails it drops the store.
    pub fn take(&mut self) -> Vec<Queued>
        ensures calls { calls_in result.items ≡ waiting_in self.old.machine }
        ensures taken { taken_from self.new.machine ≡ taken_from self.old.machine ++ waiting_in self.old.machine }
        ensures none { waiting_in self.new.machine ≡ [] }
        ensures engine { self.new.engine ≡ self.old.engine }
        ensures same { LooksTheSame self.old.machine self.new.machine }

        // What is known of the store and its files is known as before.
        ensures attached { IsAttached all_meaning (disk_of self.old.machine) self.old.engine → IsAttached all_meaning (disk_of self.new.machine) self.new.engine }
        ensures holds { (p : Params) (commands : List Command) → Holds all_meaning p (disk_of self.old.machine) self.old.engine commands →
            Holds all_meaning p (disk_of self.new.machine) self.new.engine commands }
    {
        self.machine.take()
    }
}
