// Hash files in ranges of objects.
ghost use Rattle.std.specs.Prelude.{◌≡◌, true, false, List, [], map};
ghost use Rattle.std.specs.Result.{result_err};
ghost use Rattle.disk_model.specs.Disk.{Passes};
ghost use Rattle.execution.specs.declared.exec_err.ExecErr.TheVariants.{DiskFault};
ghost use Rattle.formats.specs.Objects.{bounds_of};
ghost use Rattle.formats.specs.declared.params.Params.{Params};
ghost use Rattle.op_codec.specs.AllOps.{all_meaning, hash};
ghost use Rattle.running_store.specs.Taking.Ending.{Done};
ghost use Rattle.store_engine.specs.Engine.{Holds};
ghost use Rattle.store_engine.specs.Lists.{AddsFront, AreCalls, ending_of};
ghost use Rattle.hash_file.specs.Plan.{delete_plan, get_answer, put_plan};
ghost use Rattle.range_calls.specs.Answers.{cause_in, made_of, refused_in, told};
ghost use Rattle.range_calls.specs.Store.{Command, state_of};
ghost use Rattle.range_calls.specs.declared.call_err.CallErr.TheVariants.{Exec};
ghost use Rattle.embed.specs.Embedded.{IsStillBroken};

use crate::Store;
use disk_model::Machine;
use hash_client::HashErr;
use hash_file::HashFile;
use key_entries::Short;
use range_calls::CallErr;
use store_engine::ExecErr;

impl<M: Machine + Drop> Store<M> {
    /// The value of a key of a hash file, as `hash_client::get`.
    pub fn hash_get(&mut self, file: &HashFile, key: &Short) -> Result<Option<Short>, HashErr>
        ensures time { Passes (M.disk self.old.machine) (M.disk self.new.machine) }
        ensures calls { self.old.engine.broken ≡ false → AreCalls all_meaning (M.disk self.old.machine) (M.disk self.new.machine) self.old.engine self.new.engine (cause_in result) }
        ensures adds { (p : Params) (commands : List Command) → (holds : Holds all_meaning p (M.disk self.old.machine) self.old.engine commands) →
            AddsFront all_meaning p (M.disk self.old.machine) (M.disk self.new.machine) self.old.engine self.new.engine holds.world commands
            [] (ending_of (cause_in result)) }
        ensures answer { (p : Params) (commands : List Command) → Holds all_meaning p (M.disk self.old.machine) self.old.engine commands → ending_of (cause_in result) ≡ Done →
            result ≡ told (get_answer (bounds_of p) file.now.lo file.now.hi (state_of p commands) key.now) }
        ensures broken { self.old.engine.broken ≡ true → IsStillBroken (Exec DiskFault) self.old self.new result }
    {
        if self.is_broken() {
            return Err(CallErr::Exec(ExecErr::DiskFault));
        }
        hash_client::get(file, &mut self.engine, &mut self.machine, key)
    }

    /// Gives a key of a hash file this value, as `hash_client::put`.
    pub fn hash_put(&mut self, file: &HashFile, key: &Short, value: &Short) -> Result<(), HashErr>
        ensures time { Passes (M.disk self.old.machine) (M.disk self.new.machine) }
        ensures calls { self.old.engine.broken ≡ false → AreCalls all_meaning (M.disk self.old.machine) (M.disk self.new.machine) self.old.engine self.new.engine (cause_in result) }
        ensures adds { (p : Params) (commands : List Command) → (holds : Holds all_meaning p (M.disk self.old.machine) self.old.engine commands) →
            AddsFront all_meaning p (M.disk self.old.machine) (M.disk self.new.machine) self.old.engine self.new.engine holds.world commands
            (made_of p.cap (map hash (put_plan (bounds_of p) file.now.lo file.now.hi (state_of p commands) key.now value.now).commands)) (ending_of (cause_in result)) }
        ensures answer { (p : Params) (commands : List Command) → Holds all_meaning p (M.disk self.old.machine) self.old.engine commands → ending_of (cause_in result) ≡ Done →
            result_err result ≡ refused_in p.cap (put_plan (bounds_of p) file.now.lo file.now.hi (state_of p commands) key.now value.now) }
        ensures broken { self.old.engine.broken ≡ true → IsStillBroken (Exec DiskFault) self.old self.new result }
    {
        if self.is_broken() {
            return Err(CallErr::Exec(ExecErr::DiskFault));
        }
        hash_client::put(file, &mut self.engine, &mut self.machine, key, value)
    }

    /// Deletes a key of a hash file and its value, as `hash_client::delete`.
    pub fn hash_delete(&mut self, file: &HashFile, key: &Short) -> Result<(), HashErr>
        ensures time { Passes (M.disk self.old.machine) (M.disk self.new.machine) }
        ensures calls { self.old.engine.broken ≡ false → AreCalls all_meaning (M.disk self.old.machine) (M.disk self.new.machine) self.old.engine self.new.engine (cause_in result) }
        ensures adds { (p : Params) (commands : List Command) → (holds : Holds all_meaning p (M.disk self.old.machine) self.old.engine commands) →
            AddsFront all_meaning p (M.disk self.old.machine) (M.disk self.new.machine) self.old.engine self.new.engine holds.world commands
            (made_of p.cap (map hash (delete_plan (bounds_of p) file.now.lo file.now.hi (state_of p commands) key.now).commands)) (ending_of (cause_in result)) }
        ensures answer { (p : Params) (commands : List Command) → Holds all_meaning p (M.disk self.old.machine) self.old.engine commands → ending_of (cause_in result) ≡ Done →
            result_err result ≡ refused_in p.cap (delete_plan (bounds_of p) file.now.lo file.now.hi (state_of p commands) key.now) }
        ensures broken { self.old.engine.broken ≡ true → IsStillBroken (Exec DiskFault) self.old self.new result }
    {
        if self.is_broken() {
            return Err(CallErr::Exec(ExecErr::DiskFault));
        }
        hash_client::delete(file, &mut self.engine, &mut self.machine, key)
    }
}
