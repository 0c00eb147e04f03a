// Hash files in ranges of objects, within a transaction.
ghost use Rattle.std.specs.Prelude.{◌≡◌, map};
ghost use Rattle.std.specs.Result.{result_err};
ghost use Rattle.execution.specs.declared.exec_err.ExecErr.TheVariants.{DiskFault};
ghost use Rattle.formats.specs.Objects.{bounds_of};
ghost use Rattle.op_codec.specs.AllOps.{hash};
ghost use Rattle.running_store.specs.Taking.Ending.{Done};
ghost use Rattle.store_engine.specs.Lists.{ending_of};
ghost use Rattle.hash_file.specs.Plan.{delete_plan, get_answer, put_plan};
ghost use Rattle.range_calls.specs.Answers.{cause_in, made_of, refused_in, told};
ghost use Rattle.range_calls.specs.Store.{state_of};
ghost use Rattle.range_calls.specs.declared.call_err.CallErr.TheVariants.{Exec};
ghost use Rattle.embed.specs.Within.{IsCallWithin, stages_none};

use crate::Store;
use disk_model::Machine;
use hash_client::HashErr;
use hash_file::HashFile;
use key_entries::Short;
use op_codec::AllOps;
use range_calls::CallErr;
use store_engine::ExecErr;
use transactions::{Transaction, Within};

impl<M: Machine + Drop> Store<M> {
    /// The value that a key of a hash file has within a transaction, after the staged commands, as `hash_client::get`.
    pub fn hash_get_within(
        &mut self,
        transaction: &mut Transaction<AllOps>,
        file: &HashFile,
        key: &Short,
    ) -> Result<Option<Short>, HashErr>
        ensures { IsCallWithin M.disk self.old self.new transaction.old transaction.new
            stages_none
            (λ p commands. ending_of (cause_in result) ≡ Done → result ≡ told (get_answer (bounds_of p) file.now.lo file.now.hi (state_of p commands) key.now))
            (Exec DiskFault) (cause_in result) result }
    {
        if self.is_broken() {
            return Err(CallErr::Exec(ExecErr::DiskFault));
        }
        let mut within = Within {
            engine: &mut self.engine,
            transaction,
        };
        hash_client::get(file, &mut within, &mut self.machine, key)
    }

    /// Stages the commands that give a key of a hash file this value, as `hash_client::put` makes them.
    pub fn hash_put_within(
        &mut self,
        transaction: &mut Transaction<AllOps>,
        file: &HashFile,
        key: &Short,
        value: &Short,
    ) -> Result<(), HashErr>
        ensures { IsCallWithin M.disk self.old self.new transaction.old transaction.new
            (λ p commands. made_of p.cap (map hash (put_plan (bounds_of p) file.now.lo file.now.hi (state_of p commands) key.now value.now).commands))
            (λ p commands. ending_of (cause_in result) ≡ Done → result_err result ≡ refused_in p.cap (put_plan (bounds_of p) file.now.lo file.now.hi (state_of p commands) key.now value.now))
            (Exec DiskFault) (cause_in result) result }
    {
        if self.is_broken() {
            return Err(CallErr::Exec(ExecErr::DiskFault));
        }
        let mut within = Within {
            engine: &mut self.engine,
            transaction,
        };
        hash_client::put(file, &mut within, &mut self.machine, key, value)
    }

    /// Stages the commands that delete a key of a hash file and its value, as `hash_client::delete` makes them.
    pub fn hash_delete_within(
        &mut self,
        transaction: &mut Transaction<AllOps>,
        file: &HashFile,
        key: &Short,
    ) -> Result<(), HashErr>
        ensures { IsCallWithin M.disk self.old self.new transaction.old transaction.new
            (λ p commands. made_of p.cap (map hash (delete_plan (bounds_of p) file.now.lo file.now.hi (state_of p commands) key.now).commands))
            (λ p commands. ending_of (cause_in result) ≡ Done → result_err result ≡ refused_in p.cap (delete_plan (bounds_of p) file.now.lo file.now.hi (state_of p commands) key.now))
            (Exec DiskFault) (cause_in result) result }
    {
        if self.is_broken() {
            return Err(CallErr::Exec(ExecErr::DiskFault));
        }
        let mut within = Within {
            engine: &mut self.engine,
            transaction,
        };
        hash_client::delete(file, &mut within, &mut self.machine, key)
    }
}
