// Ordered maps of wide pages in ranges of objects, within a transaction.
ghost use Rattle.std.specs.Prelude.{◌≡◌, Ok, Err, IfOk, IfErr, option_map};
ghost use Rattle.std.specs.Result.{result_err};
ghost use Rattle.execution.specs.declared.exec_err.ExecErr.TheVariants.{DiskFault};
ghost use Rattle.formats.specs.Objects.{bounds_of};
ghost use Rattle.running_store.specs.Taking.Ending.{Done};
ghost use Rattle.store_engine.specs.Lists.{ending_of};
ghost use Rattle.map_client.specs.Answers.{cause_in, cause_of, get_told};
ghost use Rattle.map_client.specs.Changing.{delete_comes, set_comes};
ghost use Rattle.map_client.specs.Ranging.{back_told, count_told, next_told, prev_told, range_told};
ghost use Rattle.range_calls.specs.Store.{state_of};
ghost use Rattle.range_calls.specs.declared.call_err.CallErr.TheVariants.{Exec};
ghost use Rattle.embed.specs.Within.{IsCallWithin, stages_none};

use crate::Store;
use disk_model::Machine;
use map_client::MapErr;
use op_codec::AllOps;
use oper_core::ByteList;
use page_map::Map;
use page_ops::Text;
use range_calls::CallErr;
use std::alloc::Global;
use store_engine::ExecErr;
use transactions::{Transaction, Within};

impl<M: Machine + Drop> Store<M> {
    /// The value that a key of a map has within a transaction, after the staged commands, as `map_client::get`.
    pub fn map_get_within(
        &mut self,
        transaction: &mut Transaction<AllOps>,
        alloc: Global,
        map: &Map,
        key: &[u8],
    ) -> Result<Option<Vec<u8>>, MapErr>
        ensures { IsCallWithin M.disk self.old self.new transaction.old transaction.new
            stages_none
            (λ p commands. IfOk result (λ found. get_told (bounds_of p) map.now.lo map.now.hi (state_of p commands) key.now ≡ Ok (option_map (λ v. v.items) found))
            × IfErr result (λ e. ending_of (cause_of e) ≡ Done → get_told (bounds_of p) map.now.lo map.now.hi (state_of p commands) key.now ≡ Err e))
            (Exec DiskFault) (cause_in result) result }
    {
        if self.is_broken() {
            return Err(CallErr::Exec(ExecErr::DiskFault));
        }
        let mut within = Within {
            engine: &mut self.engine,
            transaction,
        };
        map_client::get(alloc, map, &mut within, &mut self.machine, key)
    }

    /// How many pairs a map has within a transaction, with keys from `from` on and below `to`, as `map_client::count`.
    pub fn map_count_within(
        &mut self,
        transaction: &mut Transaction<AllOps>,
        alloc: Global,
        map: &Map,
        from: &[u8],
        to: Option<&[u8]>,
    ) -> Result<u64, MapErr>
        ensures { IsCallWithin M.disk self.old self.new transaction.old transaction.new
            stages_none
            (λ p commands. IfOk result (λ count. count_told (bounds_of p) map.now.lo map.now.hi (state_of p commands) (record { from = from.now; to = option_map (λ end. end.now) to.entry }) ≡ Ok count)
            × IfErr result (λ e. ending_of (cause_of e) ≡ Done → count_told (bounds_of p) map.now.lo map.now.hi (state_of p commands) (record { from = from.now; to = option_map (λ end. end.now) to.entry }) ≡ Err e))
            (Exec DiskFault) (cause_in result) result }
    {
        if self.is_broken() {
            return Err(CallErr::Exec(ExecErr::DiskFault));
        }
        let mut within = Within {
            engine: &mut self.engine,
            transaction,
        };
        map_client::count(alloc, map, &mut within, &mut self.machine, from, to)
    }

    /// The first pairs that a map has within a transaction, whose keys stand from `from` on and below `to`, at most so many,
    /// as `map_client::range`.
    pub fn map_range_within(
        &mut self,
        transaction: &mut Transaction<AllOps>,
        alloc: Global,
        map: &Map,
        from: &[u8],
        to: Option<&[u8]>,
        limit: u32,
    ) -> Result<Vec<(ByteList, ByteList)>, MapErr>
        ensures { IsCallWithin M.disk self.old self.new transaction.old transaction.new
            stages_none
            (λ p commands. IfOk result (λ found. range_told (bounds_of p) map.now.lo map.now.hi (state_of p commands) (record { from = from.now; to = option_map (λ end. end.now) to.entry }) limit ≡ Ok found.items)
            × IfErr result (λ e. ending_of (cause_of e) ≡ Done → range_told (bounds_of p) map.now.lo map.now.hi (state_of p commands) (record { from = from.now; to = option_map (λ end. end.now) to.entry }) limit ≡ Err e))
            (Exec DiskFault) (cause_in result) result }
    {
        if self.is_broken() {
            return Err(CallErr::Exec(ExecErr::DiskFault));
        }
        let mut within = Within {
            engine: &mut self.engine,
            transaction,
        };
        map_client::range(alloc, map, &mut within, &mut self.machine, from, to, limit)
    }

    /// The last ones of them, by falling key, as `map_client::back`.
    pub fn map_back_within(
        &mut self,
        transaction: &mut Transaction<AllOps>,
        alloc: Global,
        map: &Map,
        from: &[u8],
        to: Option<&[u8]>,
        limit: u32,
    ) -> Result<Vec<(ByteList, ByteList)>, MapErr>
        ensures { IsCallWithin M.disk self.old self.new transaction.old transaction.new
            stages_none
            (λ p commands. IfOk result (λ found. back_told (bounds_of p) map.now.lo map.now.hi (state_of p commands) (record { from = from.now; to = option_map (λ end. end.now) to.entry }) limit ≡ Ok found.items)
            × IfErr result (λ e. ending_of (cause_of e) ≡ Done → back_told (bounds_of p) map.now.lo map.now.hi (state_of p commands) (record { from = from.now; to = option_map (λ end. end.now) to.entry }) limit ≡ Err e))
            (Exec DiskFault) (cause_in result) result }
    {
        if self.is_broken() {
            return Err(CallErr::Exec(ExecErr::DiskFault));
        }
        let mut within = Within {
            engine: &mut self.engine,
            transaction,
        };
        map_client::back(alloc, map, &mut within, &mut self.machine, from, to, limit)
    }

    /// The first pair that a map has within a transaction above a key, if there is one, as `map_client::next`.
    pub fn map_next_within(
        &mut self,
        transaction: &mut Transaction<AllOps>,
        alloc: Global,
        map: &Map,
        key: &[u8],
    ) -> Result<Vec<(ByteList, ByteList)>, MapErr>
        ensures { IsCallWithin M.disk self.old self.new transaction.old transaction.new
            stages_none
            (λ p commands. IfOk result (λ found. next_told (bounds_of p) map.now.lo map.now.hi (state_of p commands) key.now ≡ Ok found.items)
            × IfErr result (λ e. ending_of (cause_of e) ≡ Done → next_told (bounds_of p) map.now.lo map.now.hi (state_of p commands) key.now ≡ Err e))
            (Exec DiskFault) (cause_in result) result }
    {
        if self.is_broken() {
            return Err(CallErr::Exec(ExecErr::DiskFault));
        }
        let mut within = Within {
            engine: &mut self.engine,
            transaction,
        };
        map_client::next(alloc, map, &mut within, &mut self.machine, key)
    }

    /// The last pair that a map has within a transaction below a key, or of all where none is given, if there is one, as
    /// `map_client::prev`.
    pub fn map_prev_within(
        &mut self,
        transaction: &mut Transaction<AllOps>,
        alloc: Global,
        map: &Map,
        key: Option<&[u8]>,
    ) -> Result<Vec<(ByteList, ByteList)>, MapErr>
        ensures { IsCallWithin M.disk self.old self.new transaction.old transaction.new
            stages_none
            (λ p commands. IfOk result (λ found. prev_told (bounds_of p) map.now.lo map.now.hi (state_of p commands) (option_map (λ key. key.now) key.entry) ≡ Ok found.items)
            × IfErr result (λ e. ending_of (cause_of e) ≡ Done → prev_told (bounds_of p) map.now.lo map.now.hi (state_of p commands) (option_map (λ key. key.now) key.entry) ≡ Err e))
            (Exec DiskFault) (cause_in result) result }
    {
        if self.is_broken() {
            return Err(CallErr::Exec(ExecErr::DiskFault));
        }
        let mut within = Within {
            engine: &mut self.engine,
            transaction,
        };
        map_client::prev(alloc, map, &mut within, &mut self.machine, key)
    }

    /// Stages the commands that give a key of a map this value, as `map_client::set` makes them.
    pub fn map_set_within(
        &mut self,
        transaction: &mut Transaction<AllOps>,
        alloc: Global,
        map: &Map,
        key: Text,
        value: Text,
    ) -> Result<(), MapErr>
        ensures { IsCallWithin M.disk self.old self.new transaction.old transaction.new
            (λ p commands. (set_comes map.now.lo map.now.hi key value p commands).commands)
            (λ p commands. ending_of (cause_in result) ≡ Done → result_err result ≡ (set_comes map.now.lo map.now.hi key value p commands).refusal)
            (Exec DiskFault) (cause_in result) result }
    {
        if self.is_broken() {
            return Err(CallErr::Exec(ExecErr::DiskFault));
        }
        let mut within = Within {
            engine: &mut self.engine,
            transaction,
        };
        map_client::set(alloc, map, &mut within, &mut self.machine, key, value)
    }

    /// Stages the commands that delete a key of a map and its value, as `map_client::delete` makes them.
    pub fn map_delete_within(
        &mut self,
        transaction: &mut Transaction<AllOps>,
        alloc: Global,
        map: &Map,
        key: &[u8],
    ) -> Result<(), MapErr>
        ensures { IsCallWithin M.disk self.old self.new transaction.old transaction.new
            (λ p commands. (delete_comes map.now.lo map.now.hi key.now p commands).commands)
            (λ p commands. ending_of (cause_in result) ≡ Done → result_err result ≡ (delete_comes map.now.lo map.now.hi key.now p commands).refusal)
            (Exec DiskFault) (cause_in result) result }
    {
        if self.is_broken() {
            return Err(CallErr::Exec(ExecErr::DiskFault));
        }
        let mut within = Within {
            engine: &mut self.engine,
            transaction,
        };
        map_client::delete(alloc, map, &mut within, &mut self.machine, key)
    }
}
