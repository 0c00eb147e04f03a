// Ordered maps of wide pages in ranges of objects.
ghost use Rattle.std.specs.Prelude.{◌≡◌, true, false, List, [], Ok, Err, IfOk, IfErr, option_map};
ghost use Rattle.std.specs.Result.{result_err};
ghost use Rattle.disk_model.specs.Disk.{Passes};
ghost use Rattle.execution.specs.declared.exec_err.ExecErr.TheVariants.{DiskFault};
ghost use Rattle.formats.specs.Objects.{bounds_of};
ghost use Rattle.formats.specs.declared.params.Params.{Params};
ghost use Rattle.op_codec.specs.AllOps.{all_meaning};
ghost use Rattle.running_store.specs.Taking.Ending.{Done};
ghost use Rattle.store_engine.specs.Engine.{Holds};
ghost use Rattle.store_engine.specs.Lists.{AddsFront, AreCalls, ending_of};
ghost use Rattle.map_client.specs.Answers.{cause_in, cause_of, get_told};
ghost use Rattle.map_client.specs.Changing.{delete_comes, set_comes};
ghost use Rattle.map_client.specs.Ranging.{back_told, count_told, next_told, prev_told, range_told};
ghost use Rattle.range_calls.specs.Store.{Command, state_of};
ghost use Rattle.range_calls.specs.declared.call_err.CallErr.TheVariants.{Exec};
ghost use Rattle.embed.specs.Embedded.{IsStillBroken};

use crate::Store;
use disk_model::Machine;
use map_client::MapErr;
use oper_core::ByteList;
use page_map::Map;
use page_ops::Text;
use range_calls::CallErr;
use std::alloc::Global;
use store_engine::ExecErr;

impl<M: Machine + Drop> Store<M> {
    /// The value of a key of a map, as `map_client::get`.
    pub fn map_get(
        &mut self,
        alloc: Global,
        map: &Map,
        key: &[u8],
    ) -> Result<Option<Vec<u8>>, MapErr>
        ensures time { Passes (M.disk self.old.machine) (M.disk self.new.machine) }
        ensures calls { self.old.engine.broken ≡ false → AreCalls all_meaning (M.disk self.old.machine) (M.disk self.new.machine) self.old.engine self.new.engine (cause_in result) }
        ensures adds { (p : Params) (commands : List Command) → (holds : Holds all_meaning p (M.disk self.old.machine) self.old.engine commands) →
            AddsFront all_meaning p (M.disk self.old.machine) (M.disk self.new.machine) self.old.engine self.new.engine holds.world commands
            [] (ending_of (cause_in result)) }
        ensures found { (p : Params) (commands : List Command) → Holds all_meaning p (M.disk self.old.machine) self.old.engine commands →
            IfOk result (λ found. get_told (bounds_of p) map.now.lo map.now.hi (state_of p commands) key.now ≡ Ok (option_map (λ v. v.items) found)) }
        ensures refused { (p : Params) (commands : List Command) → Holds all_meaning p (M.disk self.old.machine) self.old.engine commands →
            IfErr result (λ e. ending_of (cause_of e) ≡ Done → get_told (bounds_of p) map.now.lo map.now.hi (state_of p commands) key.now ≡ Err e) }
        ensures broken { self.old.engine.broken ≡ true → IsStillBroken (Exec DiskFault) self.old self.new result }
    {
        if self.is_broken() {
            return Err(CallErr::Exec(ExecErr::DiskFault));
        }
        map_client::get(alloc, map, &mut self.engine, &mut self.machine, key)
    }

    /// How many pairs of a map have keys from `from` on and below `to`, as `map_client::count`.
    pub fn map_count(
        &mut self,
        alloc: Global,
        map: &Map,
        from: &[u8],
        to: Option<&[u8]>,
    ) -> Result<u64, MapErr>
        ensures time { Passes (M.disk self.old.machine) (M.disk self.new.machine) }
        ensures calls { self.old.engine.broken ≡ false → AreCalls all_meaning (M.disk self.old.machine) (M.disk self.new.machine) self.old.engine self.new.engine (cause_in result) }
        ensures adds { (p : Params) (commands : List Command) → (holds : Holds all_meaning p (M.disk self.old.machine) self.old.engine commands) →
            AddsFront all_meaning p (M.disk self.old.machine) (M.disk self.new.machine) self.old.engine self.new.engine holds.world commands
            [] (ending_of (cause_in result)) }
        ensures found { (p : Params) (commands : List Command) → Holds all_meaning p (M.disk self.old.machine) self.old.engine commands →
            IfOk result (λ count. count_told (bounds_of p) map.now.lo map.now.hi (state_of p commands) (record { from = from.now; to = option_map (λ end. end.now) to.entry }) ≡ Ok count) }
        ensures refused { (p : Params) (commands : List Command) → Holds all_meaning p (M.disk self.old.machine) self.old.engine commands →
            IfErr result (λ e. ending_of (cause_of e) ≡ Done → count_told (bounds_of p) map.now.lo map.now.hi (state_of p commands) (record { from = from.now; to = option_map (λ end. end.now) to.entry }) ≡ Err e) }
        ensures broken { self.old.engine.broken ≡ true → IsStillBroken (Exec DiskFault) self.old self.new result }
    {
        if self.is_broken() {
            return Err(CallErr::Exec(ExecErr::DiskFault));
        }
        map_client::count(alloc, map, &mut self.engine, &mut self.machine, from, to)
    }

    /// The first pairs of a map whose keys stand from `from` on and below `to`, at most so many, as `map_client::range`.
    pub fn map_range(
        &mut self,
        alloc: Global,
        map: &Map,
        from: &[u8],
        to: Option<&[u8]>,
        limit: u32,
    ) -> Result<Vec<(ByteList, ByteList)>, MapErr>
        ensures time { Passes (M.disk self.old.machine) (M.disk self.new.machine) }
        ensures calls { self.old.engine.broken ≡ false → AreCalls all_meaning (M.disk self.old.machine) (M.disk self.new.machine) self.old.engine self.new.engine (cause_in result) }
        ensures adds { (p : Params) (commands : List Command) → (holds : Holds all_meaning p (M.disk self.old.machine) self.old.engine commands) →
            AddsFront all_meaning p (M.disk self.old.machine) (M.disk self.new.machine) self.old.engine self.new.engine holds.world commands
            [] (ending_of (cause_in result)) }
        ensures found { (p : Params) (commands : List Command) → Holds all_meaning p (M.disk self.old.machine) self.old.engine commands →
            IfOk result (λ found. range_told (bounds_of p) map.now.lo map.now.hi (state_of p commands) (record { from = from.now; to = option_map (λ end. end.now) to.entry }) limit ≡ Ok found.items) }
        ensures refused { (p : Params) (commands : List Command) → Holds all_meaning p (M.disk self.old.machine) self.old.engine commands →
            IfErr result (λ e. ending_of (cause_of e) ≡ Done → range_told (bounds_of p) map.now.lo map.now.hi (state_of p commands) (record { from = from.now; to = option_map (λ end. end.now) to.entry }) limit ≡ Err e) }
        ensures broken { self.old.engine.broken ≡ true → IsStillBroken (Exec DiskFault) self.old self.new result }
    {
        if self.is_broken() {
            return Err(CallErr::Exec(ExecErr::DiskFault));
        }
        map_client::range(
            alloc,
            map,
            &mut self.engine,
            &mut self.machine,
            from,
            to,
            limit,
        )
    }

    /// The last ones of them, by falling key, as `map_client::back`.
    pub fn map_back(
        &mut self,
        alloc: Global,
        map: &Map,
        from: &[u8],
        to: Option<&[u8]>,
        limit: u32,
    ) -> Result<Vec<(ByteList, ByteList)>, MapErr>
        ensures time { Passes (M.disk self.old.machine) (M.disk self.new.machine) }
        ensures calls { self.old.engine.broken ≡ false → AreCalls all_meaning (M.disk self.old.machine) (M.disk self.new.machine) self.old.engine self.new.engine (cause_in result) }
        ensures adds { (p : Params) (commands : List Command) → (holds : Holds all_meaning p (M.disk self.old.machine) self.old.engine commands) →
            AddsFront all_meaning p (M.disk self.old.machine) (M.disk self.new.machine) self.old.engine self.new.engine holds.world commands
            [] (ending_of (cause_in result)) }
        ensures found { (p : Params) (commands : List Command) → Holds all_meaning p (M.disk self.old.machine) self.old.engine commands →
            IfOk result (λ found. back_told (bounds_of p) map.now.lo map.now.hi (state_of p commands) (record { from = from.now; to = option_map (λ end. end.now) to.entry }) limit ≡ Ok found.items) }
        ensures refused { (p : Params) (commands : List Command) → Holds all_meaning p (M.disk self.old.machine) self.old.engine commands →
            IfErr result (λ e. ending_of (cause_of e) ≡ Done → back_told (bounds_of p) map.now.lo map.now.hi (state_of p commands) (record { from = from.now; to = option_map (λ end. end.now) to.entry }) limit ≡ Err e) }
        ensures broken { self.old.engine.broken ≡ true → IsStillBroken (Exec DiskFault) self.old self.new result }
    {
        if self.is_broken() {
            return Err(CallErr::Exec(ExecErr::DiskFault));
        }
        map_client::back(
            alloc,
            map,
            &mut self.engine,
            &mut self.machine,
            from,
            to,
            limit,
        )
    }

    /// The first pair of a map above a key, if there is one, as `map_client::next`.
    pub fn map_next(
        &mut self,
        alloc: Global,
        map: &Map,
        key: &[u8],
    ) -> Result<Vec<(ByteList, ByteList)>, MapErr>
        ensures time { Passes (M.disk self.old.machine) (M.disk self.new.machine) }
        ensures calls { self.old.engine.broken ≡ false → AreCalls all_meaning (M.disk self.old.machine) (M.disk self.new.machine) self.old.engine self.new.engine (cause_in result) }
        ensures adds { (p : Params) (commands : List Command) → (holds : Holds all_meaning p (M.disk self.old.machine) self.old.engine commands) →
            AddsFront all_meaning p (M.disk self.old.machine) (M.disk self.new.machine) self.old.engine self.new.engine holds.world commands
            [] (ending_of (cause_in result)) }
        ensures found { (p : Params) (commands : List Command) → Holds all_meaning p (M.disk self.old.machine) self.old.engine commands →
            IfOk result (λ found. next_told (bounds_of p) map.now.lo map.now.hi (state_of p commands) key.now ≡ Ok found.items) }
        ensures refused { (p : Params) (commands : List Command) → Holds all_meaning p (M.disk self.old.machine) self.old.engine commands →
            IfErr result (λ e. ending_of (cause_of e) ≡ Done → next_told (bounds_of p) map.now.lo map.now.hi (state_of p commands) key.now ≡ Err e) }
        ensures broken { self.old.engine.broken ≡ true → IsStillBroken (Exec DiskFault) self.old self.new result }
    {
        if self.is_broken() {
            return Err(CallErr::Exec(ExecErr::DiskFault));
        }
        map_client::next(alloc, map, &mut self.engine, &mut self.machine, key)
    }

    /// The last pair of a map below a key, or of all where none is given, if there is one, as `map_client::prev`.
    pub fn map_prev(
        &mut self,
        alloc: Global,
        map: &Map,
        key: Option<&[u8]>,
    ) -> Result<Vec<(ByteList, ByteList)>, MapErr>
        ensures time { Passes (M.disk self.old.machine) (M.disk self.new.machine) }
        ensures calls { self.old.engine.broken ≡ false → AreCalls all_meaning (M.disk self.old.machine) (M.disk self.new.machine) self.old.engine self.new.engine (cause_in result) }
        ensures adds { (p : Params) (commands : List Command) → (holds : Holds all_meaning p (M.disk self.old.machine) self.old.engine commands) →
            AddsFront all_meaning p (M.disk self.old.machine) (M.disk self.new.machine) self.old.engine self.new.engine holds.world commands
            [] (ending_of (cause_in result)) }
        ensures found { (p : Params) (commands : List Command) → Holds all_meaning p (M.disk self.old.machine) self.old.engine commands →
            IfOk result (λ found. prev_told (bounds_of p) map.now.lo map.now.hi (state_of p commands) (option_map (λ key. key.now) key.entry) ≡ Ok found.items) }
        ensures refused { (p : Params) (commands : List Command) → Holds all_meaning p (M.disk self.old.machine) self.old.engine commands →
            IfErr result (λ e. ending_of (cause_of e) ≡ Done → prev_told (bounds_of p) map.now.lo map.now.hi (state_of p commands) (option_map (λ key. key.now) key.entry) ≡ Err e) }
        ensures broken { self.old.engine.broken ≡ true → IsStillBroken (Exec DiskFault) self.old self.new result }
    {
        if self.is_broken() {
            return Err(CallErr::Exec(ExecErr::DiskFault));
        }
        map_client::prev(alloc, map, &mut self.engine, &mut self.machine, key)
    }

    /// Gives a key of a map this value, as `map_client::set`.
    pub fn map_set(
        &mut self,
        alloc: Global,
        map: &Map,
        key: Text,
        value: Text,
    ) -> Result<(), MapErr>
        ensures time { Passes (M.disk self.old.machine) (M.disk self.new.machine) }
        ensures calls { self.old.engine.broken ≡ false → AreCalls all_meaning (M.disk self.old.machine) (M.disk self.new.machine) self.old.engine self.new.engine (cause_in result) }
        ensures adds { (p : Params) (commands : List Command) → (holds : Holds all_meaning p (M.disk self.old.machine) self.old.engine commands) →
            AddsFront all_meaning p (M.disk self.old.machine) (M.disk self.new.machine) self.old.engine self.new.engine holds.world commands
            (set_comes map.now.lo map.now.hi key value p commands).commands (ending_of (cause_in result)) }
        ensures answer { (p : Params) (commands : List Command) → Holds all_meaning p (M.disk self.old.machine) self.old.engine commands → ending_of (cause_in result) ≡ Done →
            result_err result ≡ (set_comes map.now.lo map.now.hi key value p commands).refusal }
        ensures broken { self.old.engine.broken ≡ true → IsStillBroken (Exec DiskFault) self.old self.new result }
    {
        if self.is_broken() {
            return Err(CallErr::Exec(ExecErr::DiskFault));
        }
        map_client::set(alloc, map, &mut self.engine, &mut self.machine, key, value)
    }

    /// Deletes a key of a map and its value, as `map_client::delete`.
    pub fn map_delete(&mut self, alloc: Global, map: &Map, key: &[u8]) -> Result<(), MapErr>
        ensures time { Passes (M.disk self.old.machine) (M.disk self.new.machine) }
        ensures calls { self.old.engine.broken ≡ false → AreCalls all_meaning (M.disk self.old.machine) (M.disk self.new.machine) self.old.engine self.new.engine (cause_in result) }
        ensures adds { (p : Params) (commands : List Command) → (holds : Holds all_meaning p (M.disk self.old.machine) self.old.engine commands) →
            AddsFront all_meaning p (M.disk self.old.machine) (M.disk self.new.machine) self.old.engine self.new.engine holds.world commands
            (delete_comes map.now.lo map.now.hi key.now p commands).commands (ending_of (cause_in result)) }
        ensures answer { (p : Params) (commands : List Command) → Holds all_meaning p (M.disk self.old.machine) self.old.engine commands → ending_of (cause_in result) ≡ Done →
            result_err result ≡ (delete_comes map.now.lo map.now.hi key.now p commands).refusal }
        ensures broken { self.old.engine.broken ≡ true → IsStillBroken (Exec DiskFault) self.old self.new result }
    {
        if self.is_broken() {
            return Err(CallErr::Exec(ExecErr::DiskFault));
        }
        map_client::delete(alloc, map, &mut self.engine, &mut self.machine, key)
    }
}
