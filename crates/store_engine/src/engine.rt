ghost use Rattle.std.specs.Prelude.{◌≡◌, ◌≤◌, ℕ, List, false, length, true, nat_lt, IfOk};
ghost use Rattle.std.specs.Result.{result_err};
ghost use Rattle.formats.specs.Objects.{IsInRange};
ghost use Rattle.formats.specs.declared.params.Params.{Params as Numbers};
ghost use Rattle.running_store.specs.Laid.{values_in};
ghost use Rattle.store_engine.specs.Engine.{Holds, IsCached, params_of, used_in};
ghost use Rattle.store_engine.specs.Commands.{HasFetched};
ghost use Rattle.store_engine.specs.Lists.{AreCalls, as_exec};
ghost use Rattle.store_engine.specs.Store.{state_of};

use disk_model::Machine;
use formats::{Params, ReadErr};
use oper_core::Oper;
use running_store::Store;
use std::alloc::Global;
use std::marker::Model;

/// A store in use, the group of commands that is open, if one is, and how many objects are copied, while a backup is made.
///
/// The machine is passed to each call. Between `begin` and `end` a group is open: nothing is forced then, and a crash
/// leaves all of its commands or none. While the slots are copied, installs keep to an order in which what has been copied
/// stays a part of a store. After a `DiskFault` the engine is broken, and only `stat` and `is_broken` may be called.
#[derive(Drop)]
pub struct Engine<O: Oper> {
    pub(crate) store: Store<O>,
    // The LSN at which the open group began.
    pub(crate) group: Option<u64>,
    // So many objects are copied, while the slots are copied.
    pub(crate) copied: Option<u32>,
}

impl<O: Oper> Model for Engine<O> {
    ghost use Rattle.store_engine.specs.Engine.{AreWithin, EngineView, engine_of};

    ghost Value = { EngineView };

    ghost view = { λ e. engine_of e.store e.group e.copied };

    ghost invariant = { λ e. AreWithin e.store e.group e.copied };
}

impl<O: Oper> Engine<O> {
    /// How many objects the store has, how many bytes each may hold, and how long the log may be.
    pub fn params(&self) -> Params
        ensures value { result ≡ params_of self.now }
        ensures range { IsInRange (params_of self.now) }
    {
        self.store.objects().params()
    }

    /// The allocator of its memory.
    pub fn alloc(&self) -> Global {
        self.store.alloc()
    }

    /// Whether a call was answered that the disk failed. Then only `stat` and `is_broken` may be called.
    pub fn is_broken(&self) -> bool
        ensures { result ≡ self.now.broken }
    {
        self.store.is_broken()
    }

    /// How many commands were accepted since the store was made.
    pub fn accepted(&self) -> u64
        ensures { result ≡ self.now.parts.log.accepted }
    {
        self.store.log().accepted()
    }

    /// How long the log is, in bytes, with the block that a force would add for what waits.
    pub fn used(&self) -> u64
        ensures { result ≡ used_in self.now }
    {
        self.store.log().used()
    }

    /// The LSN that the next record gets.
    pub fn next(&self) -> u64
        ensures { result ≡ self.now.parts.log.next }
    {
        self.store.log().next()
    }

    /// Sees that an object is cached, so that `get` reports its value: where it is not, its slot is read. It answers whether
    /// there is such an object.
    ///
    /// It fails with `DiskFault`, with `Damaged` where the slot breaks its format, and with `Memory`. Each object has the
    /// value that it had.
    pub fn fetch<M: Machine>(&mut self, machine: &mut M, object: u32) -> Result<bool, ReadErr>
        requires unbroken { self.old.broken ≡ false }
        ensures fetched { HasFetched O.meaning (M.disk machine.old) (M.disk machine.new) self.old self.new object (result_err result) }
        ensures calls { AreCalls O.meaning (M.disk machine.old) (M.disk machine.new) self.old self.new (as_exec (result_err result)) }
        ensures there { IfOk result (λ there. there ≡ nat_lt object (params_of self.old).objects) }
        ensures cached { IfOk result (λ there. there ≡ true → IsCached self.new object) }
        ensures value { (p : Numbers) (commands : List O) → Holds O.meaning p (M.disk machine.old) self.old commands →
            IfOk result (λ there. there ≡ true → (file : List ℕ) → values_in self.new.parts.volatile.objects file object ≡ state_of O.meaning p commands object) }
        // What is cached costs no device call.
        ensures known { IsCached self.old object → machine.new ≡ machine.old }
    {
        explain_core::live_cache_is_the_map::<O>();
        if object >= self.params().objects {
            return Ok(false);
        }
        self.store.fetch(machine, object)?;
        Ok(true)
    }

    /// The value of an object that was fetched and is still cached.
    pub fn get(&self, object: u32) -> &[u8]
        requires { IsCached self.now object }
        ensures value { (file : List ℕ) → result.now ≡ values_in self.now.parts.volatile.objects file object }
        ensures short { length result.now ≤ (params_of self.now).cap }
    {
        self.store.objects().value(object)
    }
}
