// Groups that are given up, and groups for which the log has room; and all that is not forced is given up.
ghost use Rattle.std.specs.Prelude.{◌≡◌, ◌≤◌, ◌++◌, ℕ, true, false, List, None, Some, Err, Result, length, take, IfErr, IfNone, IfOk, IfSome, IsSome, OnOk};
ghost use Rattle.disk_model.specs.Disk.{LeavesOnly, Passes};
ghost use Rattle.disk_model.specs.Silent.{IsSilent};
ghost use Rattle.disk_model.specs.declared.machine.Failed.{Failed as ForceFailure};
ghost use Rattle.formats.specs.declared.params.Params.{Params};
ghost use Rattle.op_codec.specs.AllOps.{AllOps as Command, all_meaning};
ghost use Rattle.restart.specs.Opening.{IsOpening};
ghost use Rattle.store_engine.specs.Calls.{IsBeginning, IsRefused, work_of_force};
ghost use Rattle.store_engine.specs.Engine.{Between, Holds, IsAttached, Opens, forced_in, group_size};
ghost use Rattle.store_engine.specs.Store.{Stands};
ghost use Rattle.transactions.specs.Room.{HasRoomOf};
ghost use Rattle.embed.specs.Embedded.{IsStillBroken, IsUnharmed, SaysFull, machine_of, opened};

use crate::Store;
use crate::laying_out::TUNING;
use disk_model::Machine;
use op_codec::AllOps;
use store_engine::{Engine, OpenErr, WorkErr};
use transactions::{has_room, reopen, roll_back};

// Whether no group is open, and the log has no room for records of so many bytes.
fn lacks_room(engine: &Engine<AllOps>, bytes: u64) -> bool
    requires unbroken { engine.now.broken ≡ false }
    ensures lacks { result ≡ true → (engine.now.group ≡ None) × (HasRoomOf engine.now bytes → ⊥) }
    ensures has { result ≡ false → engine.now.group ≡ None → HasRoomOf engine.now bytes }
{
    match engine.group() {
        None => !has_room(engine, bytes),
        Some(_) => false,
    }
}

impl<M: Machine + Drop> Store<M> {
    /// How many commands the open group has; none where none is open, or the disk has failed.
    pub fn group(&self) -> Option<u64>
        ensures some { IfSome result (λ size. (self.now.engine.broken ≡ false) × IsSome self.now.engine.group × (group_size self.now.engine ≡ Some size)) }
        ensures none { IfNone result (self.now.engine.broken ≡ false → self.now.engine.group ≡ None) }
    {
        if self.is_broken() {
            return None;
        }
        self.engine.group()
    }

    /// Opens a group as `begin` does, where the log has room for records of so many bytes, what begins a block counted. Where there
    /// is none it answers `LogFull` at once, and nothing is done.
    pub fn begin_room(&mut self, bytes: u64) -> Result<(), WorkErr>
        ensures time { Passes (M.disk self.old.machine) (M.disk self.new.machine) }
        ensures in_group { self.old.engine.broken ≡ false → IfSome (group_size self.old.engine) (λ size. IsRefused size self.old.machine self.new.machine self.old.engine self.new.engine result) }
        ensures full { self.old.engine.broken ≡ false → self.old.engine.group ≡ None → (HasRoomOf self.old.engine bytes → ⊥) → (self.new ≡ self.old) × SaysFull self.old.engine bytes result }
        ensures alone { self.old.engine.broken ≡ false → self.old.engine.group ≡ None → HasRoomOf self.old.engine bytes →
            (answer : Result _ ForceFailure) × (result ≡ work_of_force answer) × IsBeginning all_meaning (M.disk self.old.machine) (M.disk self.new.machine) self.old.engine self.new.engine answer }
        ensures room { self.old.engine.broken ≡ false → self.old.engine.group ≡ None → (p : Params) (commands : List Command) → Holds all_meaning p (M.disk self.old.machine) self.old.engine commands →
            OnOk result (HasRoomOf self.new.engine bytes) }
        ensures broken { self.old.engine.broken ≡ true → IsStillBroken WorkErr.DiskFault self.old self.new result }
    {
        if self.is_broken() {
            return Err(WorkErr::DiskFault);
        }
        if lacks_room(&self.engine, bytes) {
            return Err(WorkErr::LogFull {
                used: self.engine.used(),
                need: bytes.saturating_add(5),
                limit: u64::from(self.engine.params().limit),
            });
        }
        self.engine.begin(&mut self.machine)
    }

    /// Gives up the open group: none of its commands is there any more, and all before it are, and are durable. The store is
    /// given up with it and opened again, as by `transactions::roll_back`; a backup that is being made is given up.
    ///
    /// It fails only for want of memory or with the disk, and gives the machine back then. At each moment, and whatever it
    /// answers, the files stand for the commands before the group.
    pub fn abort(self) -> Result<Store<M>, (OpenErr, M)>
        requires unbroken { self.engine.broken ≡ false }
        requires open { IsSome self.engine.group }
        ensures opening { IsOpening all_meaning (M.disk self.machine) (M.disk (machine_of result)) (opened result) }
        ensures ready { IfOk result (λ store. (store.engine.broken ≡ false) × (store.engine.group ≡ None) × (store.engine.copied ≡ None) × (store.engine.identities ≡ 0) × IsAttached all_meaning (M.disk store.machine) store.engine) }
        ensures undone { (M.disk self.machine).tells_files → (p : Params) (commands ops : List Command) → Holds all_meaning p (M.disk self.machine) self.engine (commands ++ ops) → group_size self.engine ≡ Some (length ops) →
            IfOk result (λ store. Holds all_meaning p (M.disk store.machine) store.engine commands × (forced_in store.engine ≡ length commands)) }
        ensures images { (M.disk self.machine).tells_moments → (p : Params) (commands ops : List Command) → Holds all_meaning p (M.disk self.machine) self.engine (commands ++ ops) → group_size self.engine ≡ Some (length ops) →
            LeavesOnly (M.disk self.machine) (M.disk (machine_of result)) (Between all_meaning p (M.disk self.machine) None (length commands) (length commands) commands) }
        ensures again { (M.disk self.machine).tells_moments → (p : Params) (commands ops : List Command) → Holds all_meaning p (M.disk self.machine) self.engine (commands ++ ops) → group_size self.engine ≡ Some (length ops) →
            Opens all_meaning p (M.disk (machine_of result)) commands }
        ensures undamaged { (M.disk self.machine).tells_files → (p : Params) (commands ops : List Command) → Holds all_meaning p (M.disk self.machine) self.engine (commands ++ ops) → group_size self.engine ≡ Some (length ops) →
            IfErr result IsUnharmed }
    {
        let Store { engine, machine } = self;
        let mut machine = machine;
        match roll_back(engine.alloc(), &mut machine, TUNING, engine) {
            Ok(engine) => Ok(Store { engine, machine }),
            Err(cause) => Err((cause, machine)),
        }
    }

    /// Gives up all that is not forced: just the forced commands are there then. The store is given up and opened again, as by
    /// `transactions::reopen`; an open group and a backup that is being made are given up.
    ///
    /// It fails only for want of memory or with the disk, and gives the machine back then. At each moment, and whatever it
    /// answers, the files stand for the forced commands.
    pub fn reopen(self) -> Result<Store<M>, (OpenErr, M)>
        ensures opening { IsOpening all_meaning (M.disk self.machine) (M.disk (machine_of result)) (opened result) }
        ensures ready { IfOk result (λ store. (store.engine.broken ≡ false) × (store.engine.group ≡ None) × (store.engine.copied ≡ None) × (store.engine.identities ≡ 0) × IsAttached all_meaning (M.disk store.machine) store.engine) }
        ensures back { (M.disk self.machine).tells_files → (p : Params) (commands : List Command) → Holds all_meaning p (M.disk self.machine) self.engine commands →
            IfOk result (λ store. Holds all_meaning p (M.disk store.machine) store.engine (take (forced_in self.engine) commands) × (forced_in store.engine ≡ forced_in self.engine)) }
        ensures images { (M.disk self.machine).tells_moments → (p : Params) (commands : List Command) → Holds all_meaning p (M.disk self.machine) self.engine commands →
            LeavesOnly (M.disk self.machine) (M.disk (machine_of result)) (IsSilent (λ files. Stands all_meaning p files (take (forced_in self.engine) commands)) (M.disk self.machine).said) }
        ensures again { (M.disk self.machine).tells_moments → (p : Params) (commands : List Command) → Holds all_meaning p (M.disk self.machine) self.engine commands →
            Opens all_meaning p (M.disk (machine_of result)) (take (forced_in self.engine) commands) }
        ensures undamaged { (M.disk self.machine).tells_files → (p : Params) (commands : List Command) → Holds all_meaning p (M.disk self.machine) self.engine commands → IfErr result IsUnharmed }
    {
        let Store { engine, machine } = self;
        let mut machine = machine;
        match reopen(engine.alloc(), &mut machine, TUNING, engine) {
            Ok(engine) => Ok(Store { engine, machine }),
            Err(cause) => Err((cause, machine)),
        }
    }
}
