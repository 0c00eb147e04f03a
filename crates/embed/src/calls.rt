// Commands, and the values that they make.
ghost use Rattle.std.specs.Prelude.{◌≡◌, true, false, List, length, min, take, IfOk};
ghost use Rattle.std.specs.Result.{result_err};
ghost use Rattle.disk_model.specs.Disk.{Passes};
ghost use Rattle.formats.specs.declared.params.Params.{Params};
ghost use Rattle.op_codec.specs.AllOps.{AllOps as Command, all_meaning};
ghost use Rattle.store_engine.specs.Commands.{HasFetched, HasRun};
ghost use Rattle.store_engine.specs.Engine.{Holds};
ghost use Rattle.store_engine.specs.Lists.{AreCalls, as_exec};
ghost use Rattle.store_engine.specs.Store.{state_of};
ghost use Rattle.embed.specs.Embedded.{GivesValue, IsStillBroken};

use crate::Store;
use disk_model::Machine;
use op_codec::AllOps;
use store_engine::{ExecErr, ReadErr, engine_stands};

impl<M: Machine + Drop> Store<M> {
    /// Does a command. It answers how many were accepted since the store was made, and fails as the engine's `exec`.
    pub fn exec(&mut self, op: AllOps) -> Result<u64, ExecErr>
        ensures time { Passes (M.disk self.old.machine) (M.disk self.new.machine) }
        ensures run { self.old.engine.broken ≡ false → HasRun all_meaning (M.disk self.old.machine) (M.disk self.new.machine) self.old.engine self.new.engine op result }
        ensures calls { self.old.engine.broken ≡ false → AreCalls all_meaning (M.disk self.old.machine) (M.disk self.new.machine) self.old.engine self.new.engine (result_err result) }
        ensures broken { self.old.engine.broken ≡ true → IsStillBroken ExecErr.DiskFault self.old self.new result }
    {
        if self.is_broken() {
            return Err(ExecErr::DiskFault);
        }
        self.engine.exec(&mut self.machine, op)
    }

    /// Copies the front of an object's value, as much as there is room for, and answers how many bytes the value has; none where
    /// there is no such object. It fails as the engine's `fetch`.
    pub fn get(&mut self, object: u32, into: &mut [u8]) -> Result<Option<usize>, ReadErr>
        ensures time { Passes (M.disk self.old.machine) (M.disk self.new.machine) }
        ensures fetched { self.old.engine.broken ≡ false → HasFetched all_meaning (M.disk self.old.machine) (M.disk self.new.machine) self.old.engine self.new.engine object (result_err result) }
        ensures calls { self.old.engine.broken ≡ false → AreCalls all_meaning (M.disk self.old.machine) (M.disk self.new.machine) self.old.engine self.new.engine (as_exec (result_err result)) }
        ensures value { (p : Params) (commands : List Command) → Holds all_meaning p (M.disk self.old.machine) self.old.engine commands →
            IfOk result (GivesValue p.objects object (state_of all_meaning p commands object) into.old into.new) }
        ensures broken { self.old.engine.broken ≡ true → IsStillBroken ReadErr.DiskFault self.old self.new result }
    {
        if self.is_broken() {
            return Err(ReadErr::DiskFault);
        }
        engine_stands(&self.machine, &self.engine);
        if !self.engine.fetch(&mut self.machine, object)? {
            return Ok(None);
        }
        Ok(Some(copy_front(self.engine.get(object), into)))
    }
}

// Copies the front of bytes, as much as there is room for, and says how many they are.
pub(crate) fn copy_front(bytes: &[u8], into: &mut [u8]) -> usize
    ensures count { result ≡ length bytes.now }
    ensures front { take (min (length bytes.now) (length into.old)) into.new ≡ take (length into.old) bytes.now }
{
    let count = bytes.len().min(into.len());
    into[..count].copy_from_slice(&bytes[..count]);
    bytes.len()
}
