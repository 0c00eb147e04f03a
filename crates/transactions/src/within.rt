// An engine under the commands that are staged on it is a store.
ghost use Rattle.std.specs.Prelude.{◌≡◌, ◌==◌, ◌<◌};
ghost use Rattle.store_engine.specs.Engine.{params_of};
ghost use Rattle.transactions.specs.Within.{length_in, within_view};

use crate::transaction::Transaction;
use disk_model::Machine;
use formats::{Params, ReadErr};
use oper_core::Oper;
use store_calls::Store;
use store_engine::{Engine, ExecErr, lengths_are_told};

/// A transaction, and the engine on which it is open, as they are lent for some calls. These stage their commands, and see the
/// values that the staged ones make; the engine is only read.
#[derive(Drop)]
pub struct Within<'a, O: Oper> {
    pub engine: &'a mut Engine<O>,
    pub transaction: &'a mut Transaction<O>,
}

impl<'a, O: Oper> Within<'a, O> {
    // Whether an object's value is empty, as the staged commands leave it.
    fn is_empty(&self, object: u32) -> bool
        requires { object < (params_of self.now.engine.now).objects }
        ensures { result ≡ (length_in self.now object == 0) }
    {
        match self.transaction.made.entry(object) {
            Some(entry) => entry.bytes.as_slice().is_empty(),
            None => self.engine.is_empty(object),
        }
    }
}

impl<'a, O: Oper> Store<O> for Within<'a, O> {
    ghost view = { within_view O.meaning };

    fn params(&self) -> Params {
        self.engine.params()
    }

    fn exec<M: Machine>(&mut self, machine: &mut M, op: O) -> Result<(), ExecErr> {
        match self.transaction.exec(self.engine, machine, op) {
            Ok(_) => Ok(()),
            Err(cause) => Err(cause),
        }
    }

    fn fetch<M: Machine>(&mut self, machine: &mut M, object: u32) -> Result<bool, ReadErr> {
        if object >= self.engine.params().objects {
            return Ok(false);
        }
        if let Some(entry) = self.transaction.made.entry(object) {
            if entry.bytes.as_slice().len() > self.engine.params().cap as usize {
                return Err(ReadErr::Memory);
            }
            return Ok(true);
        }
        match self.engine.fetch(machine, object) {
            Ok(there) => Ok(there),
            Err(cause) => Err(cause),
        }
    }

    fn get(&self, object: u32) -> &[u8] {
        match self.transaction.made.entry(object) {
            Some(entry) => entry.bytes.as_slice(),
            None => self.engine.get(object),
        }
    }

    fn next_empty<M: Machine>(&self, machine: &M, from: u32) -> Option<u32> {
        lengths_are_told(machine, self.engine);
        for object in from..self.engine.params().objects {
            if self.is_empty(object) {
                return Some(object);
            }
        }
        None
    }

    fn nothing_is_made<M: Machine>(&self, machine: &M) {
        let _ = machine;
    }

    fn calls_go_on<M: Machine>() {}
}
