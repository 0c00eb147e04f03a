// An engine is a store.
ghost use Rattle.store_calls.specs.OfEngine.{engine_view};

use crate::Store;
use disk_model::Machine;
use formats::{Params, ReadErr};
use oper_core::Oper;
use store_engine::{
    Engine, ExecErr, calls_go_on, exec_goes_on, fetch_goes_on, fronts_are_joined, lengths_are_told,
    nothing_is_made,
};

impl<O: Oper> Store<O> for Engine<O> {
    ghost view = { engine_view O.meaning };

    fn params(&self) -> Params {
        self.params()
    }

    fn exec<M: Machine>(&mut self, machine: &mut M, op: O) -> Result<(), ExecErr> {
        nothing_is_made(machine, self);
        exec_goes_on::<O, M>();
        match self.exec(machine, op) {
            Ok(_) => Ok(()),
            Err(cause) => Err(cause),
        }
    }

    fn fetch<M: Machine>(&mut self, machine: &mut M, object: u32) -> Result<bool, ReadErr> {
        nothing_is_made(machine, self);
        fetch_goes_on::<O, M>();
        self.fetch(machine, object)
    }

    fn get(&self, object: u32) -> &[u8] {
        self.get(object)
    }

    fn next_empty<M: Machine>(&self, machine: &M, from: u32) -> Option<u32> {
        lengths_are_told(machine, self);
        self.next_empty(from)
    }

    fn nothing_is_made<M: Machine>(&self, machine: &M) {
        nothing_is_made(machine, self);
    }

    fn calls_go_on<M: Machine>() {
        calls_go_on::<O, M>();
        fronts_are_joined::<O, M>();
        fetch_goes_on::<O, M>();
    }
}
