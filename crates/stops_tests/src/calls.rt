// Calls of an engine, by what they give a test: whether they are done.
use disk_model::Machine;
use op_codec::{AllOps, plain_op};
use op_meaning::PlainOp;
use oper_core::{ByteList, Memory};
use std::alloc::Global;
use store_engine::{Engine, Tuning};

pub const TUNING: Tuning = Tuning {
    clean: 2,
    clean_bytes: 0,
    redo_dirty: 64,
    redo_bytes: 0,
    redo_most: 64,
    redo_waiting: 1 << 28,
    redo_round: 64,
};

// Whether a command is done.
pub fn does<M: Machine>(engine: &mut Engine<AllOps>, machine: &mut M, op: AllOps) -> bool {
    if engine.is_broken() {
        return false;
    }
    engine.exec(machine, op).is_ok()
}

// A put of these bytes.
pub fn put(alloc: Global, object: u32, value: &[u8]) -> Result<AllOps, Memory> {
    let value = ByteList::new(value.to_vec(alloc)?);
    Ok(plain_op(PlainOp::Put { object, value }))
}

// Whether a put is done.
pub fn puts<M: Machine>(
    alloc: Global,
    engine: &mut Engine<AllOps>,
    machine: &mut M,
    object: u32,
    value: &[u8],
) -> bool {
    match put(alloc, object, value) {
        Ok(op) => does(engine, machine, op),
        Err(Memory) => false,
    }
}

// Whether all that waits is installed.
pub fn drains<M: Machine>(engine: &mut Engine<AllOps>, machine: &mut M) -> bool {
    if engine.is_broken() {
        return false;
    }
    engine.drain(machine).is_ok()
}
