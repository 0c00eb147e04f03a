// Commands and installs by calls of the crates.
use crate::calls::put;
use cache_manager::{InstallErr, install_one};
use disk_model::Machine;
use execution::execute;
use op_codec::{AllOps, plain_op};
use op_meaning::PlainOp;
use oper_core::Memory;
use redo_shell::Status;
use restart::{OpenErr, Tuning, restart};
use running_store::Store;
use std::alloc::Global;

// The store of a machine, after a restart that installs while more objects than this are dirty.
fn opened<M: Machine>(
    alloc: Global,
    machine: &mut M,
    dirty: usize,
) -> Result<Store<AllOps>, OpenErr> {
    let tuning = Tuning {
        clean: 2,
        clean_bytes: 0,
        redo_dirty: dirty,
        redo_bytes: 0,
        redo_most: dirty,
        redo_waiting: 1 << 28,
        redo_round: 1,
    };
    restart::<AllOps, M>(alloc, machine, tuning)
}

// Whether a command is done.
fn does<M: Machine>(it: &mut Store<AllOps>, machine: &mut M, op: AllOps) -> bool {
    if it.is_broken() {
        return false;
    }
    execute(it, machine, op, false).is_ok()
}

// Whether `put 0 aacc`, `put 1 bb` and `swap 0 1` are done.
fn swaps<M: Machine>(
    alloc: Global,
    it: &mut Store<AllOps>,
    machine: &mut M,
) -> Result<bool, Memory> {
    let long = put(alloc, 0, b"\xaa\xcc")?;
    let short = put(alloc, 1, b"\xbb")?;
    let swap = plain_op(PlainOp::Swap {
        first: 0,
        second: 1,
    });
    let mut all = does(it, machine, long);
    all &= does(it, machine, short);
    all &= does(it, machine, swap);
    Ok(all)
}

// Says a line.
pub fn say<M: Machine>(machine: &mut M, line: &[u8]) -> Result<(), Status> {
    match machine.say(line) {
        Ok(()) => Ok(()),
        Err(_) => Err(Status::SayFault),
    }
}

// An install.
fn install<M: Machine>(it: &mut Store<AllOps>, machine: &mut M) -> Result<(), Status> {
    if it.is_broken() {
        return Err(Status::DiskFault);
    }
    match install_one(it, machine, 0) {
        Ok(_) => Ok(()),
        Err(InstallErr::DiskFault) => Err(Status::DiskFault),
        Err(_) => Err(Status::Memory),
    }
}

// Three installs, each of which is said: the node of the swap, that of its identity write, and none.
fn install_all<M: Machine>(it: &mut Store<AllOps>, machine: &mut M) -> Result<(), Status> {
    install(it, machine)?;
    say(machine, b"ok\n")?;
    install(it, machine)?;
    say(machine, b"ok\n")?;
    install(it, machine)?;
    say(machine, b"ok\n")
}

// Makes two puts and a swap, and installs them.
fn swap_and_install<M: Machine>(
    alloc: Global,
    it: &mut Store<AllOps>,
    machine: &mut M,
) -> Result<(), Status> {
    match swaps(alloc, it, machine) {
        Ok(true) => install_all(it, machine),
        _ => Err(Status::Memory),
    }
}

// Does so if it is asked to.
fn swap_if_asked<M: Machine>(
    alloc: Global,
    it: &mut Store<AllOps>,
    machine: &mut M,
    swaps: bool,
) -> Result<(), Status> {
    if swaps {
        swap_and_install(alloc, it, machine)
    } else {
        Ok(())
    }
}

// The status of the program where a restart answers so.
pub fn status_of(cause: OpenErr) -> Status {
    match cause {
        OpenErr::DiskFault => Status::DiskFault,
        OpenErr::NotAStore => Status::NotAStore,
        OpenErr::Damaged { .. } => Status::Damaged,
        OpenErr::Memory => Status::Memory,
    }
}

// Opens a store, with installs while more objects than this are dirty, and if it is asked to, makes two puts and a swap and
// installs them.
pub fn open<M: Machine>(
    alloc: Global,
    machine: &mut M,
    dirty: usize,
    swaps: bool,
) -> Result<(), Status> {
    match opened(alloc, machine, dirty) {
        Ok(mut it) => swap_if_asked(alloc, &mut it, machine, swaps),
        Err(cause) => Err(status_of(cause)),
    }
}
