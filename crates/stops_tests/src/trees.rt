// Trees by calls of the engine, and by lines whose nodes are installed in part.
use crate::calls::{TUNING, does};
use crate::installs::{say, status_of};
use crate::running::{Room, crashed, run};
use btree_ops::NodeOp;
use disk_model::{Crash, Machine};
use key_entries::Short;
use op_codec::{AllOps, node_op};
use redo_shell::Status;
use std::alloc::{AllocError, Global};
use std::test::Fail;
use store_engine::Engine;

// A put of a pair of one byte each.
fn put(key: u8, value: u8) -> Option<NodeOp> {
    Some(NodeOp::Put {
        object: 0,
        key: Short::new(&[key])?,
        value: Short::new(&[value])?,
    })
}

// Whether seven pairs are put.
fn fills<M: Machine>(engine: &mut Engine<AllOps>, machine: &mut M) -> bool {
    let mut all = true;
    for key in 1..=7u8 {
        match put(key, 0xa0 + key) {
            Some(op) => all &= does(engine, machine, node_op(op)),
            None => all = false,
        }
    }
    all
}

// Forces all.
fn force<M: Machine>(engine: &mut Engine<AllOps>, machine: &mut M) -> Result<u64, Status> {
    if engine.is_broken() {
        return Err(Status::Memory);
    }
    match engine.force(machine) {
        Ok(count) => Ok(count),
        Err(_) => Err(Status::DiskFault),
    }
}

// Puts seven pairs into object 0, splits it, and forces the eight commands.
fn fill_and_split<M: Machine>(engine: &mut Engine<AllOps>, machine: &mut M) -> Result<(), Status> {
    let split = NodeOp::SplitRoot {
        root: 0,
        left: 1,
        right: 2,
    };
    let done = fills(engine, machine) & does(engine, machine, node_op(split));
    let forced = force(engine, machine)?;
    if done & (forced == 8) {
        say(machine, b"forced 8\n")
    } else {
        Err(Status::Memory)
    }
}

// Opens a store, and makes a tree whose root is split.
pub fn grow<M: Machine>(alloc: Global, machine: &mut M) -> Result<(), Status> {
    match Engine::<AllOps>::restart(alloc, machine, TUNING) {
        Ok(mut engine) => fill_and_split(&mut engine, machine),
        Err(cause) => Err(status_of(cause)),
    }
}

const ROOM: Room = Room {
    sizes: [15588, 4096, 4096],
    calls: 400,
    bytes: 4096,
};

// A leaf is filled and split, and of the three nodes that the split writes two are installed.
const SPLIT: &[u8] =
    b"tinsert 0 7 01 a1\ntinsert 0 7 02 a2\ntinsert 0 7 03 a3\ntinsert 0 7 04 a4\ntinsert 0 7 05 a5\ntinsert 0 7 06 a6\ntinsert 0 7 07 a7\ntinsert 0 7 08 a8\ninstall\ninstall\n";

// Whether the next run after these lines and a crash says this.
fn next_says(alloc: Global, lines: &[u8], next: &[u8], said: &[u8]) -> Result<bool, AllocError> {
    let mut machine = ROOM.machine(alloc, 0)?;
    run(alloc, &mut machine, "redo init 8 1024 65536", b"");
    run(alloc, &mut machine, "redo run", lines);
    let mut left = crashed(machine, Crash::Old);
    run(alloc, &mut left, "redo run", next);
    Ok(left.said() == said)
}

// The redo does the split again for one object alone, and the identity write of that object after it: two records, one dirty
// object.
#[test]
fn a_tree_installed_in_part_is_whole(rt: HostRuntime) -> Result<(), Fail> {
    let said: &[u8] = b"stat 2 1 2 9 9 336 0\n01:a1 02:a2 03:a3 04:a4 05:a5 06:a6 07:a7 08:a8\n";
    assert!(rt; next_says(rt.alloc(), SPLIT, b"stat\ntrange 0 7 01 09\n", said)?);
    Ok(())
}
