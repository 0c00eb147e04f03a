// The program on a machine beside a copy of what its files should hold.
ghost use Rattle.std.specs.Prelude.{◌⊎◌, IfSome};
ghost use Rattle.disk_model.specs.Growing.{files_of};
ghost use Rattle.formats.specs.FirstFault.{IsDamaged};
ghost use Rattle.op_codec.specs.AllOps.{all_meaning};
ghost use Rattle.restart.specs.Damage.{IsDamagedSince};

use crate::running::{INIT, empty_folder, new_store, run};
use disk_model::FileNo::{LogA, LogB, Objects};
use disk_model::{Crash, FileNo, GrowMem, Machine, MemMachine, Mirrored};
use op_codec::AllOps;
use redo_shell::Status;
use restart::{OpenErr, Tuning, restart};
use std::alloc::{AllocError, Global};
use std::test::Fail;

// A record of each kind, an install, a checkpoint, and a new log in the place of the old one.
const SCRIPT: &[u8] = b"put 0 aa\ncopy 0 1\nput 0 bb\nforce\ninstall\ncheckpoint\ntrim\nget 1\n";

// Whether answers were printed on the inner machine, and a store is left there that was synced.
fn is_stored(alloc: Global, machine: Mirrored<MemMachine>) -> bool {
    let inner = machine.into_inner();
    let said = inner.said().starts_with(b"ok\n");
    let mut left = inner.crash(Crash::Old);
    said & (run(alloc, &mut left, "redo dump", b"") == Status::Done)
}

// What is read is what was written: the program makes a store, runs a script on it, and dumps it.
fn reads_what_it_wrote(alloc: Global) -> Result<bool, AllocError> {
    let mut machine = Mirrored::new(empty_folder(alloc)?, GrowMem::new(alloc)?);
    let made = run(alloc, &mut machine, INIT, b"");
    let ran = run(alloc, &mut machine, "redo run", SCRIPT);
    let dumped = run(alloc, &mut machine, "redo dump", b"");
    let done = (made == Status::Done) & (ran == Status::Done) & (dumped == Status::Done);
    Ok(done & machine.is_same() & is_stored(alloc, machine))
}

// A copy of the files.
fn copy_of(alloc: Global, machine: &MemMachine) -> Result<GrowMem, AllocError> {
    let mut copy = GrowMem::new(alloc)?;
    for file in [Objects, LogA, LogB] {
        let _ = copy.write_at(file, 0, machine.bytes(file));
    }
    Ok(copy)
}

// A store whose count of objects is 0, beside a copy that was made before that or after it.
fn damaged(alloc: Global, copied_before: bool) -> Result<Mirrored<MemMachine>, AllocError> {
    let mut store = new_store(alloc)?;
    let mut copy = copy_of(alloc, &store)?;
    let _ = store.write_at(Objects, 9, &[0; 4]);
    if !copied_before {
        copy = copy_of(alloc, &store)?;
    }
    Ok(Mirrored::new(store, copy))
}

// How a run ends on it, and whether it reads what the copy holds.
fn ends(alloc: Global, copied_before: bool) -> Result<(Status, bool), AllocError> {
    let mut machine = damaged(alloc, copied_before)?;
    let status = run(alloc, &mut machine, "redo run", b"");
    Ok((status, machine.is_same()))
}

// The damage that a restart reports where all that it reads is as in the copy. Whatever the machine is, the copy is damaged
// there, by the first check that fails, or has a length there that is too great, in a slot, while it differs at most in the
// objects file from files that met their format.
fn damage_of_copy<M: Machine>(alloc: Global, machine: &mut Mirrored<M>) -> Option<(FileNo, u64)>
    ensures { IfSome result (λ it. IsDamaged all_meaning (files_of machine.new.copy) it.0 it.1 ⊎ IsDamagedSince all_meaning (⟦<Mirrored<M> as Machine>⟧.disk machine.old) (files_of machine.new.copy) it.0 it.1) }
{
    let tuning = Tuning {
        clean: 2,
        clean_bytes: 0,
        redo_dirty: 2,
        redo_bytes: 0,
        redo_most: 2,
        redo_waiting: 1 << 28,
        redo_round: 1,
    };
    match restart::<AllOps, Mirrored<M>>(alloc, machine, tuning) {
        Ok(restarted) => {
            drop(restarted);
            None
        }
        Err(OpenErr::Damaged { file, place }) => machine.is_same().then_some((file, place)),
        Err(_) => None,
    }
}

fn damage_of(alloc: Global, copied_before: bool) -> Result<Option<(FileNo, u64)>, AllocError> {
    let mut machine = damaged(alloc, copied_before)?;
    Ok(damage_of_copy(alloc, &mut machine))
}

#[test]
fn only_what_was_written_is_read(rt: HostRuntime) -> Result<(), Fail> {
    assert!(rt; reads_what_it_wrote(rt.alloc())?);
    Ok(())
}

#[test]
fn a_difference_is_noticed(rt: HostRuntime) -> Result<(), Fail> {
    assert!(rt; ends(rt.alloc(), true)? == (Status::Damaged, false));
    assert!(rt; ends(rt.alloc(), false)? == (Status::Damaged, true));
    assert!(rt; damage_of(rt.alloc(), true)?.is_none());
    assert!(rt; damage_of(rt.alloc(), false)? == Some((Objects, 9)));
    Ok(())
}
