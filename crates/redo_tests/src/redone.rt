// A store whose log is done again.
ghost use Rattle.std.specs.Prelude.{◌≡◌, ◌<◌, ◌≤◌, ◌^◌, ℕ, None, [], false, IfNone, IfOk};
ghost use Rattle.dirty_cache.specs.Contents.{held};
ghost use Rattle.running_store.specs.Laid.Flushed.{AreEarly};

use analysis_pass::{Plan, analyse};
use dirty_page_table::DirtyPageTable;
use disk_model::{FileNo, Fuse, MemMachine};
use explain_core::Marks;
use formats::ReadErr;
use log_records::RecordLog;
use op_codec::AllOps;
use oper_core::{Bounds, Memory};
use redo_pass::redo;
use running_store::{Objects, Store};
use stable_objects::OpenErr;
use std::alloc::Global;
use std::test::Fail;
use write_graph::WriteGraph;

// More calls than a redo makes.
pub const ALL: u64 = 1000;

// What a redo leaves, and whether it ended. It began at the LSN `start`.
#[derive(Drop)]
pub struct Redone {
    pub machine: MemMachine,
    pub store: Store<AllOps>,
    pub ends: bool,
    pub start: u64,
}

impl Redone {
    // The machine alone.
    pub fn into_machine(self) -> MemMachine {
        self.machine
    }
}

// The log of a machine, and its last checkpoint.
fn loaded(
    alloc: Global,
    machine: &mut MemMachine,
    b: Bounds,
) -> Result<(RecordLog<AllOps>, Option<DirtyPageTable>), ReadErr>
    ensures bounds { IfOk result (λ it. it.0.bounds ≡ b) }
    ensures next { IfOk result (λ it. (1 ≤ it.0.next) × (it.0.next ≤ 2 ^ 62)) }
{
    RecordLog::load_checked(alloc, machine, b)
}

// The place of a slot that is late, if there is one.
fn first_late(objects: &Objects, next: u64) -> Option<u64>
    requires { 0 < next }
    ensures { IfNone result (AreEarly next objects.now) }
{
    objects.first_late(next)
}

// The store of a machine's files, and the plan by which its log has to be done again.
pub fn begun(alloc: Global, machine: &mut MemMachine) -> Result<(Store<AllOps>, Plan), OpenErr>
    ensures unbroken { IfOk result (λ it. it.0.broken ≡ false) }
    ensures empty { IfOk result (λ it. ((x : ℕ) → held it.0.parts.volatile.objects.cache x ≡ None) × (it.0.parts.volatile.entries ≡ [])) }
{
    let objects = Objects::load(alloc, machine, 2, 0)?;
    let (log, last) = loaded(alloc, machine, objects.bounds())?;
    if let Some(place) = first_late(&objects, log.next()) {
        drop((objects, log, last));
        return Err(OpenErr::Damaged {
            file: FileNo::Objects,
            place,
        });
    }
    let plan = analyse(alloc, log.base(), last);
    match WriteGraph::new(alloc) {
        Ok(graph) => Ok((Store::new(alloc, log, objects, graph), plan)),
        Err(Memory) => {
            drop((objects, log, plan));
            Err(OpenErr::Memory)
        }
    }
}

// Does the log again, on a machine that fails after so many calls of the redo.
pub fn run_redo(
    alloc: Global,
    mut machine: MemMachine,
    limit: usize,
    calls: u64,
) -> Result<Redone, Fail> {
    let (mut store, plan) = begun(alloc, &mut machine)?;
    let mut fuse = Fuse::new(machine, calls);
    let marks = Marks {
        dirty: limit,
        waiting: 1 << 28,
        most: limit,
    };
    let ends = redo(&plan, &mut store, &mut fuse, marks).is_ok();
    Ok(Redone {
        machine: fuse.into_inner(),
        store,
        ends,
        start: plan.start(),
    })
}

// Whether an object has this value.
fn holds(store: &mut Store<AllOps>, machine: &mut MemMachine, object: u32, value: &[u8]) -> bool {
    if store.is_broken() || object >= store.params().objects {
        return false;
    }
    match store.fetch(machine, object) {
        Ok(()) => store.objects().value(object) == value,
        Err(_) => false,
    }
}

// Whether the first objects have these values.
pub fn hold(store: &mut Store<AllOps>, machine: &mut MemMachine, values: &[&[u8]]) -> bool {
    let mut all = true;
    for (object, value) in values.iter().enumerate() {
        if let Ok(object) = u32::try_from(object) {
            all &= holds(store, machine, object, *value);
        }
    }
    all
}

// How many entries the graph has, and how many objects are dirty.
pub fn counts(store: &Store<AllOps>) -> [u64; 2] {
    [store.graph().len(), store.objects().dirty_count() as u64]
}
