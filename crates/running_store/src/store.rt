// A running store.
ghost use Rattle.std.specs.Prelude.{◌≡◌, ◌+◌, ◌≤◌, ◌^◌, false, length, OnOk};
ghost use Rattle.disk_model.specs.Disk.{Any, In, Runs, Same};
ghost use Rattle.formats.specs.Objects.{IsInRange};
ghost use Rattle.running_store.specs.Calls.{IsCall, IsForce, IsRoomMade, Never, ending_of_force};
ghost use Rattle.running_store.specs.Courses.{course, force_course, room_steps};
ghost use Rattle.running_store.specs.Courses.Stop.{Through};
ghost use Rattle.running_store.specs.Parts.{parts};
ghost use Rattle.running_store.specs.StoreView.{store_params, view_of};
ghost use Rattle.running_store.specs.Taking.{ArePartsInUse, Takes};

use crate::fault::note;
use crate::objects::Objects;
use disk_model::{Failed, Machine};
use formats::{MAX_PAYLOAD, Params};
use log_records::RecordLog;
use oper_core::Oper;
use std::alloc::Global;
use std::marker::Model;
use write_graph::WriteGraph;

/// A running store: its log, its objects, and the graph of what is not installed.
///
/// The machine is passed to each call. A store of which a call was answered that the disk failed is broken, and no call
/// is made on it any more.
#[derive(Drop)]
pub struct Store<O: Oper> {
    pub(crate) alloc: Global,
    pub(crate) log: RecordLog<O>,
    pub(crate) objects: Objects,
    pub(crate) graph: WriteGraph,
    // So many identity writes were logged since it was opened.
    pub(crate) identities: u64,
    pub(crate) broken: bool,
}

impl<O: Oper> Model for Store<O> {
    ghost use Rattle.std.specs.Prelude.{◌≡◌, false};
    ghost use Rattle.running_store.specs.Parts.{parts};
    ghost use Rattle.running_store.specs.StoreView.{IsUsable, StoreView, view_of};

    ghost Value = { StoreView };

    ghost view = { λ s. view_of s.log s.objects s.graph.entries s.identities s.broken };

    ghost invariant = { λ s. s.broken ≡ false → IsUsable (parts s.log s.objects s.graph.entries) s.identities };
}

impl<O: Oper> Store<O> {
    /// The store that these parts make, of whose identity writes none is counted yet.
    pub fn new(alloc: Global, log: RecordLog<O>, objects: Objects, graph: WriteGraph) -> Store<O>
        requires { ArePartsInUse (parts log objects graph.entries) }
        ensures { result ≡ view_of log objects graph.entries 0 false }
    {
        Store {
            alloc,
            log,
            objects,
            graph,
            identities: 0,
            broken: false,
        }
    }

    /// Its log.
    pub fn log(&self) -> &RecordLog<O>
        ensures { result.now ≡ self.now.parts.log }
    {
        &self.log
    }

    /// Its objects.
    pub fn objects(&self) -> &Objects
        ensures { result.now ≡ self.now.parts.volatile.objects }
    {
        &self.objects
    }

    /// The graph of what is not installed.
    pub fn graph(&self) -> &WriteGraph
        ensures { result.now.entries ≡ self.now.parts.volatile.entries }
    {
        &self.graph
    }

    /// Where its memory comes from.
    pub fn alloc(&self) -> Global {
        self.alloc
    }

    /// How many objects it has, how many bytes each may hold, and how long its log may be. A store that is not broken is in use.
    pub fn params(&self) -> Params
        ensures value { result ≡ store_params self.now }
        ensures range { IsInRange (store_params self.now) }
        ensures in_use { self.now.broken ≡ false → ArePartsInUse self.now.parts }
    {
        self.objects.params()
    }

    /// How many identity writes were logged since it was opened.
    pub fn identities(&self) -> u64
        ensures { result ≡ self.now.identities }
    {
        self.identities
    }

    /// Whether a call was answered that the disk failed.
    pub fn is_broken(&self) -> bool
        ensures { result ≡ self.now.broken }
    {
        self.broken
    }

    /// Makes all records that wait stable, in the file of the log alone. Where none waits, no device call is made.
    pub fn force<M: Machine>(&mut self, machine: &mut M) -> Result<(), Failed>
        requires unbroken { self.old.broken ≡ false }
        ensures call { IsCall O.meaning (M.disk machine.old) (M.disk machine.new) self.old self.new 0 Never (ending_of_force result) }
        ensures takes { Takes O.meaning (M.disk machine.old) (M.disk machine.new) self.old.parts self.new.parts (λ m w used. force_course m w used) (ending_of_force result) }
        ensures file { Runs (In self.old.parts.log.log.active Any) Same (M.disk machine.old) (M.disk machine.new) }
        ensures forced { IsForce self.old self.new result }
    {
        explain_core::block_gate_keeps::<O>();
        let answer = self.log.force(machine);
        note(&mut self.broken, &answer);
        answer
    }

    /// Sees that a record of n bytes fits into the block that waits: where it does not, what waits is forced.
    pub fn make_block_room<M: Machine>(&mut self, machine: &mut M, n: u64) -> Result<(), Failed>
        requires unbroken { self.old.broken ≡ false }
        requires short { n ≤ 2 ^ 30 }
        ensures call { IsCall O.meaning (M.disk machine.old) (M.disk machine.new) self.old self.new 0 Never (ending_of_force result) }
        ensures takes { Takes O.meaning (M.disk machine.old) (M.disk machine.new) self.old.parts self.new.parts (λ m w used. course (room_steps m w n) used Through) (ending_of_force result) }
        ensures room { OnOk result (length self.new.parts.log.log.pending + n ≤ 2 ^ 30) }
        ensures file { Runs (In self.old.parts.log.log.active Any) Same (M.disk machine.old) (M.disk machine.new) }
        ensures same { IsRoomMade self.old self.new result }
    {
        let room = MAX_PAYLOAD as u64 - n;
        if self.log().buffered() <= room {
            return Ok(());
        }
        self.force(machine)
    }
}
