use crate::dice::Dice;
use crate::works::{Plan, Removal, Workload, accesses};
use install_order::Entry;
use oper_core::{Memory, Objs};
use std::alloc::Global;
use std::marker::Model;
use write_graph::WriteGraph;

/// A write graph whose entries are numbered as they come; contracts see the next number.
#[derive(Drop)]
pub struct Feed {
    graph: WriteGraph,
    /// The number of the next entry.
    next: u64,
    /// How many entries were added and nodes taken out.
    calls: u64,
}

impl Model for Feed {
    ghost use Rattle.std.specs.Prelude.{ℕ, ◌<◌, All};
    ghost use Rattle.write_graph.specs.Graph.{lsns};

    ghost Value = { ℕ };

    ghost view = { λ f. f.next };

    ghost invariant = { λ f. All (λ n. n < f.next) (lsns f.graph.entries) };
}

impl Feed {
    pub fn new(alloc: Global) -> Result<Self, Memory> {
        Ok(Feed {
            graph: WriteGraph::new(alloc)?,
            next: 0,
            calls: 0,
        })
    }

    /// How many entries were added and nodes taken out.
    pub fn calls(&self) -> u64 {
        self.calls
    }

    /// Adds the operations, and takes nodes out when the plan says.
    pub fn run(&mut self, work: Workload, plan: Plan) -> Result<(), Memory> {
        let mut dice = Dice::new();
        for k in 0..plan.count {
            let (reads, writes) = accesses(work, k, plan.count, &mut dice);
            self.add(reads, writes)?;
            if let Removal::Beyond(held) = plan.removal {
                self.take(held);
            }
        }
        match plan.removal {
            Removal::Never => {}
            Removal::AtEnd | Removal::Beyond(_) => self.take(0),
        }
        Ok(())
    }

    /// Adds an operation, numbered with the next number; the first is 0.
    fn add(&mut self, reads: Objs, writes: Objs) -> Result<(), Memory> {
        let lsn = self.next;
        let Some(next) = lsn.checked_add(1) else {
            return Err(Memory);
        };
        let entry = Entry {
            lsn,
            reads,
            writes,
            identity: false,
        };
        self.graph.make_room(&entry)?;
        self.graph.add(entry);
        self.next = next;
        self.calls = self.calls.saturating_add(1);
        Ok(())
    }

    /// Takes the least minimal nodes out, until at most so many entries are left.
    fn take(&mut self, held: u64) {
        for _ in held..self.graph.len() {
            self.take_one(held);
        }
    }

    /// Takes the least minimal node out, if there are more entries than so many.
    fn take_one(&mut self, held: u64) {
        if self.graph.len() > held {
            self.take_least();
        }
    }

    /// Takes the least minimal node out, if there is one.
    fn take_least(&mut self) {
        let Some(name) = self.graph.minimal() else {
            return;
        };
        self.graph.remove_minimal(name);
        self.calls = self.calls.saturating_add(1);
    }
}
