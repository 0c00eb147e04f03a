ghost use Rattle.std.specs.Prelude.{◌≡◌, ◌++◌, ◌+◌, ◌∷◌, [], length, OnOk, IfOk, string_bytes};
ghost use Rattle.graph_view.specs.Lines.{entry_of};
ghost use Rattle.graph_view.specs.Dot.{IsGraph};

use crate::accesses::Accesses;
use crate::dot::dot_of;
use install_order::Entry;
use oper_core::Memory;
use std::alloc::Global;
use std::marker::Model;
use write_graph::WriteGraph;

/// Commands that are numbered from 1 on, and their write graph; contracts see the list of their entries.
#[derive(Drop)]
pub struct Commands {
    entries: Vec<Entry>,
    graph: WriteGraph,
}

impl Model for Commands {
    ghost use Rattle.std.specs.Prelude.{◌≡◌, ◌<◌, ◌+◌, List, length};
    ghost use Rattle.std.specs.List.{All};
    ghost use Rattle.install_order.specs.declared.entry.Entry.{Entry};
    ghost use Rattle.write_graph.specs.Graph.{lsns};

    ghost Value = { List Entry };

    ghost view = { λ c. c.entries.items };

    ghost invariant = { λ c. (c.graph.entries ≡ c.entries.items) × All (λ n. n < length c.entries.items + 1) (lsns c.entries.items) };
}

impl Commands {
    /// No commands.
    pub fn new(alloc: Global) -> Result<Self, Memory>
        ensures { IfOk result (λ commands. commands ≡ []) }
    {
        Ok(Commands {
            entries: Vec::new(alloc),
            graph: WriteGraph::new(alloc)?,
        })
    }

    /// Adds a command, with the next number.
    pub fn add(&mut self, accesses: &Accesses) -> Result<(), Memory>
        ensures { OnOk result (self.new ≡ self.old ++ entry_of (length self.old + 1) accesses.now ∷ []) }
    {
        let lsn = self.entries.len() as u64 + 1;
        let entry = accesses.entry(lsn);
        self.graph.make_room(&entry)?;
        self.entries.push(accesses.entry(lsn))?;
        self.graph.add(entry);
        Ok(())
    }

    /// The write graph in the DOT language.
    pub fn into_dot(self, alloc: Global) -> Result<String, Memory>
        ensures { IfOk result (λ text. IsGraph self (string_bytes text)) }
    {
        let Commands { entries, mut graph } = self;
        let dot = dot_of(alloc, entries.as_slice(), &mut graph);
        drop(graph);
        drop(entries);
        dot
    }
}
