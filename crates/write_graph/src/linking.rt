ghost use Rattle.std.specs.Prelude.{◌≡◌, ℕ, ◌<◌, ◌≤◌, ◌+◌, ◌*◌, ◌/◌, ◌^◌, IsTrue, Some, length};
ghost use Rattle.oper_core.specs.State.{is_among};
ghost use Rattle.graph_nodes.specs.Arcs.{held_at};
ghost use Rattle.write_graph.specs.Rows.{last_of, waiting_of, last_held};
ghost use Rattle.write_graph.specs.Steps.{IsLed, IsWriterLed, AreWritersLed, IsReaderLed, IsAnswered, AreAnswered, AreWaiting};

use crate::cells::{CELLS, own_cell};
use crate::rows::Rows;
use graph_nodes::SlotGraph;

/// Lets the cells of a new slot, which reads these objects, wait for their next writes.
pub(crate) fn wait_all(slot: u32, objects: &[u32], rows: &mut Rows)
    requires few { length objects.now ≤ 4 }
    requires small { slot < 2 ^ 28 }
    requires cells { 8 * slot + 8 ≤ rows.old.cells }
    requires free { (x c : ℕ) → IsTrue (is_among c (waiting_of rows.old x)) → c < 8 * slot }
    requires room { length objects.now ≤ rows.old.row_room }
    ensures { AreWaiting objects.now slot rows.old rows.new }
{
    let mut cell = CELLS * slot;
    for x in objects {
        rows.wait(*x, cell);
        cell += 1;
    }
}

/// Leads the last writers of the objects to the slot that overwrites them.
pub(crate) fn lead_writers(slot: u32, objects: &[u32], graph: &mut SlotGraph, rows: &Rows)
    requires slot { slot < length graph.old.node }
    requires held { IsTrue (held_at graph.old.held slot) }
    requires below { (x w : ℕ) → last_of rows.now x ≡ Some w → w < length graph.old.node }
    ensures { AreWritersLed rows.now objects.now slot graph.old graph.new }
{
    for x in objects {
        lead_writer(slot, *x, graph, rows);
    }
}

/// Leads the last writer of the object to the slot that overwrites it.
fn lead_writer(slot: u32, x: u32, graph: &mut SlotGraph, rows: &Rows)
    requires slot { slot < length graph.old.node }
    requires held { IsTrue (held_at graph.old.held slot) }
    requires below { (w : ℕ) → last_of rows.now x ≡ Some w → w < length graph.old.node }
    ensures { IsWriterLed rows.now x slot graph.old graph.new }
{
    let Some(cell) = rows.last(x) else {
        return;
    };
    if !graph.is_held(cell / CELLS) {
        return;
    }
    lead(graph, cell, slot);
}

/// Gives the cells that wait for the writes of the objects their arcs, and sets the objects' last writer.
pub(crate) fn answer_all(slot: u32, objects: &[u32], graph: &mut SlotGraph, rows: &mut Rows)
    requires slot { slot < length graph.old.node }
    requires held { IsTrue (held_at graph.old.held slot) }
    requires small { length graph.old.node ≤ 2 ^ 28 }
    requires below { (x w : ℕ) → last_of rows.old x ≡ Some w → w < length graph.old.node }
    requires cells { (x c : ℕ) → IsTrue (is_among c (waiting_of rows.old x)) → c / 8 < length graph.old.node }
    requires few { length objects.now ≤ 4 }
    requires room { length objects.now ≤ rows.old.row_room }
    ensures { AreAnswered objects.now objects.now slot graph.old rows.old graph.new rows.new }
{
    for x in objects {
        let version = last_held(*x, graph, rows).unwrap_or(slot);
        answer(*x, version, graph, rows);
        rows.set_last(*x, own_cell(slot, *x, objects));
    }
}

/// Gives the cells that wait for the write of the object an arc to the slot, except the slot's own.
fn answer(x: u32, to: u32, graph: &mut SlotGraph, rows: &mut Rows)
    requires slot { to < length graph.old.node }
    requires held { IsTrue (held_at graph.old.held to) }
    requires cells { (c : ℕ) → IsTrue (is_among c (waiting_of rows.old x)) → c / 8 < length graph.old.node }
    ensures { IsAnswered x to graph.old rows.old graph.new rows.new }
{
    'cells: while let Some(cell) = rows.take(x) {
        lead_reader(cell, to, graph);
    }
}

/// Gives the cell an arc to the slot, if its own slot is held and not this one.
fn lead_reader(cell: u32, to: u32, graph: &mut SlotGraph)
    requires from { cell / 8 < length graph.old.node }
    requires to { to < length graph.old.node }
    requires held { IsTrue (held_at graph.old.held to) }
    ensures { IsReaderLed graph.old cell to graph.new }
{
    let from = cell / CELLS;
    if from == to || !graph.is_held(from) {
        return;
    }
    lead(graph, cell, to);
}

/// Gives the cell an arc to the slot, if it has none yet.
fn lead(graph: &mut SlotGraph, cell: u32, to: u32)
    requires from { cell / 8 < length graph.old.node }
    requires from_held { IsTrue (held_at graph.old.held (cell / 8)) }
    requires to { to < length graph.old.node }
    requires to_held { IsTrue (held_at graph.old.held to) }
    ensures { IsLed graph.old cell to graph.new }
{
    let _slots = graph.len();
    if graph.arc(cell).is_none() {
        graph.insert(cell, to);
    }
}

/// The slot that wrote the object last, if it is held.
pub(crate) fn last_held(x: u32, graph: &SlotGraph, rows: &Rows) -> Option<u32>
    requires below { (w : ℕ) → last_of rows.now x ≡ Some w → w < length graph.now.node }
    ensures { result ≡ last_held graph.now.held rows.now x }
{
    let w = rows.last(x)? / CELLS;
    if graph.is_held(w) { Some(w) } else { None }
}
