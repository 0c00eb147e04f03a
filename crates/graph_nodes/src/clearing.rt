ghost use Rattle.std.specs.Prelude.{◌≡◌, ℕ, ◌<◌, ◌/◌, length, IsTrue};
ghost use Rattle.oper_core.specs.State.{is_among};
ghost use Rattle.graph_nodes.specs.Into.{AreCleared};
ghost use Rattle.graph_nodes.specs.Named.{AreNamesSame};
ghost use Rattle.graph_nodes.specs.Removed.{IsInOrder};

use crate::arcs::Arcs;
use crate::names::Names;
use crate::settling::settle;
use number_lists::{PackedOption, SparseChains};

/// Takes away the arcs of the slots' cells.
pub(crate) fn clear_slots(
    slots: &[u32],
    arcs: &mut Arcs,
    node: &[u32],
    into: &mut SparseChains,
    names: &mut Names,
)
    requires slots { (i : ℕ) → IsTrue (is_among i slots.now) → i < length node.now }
    requires order { IsInOrder arcs.old.cells node.now into.old names.old }
    ensures cleared { AreCleared (λ c. IsTrue (is_among (c / 8) slots.now)) arcs.old.cells arcs.new.cells into.old into.new }
    ensures order { IsInOrder arcs.new.cells node.now into.new names.new }
    ensures room { arcs.new.room ≡ arcs.old.room }
    ensures same { AreNamesSame names.old names.new }
{
    for s in slots {
        clear_slot(*s, arcs, node, into, names);
    }
}

/// Takes away the arcs of the slot's eight cells.
fn clear_slot(slot: u32, arcs: &mut Arcs, node: &[u32], into: &mut SparseChains, names: &mut Names)
    requires slot { slot < length node.now }
    requires order { IsInOrder arcs.old.cells node.now into.old names.old }
    ensures cleared { AreCleared (λ c. c / 8 ≡ slot) arcs.old.cells arcs.new.cells into.old into.new }
    ensures order { IsInOrder arcs.new.cells node.now into.new names.new }
    ensures room { arcs.new.room ≡ arcs.old.room }
    ensures same { AreNamesSame names.old names.new }
{
    for i in 0..8usize {
        clear_arc(8 * slot as usize + i, arcs, node, into, names);
    }
}

/// Takes away the arc of the cell, if it has one.
fn clear_arc(cell: usize, arcs: &mut Arcs, node: &[u32], into: &mut SparseChains, names: &mut Names)
    requires cell { cell < length arcs.old.cells }
    requires order { IsInOrder arcs.old.cells node.now into.old names.old }
    ensures cleared { AreCleared (λ c. c ≡ cell) arcs.old.cells arcs.new.cells into.old into.new }
    ensures order { IsInOrder arcs.new.cells node.now into.new names.new }
    ensures room { arcs.new.room ≡ arcs.old.room }
    ensures same { AreNamesSame names.old names.new }
{
    let Some(to) = arcs.get(cell) else {
        return;
    };
    arcs.set(cell, PackedOption::none());
    let end = node[to as usize];
    settle(end, arcs, node, into);
    names.tell(end, into.count(end) == 0);
}
