ghost use Rattle.std.specs.Prelude.{◌≡◌, ℕ, ◌<◌, ◌≤◌, ◌*◌, ◌^◌, [], OnOk, length};
ghost use Rattle.std.specs.Vec.{vec_capacity};
ghost use Rattle.graph_nodes.specs.Levels.{level_at};

use number_lists::{SparseChains, push_in_room};
use oper_core::Memory;
use std::alloc::Global;

/// How many looks at cells a search against the arcs has in any case.
pub(crate) const LEAST_LOOKS: u64 = 64;

/// The levels of nodes. A search against the arcs looks at the nodes of one level alone.
#[derive(Drop)]
pub(crate) struct Levels {
    /// By node, its level: no arc leads to a lower one. Past the greatest node that was ever raised, nothing, for nought.
    pub(crate) level: Vec<u32>,
    /// By node, the cells whose arcs lead into it from another node of its level, and some without such an arc.
    pub(crate) near: SparseChains,
    /// How many looks at cells it took to raise nodes.
    pub(crate) spent: u64,
    /// How often a search was given up.
    pub(crate) raises: u64,
    /// How many looks searches took that were not given up, beyond those that each has in any case.
    pub(crate) used: u64,
}

impl Levels {
    /// No nodes.
    pub(crate) fn new(alloc: Global) -> Self
        ensures level { result.level.items ≡ [] }
        ensures lists { result.near.lists ≡ [] }
        ensures items { result.near.items ≡ 0 }
    {
        Levels {
            level: Vec::new(alloc),
            near: SparseChains::new(alloc),
            spent: 0,
            raises: 0,
            used: 0,
        }
    }

    /// The level of the node.
    pub(crate) fn at(&self, n: u32) -> u32
        ensures { result ≡ level_at self.now.level.items n }
    {
        level_of(n, self.level.as_slice())
    }

    /// Takes the memory for so many nodes, and for so many more lists of cells. Nothing else changes, also where it is out of memory.
    pub(crate) fn make_room(&mut self, nodes: usize, count: usize) -> Result<(), Memory>
        requires few { count ≤ 2 ^ 28 }
        ensures level { self.new.level.items ≡ self.old.level.items }
        ensures capacity { vec_capacity self.old.level ≤ vec_capacity self.new.level }
        ensures lists { self.new.near.lists ≡ self.old.near.lists }
        ensures items { self.new.near.items ≡ self.old.near.items }
        ensures list_room { self.old.near.list_room ≤ self.new.near.list_room }
        ensures item_room { self.old.near.item_room ≤ self.new.near.item_room }
        ensures room { OnOk result ((nodes ≤ vec_capacity self.new.level) × (count ≤ self.new.near.list_room) × (8 * count ≤ self.new.near.item_room)) }
    {
        let more = nodes.saturating_sub(self.level.len());
        self.level.reserve(more)?;
        self.near.make_room(count, 8 * count)?;
        Ok(())
    }

    /// How many looks at cells the next search has before it is given up: beyond some that each has, as many as raising nodes
    /// took for each search that was given up. All searches together take no more such looks than raising.
    pub(crate) fn looks(&self) -> u64 {
        let average = self.spent / self.raises.saturating_add(1);
        let left = self.spent.saturating_sub(self.used);
        let more = if average < left { average } else { left };
        more.saturating_add(LEAST_LOOKS)
    }
}

/// The level of the node, nought where the table has none.
pub(crate) fn level_of(n: u32, level: &[u32]) -> u32
    ensures { result ≡ level_at level.now n }
{
    let n = n as usize;
    if n < level.len() { level[n] } else { 0 }
}

/// Sets the level of the node.
pub(crate) fn set_level(n: u32, l: u32, level: &mut Vec<u32>)
    requires { n < vec_capacity level.old }
    ensures here { level_at level.new.items n ≡ l }
    ensures others { (m : ℕ) → (m ≡ n → ⊥) → level_at level.new.items m ≡ level_at level.old.items m }
    ensures capacity { vec_capacity level.old ≤ vec_capacity level.new }
{
    fill(n as usize + 1, level);
    level[n as usize] = l;
}

/// Writes down the levels of so many nodes at least.
fn fill(count: usize, level: &mut Vec<u32>)
    requires { count ≤ vec_capacity level.old }
    ensures each { (m : ℕ) → level_at level.new.items m ≡ level_at level.old.items m }
    ensures enough { count ≤ length level.new.items }
    ensures capacity { vec_capacity level.old ≤ vec_capacity level.new }
{
    for i in level.len()..count {
        push_in_room(level, 0);
    }
}
