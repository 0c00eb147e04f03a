ghost use Rattle.std.specs.Prelude.{◌≡◌, ℕ, ◌<◌, length, nat_eq, IsTrue};
ghost use Rattle.std.specs.List.{IsDistinct};
ghost use Rattle.oper_core.specs.State.{is_among};
ghost use Rattle.number_lists.specs.Lists.{list_at, AreAsMany};
ghost use Rattle.graph_nodes.specs.Merge.{IsFiled};
ghost use Rattle.graph_nodes.specs.Kept.{AreOwn};
ghost use Rattle.graph_nodes.specs.Removed.{AreReleased, AreAlone};

use number_lists::Chains;

/// Lets the slots be held no more.
pub(crate) fn release(slots: &[u32], held: &mut [bool])
    requires { (i : ℕ) → IsTrue (is_among i slots.now) → i < length held.old }
    ensures { AreReleased slots.now held.old held.new }
{
    for s in slots {
        held[*s as usize] = false;
    }
}

/// Makes each slot of the node n a node by itself.
pub(crate) fn scatter(n: u32, slots: &[u32], node: &mut [u32], members: &mut Chains)
    requires list { n < length members.old.lists }
    requires slots { slots.now ≡ list_at members.old.lists n }
    requires distinct { IsDistinct nat_eq slots.now }
    requires filed { IsFiled node.old members.old }
    requires own { AreOwn node.old }
    requires lists { length members.old.lists ≡ length node.old }
    requires items { members.old.items ≡ length node.old }
    ensures node { AreAlone slots.now node.old node.new }
    ensures filed { IsFiled node.new members.new }
    ensures same { AreAsMany members.old members.new }
{
    members.clear(n);
    for s in slots {
        node[*s as usize] = *s;
        members.push(*s, *s);
    }
}
