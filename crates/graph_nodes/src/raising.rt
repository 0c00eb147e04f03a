ghost use Rattle.std.specs.Prelude.{◌≡◌, ◌<◌, ◌≤◌, length};
ghost use Rattle.std.specs.Vec.{vec_capacity};
ghost use Rattle.graph_nodes.specs.Kept.{IsWide};
ghost use Rattle.graph_nodes.specs.Levels.{AreLifted, AreReady, AreStillLevelled, IsRaisedTo};

use crate::ahead::find_low;
use crate::levels::{Levels, set_level};
use crate::linking::link_all;
use crate::nodes::Nodes;
use number_lists::{NumberSet, SparseChains};

/// Raises w and all that it reaches to the level, where they are below it. Answers how many cells were looked at.
pub(crate) fn raise(
    w: u32,
    l: u32,
    nodes: &Nodes,
    levels: &mut Levels,
    slots: &mut Vec<u32>,
    ahead: &mut NumberSet,
) -> u64
    requires start { w < length nodes.now.node.now }
    requires end { ahead.old.end ≡ length nodes.now.node.now }
    requires ready { AreReady nodes.now.arcs.now.cells nodes.now.node.now nodes.now.members.now levels.old.level.items levels.old.near (vec_capacity slots.old) (vec_capacity levels.old.level) }
    ensures raised { IsRaisedTo w l levels.old.level.items levels.new.level.items }
    ensures still { AreStillLevelled nodes.now.arcs.now.cells nodes.now.node.now levels.old.level.items levels.new.level.items levels.old.near levels.new.near }
    ensures level { vec_capacity levels.old.level ≤ vec_capacity levels.new.level }
    ensures wide { IsWide ahead.old ahead.new }
    ensures capacity { vec_capacity slots.old ≤ vec_capacity slots.new }
{
    if levels.at(w) >= l {
        return 0;
    }
    let looks = find_low(w, l, nodes, levels.level.as_slice(), slots, ahead);
    lift(l, ahead, &mut levels.level, &mut levels.near);
    link_all(
        ahead,
        nodes,
        levels.level.as_slice(),
        &mut levels.near,
        slots,
    );
    looks
}

/// Sets the level of these nodes, whose lists of cells from nodes of their level are empty then.
fn lift(l: u32, ahead: &NumberSet, level: &mut Vec<u32>, near: &mut SparseChains)
    requires levels { ahead.now.end ≤ vec_capacity level.old }
    requires lists { ahead.now.end ≤ length near.old.lists }
    ensures lifted { AreLifted ahead.now.members l level.old.items level.new.items near.old near.new }
    ensures capacity { vec_capacity level.old ≤ vec_capacity level.new }
{
    for i in 0..ahead.len() {
        let n = ahead.get(i);
        set_level(n, l, level);
        near.clear(n);
    }
}
