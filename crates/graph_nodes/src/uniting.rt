ghost use Rattle.std.specs.Prelude.{◌≡◌, ◌<◌, ◌≤◌, ◌⊎◌, length};
ghost use Rattle.graph_nodes.specs.Into.{AreInto};
ghost use Rattle.std.specs.Vec.{vec_capacity};
ghost use Rattle.graph_nodes.specs.Kept.{AreAsWide, AreOnWay, IsKeptWay, IsToldWay, IsWide};
ghost use Rattle.graph_nodes.specs.Levels.{AreReady, AreStillLevelled, level_at};
ghost use Rattle.graph_nodes.specs.Search.{IsOwn, IsSearched};

use crate::apart::{is_bare, is_led_from};
use crate::levels::{LEAST_LOOKS, Levels};
use crate::nodes::Nodes;
use crate::pruning::prune_found;
use crate::raising::raise;
use crate::search::{look, look_all};
use crate::searches::Searches;
use crate::spreading::spread;
use number_lists::SparseChains;
use std::mem;

/// Finds the nodes that an arc from v to w makes one: those on the way from w to v, and none where it joins no nodes. The
/// level of v is not above that of w then.
///
/// Where the last arc into w came from v too, it joins none.
pub(crate) fn find_way(
    v: u32,
    w: u32,
    nodes: &Nodes,
    into: &SparseChains,
    levels: &mut Levels,
    searches: &mut Searches,
)
    requires v { IsOwn nodes.now.arcs.now.cells nodes.now.node.now v }
    requires w { IsOwn nodes.now.arcs.now.cells nodes.now.node.now w }
    requires found_end { searches.old.found.end ≡ length nodes.now.node.now }
    requires ahead_end { searches.old.ahead.end ≡ length nodes.now.node.now }
    requires ready { AreReady nodes.now.arcs.now.cells nodes.now.node.now nodes.now.members.now levels.old.level.items levels.old.near (vec_capacity searches.old.cells) (vec_capacity levels.old.level) }
    requires into { AreInto nodes.now.arcs.now.cells nodes.now.node.now into.now × (length into.now.lists ≡ length nodes.now.node.now) }
    ensures way { AreOnWay nodes.now.arcs.now.cells nodes.now.node.now v w searches.new.found.members }
    ensures fits { (v ≡ w) ⊎ (level_at levels.new.level.items v ≤ level_at levels.new.level.items w) }
    ensures still { AreStillLevelled nodes.now.arcs.now.cells nodes.now.node.now levels.old.level.items levels.new.level.items levels.old.near levels.new.near }
    ensures level { vec_capacity levels.old.level ≤ vec_capacity levels.new.level }
    ensures wide { AreAsWide searches.old.found searches.old.ahead searches.new.found searches.new.ahead }
    ensures capacity { vec_capacity searches.old.cells ≤ vec_capacity searches.new.cells }
{
    searches.found.clear();
    if v == w {
        return;
    }
    let l = levels.at(v);
    if l < levels.at(w) {
        return;
    }
    if is_led_from(v, w, nodes, into) {
        return;
    }
    let looks = raise(
        w,
        l,
        nodes,
        levels,
        &mut searches.cells,
        &mut searches.ahead,
    );
    levels.spent = levels.spent.saturating_add(looks);
    if is_bare(w, nodes.arcs, nodes.members) {
        return;
    }
    let reaches = search(v, w, nodes, levels, searches);
    prune_found(
        w,
        searches.back.next,
        nodes,
        &mut levels.near,
        &mut searches.cells,
        &searches.found,
    );
    keep_way(reaches, searches);
}

/// Keeps the nodes on the way, where w reaches v, and else none.
fn keep_way(reaches: bool, searches: &mut Searches)
    requires { searches.old.found.end ≡ searches.old.ahead.end }
    ensures kept { IsKeptWay reaches searches.old.ahead.members searches.new.found.members }
    ensures wide { AreAsWide searches.old.found searches.old.ahead searches.new.found searches.new.ahead }
    ensures capacity { vec_capacity searches.old.cells ≤ vec_capacity searches.new.cells }
{
    if reaches {
        mem::swap(&mut searches.found, &mut searches.ahead);
    } else {
        searches.found.clear();
    }
}

/// Whether w reaches v, where the level of v is not above that of w: then the nodes on the way are those ahead.
///
/// The search goes from v against the arcs within its level. Where it takes too many looks it is given up, and w and all
/// that it reaches are raised above v.
fn search(v: u32, w: u32, nodes: &Nodes, levels: &mut Levels, searches: &mut Searches) -> bool
    requires v { IsOwn nodes.now.arcs.now.cells nodes.now.node.now v }
    requires w { IsOwn nodes.now.arcs.now.cells nodes.now.node.now w }
    requires fits { level_at levels.old.level.items v ≤ level_at levels.old.level.items w }
    requires found_end { searches.old.found.end ≡ length nodes.now.node.now }
    requires ahead_end { searches.old.ahead.end ≡ length nodes.now.node.now }
    requires ready { AreReady nodes.now.arcs.now.cells nodes.now.node.now nodes.now.members.now levels.old.level.items levels.old.near (vec_capacity searches.old.cells) (vec_capacity levels.old.level) }
    ensures way { IsToldWay nodes.now.arcs.now.cells nodes.now.node.now v w searches.new.ahead.members result }
    ensures fits { level_at levels.new.level.items v ≤ level_at levels.new.level.items w }
    ensures still { AreStillLevelled nodes.now.arcs.now.cells nodes.now.node.now levels.old.level.items levels.new.level.items levels.old.near levels.new.near }
    ensures level { vec_capacity levels.old.level ≤ vec_capacity levels.new.level }
    ensures found { IsWide searches.old.found searches.new.found }
    ensures ahead { IsWide searches.old.ahead searches.new.ahead }
    ensures capacity { vec_capacity searches.old.cells ≤ vec_capacity searches.new.cells }
{
    let looks = levels.looks();
    look(v, w, looks, nodes, &levels.near, searches);
    if searches.back.next >= searches.found.len() {
        let more = searches.back.spent.saturating_sub(LEAST_LOOKS);
        levels.used = levels.used.saturating_add(more);
        return take_way(v, w, nodes, levels, searches);
    }
    give_up(v, w, nodes, levels, searches);
    if levels.at(v) < levels.at(w) {
        return false;
    }
    look_all(v, w, nodes, &levels.near, searches);
    take_way(v, w, nodes, levels, searches)
}

/// Raises w and all that it reaches above v.
fn give_up(v: u32, w: u32, nodes: &Nodes, levels: &mut Levels, searches: &mut Searches)
    requires v { v < length nodes.now.node.now }
    requires w { w < length nodes.now.node.now }
    requires ahead_end { searches.old.ahead.end ≡ length nodes.now.node.now }
    requires ready { AreReady nodes.now.arcs.now.cells nodes.now.node.now nodes.now.members.now levels.old.level.items levels.old.near (vec_capacity searches.old.cells) (vec_capacity levels.old.level) }
    ensures fits { level_at levels.new.level.items v ≤ level_at levels.new.level.items w }
    ensures still { AreStillLevelled nodes.now.arcs.now.cells nodes.now.node.now levels.old.level.items levels.new.level.items levels.old.near levels.new.near }
    ensures level { vec_capacity levels.old.level ≤ vec_capacity levels.new.level }
    ensures found { searches.new.found ≡ searches.old.found }
    ensures ahead { IsWide searches.old.ahead searches.new.ahead }
    ensures capacity { vec_capacity searches.old.cells ≤ vec_capacity searches.new.cells }
{
    let l = next_level(levels.at(v));
    let looks = raise(
        w,
        l,
        nodes,
        levels,
        &mut searches.cells,
        &mut searches.ahead,
    );
    levels.spent = levels.spent.saturating_add(looks);
    levels.raises = levels.raises.saturating_add(1);
}

/// The next level, or the same one where it is the last.
fn next_level(l: u32) -> u32
    ensures { l ≤ result }
{
    if l < u32::MAX { l + 1 } else { l }
}

/// Whether a search against the arcs from v, which is over, has found w: then it takes the nodes on the way.
fn take_way(v: u32, w: u32, nodes: &Nodes, levels: &Levels, searches: &mut Searches) -> bool
    requires v { IsOwn nodes.now.arcs.now.cells nodes.now.node.now v }
    requires w { IsOwn nodes.now.arcs.now.cells nodes.now.node.now w }
    requires fits { level_at levels.now.level.items v ≤ level_at levels.now.level.items w }
    requires found_end { searches.old.found.end ≡ length nodes.now.node.now }
    requires ahead_end { searches.old.ahead.end ≡ length nodes.now.node.now }
    requires ready { AreReady nodes.now.arcs.now.cells nodes.now.node.now nodes.now.members.now levels.now.level.items levels.now.near (vec_capacity searches.old.cells) (vec_capacity levels.now.level) }
    requires over { IsSearched nodes.now.arcs.now.cells nodes.now.node.now levels.now.near v w searches.old.found.members }
    ensures way { IsToldWay nodes.now.arcs.now.cells nodes.now.node.now v w searches.new.ahead.members result }
    ensures found { searches.new.found ≡ searches.old.found }
    ensures ahead { IsWide searches.old.ahead searches.new.ahead }
    ensures capacity { vec_capacity searches.old.cells ≤ vec_capacity searches.new.cells }
{
    if !searches.found.contains(w) {
        return false;
    }
    spread(
        w,
        nodes,
        &levels.near,
        &mut searches.cells,
        &searches.found,
        &mut searches.ahead,
    );
    true
}
