// Which nodes may be finished while the slots are copied.
ghost use Rattle.std.specs.Prelude.{◌⊎◌, ◌<◌, ◌≤◌, ℕ, Bool, Some, IsTrue, IsFalse, length};
ghost use Rattle.write_graph.specs.Graph.{IsNodeNamed, IsSingleIdentity, NamesNode};
ghost use Rattle.cache_manager.specs.Beside.{HasCopied, IsFresh};

use crate::thin::THIN;
use write_graph::{NodeNo, WriteGraph};

/// Whether an object is not copied, or the node that flushes it is one identity write.
fn is_fresh(graph: &WriteGraph, n: NodeNo, x: u32, copied: u32) -> bool
    requires { NamesNode graph.now.entries n }
    ensures fresh { IsTrue result → x < copied → (node : ℕ → Bool) → IsNodeNamed graph.now.entries n node → IsSingleIdentity graph.now.entries n node }
    ensures stale { IsFalse result → (x < copied) × ((node : ℕ → Bool) → IsNodeNamed graph.now.entries n node → IsSingleIdentity graph.now.entries n node → ⊥) }
{
    copied <= x || graph.single_identity(n)
}

/// Whether a node may be finished beside a copy of the slots that has the objects below a number: it has one object to flush
/// at most, which is not copied, or the node is one identity write.
pub(crate) fn may_finish(graph: &WriteGraph, n: NodeNo, work: &[u32], copied: u32) -> bool
    requires { NamesNode graph.now.entries n }
    ensures few { IsTrue result → length work.now ≤ 1 }
    ensures fresh { IsTrue result → IsFresh graph.now.entries n copied work.now }
    ensures must { IsFalse result → (1 < length work.now) ⊎ HasCopied graph.now.entries n copied work.now }
{
    if work.len() > THIN {
        return false;
    }
    match work.first() {
        Some(x) => is_fresh(graph, n, *x, copied),
        None => true,
    }
}
