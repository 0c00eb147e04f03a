// The thin node of the least name.
ghost use Rattle.std.specs.Prelude.{◌<◌, ◌^◌, ℕ, Bool, All, IfOk, IfSome, IfNone};
ghost use Rattle.write_graph.specs.Graph.{lsns, IsNodeNamed, NamesNode};
ghost use Rattle.running_store.specs.Parts.{volatile};
ghost use Rattle.cache_manager.specs.Thin.{IsLeastThin, IsWork, NamesThin};

use oper_core::Memory;
use running_store::Objects;
use write_graph::{NodeNo, WriteGraph};

/// A thin node has at most so many objects to flush, which needs no identity writes.
pub(crate) const THIN: usize = 1;

/// A minimal node that is thin, and what it has to flush.
#[derive(Drop)]
pub(crate) struct Thin {
    pub(crate) name: NodeNo,
    pub(crate) work: Vec<u32>,
}

/// What a node has to flush, rising.
pub(crate) fn work_of(objects: &Objects, graph: &WriteGraph, n: NodeNo) -> Result<Vec<u32>, Memory>
    requires { NamesNode graph.now.entries n }
    ensures { IfOk result (λ work. (node : ℕ → Bool) → IsNodeNamed graph.now.entries n node →
        IsWork (volatile objects.now graph.now.entries) node work.items) }
{
    let mut work = graph.flush_set(n)?;
    work.retain(|x| objects.is_dirty(*x));
    Ok(work)
}

/// The thin node of the least name, if there is one.
pub(crate) fn least_thin(objects: &Objects, graph: &WriteGraph) -> Result<Option<Thin>, Memory>
    requires low { All (λ n. n < 2 ^ 62) (lsns graph.now.entries) }
    ensures some { IfOk result (λ found. IfSome found (λ thin. IsLeastThin (volatile objects.now graph.now.entries) thin.name thin.work.items)) }
    ensures none { IfOk result (λ found. IfNone found ((n : ℕ) → NamesThin (volatile objects.now graph.now.entries) n → ⊥)) }
{
    let mut from = 0;
    while let Some(name) = graph.minimal_from(from) {
        let work = work_of(objects, graph, name)?;
        if work.len() <= THIN {
            return Ok(Some(Thin { name, work }));
        }
        from = name + 1;
    }
    Ok(None)
}
