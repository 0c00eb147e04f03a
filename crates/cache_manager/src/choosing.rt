// Which nodes are installed together.
ghost use Rattle.std.specs.Prelude.{◌<◌, ◌^◌, All, IfNone, IfOk, IfSome, OnOk};
ghost use Rattle.write_graph.specs.Graph.{NamesMinimal, lsns};
ghost use Rattle.running_store.specs.Parts.{volatile};
ghost use Rattle.cache_manager.specs.DueNodes.{IsConsidered, IsDueFor, IsRoundFrom, NamesDue};

use crate::beside::may_finish;
use crate::rounds::first_of;
use crate::thin::work_of;
use oper_core::Memory;
use running_store::Objects;
use std::alloc::Global;
use write_graph::{NodeNo, WriteGraph};

/// Nodes that are installed together, and the one object of each.
#[derive(Drop)]
pub(crate) struct Round {
    pub(crate) names: Vec<NodeNo>,
    pub(crate) objects: Vec<u32>,
}

/// The object that a minimal node has to flush, if it is one, and the node may be finished beside a copy of the slots that has
/// the objects below a number.
pub(crate) fn only_object(
    objects: &Objects,
    graph: &WriteGraph,
    n: NodeNo,
    copied: u32,
) -> Result<Option<u32>, Memory>
    requires { NamesMinimal graph.now.entries n }
    ensures some { IfOk result (λ found. IfSome found (λ x. IsDueFor (volatile objects.now graph.now.entries) copied n x)) }
    ensures none { IfOk result (λ found. IfNone found (NamesDue (volatile objects.now graph.now.entries) copied n → ⊥)) }
{
    let work = work_of(objects, graph, n)?;
    if !may_finish(graph, n, work.as_slice(), copied) {
        return Ok(None);
    }
    Ok(first_of(work.as_slice()))
}

/// Adds a minimal node and its object where it has one to flush.
fn consider(
    objects: &Objects,
    graph: &WriteGraph,
    n: NodeNo,
    copied: u32,
    names: &mut Vec<NodeNo>,
    due: &mut Vec<u32>,
) -> Result<(), Memory>
    requires { NamesMinimal graph.now.entries n }
    ensures { OnOk result (IsConsidered (volatile objects.now graph.now.entries) copied n names.old.items due.old.items names.new.items due.new.items) }
{
    let Some(x) = only_object(objects, graph, n, copied)? else {
        return Ok(());
    };
    names.push(n)?;
    due.push(x)?;
    Ok(())
}

/// The minimal nodes that have one object to flush, from the least name on, and so many at most.
pub(crate) fn choose_round(
    alloc: Global,
    objects: &Objects,
    graph: &WriteGraph,
    copied: u32,
    most: usize,
) -> Result<Round, Memory>
    requires low { All (λ n. n < 2 ^ 62) (lsns graph.now.entries) }
    ensures { IfOk result (λ round. IsRoundFrom (volatile objects.now graph.now.entries) copied most 0 round.names.items round.objects.items) }
{
    let mut names = Vec::new(alloc);
    let mut due = Vec::new(alloc);
    let mut from = 0;
    while let Some(name) = graph.minimal_from(from) {
        if names.len() >= most {
            return Ok(Round {
                names,
                objects: due,
            });
        }
        consider(objects, graph, name, copied, &mut names, &mut due)?;
        from = name + 1;
    }
    Ok(Round {
        names,
        objects: due,
    })
}
