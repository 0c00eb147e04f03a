// The pairs of keys that begin with some bytes.
ghost use Rattle.std.specs.Prelude.{◌≡◌, ◌<◌, ◌++◌, ◌∷◌, [], suc, List, Some, Ok, Err, IfErr, IfOk, option_map};
ghost use Rattle.formats.specs.Objects.{bounds_of};
ghost use Rattle.formats.specs.declared.params.Params.{Params};
ghost use Rattle.page_map.specs.Reads as reads;
ghost use Rattle.running_store.specs.Taking.Ending.{Done};
ghost use Rattle.store_engine.specs.Lists.{ending_of};
ghost use Rattle.store_calls.specs.Making.{Calls};
ghost use Rattle.range_calls.specs.Store.{Command, state_of};
ghost use Rattle.range_calls.specs.declared.call_err.CallErr.TheVariants.{Memory as OutOfMemory};
ghost use Rattle.map_client.specs.Answers.{cause_in, cause_of};
ghost use Rattle.map_client.specs.Ranging.{prefix_told};

use crate::map_err::MapErr;
use crate::ranging_rise::range;
use crate::stepping::end_bytes;
use disk_model::Machine;
use op_codec::AllOps;
use oper_core::ByteList;
use page_map::Map;
use range_calls::reads_run_short;
use std::alloc::Global;
use store_calls::Store;

/// A key whose last byte is raised by one.
fn raised(alloc: Global, front: &[u8], last: u8) -> Result<Option<Vec<u8>>, MapErr>
    requires { last < 255 }
    ensures key { IfOk result (λ end. option_map (λ v. v.items) end ≡ Some (front.now ++ suc last ∷ [])) }
    ensures memory { IfErr result (λ e. e ≡ OutOfMemory) }
{
    let mut end = front.to_vec(alloc)?;
    end.push(last + 1)?;
    Ok(Some(end))
}

/// The least key behind all that begin with these bytes, where there is one: the last byte that is not 255 is raised, and those behind
/// it go.
fn prefix_end(alloc: Global, bytes: &[u8]) -> Result<Option<Vec<u8>>, MapErr>
    ensures key { IfOk result (λ end. option_map (λ v. v.items) end ≡ reads.prefix_end bytes.now) }
    ensures memory { IfErr result (λ e. e ≡ OutOfMemory) }
{
    let mut count = bytes.len();
    while count > 0 {
        count -= 1;
        let last = bytes[count];
        if last < 255 {
            return raised(alloc, &bytes[..count], last);
        }
    }
    Ok(None)
}

/// The first pairs whose keys begin with these bytes, at most so many, by rising key. No command is added.
///
/// It answers `NoObject`, `BadMap`, `Exec` and `Memory` where `range` does.
pub fn prefix<S: Store<AllOps>, M: Machine>(
    alloc: Global,
    map: &Map,
    store: &mut S,
    machine: &mut M,
    bytes: &[u8],
    limit: u32,
) -> Result<Vec<(ByteList, ByteList)>, MapErr>
    requires unbroken { S.view.unbroken store.old }
    ensures calls { Calls S.view (M.disk machine.old) (M.disk machine.new) store.old store.new (cause_in result) }
    ensures adds { (p : Params) (commands : List Command) → S.view.holds p (M.disk machine.old) store.old commands →
        S.view.adds p (M.disk machine.old) (M.disk machine.new) store.old store.new commands [] (ending_of (cause_in result)) }
    ensures found { (p : Params) (commands : List Command) → S.view.holds p (M.disk machine.old) store.old commands →
        IfOk result (λ found. prefix_told (bounds_of p) map.now.lo map.now.hi (state_of p commands) bytes.now limit ≡ Ok found.items) }
    ensures refused { (p : Params) (commands : List Command) → S.view.holds p (M.disk machine.old) store.old commands →
        IfErr result (λ e. ending_of (cause_of e) ≡ Done → prefix_told (bounds_of p) map.now.lo map.now.hi (state_of p commands) bytes.now limit ≡ Err e) }
{
    store.nothing_is_made(machine);
    reads_run_short::<S, M>();
    let to = prefix_end(alloc, bytes)?;
    range(alloc, map, store, machine, bytes, end_bytes(&to), limit)
}
