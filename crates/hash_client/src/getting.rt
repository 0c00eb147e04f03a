// The value of a key.
ghost use Rattle.std.specs.Prelude.{◌≡◌, [], List};
ghost use Rattle.formats.specs.Objects.{bounds_of};
ghost use Rattle.formats.specs.declared.params.Params.{Params};
ghost use Rattle.running_store.specs.Taking.Ending.{Done};
ghost use Rattle.store_engine.specs.Lists.{ending_of};
ghost use Rattle.store_calls.specs.Making.{Calls};
ghost use Rattle.hash_file.specs.Plan.{get_answer};
ghost use Rattle.range_calls.specs.Answers.{cause_in, told};
ghost use Rattle.range_calls.specs.Store.{Command, state_of};

use crate::finding::{HashErr, find_bucket};
use disk_model::Machine;
use hash_file::{HashFile, HashRefusal};
use key_entries::{Short, value_in};
use op_codec::AllOps;
use range_calls::CallErr;
use store_calls::Store;

/// The value of a key, if it is there. No command is added.
///
/// It is refused as `NoObject` exactly where the range ends past the last object, as `BadHash` exactly where the first object
/// is neither empty nor a directory, or the one that the key's entry names is no bucket of the range; the one met first is
/// reported. `Exec` has what the store answered to a fetch: `DiskFault`, `Damaged` or `Memory`.
pub fn get<S: Store<AllOps>, M: Machine>(
    file: &HashFile,
    store: &mut S,
    machine: &mut M,
    key: &Short,
) -> Result<Option<Short>, HashErr>
    requires unbroken { S.view.unbroken store.old }
    ensures calls { Calls S.view (M.disk machine.old) (M.disk machine.new) store.old store.new (cause_in result) }
    ensures adds { (p : Params) (commands : List Command) → S.view.holds p (M.disk machine.old) store.old commands →
        S.view.adds p (M.disk machine.old) (M.disk machine.new) store.old store.new commands [] (ending_of (cause_in result)) }
    ensures answer { (p : Params) (commands : List Command) → S.view.holds p (M.disk machine.old) store.old commands → ending_of (cause_in result) ≡ Done →
        result ≡ told (get_answer (bounds_of p) file.now.lo file.now.hi (state_of p commands) key.now) }
{
    store.nothing_is_made(machine);
    if file.last() >= store.params().objects {
        return Err(CallErr::Refused(HashRefusal::NoObject));
    }
    let met = find_bucket(file, store, machine, *key)?;
    match met {
        Some(found) => Ok(value_in(found.bucket.pairs.as_slice(), *key)),
        None => Ok(None),
    }
}
