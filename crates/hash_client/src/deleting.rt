// A key is deleted.
ghost use Rattle.std.specs.Prelude.{◌≡◌, List, map};
ghost use Rattle.std.specs.Result.{result_err};
ghost use Rattle.formats.specs.Objects.{bounds_of};
ghost use Rattle.formats.specs.declared.params.Params.{Params};
ghost use Rattle.op_codec.specs.AllOps.{hash};
ghost use Rattle.running_store.specs.Taking.Ending.{Done};
ghost use Rattle.store_engine.specs.Lists.{ending_of};
ghost use Rattle.store_calls.specs.Making.{Calls};
ghost use Rattle.hash_file.specs.Plan.{delete_plan};
ghost use Rattle.range_calls.specs.Answers.{cause_in, made_of, refused_in};
ghost use Rattle.range_calls.specs.Store.{Command, state_of};

use crate::finding::{HashErr, find_bucket};
use disk_model::Machine;
use hash_file::{HashFile, HashRefusal, commands_are_accepted};
use hash_ops::HashOp;
use key_entries::{Short, has_key};
use op_codec::{AllOps, hash_op};
use range_calls::{CallErr, make};
use store_calls::Store;

/// Deletes a key and its value, by one command.
///
/// It is refused as `NoObject` exactly where the range ends past the last object, as `BadHash` exactly where the first object
/// is neither empty nor a directory, or the one that the key's entry names is no bucket of the range; the one met first is
/// reported. It is refused as `NoKey` exactly where the key is not there. `Exec` has what the store answered to a fetch or
/// to the command: `Refused(TooLarge)` exactly where a value may hold fewer than 1,024 bytes and the command is due, and
/// nothing else is refused.
pub fn delete<S: Store<AllOps>, M: Machine>(
    file: &HashFile,
    store: &mut S,
    machine: &mut M,
    key: &Short,
) -> Result<(), HashErr>
    requires unbroken { S.view.unbroken store.old }
    ensures calls { Calls S.view (M.disk machine.old) (M.disk machine.new) store.old store.new (cause_in result) }
    ensures adds { (p : Params) (commands : List Command) → S.view.holds p (M.disk machine.old) store.old commands →
        S.view.adds p (M.disk machine.old) (M.disk machine.new) store.old store.new commands
        (made_of p.cap (map hash (delete_plan (bounds_of p) file.now.lo file.now.hi (state_of p commands) key.now).commands)) (ending_of (cause_in result)) }
    ensures answer { (p : Params) (commands : List Command) → S.view.holds p (M.disk machine.old) store.old commands → ending_of (cause_in result) ≡ Done →
        result_err result ≡ refused_in p.cap (delete_plan (bounds_of p) file.now.lo file.now.hi (state_of p commands) key.now) }
{
    store.nothing_is_made(machine);
    S::calls_go_on::<M>();
    commands_are_accepted();
    if file.last() >= store.params().objects {
        return Err(CallErr::Refused(HashRefusal::NoObject));
    }
    let met = find_bucket(file, store, machine, *key)?;
    match met {
        Some(found) => {
            if has_key(found.bucket.pairs.as_slice(), *key) {
                let _bytes = key.as_slice();
                let op = hash_op(HashOp::Delete {
                    bucket: found.object,
                    key: *key,
                });
                return make(store, machine, op);
            }
            Err(CallErr::Refused(HashRefusal::NoKey))
        }
        None => Err(CallErr::Refused(HashRefusal::NoKey)),
    }
}
