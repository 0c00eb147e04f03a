// The bucket in which a key stands.
ghost use Rattle.std.specs.Prelude.{◌≡◌, ◌<◌, ◌≤◌, ◌^◌, List, length, None, Some, IfOk, IfSome, OnOk, OnErr};
ghost use Rattle.formats.specs.declared.params.Params.{Params};
ghost use Rattle.running_store.specs.Taking.Ending.{Done};
ghost use Rattle.store_engine.specs.Lists.{ending_of};
ghost use Rattle.hash_file.specs.Find as finding;
ghost use Rattle.range_calls.specs.Answers.{cause_in};
ghost use Rattle.store_calls.specs.Making.{Reads};
ghost use Rattle.range_calls.specs.Store.{Command, state_of};
ghost use Rattle.hash_client.specs.Finding.{bad_hash, bucket_answer, bucket_or_bad, directory_answer, met_answer};

use disk_model::Machine;
use hash_file::{HashFile, HashRefusal, entry_for};
use hash_ops::{Bucket, Directory};
use key_entries::Short;
use op_codec::AllOps;
use range_calls::{CallErr, reads_go_on, see};
use store_calls::Store;

/// Why a call on a hash file was not done.
pub type HashErr = CallErr<HashRefusal>;

/// A bucket, and the object that holds it.
#[derive(Drop)]
pub(crate) struct Found {
    pub(crate) object: u32,
    pub(crate) bucket: Bucket,
}

/// An object is not what it should be.
fn bad(object: u32) -> HashErr
    ensures { result ≡ bad_hash object }
{
    CallErr::Refused(HashRefusal::BadHash { object })
}

/// Sees that an object of the store is cached.
fn see_there<S: Store<AllOps>, M: Machine>(
    store: &mut S,
    machine: &mut M,
    object: u32,
) -> Result<(), HashErr>
    requires unbroken { S.view.unbroken store.old }
    requires there { object < (S.view.params store.old).objects }
    ensures reads { Reads S.view (M.disk machine.old) (M.disk machine.new) store.old store.new (cause_in result) }
    ensures failed { OnErr result (ending_of (cause_in result) ≡ Done → ⊥) }
    ensures cached { OnOk result (S.view.cached store.new object) }
    ensures value { (p : Params) (commands : List Command) → S.view.holds p (M.disk machine.old) store.old commands →
        OnOk result (S.view.value store.new object ≡ state_of p commands object) }
{
    see(store, machine, object)?;
    Ok(())
}

/// The directory, unless the range is not begun.
fn directory_of<S: Store<AllOps>, M: Machine>(
    store: &mut S,
    machine: &mut M,
    object: u32,
) -> Result<Option<Directory>, HashErr>
    requires unbroken { S.view.unbroken store.old }
    requires there { object < (S.view.params store.old).objects }
    ensures reads { Reads S.view (M.disk machine.old) (M.disk machine.new) store.old store.new (cause_in result) }
    ensures answer { (p : Params) (commands : List Command) → S.view.holds p (M.disk machine.old) store.old commands → ending_of (cause_in result) ≡ Done →
        result ≡ directory_answer object (state_of p commands object) }
    ensures shallow { IfOk result (λ found. IfSome found (λ d. d.depth ≤ 6)) }
    ensures count { IfOk result (λ found. IfSome found (λ d. length d.entries.items ≡ 2 ^ d.depth)) }
{
    see_there(store, machine, object)?;
    let value = store.get(object);
    if value.is_empty() {
        return Ok(None);
    }
    match Directory::read(value) {
        Some(directory) => Ok(Some(directory)),
        None => Err(bad(object)),
    }
}

/// The bucket that an entry of a directory of this depth names.
fn bucket_of<S: Store<AllOps>, M: Machine>(
    file: &HashFile,
    store: &mut S,
    machine: &mut M,
    depth: u8,
    object: u32,
) -> Result<Bucket, HashErr>
    requires unbroken { S.view.unbroken store.old }
    requires there { file.now.hi < (S.view.params store.old).objects }
    ensures reads { Reads S.view (M.disk machine.old) (M.disk machine.new) store.old store.new (cause_in result) }
    ensures answer { (p : Params) (commands : List Command) → S.view.holds p (M.disk machine.old) store.old commands → ending_of (cause_in result) ≡ Done →
        result ≡ bucket_answer file.now.lo file.now.hi depth object (state_of p commands object) }
{
    store.nothing_is_made(machine);
    if !file.is_inside(object) {
        return Err(bad(object));
    }
    see_there(store, machine, object)?;
    match Bucket::read(store.get(object)) {
        Some(bucket) => where_shallow(bucket, depth, object),
        None => Err(bad(object)),
    }
}

/// The bucket of an object, unless it is too deep for a directory of this depth.
fn where_shallow(bucket: Bucket, depth: u8, object: u32) -> Result<Bucket, HashErr>
    ensures found { cause_in result ≡ None }
    ensures answer { result ≡ bucket_or_bad object depth (Some bucket) }
{
    if bucket.depth <= depth {
        Ok(bucket)
    } else {
        Err(bad(object))
    }
}

/// Finds the key's bucket, by two fetches: of the directory, and of the object that the key's entry names. There is none
/// where the range is not begun.
pub(crate) fn find_bucket<S: Store<AllOps>, M: Machine>(
    file: &HashFile,
    store: &mut S,
    machine: &mut M,
    key: Short,
) -> Result<Option<Found>, HashErr>
    requires unbroken { S.view.unbroken store.old }
    requires there { file.now.hi < (S.view.params store.old).objects }
    ensures reads { Reads S.view (M.disk machine.old) (M.disk machine.new) store.old store.new (cause_in result) }
    ensures answer { (p : Params) (commands : List Command) → S.view.holds p (M.disk machine.old) store.old commands → ending_of (cause_in result) ≡ Done →
        result ≡ met_answer (finding.find_bucket file.now.lo file.now.hi (state_of p commands) key) }
{
    reads_go_on::<S, M>();
    let _last = file.last();
    let begun = directory_of(store, machine, file.directory())?;
    match begun {
        None => Ok(None),
        Some(directory) => {
            let object = entry_for(&directory, key);
            let bucket = bucket_of(file, store, machine, directory.depth, object)?;
            Ok(Some(Found { object, bucket }))
        }
    }
}
