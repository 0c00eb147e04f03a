// A pair is put into its leaf.
ghost use Rattle.std.specs.Prelude.{◌≡◌, ◌<◌, List, false, IfErr, IfOk};
ghost use Rattle.formats.specs.declared.params.Params.{Params};
ghost use Rattle.page_map.specs.Map.{bytes_at};
ghost use Rattle.running_store.specs.Taking.Ending.{Done};
ghost use Rattle.store_engine.specs.Lists.{ending_of};
ghost use Rattle.store_calls.specs.Making.{Reads};
ghost use Rattle.range_calls.specs.Store.{Command, state_of};
ghost use Rattle.range_calls.specs.declared.call_err.CallErr.TheVariants.{Memory as OutOfMemory};
ghost use Rattle.map_client.specs.Answers.{cause_in, told};
ghost use Rattle.map_client.specs.Reading as reading;

use crate::call_refusal::CallRefusal;
use crate::map_err::MapErr;
use crate::pair::NewPair;
use disk_model::Machine;
use op_codec::AllOps;
use page_map::{MapRefusal, has_room, page_on, set_in};
use page_ops::{PageOp, Text};
use range_calls::{CallErr, reads_run_short, see};
use std::alloc::Global;
use store_calls::Store;

/// A copy of bytes.
fn copied(alloc: Global, text: &Text) -> Result<Text, MapErr>
    ensures value { IfOk result (λ copy. copy ≡ text.now) }
    ensures memory { IfErr result (λ e. e ≡ OutOfMemory) }
{
    let bytes = text.as_slice().to_vec(alloc)?;
    match Text::new(bytes) {
        Some(copy) => Ok(copy),
        None => Err(CallErr::Memory),
    }
}

/// The command that gives a key of a leaf a value. It is the object that is answered where a cell that is asked does not fit, or
/// the bytes are no leaf.
fn set_on(object: u32, bytes: &[u8], key: Text, value: Text) -> Result<PageOp, u32>
    ensures { result ≡ reading.set_on object bytes.now key value }
{
    match page_on(0, bytes) {
        Some(page) => set_in(object, &page, key, value),
        None => Err(object),
    }
}

/// The command that puts the pair into a leaf of these bytes, where it has room, or the object, where a cell that is asked does not
/// fit, or the bytes are no leaf.
fn put_on(pair: &NewPair, object: u32, bytes: &[u8]) -> Result<Result<Option<PageOp>, u32>, MapErr>
    ensures value { IfOk result (λ found. found ≡ reading.put_on pair.now.room object bytes.now pair.now.key pair.now.value) }
    ensures memory { IfErr result (λ e. e ≡ OutOfMemory) }
{
    match has_room(pair.room, bytes, &pair.key, &pair.value) {
        None => Ok(Err(object)),
        Some(false) => Ok(Ok(None)),
        Some(true) => {
            let key = copied(pair.alloc, &pair.key)?;
            let value = copied(pair.alloc, &pair.value)?;
            match set_on(object, bytes, key, value) {
                Ok(op) => Ok(Ok(Some(op))),
                Err(bad) => Ok(Err(bad)),
            }
        }
    }
}

/// The command that puts the pair into the leaf at the end of its way, where it has room.
pub(crate) fn put_in<S: Store<AllOps>, M: Machine>(
    pair: &NewPair,
    store: &mut S,
    machine: &mut M,
    leaf: u32,
) -> Result<Option<PageOp>, MapErr>
    requires unbroken { S.view.unbroken store.old }
    ensures reads { Reads S.view (M.disk machine.old) (M.disk machine.new) store.old store.new (cause_in result) }
    ensures answer { (p : Params) (commands : List Command) → S.view.holds p (M.disk machine.old) store.old commands → leaf < p.objects → ending_of (cause_in result) ≡ Done →
        result ≡ told (reading.put_on pair.now.room leaf (bytes_at pair.now.map.now.lo (state_of p commands) leaf) pair.now.key pair.now.value) }
{
    reads_run_short::<S, M>();
    let there = see(store, machine, leaf)?;
    if !there {
        return Err(CallErr::Refused(CallRefusal::NoObject));
    }
    let found = put_on(pair, leaf, pair.map.bytes(leaf, store.get(leaf)))?;
    match found {
        Ok(op) => Ok(op),
        Err(object) => Err(CallErr::Refused(CallRefusal::Map(MapRefusal::BadMap { object }))),
    }
}
