// A page is cut, so that a leaf gets room for a pair.
ghost use Rattle.std.specs.Prelude.{◌≡◌, ◌<◌, ◌-◌, List, ℕ, None, Ok, Err, IfErr, IfOk, OnErr, false, map as map_list, suc, take};
ghost use Rattle.formats.specs.Objects.{bounds_of};
ghost use Rattle.formats.specs.declared.params.Params.{Params};
ghost use Rattle.running_store.specs.Taking.Ending.{Done};
ghost use Rattle.store_engine.specs.Lists.{ending_of};
ghost use Rattle.call_plans.specs.Free.{free_from};
ghost use Rattle.op_codec.specs.AllOps.{page};
ghost use Rattle.page_map.specs.Cutting.{GoesOn, commands_in, due_seen, if_there, two_of};
ghost use Rattle.page_map.specs.Sets.{cut_turn, due_in, room_of};
ghost use Rattle.range_calls.specs.Answers as answers;
ghost use Rattle.range_calls.specs.Few.{if_any};
ghost use Rattle.store_calls.specs.Making.{Reads};
ghost use Rattle.range_calls.specs.Store.{Command, state_of};
ghost use Rattle.map_client.specs.Answers.{cause_in, cause_of, told};
ghost use Rattle.map_client.specs.Turning.{GoesDown, round_of};

use crate::call_refusal::CallRefusal;
use crate::map_err::MapErr;
use crate::pair::NewPair;
use crate::walking::root_level;
use disk_model::Machine;
use op_codec::{AllOps, page_op};
use page_map::{Descent, Due, Few as Turn, Further, Map, MapRefusal, commands_of};
use page_ops::PageOp;
use range_calls::{CallErr, Few, Round, least_free, reads_go_on, reads_run_short, see};
use store_calls::Store;

/// Looks at the page to which the search for the one that is cut has come.
fn look<S: Store<AllOps>, M: Machine>(
    pair: &NewPair,
    store: &mut S,
    machine: &mut M,
    descent: Descent,
) -> Result<Further, MapErr>
    requires unbroken { S.view.unbroken store.old }
    requires there { descent.object < (S.view.params store.old).objects }
    ensures reads { Reads S.view (M.disk machine.old) (M.disk machine.new) store.old store.new (cause_in result) }
    ensures failed { OnErr result (ending_of (cause_in result) ≡ Done → ⊥) }
    ensures down { IfOk result (λ further. GoesDown pair.now.map.now.hi descent further) }
    ensures found { (p : Params) (commands : List Command) → S.view.holds p (M.disk machine.old) store.old commands →
        IfOk result (λ further. GoesOn pair.now.room pair.now.map.now.lo pair.now.map.now.hi (state_of p commands) pair.now.key pair.now.value descent further) }
{
    reads_run_short::<S, M>();
    let object = descent.object;
    let there = see(store, machine, object)?;
    if !there {
        return Err(CallErr::Refused(CallRefusal::NoObject));
    }
    let bytes = pair.map.bytes(object, store.get(object));
    match descent.step(
        pair.alloc,
        pair.map,
        pair.room,
        bytes,
        &pair.key,
        &pair.value,
    ) {
        Ok(further) => Ok(further),
        Err(_) => Err(CallErr::Memory),
    }
}

/// What is due before the leaf has room. Each page on the way is looked at once.
fn due<S: Store<AllOps>, M: Machine>(
    pair: &NewPair,
    store: &mut S,
    machine: &mut M,
) -> Result<Due, MapErr>
    requires unbroken { S.view.unbroken store.old }
    requires there { pair.now.map.now.hi < (S.view.params store.old).objects }
    ensures reads { Reads S.view (M.disk machine.old) (M.disk machine.new) store.old store.new (cause_in result) }
    ensures found { (p : Params) (commands : List Command) → S.view.holds p (M.disk machine.old) store.old commands → pair.now.room ≡ room_of p.cap →
        IfOk result (λ due. due_in (bounds_of p) pair.now.map.now.lo pair.now.map.now.hi pair.now.key pair.now.value (state_of p commands) ≡ Ok (due_seen due)) }
    ensures bad { (p : Params) (commands : List Command) → S.view.holds p (M.disk machine.old) store.old commands → pair.now.room ≡ room_of p.cap →
        IfErr result (λ e. ending_of (cause_of e) ≡ Done → told (due_in (bounds_of p) pair.now.map.now.lo pair.now.map.now.hi pair.now.key pair.now.value (state_of p commands)) ≡ Err e) }
{
    reads_go_on::<S, M>();
    let _last = pair.map.last();
    let root = pair.map.root();
    let levels = root_level(pair.map, store, machine)?;
    let mut descent = Descent::new(root, levels);
    for _step in 0..levels as u16 + 1 {
        let object = descent.object;
        let further = look(pair, store, machine, descent)?;
        match further {
            Further::On(next) => descent = next,
            Further::Found(due) => return Ok(due),
            Further::Bad => return Err(CallErr::Refused(CallRefusal::Map(MapRefusal::BadMap {
                object,
            }))),
        }
    }
    Err(CallErr::Refused(CallRefusal::Map(MapRefusal::BadMap { object: root })))
}

/// The first two free objects behind the root, where they are there.
fn first_free<S: Store<AllOps>, M: Machine>(
    map: &Map,
    store: &S,
    machine: &M,
) -> (Option<u32>, Option<u32>)
    requires there { map.now.hi < (S.view.params store.now).objects }
    ensures { (p : Params) (commands : List Command) → S.view.holds p (M.disk machine.now) store.now commands →
        take 2 (free_from (state_of p commands) (suc map.now.lo) (map.now.hi - map.now.lo)) ≡ two_of result.0 result.1 }
{
    let _objects = store.params().objects;
    let last = map.last();
    match least_free(store, machine, map.root() + 1, last) {
        Some(first) => (Some(first), least_free(store, machine, first + 1, last)),
        None => (None, None),
    }
}

/// A command on a page as one of the store, if there is one.
fn stored(op: Option<PageOp>) -> Option<AllOps>
    ensures { if_any result ≡ map_list page (if_there op) }
{
    match op {
        Some(op) => Some(page_op(op)),
        None => None,
    }
}

/// The commands of a turn as commands of the store.
fn all_stored(turn: Turn) -> Few
    ensures { result ≡ map_list page (commands_in turn) }
{
    Few::new(
        Some(page_op(turn.first)),
        stored(turn.second),
        stored(turn.third),
    )
}

/// The round that cuts a page, where the first two free objects behind the root are these.
fn round_due(root: u32, due: Due, first: Option<u32>, second: Option<u32>) -> Result<Round, MapErr>
    ensures found { cause_in result ≡ None }
    ensures answer { (free : List ℕ) → take 2 free ≡ two_of first second → result ≡ answers.told (round_of (cut_turn root free (Ok (due_seen due)))) }
{
    match commands_of(root, due, first, second) {
        Ok(turn) => Ok(Round {
            ops: all_stored(turn),
            last: false,
        }),
        Err(refusal) => Err(CallErr::Refused(CallRefusal::Map(refusal))),
    }
}

/// The round that cuts a page.
pub(crate) fn cut<S: Store<AllOps>, M: Machine>(
    pair: &NewPair,
    store: &mut S,
    machine: &mut M,
) -> Result<Round, MapErr>
    requires unbroken { S.view.unbroken store.old }
    requires there { pair.now.map.now.hi < (S.view.params store.old).objects }
    ensures reads { Reads S.view (M.disk machine.old) (M.disk machine.new) store.old store.new (cause_in result) }
    ensures answer { (p : Params) (commands : List Command) → S.view.holds p (M.disk machine.old) store.old commands → pair.now.room ≡ room_of p.cap → ending_of (cause_in result) ≡ Done →
        result ≡ answers.told (round_of (cut_turn pair.now.map.now.lo (free_from (state_of p commands) (suc pair.now.map.now.lo) (pair.now.map.now.hi - pair.now.map.now.lo))
        (due_in (bounds_of p) pair.now.map.now.lo pair.now.map.now.hi pair.now.key pair.now.value (state_of p commands)))) }
{
    reads_go_on::<S, M>();
    let due = due(pair, store, machine)?;
    let (first, second) = first_free(pair.map, store, machine);
    round_due(pair.map.root(), due, first, second)
}
