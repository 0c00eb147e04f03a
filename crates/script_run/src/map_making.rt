// Changes of maps, and the answers to them.
ghost use Rattle.std.specs.Prelude.{◌≡◌, false};
ghost use Rattle.script_lines.specs.declared.line.Line.TheVariants.{Make};
ghost use Rattle.script_lines.specs.declared.line.Making.TheVariants.{Map as change_map};
ghost use Rattle.script_lines.specs.declared.line.MapChange.TheVariants.{Delete as mdel, Set as mset};
ghost use Rattle.script_run.specs.Found.{IsMade, answer_of_call_error, map_answer};

use crate::making::error_answer;
use disk_model::Machine;
use map_client::{CallRefusal, MapErr};
use op_codec::AllOps;
use oper_core::Refusal;
use page_map::{Map, MapRefusal};
use page_ops::Text;
use range_calls::CallErr;
use script_lines::{Answer, Denial, MapChange};
use shell_base::Stop;
use std::alloc::Global;
use store_engine::{Engine, nothing_is_made};

/// What is answered where a map refuses a call.
fn map_refused(refusal: CallRefusal) -> Answer<'static>
    ensures { result ≡ map_answer refusal }
{
    match refusal {
        CallRefusal::NoObject => Answer::Refused(Refusal::NoObject),
        CallRefusal::NoPages => Answer::Refused(Refusal::NoPages),
        CallRefusal::Map(MapRefusal::BadMap { object: _object }) => Answer::Denied(Denial::BadMap),
        CallRefusal::Map(MapRefusal::TooLong) => Answer::Denied(Denial::TooLong),
        CallRefusal::Map(MapRefusal::MapFull) => Answer::Denied(Denial::MapFull),
        CallRefusal::Map(MapRefusal::NoKey) => Answer::Refused(Refusal::NoKey),
    }
}

/// What is answered where a call on a map is not done.
pub fn map_error_answer(error: MapErr) -> Result<Answer<'static>, Stop>
    ensures { result ≡ answer_of_call_error map_answer error }
{
    match error {
        CallErr::Refused(refusal) => Ok(map_refused(refusal)),
        CallErr::Exec(error) => error_answer(error),
        CallErr::Memory => Err(Stop::Memory),
    }
}

/// Gives a key of the map of some objects a value, and finds the answer to that.
fn map_set<M: Machine>(
    alloc: Global,
    engine: &mut Engine<AllOps>,
    machine: &mut M,
    low: u32,
    high: u32,
    key: Text,
    value: Text,
) -> Result<Answer<'static>, Stop>
    requires { engine.old.broken ≡ false }
    ensures { IsMade (M.disk machine.old) (M.disk machine.new) engine.old engine.new (Make (change_map low high (mset key value))) result }
{
    let Some(map) = Map::new(low, high) else {
        nothing_is_made(machine, engine);
        return Ok(Answer::Refused(Refusal::NoObject));
    };
    match map_client::set(alloc, &map, engine, machine, key, value) {
        Ok(()) => Ok(Answer::Done),
        Err(error) => map_error_answer(error),
    }
}

/// Deletes a key of the map of some objects, and finds the answer to that.
fn map_delete<M: Machine>(
    alloc: Global,
    engine: &mut Engine<AllOps>,
    machine: &mut M,
    low: u32,
    high: u32,
    key: Text,
) -> Result<Answer<'static>, Stop>
    requires { engine.old.broken ≡ false }
    ensures { IsMade (M.disk machine.old) (M.disk machine.new) engine.old engine.new (Make (change_map low high (mdel key))) result }
{
    let Some(map) = Map::new(low, high) else {
        nothing_is_made(machine, engine);
        return Ok(Answer::Refused(Refusal::NoObject));
    };
    match map_client::delete(alloc, &map, engine, machine, key.as_slice()) {
        Ok(()) => Ok(Answer::Done),
        Err(error) => map_error_answer(error),
    }
}

/// Changes the map of some objects, and finds the answer to that.
pub fn map_changed<M: Machine>(
    alloc: Global,
    engine: &mut Engine<AllOps>,
    machine: &mut M,
    low: u32,
    high: u32,
    change: MapChange,
) -> Result<Answer<'static>, Stop>
    requires { engine.old.broken ≡ false }
    ensures { IsMade (M.disk machine.old) (M.disk machine.new) engine.old engine.new (Make (change_map low high change)) result }
{
    match change {
        MapChange::Set { key, value } => map_set(alloc, engine, machine, low, high, key, value),
        MapChange::Delete { key } => map_delete(alloc, engine, machine, low, high, key),
    }
}
