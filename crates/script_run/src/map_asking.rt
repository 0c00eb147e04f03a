// Questions to maps, and their answers.
ghost use Rattle.std.specs.Prelude.{◌≡◌, false, option_map};
ghost use Rattle.script_lines.specs.declared.line.Line.TheVariants.{Ask};
ghost use Rattle.script_lines.specs.declared.line.Question.TheVariants.{Map as ask_map};
ghost use Rattle.script_lines.specs.declared.line.MapQuestion.TheVariants.{Back as mback, Count as mcount, Get as mget, Next as mnext, Prev as mprev, Range as mrange};
ghost use Rattle.script_run.specs.Made.{end_of};
ghost use Rattle.script_run.specs.Found.{IsAsked, answer_of_call_error, map_answer, refused_as};

use crate::asking::Found;
use crate::map_making::map_error_answer;
use disk_model::Machine;
use map_client::MapErr;
use op_codec::AllOps;
use oper_core::Refusal;
use page_map::Map;
use page_ops::Text;
use script_lines::{Answer, MapQuestion};
use shell_base::Stop;
use std::alloc::Global;
use store_engine::{Engine, nothing_is_made};

/// What is found where a call on a map is not done.
fn map_refused(error: MapErr) -> Result<Found, Stop>
    ensures { result ≡ refused_as (answer_of_call_error map_answer error) }
{
    match map_error_answer(error) {
        Ok(answer) => Ok(Found::Refused(answer)),
        Err(stop) => Err(stop),
    }
}

/// Looks for the value of a key in the map of some objects.
fn map_get<M: Machine>(
    alloc: Global,
    engine: &mut Engine<AllOps>,
    machine: &mut M,
    low: u32,
    high: u32,
    key: &Text,
) -> Result<Found, Stop>
    requires { engine.old.broken ≡ false }
    ensures { IsAsked (M.disk machine.old) (M.disk machine.new) engine.old engine.new (Ask (ask_map low high (mget key.now))) result }
{
    let Some(map) = Map::new(low, high) else {
        nothing_is_made(machine, engine);
        return Ok(Found::Refused(Answer::Refused(Refusal::NoObject)));
    };
    match map_client::get(alloc, &map, engine, machine, key.as_slice()) {
        Ok(Some(value)) => Ok(Found::Bytes(value)),
        Ok(None) => Ok(Found::Missing),
        Err(error) => map_refused(error),
    }
}

/// Where what is read of a map ends: below a key, or, where that has no bytes, at the end of the map.
fn end_of(key: &Text) -> Option<&[u8]>
    ensures { option_map (λ end. end.now) result ≡ end_of key.now }
{
    let bytes = key.as_slice();
    if bytes.is_empty() { None } else { Some(bytes) }
}

/// Looks for the first pairs from a key on, up to another, in the map of some objects.
fn map_range<M: Machine>(
    alloc: Global,
    engine: &mut Engine<AllOps>,
    machine: &mut M,
    low: u32,
    high: u32,
    from: &Text,
    to: &Text,
    limit: u32,
) -> Result<Found, Stop>
    requires { engine.old.broken ≡ false }
    ensures { IsAsked (M.disk machine.old) (M.disk machine.new) engine.old engine.new (Ask (ask_map low high (mrange from.now to.now limit))) result }
{
    let Some(map) = Map::new(low, high) else {
        nothing_is_made(machine, engine);
        return Ok(Found::Refused(Answer::Refused(Refusal::NoObject)));
    };
    match map_client::range(
        alloc,
        &map,
        engine,
        machine,
        from.as_slice(),
        end_of(to),
        limit,
    ) {
        Ok(found) => Ok(Found::Entries(found)),
        Err(error) => map_refused(error),
    }
}

/// Looks for the last pairs from a key on, up to another, in the map of some objects, from the last one back.
fn map_back<M: Machine>(
    alloc: Global,
    engine: &mut Engine<AllOps>,
    machine: &mut M,
    low: u32,
    high: u32,
    from: &Text,
    to: &Text,
    limit: u32,
) -> Result<Found, Stop>
    requires { engine.old.broken ≡ false }
    ensures { IsAsked (M.disk machine.old) (M.disk machine.new) engine.old engine.new (Ask (ask_map low high (mback from.now to.now limit))) result }
{
    let Some(map) = Map::new(low, high) else {
        nothing_is_made(machine, engine);
        return Ok(Found::Refused(Answer::Refused(Refusal::NoObject)));
    };
    match map_client::back(
        alloc,
        &map,
        engine,
        machine,
        from.as_slice(),
        end_of(to),
        limit,
    ) {
        Ok(found) => Ok(Found::Entries(found)),
        Err(error) => map_refused(error),
    }
}

/// Counts the keys from one up to another in the map of some objects.
fn map_count<M: Machine>(
    alloc: Global,
    engine: &mut Engine<AllOps>,
    machine: &mut M,
    low: u32,
    high: u32,
    from: &Text,
    to: &Text,
) -> Result<Found, Stop>
    requires { engine.old.broken ≡ false }
    ensures { IsAsked (M.disk machine.old) (M.disk machine.new) engine.old engine.new (Ask (ask_map low high (mcount from.now to.now))) result }
{
    let Some(map) = Map::new(low, high) else {
        nothing_is_made(machine, engine);
        return Ok(Found::Refused(Answer::Refused(Refusal::NoObject)));
    };
    match map_client::count(alloc, &map, engine, machine, from.as_slice(), end_of(to)) {
        Ok(found) => Ok(Found::Counted(found)),
        Err(error) => map_refused(error),
    }
}

/// Looks for the first pair above a key in the map of some objects.
fn map_next<M: Machine>(
    alloc: Global,
    engine: &mut Engine<AllOps>,
    machine: &mut M,
    low: u32,
    high: u32,
    key: &Text,
) -> Result<Found, Stop>
    requires { engine.old.broken ≡ false }
    ensures { IsAsked (M.disk machine.old) (M.disk machine.new) engine.old engine.new (Ask (ask_map low high (mnext key.now))) result }
{
    let Some(map) = Map::new(low, high) else {
        nothing_is_made(machine, engine);
        return Ok(Found::Refused(Answer::Refused(Refusal::NoObject)));
    };
    match map_client::next(alloc, &map, engine, machine, key.as_slice()) {
        Ok(found) => Ok(Found::Entries(found)),
        Err(error) => map_refused(error),
    }
}

/// Looks for the last pair below a key, or the last one, in the map of some objects.
fn map_prev<M: Machine>(
    alloc: Global,
    engine: &mut Engine<AllOps>,
    machine: &mut M,
    low: u32,
    high: u32,
    key: &Text,
) -> Result<Found, Stop>
    requires { engine.old.broken ≡ false }
    ensures { IsAsked (M.disk machine.old) (M.disk machine.new) engine.old engine.new (Ask (ask_map low high (mprev key.now))) result }
{
    let Some(map) = Map::new(low, high) else {
        nothing_is_made(machine, engine);
        return Ok(Found::Refused(Answer::Refused(Refusal::NoObject)));
    };
    match map_client::prev(alloc, &map, engine, machine, end_of(key)) {
        Ok(found) => Ok(Found::Entries(found)),
        Err(error) => map_refused(error),
    }
}

/// Answers a question to the map of some objects.
pub fn find_in_map<M: Machine>(
    alloc: Global,
    engine: &mut Engine<AllOps>,
    machine: &mut M,
    low: u32,
    high: u32,
    question: &MapQuestion,
) -> Result<Found, Stop>
    requires { engine.old.broken ≡ false }
    ensures { IsAsked (M.disk machine.old) (M.disk machine.new) engine.old engine.new (Ask (ask_map low high question.now)) result }
{
    match question {
        MapQuestion::Get { key } => map_get(alloc, engine, machine, low, high, key),
        MapQuestion::Range { from, to, limit } => {
            map_range(alloc, engine, machine, low, high, from, to, *limit)
        }
        MapQuestion::Back { from, to, limit } => {
            map_back(alloc, engine, machine, low, high, from, to, *limit)
        }
        MapQuestion::Count { from, to } => map_count(alloc, engine, machine, low, high, from, to),
        MapQuestion::Next { key } => map_next(alloc, engine, machine, low, high, key),
        MapQuestion::Prev { key } => map_prev(alloc, engine, machine, low, high, key),
    }
}
