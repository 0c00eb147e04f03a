// Questions, and their answers.
ghost use Rattle.std.specs.Prelude.{◌≡◌, false, IfOk, Some};
ghost use Rattle.script_lines.specs.declared.line.Line.TheVariants.{Ask};
ghost use Rattle.script_lines.specs.declared.line.Question.TheVariants.{Get as get, HashGet as hget, TreeGet as tget, TreeRange as trange};
ghost use Rattle.script_lines.specs.Replies.{reply_of};
ghost use Rattle.store_engine.specs.Engine.{EngineView};
ghost use Rattle.script_run.specs.Finding.{FindsAnswer, IsLineOf, IsReadable, found_out, outcome_reply};
ghost use Rattle.script_run.specs.Found.{IsAsked, answer_of_call_error, answer_of_tree_error, hash_answer, refused_as, reply_in};

use crate::making::{hash_error_answer, tree_answer};
use crate::map_asking::find_in_map;
use crate::outcome::Outcome;
use disk_model::Machine;
use hash_client::HashErr;
use hash_file::HashFile;
use key_entries::Short;
use logical_btree::Tree;
use op_codec::AllOps;
use oper_core::{ByteList, Refusal};
use script_lines::{Answer, Question};
use shell_base::{Stop, fetched};
use std::alloc::Global;
use store_engine::{Engine, nothing_is_made};
use tree_client::TreeErr;

/// What was found in a tree, a hash file or a map.
#[derive(Drop)]
pub enum Found {
    /// The value of the key.
    Value(Short),
    /// No value: the key is not there.
    Absent,
    /// The keys of the range, with their values.
    Pairs(Vec<(Short, Short)>),
    /// The value of the key of a map.
    Bytes(Vec<u8>),
    /// No value: the key is not in the map.
    Missing,
    /// The keys of a map, with their values.
    Entries(Vec<(ByteList, ByteList)>),
    /// How many keys of a map there are.
    Counted(u64),
    /// Nothing was looked for, or not to the end.
    Refused(Answer<'static>),
}

impl Found {
    /// How this is answered.
    pub fn answer(&self) -> Answer<'_>
        ensures { reply_of result ≡ reply_in self.now }
    {
        match self {
            Found::Value(value) => Answer::Value(value.as_slice()),
            Found::Absent => Answer::Value(&[]),
            Found::Pairs(pairs) => Answer::Pairs(pairs.as_slice()),
            Found::Bytes(bytes) => Answer::Value(bytes.as_slice()),
            Found::Missing => Answer::Absent,
            Found::Entries(pairs) => Answer::Entries(pairs.as_slice()),
            Found::Counted(count) => Answer::Counted(*count),
            Found::Refused(answer) => *answer,
        }
    }
}

/// What is found where a call on a tree is not done.
fn refused(error: TreeErr) -> Result<Found, Stop>
    ensures { result ≡ refused_as (answer_of_tree_error error) }
{
    match tree_answer(error) {
        Ok(answer) => Ok(Found::Refused(answer)),
        Err(stop) => Err(stop),
    }
}

/// What is found where a call on a hash file is not done.
fn hash_refused(error: HashErr) -> Result<Found, Stop>
    ensures { result ≡ refused_as (answer_of_call_error hash_answer error) }
{
    match hash_error_answer(error) {
        Ok(answer) => Ok(Found::Refused(answer)),
        Err(stop) => Err(stop),
    }
}

/// Looks for the value of a key in the hash file of some objects.
fn find_hash<M: Machine>(
    engine: &mut Engine<AllOps>,
    machine: &mut M,
    low: u32,
    high: u32,
    key: Short,
) -> Result<Found, Stop>
    requires { engine.old.broken ≡ false }
    ensures { IsAsked (M.disk machine.old) (M.disk machine.new) engine.old engine.new (Ask (hget low high key)) result }
{
    let Some(file) = HashFile::new(low, high) else {
        nothing_is_made(machine, engine);
        return Ok(Found::Refused(Answer::Refused(Refusal::NoObject)));
    };
    match hash_client::get(&file, engine, machine, &key) {
        Ok(Some(value)) => Ok(Found::Value(value)),
        Ok(None) => Ok(Found::Absent),
        Err(error) => hash_refused(error),
    }
}

/// Looks for the value of a key in the tree of some objects.
fn find<M: Machine>(
    engine: &mut Engine<AllOps>,
    machine: &mut M,
    low: u32,
    high: u32,
    key: Short,
) -> Result<Found, Stop>
    requires { engine.old.broken ≡ false }
    ensures { IsAsked (M.disk machine.old) (M.disk machine.new) engine.old engine.new (Ask (tget low high key)) result }
{
    let Some(tree) = Tree::new(low, high) else {
        nothing_is_made(machine, engine);
        return Ok(Found::Refused(Answer::Refused(Refusal::NoObject)));
    };
    match tree_client::get(&tree, engine, machine, &key) {
        Ok(Some(value)) => Ok(Found::Value(value)),
        Ok(None) => Ok(Found::Absent),
        Err(error) => refused(error),
    }
}

/// Looks for the keys of a range in the tree of some objects.
fn find_range<M: Machine>(
    alloc: Global,
    engine: &mut Engine<AllOps>,
    machine: &mut M,
    low: u32,
    high: u32,
    from: Short,
    to: Short,
) -> Result<Found, Stop>
    requires { engine.old.broken ≡ false }
    ensures { IsAsked (M.disk machine.old) (M.disk machine.new) engine.old engine.new (Ask (trange low high from to)) result }
{
    let Some(tree) = Tree::new(low, high) else {
        nothing_is_made(machine, engine);
        return Ok(Found::Refused(Answer::Refused(Refusal::NoObject)));
    };
    match tree_client::range(alloc, &tree, engine, machine, &from, &to) {
        Ok(pairs) => Ok(Found::Pairs(pairs)),
        Err(error) => refused(error),
    }
}

/// Sees that an object is cached, so that its value can be said.
fn find_value<M: Machine>(
    engine: &mut Engine<AllOps>,
    machine: &mut M,
    object: u32,
) -> Result<Outcome, Stop>
    requires { engine.old.broken ≡ false }
    ensures found { FindsAnswer (outcome_reply engine.new) (IsLineOf (Some (Ask (get object)))) (M.disk machine.old) (M.disk machine.new) engine.old engine.new result }
    ensures readable { IfOk result (IsReadable engine.new) }
{
    if fetched(engine, machine, object)? {
        return Ok(Outcome::Cached { object });
    }
    Ok(Outcome::Told(Answer::Refused(Refusal::NoObject)))
}

/// What was found, or why nothing was.
fn found_out(found: Result<Found, Stop>) -> Result<Outcome, Stop>
    ensures out { result ≡ found_out found }
    ensures readable { (engine : EngineView) → IfOk result (IsReadable engine) }
{
    match found {
        Ok(found) => Ok(Outcome::Found(found)),
        Err(stop) => Err(stop),
    }
}

/// Finds the answer to a question.
pub fn answer_to<M: Machine>(
    alloc: Global,
    engine: &mut Engine<AllOps>,
    machine: &mut M,
    question: Question,
) -> Result<Outcome, Stop>
    requires { engine.old.broken ≡ false }
    ensures found { FindsAnswer (outcome_reply engine.new) (IsLineOf (Some (Ask question))) (M.disk machine.old) (M.disk machine.new) engine.old engine.new result }
    ensures readable { IfOk result (IsReadable engine.new) }
{
    match question {
        Question::Get { object } => find_value(engine, machine, object),
        Question::TreeGet { low, high, key } => found_out(find(engine, machine, low, high, key)),
        Question::TreeRange {
            low,
            high,
            from,
            to,
        } => found_out(find_range(alloc, engine, machine, low, high, from, to)),
        Question::HashGet { low, high, key } => found_out(find_hash(
            engine, machine, low, high, key,
        )),
        Question::Map {
            low,
            high,
            question,
        } => found_out(find_in_map(alloc, engine, machine, low, high, &question)),
    }
}
