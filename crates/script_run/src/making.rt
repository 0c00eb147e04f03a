// Several commands, and the answer to them.
ghost use Rattle.std.specs.Prelude.{◌≡◌, false};
ghost use Rattle.script_lines.specs.declared.line.Line.TheVariants.{Make};
ghost use Rattle.script_lines.specs.declared.line.Making.TheVariants.{AppRun as arun, ProgramRun as prun, HashDelete as hdel, HashPut as hset, TreeDelete as tdelete, TreeInsert as tinsert};
ghost use Rattle.script_run.specs.Found.{IsMade, answer_of_call_error, answer_of_error, answer_of_tree_error, hash_answer};

use crate::map_making::map_changed;
use app_steps::{App, ProgApp};
use disk_model::Machine;
use hash_client::HashErr;
use hash_file::{HashFile, HashRefusal};
use key_entries::Short;
use logical_btree::{Tree, TreeRefusal};
use op_codec::AllOps;
use oper_core::Refusal;
use range_calls::CallErr;
use script_lines::{Answer, Denial, Making};
use shell_base::Stop;
use std::alloc::Global;
use store_engine::{Engine, ExecErr, nothing_is_made};
use tree_client::TreeErr;

/// What is answered where a command is not done.
pub fn error_answer(error: ExecErr) -> Result<Answer<'static>, Stop>
    ensures { result ≡ answer_of_error error }
{
    match error {
        ExecErr::Refused(refusal) => Ok(Answer::Refused(refusal)),
        ExecErr::LogFull { used, need, limit } => Ok(Answer::Full { used, need, limit }),
        ExecErr::LsnEnd { lsn } => Ok(Answer::End { number: lsn }),
        ExecErr::Damaged { file, place } => Err(Stop::Damaged { file, place }),
        ExecErr::DiskFault => Err(Stop::DiskFault),
        ExecErr::Memory => Err(Stop::Memory),
    }
}

/// What is answered where a call on a tree is not done.
pub fn tree_answer(error: TreeErr) -> Result<Answer<'static>, Stop>
    ensures { result ≡ answer_of_tree_error error }
{
    match error {
        CallErr::Refused(TreeRefusal::NoObject) => Ok(Answer::Refused(Refusal::NoObject)),
        CallErr::Refused(TreeRefusal::BadTree { object: _object }) => Ok(Answer::BadTree),
        CallErr::Refused(
            TreeRefusal::TreeFull {
                need: _need,
                free: _free,
            },
        ) => Ok(Answer::TreeFull),
        CallErr::Refused(TreeRefusal::NoKey) => Ok(Answer::Refused(Refusal::NoKey)),
        CallErr::Exec(error) => error_answer(error),
        CallErr::Memory => Err(Stop::Memory),
    }
}

/// What is answered where a hash file refuses a call.
fn hash_refused(refusal: HashRefusal) -> Answer<'static>
    ensures { result ≡ hash_answer refusal }
{
    match refusal {
        HashRefusal::NoObject => Answer::Refused(Refusal::NoObject),
        HashRefusal::BadHash { object: _object } => Answer::Denied(Denial::BadHash),
        HashRefusal::HashFull { object: _object } => Answer::Denied(Denial::HashFull),
        HashRefusal::NoRoom { free: _free } => Answer::Denied(Denial::NoRoom),
        HashRefusal::NoKey => Answer::Refused(Refusal::NoKey),
    }
}

/// What is answered where a call on a hash file is not done.
pub fn hash_error_answer(error: HashErr) -> Result<Answer<'static>, Stop>
    ensures { result ≡ answer_of_call_error hash_answer error }
{
    match error {
        CallErr::Refused(refusal) => Ok(hash_refused(refusal)),
        CallErr::Exec(error) => error_answer(error),
        CallErr::Memory => Err(Stop::Memory),
    }
}

/// Takes steps of an application, and finds the answer to that.
fn run_steps<M: Machine>(
    engine: &mut Engine<AllOps>,
    machine: &mut M,
    app: u32,
    most: u32,
) -> Result<Answer<'static>, Stop>
    requires { engine.old.broken ≡ false }
    ensures { IsMade (M.disk machine.old) (M.disk machine.new) engine.old engine.new (Make (arun app most)) result }
{
    let app = App { app };
    match app.run(engine, machine, most as u64) {
        Ok(count) => Ok(Answer::Ran(count)),
        Err(error) => error_answer(error),
    }
}

/// Takes steps of an interpreted application by the program of an object, and finds the answer to that.
fn run_program<M: Machine>(
    engine: &mut Engine<AllOps>,
    machine: &mut M,
    app: u32,
    program: u32,
    most: u32,
) -> Result<Answer<'static>, Stop>
    requires { engine.old.broken ≡ false }
    ensures { IsMade (M.disk machine.old) (M.disk machine.new) engine.old engine.new (Make (prun app program most)) result }
{
    let app = ProgApp { app, program };
    match app.run(engine, machine, most as u64) {
        Ok(count) => Ok(Answer::Ran(count)),
        Err(error) => error_answer(error),
    }
}

/// Inserts a pair into the tree of some objects, and finds the answer to that.
fn insert<M: Machine>(
    engine: &mut Engine<AllOps>,
    machine: &mut M,
    low: u32,
    high: u32,
    key: Short,
    value: Short,
) -> Result<Answer<'static>, Stop>
    requires { engine.old.broken ≡ false }
    ensures { IsMade (M.disk machine.old) (M.disk machine.new) engine.old engine.new (Make (tinsert low high key value)) result }
{
    let Some(tree) = Tree::new(low, high) else {
        nothing_is_made(machine, engine);
        return Ok(Answer::Refused(Refusal::NoObject));
    };
    match tree_client::insert(&tree, engine, machine, &key, &value) {
        Ok(()) => Ok(Answer::Done),
        Err(error) => tree_answer(error),
    }
}

/// Deletes a key of the tree of some objects, and finds the answer to that.
fn delete<M: Machine>(
    engine: &mut Engine<AllOps>,
    machine: &mut M,
    low: u32,
    high: u32,
    key: Short,
) -> Result<Answer<'static>, Stop>
    requires { engine.old.broken ≡ false }
    ensures { IsMade (M.disk machine.old) (M.disk machine.new) engine.old engine.new (Make (tdelete low high key)) result }
{
    let Some(tree) = Tree::new(low, high) else {
        nothing_is_made(machine, engine);
        return Ok(Answer::Refused(Refusal::NoObject));
    };
    match tree_client::delete(&tree, engine, machine, &key) {
        Ok(()) => Ok(Answer::Done),
        Err(error) => tree_answer(error),
    }
}

/// Puts a pair into the hash file of some objects, and finds the answer to that.
fn hash_put<M: Machine>(
    engine: &mut Engine<AllOps>,
    machine: &mut M,
    low: u32,
    high: u32,
    key: Short,
    value: Short,
) -> Result<Answer<'static>, Stop>
    requires { engine.old.broken ≡ false }
    ensures { IsMade (M.disk machine.old) (M.disk machine.new) engine.old engine.new (Make (hset low high key value)) result }
{
    let Some(file) = HashFile::new(low, high) else {
        nothing_is_made(machine, engine);
        return Ok(Answer::Refused(Refusal::NoObject));
    };
    match hash_client::put(&file, engine, machine, &key, &value) {
        Ok(()) => Ok(Answer::Done),
        Err(error) => hash_error_answer(error),
    }
}

/// Deletes a key of the hash file of some objects, and finds the answer to that.
fn hash_delete<M: Machine>(
    engine: &mut Engine<AllOps>,
    machine: &mut M,
    low: u32,
    high: u32,
    key: Short,
) -> Result<Answer<'static>, Stop>
    requires { engine.old.broken ≡ false }
    ensures { IsMade (M.disk machine.old) (M.disk machine.new) engine.old engine.new (Make (hdel low high key)) result }
{
    let Some(file) = HashFile::new(low, high) else {
        nothing_is_made(machine, engine);
        return Ok(Answer::Refused(Refusal::NoObject));
    };
    match hash_client::delete(&file, engine, machine, &key) {
        Ok(()) => Ok(Answer::Done),
        Err(error) => hash_error_answer(error),
    }
}

/// Runs the commands that this makes, and finds the answer to them.
pub fn made_answer<M: Machine>(
    alloc: Global,
    engine: &mut Engine<AllOps>,
    machine: &mut M,
    making: Making,
) -> Result<Answer<'static>, Stop>
    requires { engine.old.broken ≡ false }
    ensures { IsMade (M.disk machine.old) (M.disk machine.new) engine.old engine.new (Make making) result }
{
    match making {
        Making::AppRun { app, steps } => run_steps(engine, machine, app, steps),
        Making::ProgramRun {
            app,
            program,
            steps,
        } => { run_program(engine, machine, app, program, steps) }
        Making::TreeInsert {
            low,
            high,
            key,
            value,
        } => insert(engine, machine, low, high, key, value),
        Making::TreeDelete { low, high, key } => delete(engine, machine, low, high, key),
        Making::HashPut {
            low,
            high,
            key,
            value,
        } => hash_put(engine, machine, low, high, key, value),
        Making::HashDelete { low, high, key } => hash_delete(engine, machine, low, high, key),
        Making::Map { low, high, change } => map_changed(alloc, engine, machine, low, high, change),
    }
}
