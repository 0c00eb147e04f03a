//! What C calls: each function translates numbers, pointers and lengths, and makes one call of a store in memory.
//!
//! No function here touches a file. C holds a [`Redo`], which it begins with zeros; of it C promises that it is all zeros, or as
//! the last call here left it. A slice is a pointer and a length. What is answered is 0, or a number of specs/Answers.antt; 64 where
//! the handle is closed. After each call C makes on its files the calls that [`redo_core_next`] tells, in order, before it reports
//! the answer; no other call takes one from the queue. A backup stands behind a handle of its own, as the files that it is written
//! to, and [`backing_up::redo_core_target_next`] tells the calls on these. Before each call that may change objects beside a snapshot
//! C has them kept ([`snapshots::redo_core_snapshot_keep`]).
#![tactic(auto)]

ghost use Rattle.std.specs.Prelude.{◌≡◌, ◌⊎◌, ◌&&◌, None, Ok, Err, IfErr, drop, nat_le, nat_lt};
ghost use Rattle.key_entries.specs.Short.{is_short};
ghost use Rattle.app_program.specs.declared.program_op.ProgramOp.TheVariants.{Step as StepOp, Feed as FeedOp, Drain as DrainOp};
ghost use Rattle.app_steps.specs.Steps.{program_step, step_of};
ghost use Rattle.op_codec.specs.AllOps.{plain, program as program_command};
ghost use Rattle.op_meaning.specs.declared.plain_op.PlainOp.TheVariants.{Append as AppendOp, AppRead as AppReadOp, AppWrite as AppWriteOp, Copy as CopyOp, Cut as CutOp, Exec as ExecOp, Put as PutOp, Sort as SortOp, Swap as SwapOp};
ghost use Rattle.store_engine.specs.Engine.{params_of};
ghost use Rattle.embed.specs.Embedded.{Reports};
ghost use Rattle.embed_c.specs.Answers.{alone, of_exec, of_work, told, told_end};
ghost use Rattle.embed_c.specs.Calls.{DoesBegin, DoesCheckpoint, DoesDrain, DoesEnd, DoesForce, DoesInstall, DoesNothing, DoesRun, DoesTrim, IsCalled, StagesRun, TellsCount, TellsInstall, TellsSteps};
ghost use Rattle.embed_c.specs.Handles.{ClosesHandle, OnSession, OpensHandle, session_of};
ghost use Rattle.embed_c.specs.Ranges.{GivesFirst, GivesNothing, IfNamed, IsRanged, OnRange, TellsFound, hash_delete, hash_get, hash_put, of_hash, of_tree, told_found, tree_delete, tree_get, tree_insert};
ghost use Rattle.embed_c.specs.Opening.{IsCreated, IsFailure, IsOpened, IsUncreated, IsUnopened};
ghost use Rattle.embed_c.specs.Staging.{Apart, Gets, Runs};
ghost use Rattle.embed_c.specs.Waiting.{TellsNext};
ghost use Rattle.embed_c.specs.Within.{Tells};
ghost use Rattle.write_queue.specs.Handed.{handed};
ghost use Rattle.write_queue.specs.Memory.{disk_of};

mod answer;
mod backing_up;
mod giving_up;
mod handle;
mod maps;
mod page_map_calls;
mod page_maps;
mod pairs;
mod reopening;
mod session;
mod snapshots;
mod staging;
mod taken;
mod target;
mod target_handle;
mod upkeep;
mod within;

use answer::{Answer, Detail};
use app_program::ProgramOp;
use formats::Params;
use handle::Redo;
use maps::{Lengths, Range};
use op_codec::{AllOps, plain_op, program_op};
use op_meaning::PlainOp;
use session::Session;
use std::alloc::Global;
use taken::Call;

const NOT_OPEN: u32 = 64;

const ALREADY_OPEN: u32 = 65;

/// What a store reports of itself.
#[repr(C)]
#[derive(Clone, Copy)]
pub struct Counts {
    pub nodes: u64,
    pub dirty: u64,
    pub uninstalled: u64,
    pub forced: u64,
    pub accepted: u64,
    pub used: u64,
    pub identities: u64,
}

/// How many objects a store has, how many bytes each may hold, and how long the log may be.
#[repr(C)]
#[derive(Clone, Copy)]
pub struct Numbers {
    pub objects: u32,
    pub cap: u32,
    pub limit: u32,
}

// Puts a session behind a handle that is closed, or says why there is none.
fn opened(
    alloc: Global,
    redo: &mut Redo,
    session: Result<Session, Answer>,
    detail: &mut Detail,
) -> u32
    requires closed { session_of redo.old ≡ None }
    requires fails { IfErr session IsFailure }
    ensures { OpensHandle (λ s. session ≡ Ok s) (λ told. (session ≡ Err told) ⊎ (told ≡ alone 8)) (session_of redo.old) (session_of redo.new) detail.new result }
{
    let session = match session {
        Ok(session) => session,
        Err(answer) => {
            *detail = answer.detail;
            return answer.number;
        }
    };
    match Box::new(alloc, session) {
        Ok(session) => {
            redo.put_back(session);
            0
        }
        Err(_) => {
            *detail = Answer::alone(8).detail;
            8
        }
    }
}

// Does a command on the session behind a handle.
fn exec(alloc: Global, redo: &mut Redo, op: AllOps) -> u32
    ensures { OnSession (Runs op) (session_of redo.old) (session_of redo.new) result }
{
    match redo.take(alloc) {
        None => NOT_OPEN,
        Some(mut session) => {
            let answer = session.exec(op);
            redo.put_back(session);
            answer
        }
    }
}

#[unsafe(no_mangle)]
pub extern "C" fn redo_core_create(
    alloc: Global,
    redo: &mut Redo,
    objects: &[u8],
    log_a: &[u8],
    log_b: &[u8],
    params: &Numbers,
    pages: bool,
    detail: &mut Detail,
) -> u32
    ensures { OpensHandle (IsCreated (record { objects = params.now.objects; cap = params.now.cap; limit = params.now.limit; more = pages }) (handed objects.now log_a.now log_b.now)) (IsUncreated (record { objects = params.now.objects; cap = params.now.cap; limit = params.now.limit; more = pages }) (handed objects.now log_a.now log_b.now)) (session_of redo.old) (session_of redo.new) detail.new result }
{
    if redo.is_open() {
        return ALREADY_OPEN;
    }
    let params = Params {
        objects: params.objects,
        cap: params.cap,
        limit: params.limit,
        more: pages,
    };
    let session = Session::create(alloc, objects, log_a, log_b, params);
    opened(alloc, redo, session, detail)
}

#[unsafe(no_mangle)]
pub extern "C" fn redo_core_open(
    alloc: Global,
    redo: &mut Redo,
    objects: &[u8],
    log_a: &[u8],
    log_b: &[u8],
    detail: &mut Detail,
) -> u32
    ensures { OpensHandle (IsOpened (handed objects.now log_a.now log_b.now)) (IsUnopened (handed objects.now log_a.now log_b.now)) (session_of redo.old) (session_of redo.new) detail.new result }
{
    if redo.is_open() {
        return ALREADY_OPEN;
    }
    let session = Session::open(alloc, objects, log_a, log_b);
    opened(alloc, redo, session, detail)
}

#[unsafe(no_mangle)]
pub extern "C" fn redo_core_close(alloc: Global, redo: &mut Redo) -> u32
    ensures { ClosesHandle (session_of redo.old) (session_of redo.new) result }
{
    match redo.take(alloc) {
        None => NOT_OPEN,
        Some(session) => {
            drop(session);
            0
        }
    }
}

/// Tells the next call that C has to make on its files: 1 where there is one, 0 where none waits. Its bytes are given where
/// there is room for them; else it is told again.
#[unsafe(no_mangle)]
pub extern "C" fn redo_core_next(
    alloc: Global,
    redo: &mut Redo,
    call: &mut Call,
    into: &mut [u8],
) -> u32
    ensures { OnSession (TellsNext call.new into.old into.new) (session_of redo.old) (session_of redo.new) result }
{
    match redo.take(alloc) {
        None => NOT_OPEN,
        Some(mut session) => {
            let answer = session.next_call(call, into);
            redo.put_back(session);
            answer
        }
    }
}

#[unsafe(no_mangle)]
pub extern "C" fn redo_core_put(alloc: Global, redo: &mut Redo, object: u32, value: &[u8]) -> u32
    ensures { OnSession (λ old new answer. Runs (plain (PutOp object value.now)) old new answer ⊎ DoesNothing (alone 8) old new answer) (session_of redo.old) (session_of redo.new) result }
{
    match redo.take(alloc) {
        None => NOT_OPEN,
        Some(mut session) => {
            let answer = session.put(object, value);
            redo.put_back(session);
            answer
        }
    }
}

#[unsafe(no_mangle)]
pub extern "C" fn redo_core_copy(alloc: Global, redo: &mut Redo, from: u32, to: u32) -> u32
    ensures { OnSession (Runs (plain (CopyOp from to))) (session_of redo.old) (session_of redo.new) result }
{
    exec(alloc, redo, plain_op(PlainOp::Copy { from, to }))
}

#[unsafe(no_mangle)]
pub extern "C" fn redo_core_append(alloc: Global, redo: &mut Redo, from: u32, to: u32) -> u32
    ensures { OnSession (Runs (plain (AppendOp from to))) (session_of redo.old) (session_of redo.new) result }
{
    exec(alloc, redo, plain_op(PlainOp::Append { from, to }))
}

#[unsafe(no_mangle)]
pub extern "C" fn redo_core_cut(
    alloc: Global,
    redo: &mut Redo,
    from: u32,
    to: u32,
    place: u32,
) -> u32
    ensures { OnSession (Runs (plain (CutOp from to place))) (session_of redo.old) (session_of redo.new) result }
{
    exec(alloc, redo, plain_op(PlainOp::Cut { from, to, place }))
}

#[unsafe(no_mangle)]
pub extern "C" fn redo_core_sort(
    alloc: Global,
    redo: &mut Redo,
    from: u32,
    to: u32,
    width: u32,
) -> u32
    ensures { OnSession (Runs (plain (SortOp from to width))) (session_of redo.old) (session_of redo.new) result }
{
    exec(alloc, redo, plain_op(PlainOp::Sort { from, to, width }))
}

#[unsafe(no_mangle)]
pub extern "C" fn redo_core_swap(alloc: Global, redo: &mut Redo, first: u32, second: u32) -> u32
    ensures { OnSession (Runs (plain (SwapOp first second))) (session_of redo.old) (session_of redo.new) result }
{
    exec(alloc, redo, plain_op(PlainOp::Swap { first, second }))
}

#[unsafe(no_mangle)]
pub extern "C" fn redo_core_app_exec(alloc: Global, redo: &mut Redo, app: u32) -> u32
    ensures { OnSession (Runs (plain (ExecOp app))) (session_of redo.old) (session_of redo.new) result }
{
    exec(alloc, redo, plain_op(PlainOp::Exec { app }))
}

#[unsafe(no_mangle)]
pub extern "C" fn redo_core_app_read(alloc: Global, redo: &mut Redo, app: u32, from: u32) -> u32
    ensures { OnSession (Runs (plain (AppReadOp app from))) (session_of redo.old) (session_of redo.new) result }
{
    exec(alloc, redo, plain_op(PlainOp::AppRead { app, from }))
}

#[unsafe(no_mangle)]
pub extern "C" fn redo_core_app_write(alloc: Global, redo: &mut Redo, app: u32, to: u32) -> u32
    ensures { OnSession (Runs (plain (AppWriteOp app to))) (session_of redo.old) (session_of redo.new) result }
{
    exec(alloc, redo, plain_op(PlainOp::AppWrite { app, to }))
}

#[unsafe(no_mangle)]
pub extern "C" fn redo_core_app_run(
    alloc: Global,
    redo: &mut Redo,
    app: u32,
    most: u64,
    steps: &mut u64,
) -> u32
    ensures { OnSession (Tells (DoesRun (step_of app) most) (StagesRun (step_of app) most) (told of_exec) (λ made. TellsSteps made steps.new)) (session_of redo.old) (session_of redo.new) result }
{
    match redo.take(alloc) {
        None => NOT_OPEN,
        Some(mut session) => {
            let answer = session.app_run(app, most, steps);
            redo.put_back(session);
            answer
        }
    }
}

#[unsafe(no_mangle)]
pub extern "C" fn redo_core_program_run(
    alloc: Global,
    redo: &mut Redo,
    app: u32,
    program: u32,
    most: u64,
    steps: &mut u64,
) -> u32
    ensures { OnSession (Tells (DoesRun (program_step app program) most) (StagesRun (program_step app program) most) (told of_exec) (λ made. TellsSteps made steps.new)) (session_of redo.old) (session_of redo.new) result }
{
    match redo.take(alloc) {
        None => NOT_OPEN,
        Some(mut session) => {
            let answer = session.program_run(app, program, most, steps);
            redo.put_back(session);
            answer
        }
    }
}

#[unsafe(no_mangle)]
pub extern "C" fn redo_core_program_exec(
    alloc: Global,
    redo: &mut Redo,
    app: u32,
    program: u32,
) -> u32
    ensures { OnSession (Runs (program_command (StepOp app program))) (session_of redo.old) (session_of redo.new) result }
{
    exec(alloc, redo, program_op(ProgramOp::Step { app, program }))
}

#[unsafe(no_mangle)]
pub extern "C" fn redo_core_program_read(alloc: Global, redo: &mut Redo, app: u32, from: u32) -> u32
    ensures { OnSession (Runs (program_command (FeedOp app from))) (session_of redo.old) (session_of redo.new) result }
{
    exec(alloc, redo, program_op(ProgramOp::Feed { app, from }))
}

#[unsafe(no_mangle)]
pub extern "C" fn redo_core_program_write(alloc: Global, redo: &mut Redo, app: u32, to: u32) -> u32
    ensures { OnSession (Runs (program_command (DrainOp app to))) (session_of redo.old) (session_of redo.new) result }
{
    exec(alloc, redo, program_op(ProgramOp::Drain { app, to }))
}

#[unsafe(no_mangle)]
pub extern "C" fn redo_core_get(
    alloc: Global,
    redo: &mut Redo,
    object: u32,
    into: &mut [u8],
    length: &mut u64,
) -> u32
    ensures { OnSession (Gets object into.old into.new length.new) (session_of redo.old) (session_of redo.new) result }
{
    match redo.take(alloc) {
        None => NOT_OPEN,
        Some(mut session) => {
            let answer = session.get(object, into, length);
            redo.put_back(session);
            answer
        }
    }
}

#[unsafe(no_mangle)]
pub extern "C" fn redo_core_force(alloc: Global, redo: &mut Redo, count: &mut u64) -> u32
    ensures { OnSession (IsCalled (told of_work) (λ old new made. DoesForce old new made × TellsCount made count.new)) (session_of redo.old) (session_of redo.new) result }
{
    match redo.take(alloc) {
        None => NOT_OPEN,
        Some(mut session) => {
            let answer = session.force(count);
            redo.put_back(session);
            answer
        }
    }
}

#[unsafe(no_mangle)]
pub extern "C" fn redo_core_begin(alloc: Global, redo: &mut Redo) -> u32
    ensures { OnSession (Apart (IsCalled (told of_work) DoesBegin)) (session_of redo.old) (session_of redo.new) result }
{
    match redo.take_apart(alloc) {
        Err(answer) => answer,
        Ok(mut session) => {
            let answer = session.begin();
            redo.put_back(session);
            answer
        }
    }
}

#[unsafe(no_mangle)]
pub extern "C" fn redo_core_end(alloc: Global, redo: &mut Redo) -> u32
    ensures { OnSession (IsCalled told_end DoesEnd) (session_of redo.old) (session_of redo.new) result }
{
    match redo.take(alloc) {
        None => NOT_OPEN,
        Some(mut session) => {
            let answer = session.end();
            redo.put_back(session);
            answer
        }
    }
}

#[unsafe(no_mangle)]
pub extern "C" fn redo_core_install(alloc: Global, redo: &mut Redo, installed: &mut u64) -> u32
    ensures { OnSession (IsCalled (told of_work) (λ old new made. DoesInstall old new made × TellsInstall made installed.new)) (session_of redo.old) (session_of redo.new) result }
{
    match redo.take(alloc) {
        None => NOT_OPEN,
        Some(mut session) => {
            let answer = session.install(installed);
            redo.put_back(session);
            answer
        }
    }
}

#[unsafe(no_mangle)]
pub extern "C" fn redo_core_drain(alloc: Global, redo: &mut Redo) -> u32
    ensures { OnSession (IsCalled (told of_work) DoesDrain) (session_of redo.old) (session_of redo.new) result }
{
    match redo.take(alloc) {
        None => NOT_OPEN,
        Some(mut session) => {
            let answer = session.drain();
            redo.put_back(session);
            answer
        }
    }
}

#[unsafe(no_mangle)]
pub extern "C" fn redo_core_checkpoint(alloc: Global, redo: &mut Redo) -> u32
    ensures { OnSession (IsCalled (told of_work) DoesCheckpoint) (session_of redo.old) (session_of redo.new) result }
{
    match redo.take(alloc) {
        None => NOT_OPEN,
        Some(mut session) => {
            let answer = session.checkpoint();
            redo.put_back(session);
            answer
        }
    }
}

#[unsafe(no_mangle)]
pub extern "C" fn redo_core_trim(alloc: Global, redo: &mut Redo) -> u32
    ensures { OnSession (IsCalled (told of_work) DoesTrim) (session_of redo.old) (session_of redo.new) result }
{
    match redo.take(alloc) {
        None => NOT_OPEN,
        Some(mut session) => {
            let answer = session.trim();
            redo.put_back(session);
            answer
        }
    }
}

#[unsafe(no_mangle)]
pub extern "C" fn redo_core_stat(alloc: Global, redo: &mut Redo, counts: &mut Counts) -> u32
    ensures { OnSession (λ old new answer. (answer ≡ 0) × (new ≡ old) × Reports old.store.engine (disk_of old.store.machine) (record {
      nodes = counts.new.nodes;
      dirty = counts.new.dirty;
      uninstalled = counts.new.uninstalled;
      forced = counts.new.forced;
      accepted = counts.new.accepted;
      used = counts.new.used;
      identities = counts.new.identities;
    })) (session_of redo.old) (session_of redo.new) result }
{
    match redo.take(alloc) {
        None => NOT_OPEN,
        Some(session) => {
            let stat = session.stat();
            redo.put_back(session);
            *counts = Counts {
                nodes: stat.nodes,
                dirty: stat.dirty,
                uninstalled: stat.uninstalled,
                forced: stat.forced,
                accepted: stat.accepted,
                used: stat.used,
                identities: stat.identities,
            };
            0
        }
    }
}

#[unsafe(no_mangle)]
pub extern "C" fn redo_core_params(alloc: Global, redo: &mut Redo, params: &mut Numbers) -> u32
    ensures { OnSession (λ old new answer. (answer ≡ 0) × (new ≡ old) × (params.new.objects ≡ (params_of old.store.engine).objects) × (params.new.cap ≡ (params_of old.store.engine).cap) × (params.new.limit ≡ (params_of old.store.engine).limit)) (session_of redo.old) (session_of redo.new) result }
{
    match redo.take(alloc) {
        None => NOT_OPEN,
        Some(session) => {
            let now = session.params();
            redo.put_back(session);
            *params = Numbers {
                objects: now.objects,
                cap: now.cap,
                limit: now.limit,
            };
            0
        }
    }
}

#[unsafe(no_mangle)]
pub extern "C" fn redo_core_detail(alloc: Global, redo: &mut Redo, detail: &mut Detail) -> u32
    ensures { OnSession (λ old new answer. (answer ≡ 0) × (new ≡ old) × (detail.new ≡ old.detail)) (session_of redo.old) (session_of redo.new) result }
{
    match redo.take(alloc) {
        None => NOT_OPEN,
        Some(session) => {
            *detail = session.detail();
            redo.put_back(session);
            0
        }
    }
}

#[unsafe(no_mangle)]
pub extern "C" fn redo_core_tree_insert(
    alloc: Global,
    redo: &mut Redo,
    range: &Range,
    key: &[u8],
    value: &[u8],
) -> u32
    ensures { OnSession (IfNamed (nat_le range.now.low range.now.high) (is_short key.now && is_short value.now) (OnRange (tree_insert range.now.low range.now.high key.now value.now) (told of_tree) GivesNothing)) (session_of redo.old) (session_of redo.new) result }
{
    match redo.take(alloc) {
        None => NOT_OPEN,
        Some(mut session) => {
            let answer = session.tree_insert(*range, key, value);
            redo.put_back(session);
            answer
        }
    }
}

#[unsafe(no_mangle)]
pub extern "C" fn redo_core_tree_delete(
    alloc: Global,
    redo: &mut Redo,
    range: &Range,
    key: &[u8],
) -> u32
    ensures { OnSession (IfNamed (nat_le range.now.low range.now.high) (is_short key.now) (OnRange (tree_delete range.now.low range.now.high key.now) (told of_tree) GivesNothing)) (session_of redo.old) (session_of redo.new) result }
{
    match redo.take(alloc) {
        None => NOT_OPEN,
        Some(mut session) => {
            let answer = session.tree_delete(*range, key);
            redo.put_back(session);
            answer
        }
    }
}

#[unsafe(no_mangle)]
pub extern "C" fn redo_core_tree_get(
    alloc: Global,
    redo: &mut Redo,
    range: &Range,
    key: &[u8],
    into: &mut [u8],
    length: &mut u64,
) -> u32
    ensures { OnSession (IfNamed (nat_le range.now.low range.now.high) (is_short key.now) (OnRange (tree_get range.now.low range.now.high key.now) (told_found of_tree) (λ made. TellsFound made into.old into.new length.new))) (session_of redo.old) (session_of redo.new) result }
{
    match redo.take(alloc) {
        None => NOT_OPEN,
        Some(mut session) => {
            let answer = session.tree_get(*range, key, into, length);
            redo.put_back(session);
            answer
        }
    }
}

#[unsafe(no_mangle)]
pub extern "C" fn redo_core_tree_range(
    alloc: Global,
    redo: &mut Redo,
    range: &Range,
    from: &[u8],
    to: &[u8],
    count: &mut u64,
) -> u32
    ensures { OnSession (IfNamed (nat_le range.now.low range.now.high) (is_short from.now && is_short to.now) (IsRanged range.now.low range.now.high from.now to.now count.new)) (session_of redo.old) (session_of redo.new) result }
{
    match redo.take(alloc) {
        None => NOT_OPEN,
        Some(mut session) => {
            let answer = session.tree_range(*range, from, to, count);
            redo.put_back(session);
            answer
        }
    }
}

#[unsafe(no_mangle)]
pub extern "C" fn redo_core_tree_pair(
    alloc: Global,
    redo: &mut Redo,
    pair: u64,
    key: &mut [u8],
    value: &mut [u8],
    lengths: &mut Lengths,
) -> u32
    ensures { OnSession (λ old new answer. GivesFirst key.old key.new value.old value.new lengths.new (drop pair old.pairs.of_tree.items) answer × (new ≡ old)) (session_of redo.old) (session_of redo.new) result }
{
    match redo.take(alloc) {
        None => NOT_OPEN,
        Some(session) => {
            let answer = session.tree_pair(pair, key, value, lengths);
            redo.put_back(session);
            answer
        }
    }
}

#[unsafe(no_mangle)]
pub extern "C" fn redo_core_hash_put(
    alloc: Global,
    redo: &mut Redo,
    range: &Range,
    key: &[u8],
    value: &[u8],
) -> u32
    ensures { OnSession (IfNamed (nat_lt range.now.low range.now.high) (is_short key.now && is_short value.now) (OnRange (hash_put range.now.low range.now.high key.now value.now) (told of_hash) GivesNothing)) (session_of redo.old) (session_of redo.new) result }
{
    match redo.take(alloc) {
        None => NOT_OPEN,
        Some(mut session) => {
            let answer = session.hash_put(*range, key, value);
            redo.put_back(session);
            answer
        }
    }
}

#[unsafe(no_mangle)]
pub extern "C" fn redo_core_hash_delete(
    alloc: Global,
    redo: &mut Redo,
    range: &Range,
    key: &[u8],
) -> u32
    ensures { OnSession (IfNamed (nat_lt range.now.low range.now.high) (is_short key.now) (OnRange (hash_delete range.now.low range.now.high key.now) (told of_hash) GivesNothing)) (session_of redo.old) (session_of redo.new) result }
{
    match redo.take(alloc) {
        None => NOT_OPEN,
        Some(mut session) => {
            let answer = session.hash_delete(*range, key);
            redo.put_back(session);
            answer
        }
    }
}

#[unsafe(no_mangle)]
pub extern "C" fn redo_core_hash_get(
    alloc: Global,
    redo: &mut Redo,
    range: &Range,
    key: &[u8],
    into: &mut [u8],
    length: &mut u64,
) -> u32
    ensures { OnSession (IfNamed (nat_lt range.now.low range.now.high) (is_short key.now) (OnRange (hash_get range.now.low range.now.high key.now) (told_found of_hash) (λ made. TellsFound made into.old into.new length.new))) (session_of redo.old) (session_of redo.new) result }
{
    match redo.take(alloc) {
        None => NOT_OPEN,
        Some(mut session) => {
            let answer = session.hash_get(*range, key, into, length);
            redo.put_back(session);
            answer
        }
    }
}
