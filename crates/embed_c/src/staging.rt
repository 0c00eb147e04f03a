// Transactions: commands that are staged on a session, and then all added or none.
ghost use Rattle.std.specs.Prelude.{◌≡◌, false, true, None, Some, IfErr, IfOk, IfSome};
ghost use Rattle.std.specs.Option.{is_some};
ghost use Rattle.embed_c.specs.Answers.{of_exec, telling, told};
ghost use Rattle.embed_c.specs.Calls.{DoesNothing, TellsLength};
ghost use Rattle.embed_c.specs.Handles.{OnSession, session_of};
ghost use Rattle.embed_c.specs.Staging.{Begins, Commits, CommitsLazily, CommitsLazilyOn, CommitsOn, Drops, DoesSee, DoesStage, IsCalledIn, IsWithin, is_cut_off, kept_after, told_commit, told_seen};

use crate::answer::{Answer, exec_answer};
use crate::giving_up::put_again;
use crate::handle::Redo;
use crate::session::{Session, put_length};
use op_codec::AllOps;
use std::alloc::Global;
use std::mem;
use store_engine::ExecErr;
use transactions::{CommitErr, Transaction};

const NOT_OPEN: u32 = 64;

const MEMORY: u32 = 8;

const LOG_FULL: u32 = 16;

const IN_GROUP: u32 = 18;

const IN_TXN: u32 = 23;

const NO_TXN: u32 = 24;

// What C is told of a value that was read within a transaction.
fn seen_answer(made: Result<Option<usize>, ExecErr>) -> Answer
    ensures { result ≡ told_seen made }
{
    match made {
        Ok(Some(_)) => Answer::done(),
        Ok(None) => Answer::alone(32),
        Err(cause) => Answer::of_exec(cause),
    }
}

// What C is told of a commit, after which so many bytes of the log are used.
fn commit_answer(made: Result<(), CommitErr>, used: u64, bytes: u64, limit: u32) -> Answer
    ensures { result ≡ told_commit used bytes limit made }
{
    match made {
        Ok(()) => Answer::done(),
        Err(CommitErr::LogFull) => {
            Answer::telling(LOG_FULL, used, bytes.saturating_add(5), u64::from(limit))
        }
        Err(CommitErr::DiskFault) => Answer::alone(5),
        Err(CommitErr::Cut(cause)) => Answer::of_exec(cause),
    }
}

// A transaction stays open only where the log had no room for it.
fn kept(
    made: &Result<(), CommitErr>,
    transaction: Transaction<AllOps>,
) -> Option<Transaction<AllOps>>
    ensures { result ≡ kept_after made.now transaction }
{
    match made {
        Err(CommitErr::LogFull) => Some(transaction),
        _ => None,
    }
}

// Whether it was cut off within.
fn is_cut(made: &Result<(), CommitErr>) -> bool
    ensures { result ≡ is_cut_off made.now }
{
    match made {
        Err(CommitErr::Cut(_)) => true,
        _ => false,
    }
}

impl Session {
    /// Whether a transaction is open.
    pub fn in_transaction(&self) -> bool
        ensures { result ≡ is_some self.now.staging }
    {
        match &self.staging {
            Some(_) => true,
            None => false,
        }
    }

    /// Stages a command of the open transaction.
    pub fn stage(&mut self, op: AllOps) -> u32
        requires open { is_some self.old.staging ≡ true }
        ensures { IfSome self.old.staging (λ t. IsCalledIn (told of_exec) (DoesStage op) t self.old self.new result) }
    {
        let Some(mut transaction) = mem::replace(&mut self.staging, None) else {
            return NO_TXN;
        };
        let made = self.store.stage(&mut transaction, op);
        self.staging = Some(transaction);
        let answer = exec_answer(made);
        self.detail = answer.detail;
        answer.number
    }

    /// Copies the front of the value that an object has after the staged commands, as much as there is room for.
    pub fn see(&mut self, object: u32, into: &mut [u8], length: &mut u64) -> u32
        requires open { is_some self.old.staging ≡ true }
        ensures { IfSome self.old.staging (λ t. IsCalledIn told_seen (λ old new before after made. DoesSee object into.old into.new old new before after made × TellsLength made length.new) t self.old self.new result) }
    {
        let Some(transaction) = mem::replace(&mut self.staging, None) else {
            return NO_TXN;
        };
        let made = self.store.staged_value(&transaction, object, into);
        self.staging = Some(transaction);
        put_length(&made, length);
        let answer = seen_answer(made);
        self.detail = answer.detail;
        answer.number
    }

    /// Begins a transaction.
    pub fn begin_transaction(&mut self) -> u32
        ensures { Begins self.old self.new result }
    {
        if self.in_transaction() {
            return self.refuse(IN_TXN);
        }
        if let Some(commands) = self.store.group() {
            return self.refuse_in_group(commands);
        }
        match Transaction::new(self.alloc) {
            Ok(transaction) => {
                self.staging = Some(transaction);
                self.detail = Answer::done().detail;
                0
            }
            Err(_) => self.refuse(MEMORY),
        }
    }

    /// Drops the open transaction, of which nothing was logged.
    pub fn drop_transaction(&mut self) -> u32
        ensures { Drops self.old self.new result }
    {
        if !self.in_transaction() {
            return self.refuse(NO_TXN);
        }
        self.staging = None;
        self.detail = Answer::done().detail;
        0
    }

    // Adds the staged commands, where no group is open.
    fn commit(&mut self) -> u32
        requires alone { self.old.store.engine.broken ≡ false → self.old.store.engine.group ≡ None }
        ensures { Commits self.old self.new result }
    {
        let Some(mut transaction) = mem::replace(&mut self.staging, None) else {
            return self.refuse(NO_TXN);
        };
        let made = self.store.commit(&mut transaction);
        let bytes = transaction.bytes();
        self.staging = kept(&made, transaction);
        let answer = commit_answer(
            made,
            self.store.stat().used,
            bytes,
            self.store.params().limit,
        );
        self.detail = answer.detail;
        answer.number
    }

    // Adds the staged commands, where no group is open, and forces nothing. It answers what C is told, and whether it was cut off.
    fn commit_lazily(&mut self) -> (u32, bool)
        requires alone { self.old.store.engine.broken ≡ false → self.old.store.engine.group ≡ None }
        ensures { CommitsLazily self.old self.new result.0 result.1 }
    {
        let Some(mut transaction) = mem::replace(&mut self.staging, None) else {
            return (self.refuse(NO_TXN), false);
        };
        let made = self.store.commit_lazily(&mut transaction);
        let bytes = transaction.bytes();
        let cut = is_cut(&made);
        self.staging = kept(&made, transaction);
        let answer = commit_answer(
            made,
            self.store.stat().used,
            bytes,
            self.store.params().limit,
        );
        self.detail = answer.detail;
        (answer.number, cut)
    }

    // Tells that a group is open.
    fn refuse_in_group(&mut self, commands: u64) -> u32
        ensures { DoesNothing (telling 18 commands 0 0) self.old self.new result }
    {
        self.detail = Answer::telling(IN_GROUP, commands, 0, 0).detail;
        IN_GROUP
    }
}

impl Redo {
    /// Takes the session from behind it, where it is open and no transaction is within it; else answers what C is told.
    pub fn take_apart(&mut self, alloc: Global) -> Result<Box<Session>, u32>
        ensures ok { IfOk result (λ session. (session_of self.old ≡ Some session.value) × (session.value.staging ≡ None)) }
        ensures err { IfErr result (OnSession IsWithin (session_of self.old) (session_of self.new)) }
    {
        let Some(mut session) = self.take(alloc) else {
            return Err(NOT_OPEN);
        };
        if session.in_transaction() {
            let answer = session.refuse(IN_TXN);
            self.put_back(session);
            return Err(answer);
        }
        Ok(session)
    }
}

#[unsafe(no_mangle)]
pub extern "C" fn redo_core_txn_begin(alloc: Global, redo: &mut Redo) -> u32
    ensures { OnSession Begins (session_of redo.old) (session_of redo.new) result }
{
    match redo.take(alloc) {
        None => NOT_OPEN,
        Some(mut session) => {
            let answer = session.begin_transaction();
            redo.put_back(session);
            answer
        }
    }
}

#[unsafe(no_mangle)]
pub extern "C" fn redo_core_txn_abort(alloc: Global, redo: &mut Redo) -> u32
    ensures { OnSession Drops (session_of redo.old) (session_of redo.new) result }
{
    match redo.take(alloc) {
        None => NOT_OPEN,
        Some(mut session) => {
            let answer = session.drop_transaction();
            redo.put_back(session);
            answer
        }
    }
}

/// Adds the staged commands, all in one group, or none of them. Where memory runs out within, the group is given up; where that
/// fails too, the session is dropped, the handle is closed and the answer is 5.
#[unsafe(no_mangle)]
pub extern "C" fn redo_core_txn_commit(alloc: Global, redo: &mut Redo) -> u32
    ensures { CommitsOn (session_of redo.old) (session_of redo.new) result }
{
    let Some(mut session) = redo.take(alloc) else {
        return NOT_OPEN;
    };
    if let Some(commands) = session.store.group() {
        let answer = session.refuse_in_group(commands);
        redo.put_back(session);
        return answer;
    }
    let answer = session.commit();
    match session.store.group() {
        None => {
            redo.put_back(session);
            answer
        }
        Some(_) => put_again(redo, Box::into_inner(session).abort(), answer),
    }
}

/// Adds the staged commands, or none of them, and forces nothing. Where memory runs out within, all that is not forced is given up;
/// where that fails too, the session is dropped, the handle is closed and the answer is 5.
#[unsafe(no_mangle)]
pub extern "C" fn redo_core_txn_commit_lazily(alloc: Global, redo: &mut Redo) -> u32
    ensures { CommitsLazilyOn (session_of redo.old) (session_of redo.new) result }
{
    let Some(mut session) = redo.take(alloc) else {
        return NOT_OPEN;
    };
    if let Some(commands) = session.store.group() {
        let answer = session.refuse_in_group(commands);
        redo.put_back(session);
        return answer;
    }
    let (answer, cut) = session.commit_lazily();
    if !cut {
        redo.put_back(session);
        return answer;
    }
    put_again(redo, Box::into_inner(session).reopen(), answer)
}
