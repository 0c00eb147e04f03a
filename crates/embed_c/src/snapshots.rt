// The snapshot of a session: a state that is kept while commands are added.
ghost use Rattle.std.specs.Prelude.{◌≡◌, false, true};
ghost use Rattle.std.specs.Option.{is_some};
ghost use Rattle.embed_c.specs.Handles.{OnSession, session_of};
ghost use Rattle.embed_c.specs.Snapshots.{BeginsSnapshot, EndsSnapshot, KeepsObjects, KeepsStaged, Recalls, told_recalled};

use crate::answer::Answer;
use crate::handle::Redo;
use crate::session::{Session, put_length};
use std::alloc::Global;
use std::mem;
use transactions::SnapshotErr;

const NOT_OPEN: u32 = 64;

const MEMORY: u32 = 8;

const NO_TXN: u32 = 24;

const IN_SNAPSHOT: u32 = 25;

const NO_SNAPSHOT: u32 = 26;

// What C is told of a value that was read from the snapshot.
fn recalled_answer(made: Result<Option<usize>, SnapshotErr>) -> Answer
    ensures { result ≡ told_recalled made }
{
    match made {
        Ok(Some(_)) => Answer::done(),
        Ok(None) => Answer::alone(32),
        Err(SnapshotErr::GivenUp) => Answer::alone(27),
        Err(SnapshotErr::Read(cause)) => Answer::of_exec(cause),
    }
}

impl Session {
    // Whether a snapshot is open.
    fn has_snapshot(&self) -> bool
        ensures { result ≡ is_some self.now.snapshot }
    {
        match &self.snapshot {
            Some(_) => true,
            None => false,
        }
    }

    /// Begins a snapshot of the state that the store has.
    pub fn begin_snapshot(&mut self) -> u32
        ensures { BeginsSnapshot self.old self.new result }
    {
        if self.has_snapshot() {
            return self.refuse(IN_SNAPSHOT);
        }
        match self.store.snapshot() {
            Ok(snapshot) => {
                self.snapshot = Some(snapshot);
                self.detail = Answer::done().detail;
                0
            }
            Err(_) => self.refuse(MEMORY),
        }
    }

    /// Drops the snapshot.
    pub fn end_snapshot(&mut self) -> u32
        ensures { EndsSnapshot self.old self.new result }
    {
        if !self.has_snapshot() {
            return self.refuse(NO_SNAPSHOT);
        }
        self.snapshot = None;
        self.detail = Answer::done().detail;
        0
    }

    /// Sees that the values which these objects have now are kept for the snapshot, or that is given up.
    pub fn keep(&mut self, objects: &[u32]) -> u32
        ensures { KeepsObjects objects.now self.old self.new result }
    {
        let Some(mut snapshot) = mem::replace(&mut self.snapshot, None) else {
            return self.refuse(NO_SNAPSHOT);
        };
        self.store.keep(&mut snapshot, objects);
        self.snapshot = Some(snapshot);
        self.detail = Answer::done().detail;
        0
    }

    /// Does so for all that the staged commands write.
    pub fn keep_staged(&mut self) -> u32
        ensures { KeepsStaged self.old self.new result }
    {
        let Some(transaction) = &self.staging else {
            return self.refuse(NO_TXN);
        };
        let Some(mut snapshot) = mem::replace(&mut self.snapshot, None) else {
            return self.refuse(NO_SNAPSHOT);
        };
        self.store.keep_staged(&mut snapshot, transaction);
        self.snapshot = Some(snapshot);
        self.detail = Answer::done().detail;
        0
    }

    /// Copies the front of the value that an object had when the snapshot began, as much as there is room for.
    pub fn recall(&mut self, object: u32, into: &mut [u8], length: &mut u64) -> u32
        ensures { Recalls object into.old into.new length.new self.old self.new result }
    {
        let Some(snapshot) = mem::replace(&mut self.snapshot, None) else {
            return self.refuse(NO_SNAPSHOT);
        };
        let made = self.store.snapshot_value(&snapshot, object, into);
        self.snapshot = Some(snapshot);
        put_length(&made, length);
        let answer = recalled_answer(made);
        self.detail = answer.detail;
        answer.number
    }
}

#[unsafe(no_mangle)]
pub extern "C" fn redo_core_snapshot_begin(alloc: Global, redo: &mut Redo) -> u32
    ensures { OnSession BeginsSnapshot (session_of redo.old) (session_of redo.new) result }
{
    match redo.take(alloc) {
        None => NOT_OPEN,
        Some(mut session) => {
            let answer = session.begin_snapshot();
            redo.put_back(session);
            answer
        }
    }
}

#[unsafe(no_mangle)]
pub extern "C" fn redo_core_snapshot_end(alloc: Global, redo: &mut Redo) -> u32
    ensures { OnSession EndsSnapshot (session_of redo.old) (session_of redo.new) result }
{
    match redo.take(alloc) {
        None => NOT_OPEN,
        Some(mut session) => {
            let answer = session.end_snapshot();
            redo.put_back(session);
            answer
        }
    }
}

/// Sees that the values which these objects have now are kept for the snapshot: before each call that may change them. It is given up
/// where they are not.
#[unsafe(no_mangle)]
pub extern "C" fn redo_core_snapshot_keep(alloc: Global, redo: &mut Redo, objects: &[u32]) -> u32
    ensures { OnSession (KeepsObjects objects.now) (session_of redo.old) (session_of redo.new) result }
{
    match redo.take(alloc) {
        None => NOT_OPEN,
        Some(mut session) => {
            let answer = session.keep(objects);
            redo.put_back(session);
            answer
        }
    }
}

/// The same for all that the staged commands write: before they are committed.
#[unsafe(no_mangle)]
pub extern "C" fn redo_core_snapshot_keep_staged(alloc: Global, redo: &mut Redo) -> u32
    ensures { OnSession KeepsStaged (session_of redo.old) (session_of redo.new) result }
{
    match redo.take(alloc) {
        None => NOT_OPEN,
        Some(mut session) => {
            let answer = session.keep_staged();
            redo.put_back(session);
            answer
        }
    }
}

#[unsafe(no_mangle)]
pub extern "C" fn redo_core_snapshot_get(
    alloc: Global,
    redo: &mut Redo,
    object: u32,
    into: &mut [u8],
    length: &mut u64,
) -> u32
    ensures { OnSession (Recalls object into.old into.new length.new) (session_of redo.old) (session_of redo.new) result }
{
    match redo.take(alloc) {
        None => NOT_OPEN,
        Some(mut session) => {
            let answer = session.recall(object, into, length);
            redo.put_back(session);
            answer
        }
    }
}
