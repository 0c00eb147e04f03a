// Groups that are given up, and groups for which the log has room.
ghost use Rattle.std.specs.Prelude.{◌≡◌, false, None, IfNone, IfSome, IsSome};
ghost use Rattle.embed_c.specs.Answers.{alone, of_work, told};
ghost use Rattle.embed_c.specs.Calls.{DoesNothing, IsCalled};
ghost use Rattle.embed_c.specs.GivenUp.{BringsBack, DoesBeginRoom, GivesUp, IsGivenUp, IsLost, PutsBack, no_group_in};
ghost use Rattle.embed_c.specs.Handles.{OnSession, session_of};
ghost use Rattle.embed_c.specs.Staging.{Apart};

use crate::answer::{Answer, work_answer};
use crate::handle::Redo;
use crate::session::Session;
use embed::Store;
use std::alloc::Global;
use transactions::Snapshot;
use write_queue::QueueMem;

const NOT_OPEN: u32 = 64;

const DISK_FAULT: u32 = 5;

const NO_GROUP: u32 = 19;

impl Session {
    /// Opens a group, where the log has room for records of so many bytes.
    pub fn begin_room(&mut self, bytes: u64) -> u32
        ensures { IsCalled (told of_work) (DoesBeginRoom bytes) self.old self.new result }
    {
        let answer = work_answer(self.store.begin_room(bytes));
        self.detail = answer.detail;
        answer.number
    }

    // Tells that no group is open, or that the disk has failed.
    fn refuse_abort(&mut self) -> u32
        ensures { DoesNothing (alone (no_group_in self.old)) self.old self.new result }
    {
        if self.store.is_broken() {
            return self.refuse(DISK_FAULT);
        }
        self.refuse(NO_GROUP)
    }

    // Gives up the open group. Where the files are not opened again there is no session any more.
    pub(crate) fn abort(self) -> Option<Box<Session>>
        requires unbroken { self.store.engine.broken ≡ false }
        requires open { IsSome self.store.engine.group }
        ensures some { IfSome result (λ session. IsGivenUp self session.value) }
        ensures none { IfNone result (IsLost self.store) }
    {
        let Session {
            alloc,
            store,
            taken,
            detail: _,
            pairs,
            staging,
            snapshot,
            pace,
        } = self;
        match store.abort() {
            Ok(store) => {
                let snapshot = brought_back(&store, snapshot);
                boxed(Session {
                    alloc,
                    store,
                    taken,
                    detail: Answer::done().detail,
                    pairs,
                    staging,
                    snapshot,
                    pace,
                })
            }
            Err((_, machine)) => {
                drop(machine);
                None
            }
        }
    }
}

// The snapshot, if there is one, of a store that went back to first ones of its commands.
pub(crate) fn brought_back(store: &Store<QueueMem>, snapshot: Option<Snapshot>) -> Option<Snapshot>
    ensures { BringsBack store.now snapshot result }
{
    match snapshot {
        Some(mut snapshot) => {
            store.bring_back(&mut snapshot);
            Some(snapshot)
        }
        None => None,
    }
}

// A session on the heap; none where no memory is left.
pub(crate) fn boxed(session: Session) -> Option<Box<Session>>
    ensures { IfSome result (λ it. it.value ≡ session) }
{
    let alloc = session.alloc;
    Box::new(alloc, session).ok()
}

// Puts a session behind a handle that is closed, and answers this; where there is none it stays closed.
pub(crate) fn put_again(redo: &mut Redo, session: Option<Box<Session>>, answer: u32) -> u32
    requires closed { session_of redo.old ≡ None }
    ensures { PutsBack session answer (session_of redo.new) result }
{
    match session {
        Some(session) => {
            redo.put_back(session);
            answer
        }
        None => DISK_FAULT,
    }
}

#[unsafe(no_mangle)]
pub extern "C" fn redo_core_begin_room(alloc: Global, redo: &mut Redo, bytes: u64) -> u32
    ensures { OnSession (Apart (IsCalled (told of_work) (DoesBeginRoom bytes))) (session_of redo.old) (session_of redo.new) result }
{
    match redo.take_apart(alloc) {
        Err(answer) => answer,
        Ok(mut session) => {
            let answer = session.begin_room(bytes);
            redo.put_back(session);
            answer
        }
    }
}

/// Gives up the open group: its commands are gone, and those before it are there, and durable. Where memory runs out for that, or the
/// machine fails, the session is dropped, the handle is closed and the answer is 5: then the files of C stand for the same commands.
#[unsafe(no_mangle)]
pub extern "C" fn redo_core_abort(alloc: Global, redo: &mut Redo) -> u32
    ensures { GivesUp (session_of redo.old) (session_of redo.new) result }
{
    let Some(mut session) = redo.take(alloc) else {
        return NOT_OPEN;
    };
    match session.store.group() {
        None => {
            let answer = session.refuse_abort();
            redo.put_back(session);
            answer
        }
        Some(_) => put_again(redo, Box::into_inner(session).abort(), 0),
    }
}
