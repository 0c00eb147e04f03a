// Upkeep in small pieces.
ghost use Rattle.embed_c.specs.Answers.{of_work, told};
ghost use Rattle.embed_c.specs.Calls.{IsCalled, TellsCount};
ghost use Rattle.embed_c.specs.Handles.{OnSession, session_of};
ghost use Rattle.embed_c.specs.Staging.{Apart};
ghost use Rattle.embed_c.specs.Upkept.{DoesTend, KeepsUp};

use crate::answer::{read_answer, work_answer};
use crate::handle::Redo;
use crate::session::{Session, put_count};
use std::alloc::Global;

const NOT_OPEN: u32 = 64;

impl Session {
    /// A turn of so many nodes at most, as the engine's `tend`. It says how many were installed.
    pub fn tend(&mut self, most: usize, installed: &mut u64) -> u32
        ensures { IsCalled (told of_work) (λ old new made. DoesTend most old new made × TellsCount made installed.new) self.old self.new result }
    {
        let made = self.store.tend(most);
        put_count(&made, installed);
        let answer = work_answer(made);
        self.detail = answer.detail;
        answer.number
    }

    /// Upkeep at a pace: at most one turn and one short trim, where they are due. In a group nothing is.
    pub fn keep_up(&mut self) -> u32
        ensures { KeepsUp self.old self.new result }
    {
        let answer = read_answer(self.store.keep_up(&mut self.pace));
        self.detail = answer.detail;
        answer.number
    }
}

#[unsafe(no_mangle)]
pub extern "C" fn redo_core_tend(
    alloc: Global,
    redo: &mut Redo,
    most: usize,
    installed: &mut u64,
) -> u32
    ensures { OnSession (IsCalled (told of_work) (λ old new made. DoesTend most old new made × TellsCount made installed.new)) (session_of redo.old) (session_of redo.new) result }
{
    match redo.take(alloc) {
        None => NOT_OPEN,
        Some(mut session) => {
            let answer = session.tend(most, installed);
            redo.put_back(session);
            answer
        }
    }
}

/// Upkeep at a pace, for a caller that makes this call after each of its commands. Within a transaction it is refused.
#[unsafe(no_mangle)]
pub extern "C" fn redo_core_keep_up(alloc: Global, redo: &mut Redo) -> u32
    ensures { OnSession (Apart KeepsUp) (session_of redo.old) (session_of redo.new) result }
{
    match redo.take_apart(alloc) {
        Err(answer) => answer,
        Ok(mut session) => {
            let answer = session.keep_up();
            redo.put_back(session);
            answer
        }
    }
}
